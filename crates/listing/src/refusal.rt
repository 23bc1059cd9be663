// The row of a refusal.
ghost use Rattle.job.specs.Promise.{told_job};
ghost use Rattle.listing.specs.Listing.{refused as refused_row};
ghost use Rattle.refusals.specs.Tells.{Tells};

use crate::whole::Put;
use job::Job;
use paper::Refusal;
use refusals::Reason;
use rows::Rows;

// Of the reader's answer; 0 where the job is read.
pub fn told_job(j: Result<Job, Refusal>) -> Reason
    ensures { Tells (told_job j).number (told_job j).place result }
{
    match j {
        Ok(_) => Reason {
            number: 0,
            place: 0,
        },
        Err(r) => Reason::from(r),
    }
}

impl Put for Reason {
    ghost bytes = { λ r. refused_row r.number r.place };

    fn put(&self, out: &mut [u8]) -> usize {
        let Reason { number, place } = *self;
        let numbers = [u64::from(number), place as u64];
        let mut rows = Rows { out, at: 0 };
        rows.named(b"refused", &numbers);
        rows.at
    }
}
