// The listing of a job as bytes in a lent buffer: document 01, "Job file and listing". No function that is exported asks anything of its
// caller.
#![tactic(auto)]

mod answer;
mod heading;
mod refusal;
mod starts;
mod text;
mod whole;

ghost use Rattle.listing.specs.Listing.{listing_of};
ghost use Rattle.listing.specs.Promise.{bytes_outcome};
ghost use Rattle.laws.specs.Outcome.{Promise, Is};

use answer::list_asked;
use job::read;
use refusal::told_job;
use whole::whole;

// The buffer is too short for a listing of so many bytes, and unchanged.
#[derive(Clone, Copy, Debug, PartialEq, Eq)]
pub struct Short {
    pub bytes: usize,
}

// Lists a job: reads it, sets what it asks for, and writes the listing of the setting or of the refusal. The listing's bytes stand at the
// front of the buffer, so many of them.
pub fn list(job: &[u8], out: &mut [u8]) -> Result<usize, Short>
    ensures { Promise Is (bytes_outcome (listing_of job.now) out.old) result out.new }
{
    let mut lengths = [0u32; 4096];
    let answer = read(job, &mut lengths);
    let Ok(given) = answer else {
        return whole(&told_job(answer), out);
    };
    list_asked(given.limits.asked, &lengths[..given.n], out)
}
