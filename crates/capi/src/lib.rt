// The engine for callers in C and Rust. An enum cannot cross, so an answer is told as 01's numbers in a struct. The crate capi_c exports
// these functions to C.
#![tactic(auto)]

ghost use Rattle.std.specs.Prelude.{◌≡◌};
ghost use Rattle.paper.specs.Strips.{paragraph_strips, paragraph_outcome, index_strips, index_outcome};
ghost use Rattle.paper.specs.Told.{told, told_refusal, told_penalty, penalty_alone};
ghost use Rattle.job.specs.Reader.{read_outcome};
ghost use Rattle.job.specs.Promise.{told_job, told_limits};
ghost use Rattle.capi.specs.Promise.{in_numbers, in_job_numbers, NumbersPromise, JobNumbersPromise};

use job::{Asked, Job, read};
use paper::{Limits, PageLimits, Refusal, Set, Unset};
use refusals::Reason;
use setter::{penalty_alone, set_index, set_paragraph};

// 01's number (0 where something is set), place, total, lines and moves.
#[repr(C)]
#[derive(Clone, Copy, Debug, Default, PartialEq, Eq)]
pub struct Numbers {
    pub number: u32,
    pub place: u64,
    pub total: u64,
    pub lines: u64,
    pub moves: u64,
}

// 01's number and place, the first count, the limits, and n.
#[repr(C)]
#[derive(Clone, Copy, Debug, Default, PartialEq, Eq)]
pub struct JobNumbers {
    pub number: u32,
    pub place: u64,
    pub count: u32,
    pub lmin: u32,
    pub lopt: u32,
    pub lmax: u32,
    pub a: u32,
    pub space: u32,
    pub n: u64,
}

// The total that is told of a line outside the measure: 2^64 - 1, "no setting".
const OUTSIDE: u64 = u64::MAX;

impl From<Refusal> for Numbers {
    ghost from_gives = { λ r t. t ≡ in_numbers (told_refusal r) };

    fn from(r: Refusal) -> Numbers {
        let t = Reason::from(r);
        Numbers {
            number: t.number,
            place: t.place as u64,
            ..Numbers::default()
        }
    }
}

impl From<Result<Set, Unset>> for Numbers {
    ghost from_gives = { λ a t. t ≡ in_numbers (told a) };

    #[tactic(auto, unfolding(paper::specs::Told::told))]
    fn from(a: Result<Set, Unset>) -> Numbers {
        match a {
            Ok(set) => Numbers {
                total: set.total,
                lines: set.lines as u64,
                moves: set.moves as u64,
                ..Numbers::default()
            },
            Err(Unset::None { moves }) => Numbers {
                number: 6,
                moves: moves as u64,
                ..Numbers::default()
            },
            Err(Unset::Refused(r)) => Numbers::from(r),
        }
    }
}

impl From<Result<Option<u64>, Refusal>> for Numbers {
    ghost from_gives = { λ p t. t ≡ in_numbers (told_penalty p) };

    #[tactic(auto, unfolding(paper::specs::Told::told_penalty))]
    fn from(p: Result<Option<u64>, Refusal>) -> Numbers {
        match p {
            Ok(Some(penalty)) => Numbers {
                total: penalty,
                ..Numbers::default()
            },
            Ok(None) => Numbers {
                total: OUTSIDE,
                ..Numbers::default()
            },
            Err(r) => Numbers::from(r),
        }
    }
}

impl From<Job> for JobNumbers {
    ghost from_gives = { λ job t. t ≡ in_job_numbers (told_limits job.limits.count job.limits.asked job.n) };

    fn from(job: Job) -> JobNumbers {
        let count = job.limits.count;
        let n = job.n as u64;
        match job.limits.asked {
            Asked::Paragraph(l) => JobNumbers {
                count,
                lmin: l.lmin,
                lopt: l.lopt,
                lmax: l.lmax,
                a: l.a,
                space: l.space,
                n,
                ..JobNumbers::default()
            },
            Asked::Index(l) => JobNumbers {
                count,
                lmin: l.lmin,
                lmax: l.lmax,
                n,
                ..JobNumbers::default()
            },
        }
    }
}

impl From<Result<Job, Refusal>> for JobNumbers {
    ghost from_gives = { λ j t. t ≡ in_job_numbers (told_job j) };

    #[tactic(auto, unfolding(job::specs::Promise::told_job))]
    fn from(j: Result<Job, Refusal>) -> JobNumbers {
        match j {
            Ok(job) => JobNumbers::from(job),
            Err(r) => {
                let t = Numbers::from(r);
                JobNumbers {
                    number: t.number,
                    place: t.place,
                    ..JobNumbers::default()
                }
            }
        }
    }
}

pub fn hathurmo_set_paragraph(
    limits: Limits,
    lengths: &[u32],
    sums: &mut [u32],
    best: &mut [u64],
    next: &mut [u32],
    queue: &mut [u32],
    moves: &mut [u32],
    breaks: &mut [u32],
) -> Numbers
    ensures { NumbersPromise
        (paragraph_outcome limits lengths.now (paragraph_strips sums.old best.old next.old
        queue.old moves.old breaks.old))
        result (paragraph_strips sums.new best.new next.new
        queue.new moves.new breaks.new) }
{
    Numbers::from(set_paragraph(limits, lengths, sums, best, next, queue, moves, breaks))
}

pub fn hathurmo_set_index(
    limits: PageLimits,
    lengths: &[u32],
    sums: &mut [u32],
    best: &mut [u64],
    next: &mut [u32],
    left: &mut [u32],
    right: &mut [u32],
    moves: &mut [u32],
    boundaries: &mut [u32],
) -> Numbers
    ensures { NumbersPromise
        (index_outcome limits lengths.now (index_strips sums.old best.old next.old
        left.old right.old moves.old boundaries.old))
        result (index_strips sums.new best.new next.new
        left.new right.new moves.new boundaries.new) }
{
    Numbers::from(set_index(
        limits, lengths, sums, best, next, left, right, moves, boundaries,
    ))
}

pub fn hathurmo_penalty(limits: Limits, length: u32) -> Numbers
    ensures { result ≡ in_numbers (told_penalty (penalty_alone limits length)) }
{
    Numbers::from(penalty_alone(limits, length))
}

pub fn hathurmo_read_job(job: &[u8], lengths: &mut [u32]) -> JobNumbers
    ensures { JobNumbersPromise (read_outcome job.now lengths.old) result lengths.new }
{
    JobNumbers::from(read(job, lengths))
}
