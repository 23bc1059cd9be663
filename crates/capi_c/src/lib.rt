// The exports of capi for callers in C, each with capi's own promise. A slice is a pointer and then a length.
#![tactic(auto)]

ghost use Rattle.std.specs.Prelude.{◌≡◌};
ghost use Rattle.paper.specs.Strips.{paragraph_strips, paragraph_outcome, index_strips, index_outcome};
ghost use Rattle.paper.specs.Told.{told_penalty, penalty_alone};
ghost use Rattle.job.specs.Reader.{read_outcome};
ghost use Rattle.capi.specs.Promise.{in_numbers, NumbersPromise, JobNumbersPromise};

use capi::{JobNumbers, Numbers};
use paper::{Limits, PageLimits};

#[unsafe(no_mangle)]
pub extern "C" fn hathurmo_set_paragraph(
    limits: Limits,
    lengths: &[u32],
    sums: &mut [u32],
    best: &mut [u64],
    next: &mut [u32],
    queue: &mut [u32],
    moves: &mut [u32],
    breaks: &mut [u32],
) -> Numbers
    ensures { NumbersPromise
        (paragraph_outcome limits lengths.now (paragraph_strips sums.old best.old next.old
        queue.old moves.old breaks.old))
        result (paragraph_strips sums.new best.new next.new
        queue.new moves.new breaks.new) }
{
    capi::hathurmo_set_paragraph(limits, lengths, sums, best, next, queue, moves, breaks)
}

#[unsafe(no_mangle)]
pub extern "C" fn hathurmo_set_index(
    limits: PageLimits,
    lengths: &[u32],
    sums: &mut [u32],
    best: &mut [u64],
    next: &mut [u32],
    left: &mut [u32],
    right: &mut [u32],
    moves: &mut [u32],
    boundaries: &mut [u32],
) -> Numbers
    ensures { NumbersPromise
        (index_outcome limits lengths.now (index_strips sums.old best.old next.old
        left.old right.old moves.old boundaries.old))
        result (index_strips sums.new best.new next.new
        left.new right.new moves.new boundaries.new) }
{
    capi::hathurmo_set_index(
        limits, lengths, sums, best, next, left, right, moves, boundaries,
    )
}

#[unsafe(no_mangle)]
pub extern "C" fn hathurmo_penalty(limits: Limits, length: u32) -> Numbers
    ensures { result ≡ in_numbers (told_penalty (penalty_alone limits length)) }
{
    capi::hathurmo_penalty(limits, length)
}

#[unsafe(no_mangle)]
pub extern "C" fn hathurmo_read_job(job: &[u8], lengths: &mut [u32]) -> JobNumbers
    ensures { JobNumbersPromise (read_outcome job.now lengths.old) result lengths.new }
{
    capi::hathurmo_read_job(job, lengths)
}
