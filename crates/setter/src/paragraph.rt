// The paragraph, and the penalty of one line alone.
ghost use Rattle.paper.specs.Strips.{paragraph_strips, paragraph_outcome};
ghost use Rattle.paper.specs.Told.{penalty_alone};
ghost use Rattle.setter.specs.Promise.{ParagraphPromise, PenaltyPromise};

use breaks::set;
use lines::penalty;
use paper::{Limits, Refusal, Set, Unset};
use refusals::{Allowed, check};

// Sets a paragraph at least penalty, or says why not. Strips in 01's order; a larger strip is accepted.
pub fn set_paragraph(
    l: Limits,
    lengths: &[u32],
    sums: &mut [u32],
    best: &mut [u64],
    next: &mut [u32],
    queue: &mut [u32],
    moves: &mut [u32],
    breaks: &mut [u32],
) -> Result<Set, Unset>
    ensures { ParagraphPromise
        (paragraph_outcome l lengths.now (paragraph_strips sums.old best.old next.old
        queue.old moves.old breaks.old))
        result (paragraph_strips sums.new best.new next.new
        queue.new moves.new breaks.new) }
{
    let n = lengths.len();
    // what each strip has and needs
    let rooms = [
        (sums.len(), n + 1),
        (best.len(), n + 1),
        (next.len(), n + 1),
        (queue.len(), n),
        (moves.len(), 2 * n),
        (breaks.len(), n),
    ];
    check(l, lengths, &rooms)?;
    set(l, lengths, sums, best, next, queue, moves, breaks)
}

// 01: "one length from 0 to 16,773,120"
const MOST_ALONE: u32 = 16773120;

// The penalty of a line of one length, asked for alone: outside the measure there is none (W-204). The space is off that length already.
pub fn penalty_alone(l: Limits, length: u32) -> Result<Option<u64>, Refusal>
    ensures { PenaltyPromise (penalty_alone l length) result }
{
    if !l.hold() {
        return Err(Refusal::Limits);
    }
    if MOST_ALONE < length {
        return Err(Refusal::Length(0));
    }
    if length < l.lmin || l.lmax < length {
        return Ok(None);
    }
    Ok(Some(penalty(l, length)))
}
