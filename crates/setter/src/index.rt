// The index.
ghost use Rattle.paper.specs.Strips.{index_strips, index_outcome};
ghost use Rattle.setter.specs.Promise.{IndexPromise};

use pages::page;
use paper::{PageLimits, Set, Unset};
use refusals::check;

// Pages a list at least key total, or says why not. Strips in 01's order; a larger strip is accepted.
pub fn set_index(
    l: PageLimits,
    lengths: &[u32],
    sums: &mut [u32],
    best: &mut [u64],
    next: &mut [u32],
    left: &mut [u32],
    right: &mut [u32],
    moves: &mut [u32],
    boundaries: &mut [u32],
) -> Result<Set, Unset>
    ensures { IndexPromise
        (index_outcome l lengths.now (index_strips sums.old best.old next.old
        left.old right.old moves.old boundaries.old))
        result (index_strips sums.new best.new next.new
        left.new right.new moves.new boundaries.new) }
{
    let n = lengths.len();
    // what each strip has and needs
    let rooms = [
        (sums.len(), n + 1),
        (best.len(), n + 2),
        (next.len(), n + 2),
        (left.len(), n + 2),
        (right.len(), n + 2),
        (moves.len(), 2 * n),
        (boundaries.len(), n),
    ];
    check(l, lengths, &rooms)?;
    page(l, lengths, sums, best, next, left, right, moves, boundaries)
}
