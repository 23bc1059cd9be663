// The index engine of document 01: one pass over the starts. Workshop parts: they ask what their callers meet.
#![tactic(auto)]

ghost use Rattle.paper.specs.Strips.{index_strips};
ghost use Rattle.strips.specs.Words.{words_of};
ghost use Rattle.pages.specs.Asks.{pointer_strips, PageStartsAsk, PageStarts, PageFillAsk, PageFilled, PageAsk, Paged};

use paper::{PageLimits, Set, Unset};
use pointer::start::Start;
use strips::{NONE, fill_sums, follow};

// "At start i, from n down to 0", on strips of just the entries used. Answers the number of moves. Not put into its caller, whose values
// would take registers from the loop.
#[inline(never)]
fn starts(
    l: PageLimits,
    sums: &[u32],
    best: &mut [u64],
    next: &mut [u32],
    left: &mut [u32],
    right: &mut [u32],
    moves: &mut [u32],
) -> usize
    requires { PageStartsAsk l sums.now (pointer_strips best.old next.old left.old right.old moves.old) }
    ensures { PageStarts l (words_of sums.now) moves.old
        result (pointer_strips best.new next.new left.new right.new moves.new) }
{
    let end = sums.len();
    left.fill(0);
    right.fill(0);
    best[end] = 0;
    next[end] = 0;
    let mut r = end;
    let mut taken = 0;
    for i in (0..end).rev() {
        let start = Start::new(l, i, sums);
        let came = start.apply(best, next, left, right, r, &mut moves[taken..]);
        r = came.at;
        taken += came.moves;
    }
    taken
}

// Every strip but the boundaries. Only the parts used are lent, so the rest stays as it was. Answers the number of moves.
fn fill(
    l: PageLimits,
    lengths: &[u32],
    sums: &mut [u32],
    best: &mut [u64],
    next: &mut [u32],
    left: &mut [u32],
    right: &mut [u32],
    moves: &mut [u32],
) -> usize
    requires { PageFillAsk l lengths.now sums.old (pointer_strips best.old next.old left.old right.old moves.old) }
    ensures { PageFilled l lengths.now
        sums.old
        (pointer_strips best.old next.old left.old right.old moves.old)
        result sums.new
        (pointer_strips best.new next.new left.new right.new moves.new) }
{
    let n = lengths.len();
    fill_sums(lengths, sums);
    starts(
        l,
        &sums[..n + 1],
        &mut best[..n + 2],
        &mut next[..n + 2],
        &mut left[..n + 2],
        &mut right[..n + 2],
        moves,
    )
}

// The setting of a list that nothing refuses.
pub fn page(
    l: PageLimits,
    lengths: &[u32],
    sums: &mut [u32],
    best: &mut [u64],
    next: &mut [u32],
    left: &mut [u32],
    right: &mut [u32],
    moves: &mut [u32],
    boundaries: &mut [u32],
) -> Result<Set, Unset>
    requires { PageAsk l lengths.now
        (index_strips sums.old best.old next.old left.old right.old moves.old boundaries.old) }
    ensures { Paged l lengths.now
        (index_strips sums.old best.old next.old left.old right.old
        moves.old boundaries.old)
        result
        (index_strips sums.new best.new next.new left.new right.new
        moves.new boundaries.new) }
{
    let taken = fill(l, lengths, sums, best, next, left, right, moves);
    let total = best[0];
    if total == NONE {
        return Err(Unset::None { moves: taken });
    }
    let found = follow(next, 0, lengths.len(), next[0] as usize, boundaries);
    Ok(Set {
        total,
        lines: found,
        moves: taken,
    })
}
