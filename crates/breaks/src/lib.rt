// The paragraph, on input that nothing refuses. Workshop parts: they ask what their callers meet.
#![tactic(auto)]

ghost use Rattle.paper.specs.Strips.{paragraph_strips};
ghost use Rattle.std.specs.Prelude.{◌≡◌, ◌-◌, length, get_or};
ghost use Rattle.paper_theory.specs.Ranges.{Ranges};
ghost use Rattle.breaks.specs.Choosing.{EndTaken, ChooseAsks, Chooses, SettleAsks, Settles};
ghost use Rattle.breaks.specs.Asks.{Summed, ShortAsks, ShortDone, LastAsks, Begun, StartsAsk, Starts, FillAsks, Filled, SetAsks, BreaksSet};

use lines::{Measure, measure_from, moved};
use paper::{Limits, Set, Unset};
use queue::reading::Reading;
use queue::{Queue, at_start};
use strips::{NONE, fill_sums, follow};

// The text that is set: its limits, the sums of its words, and the last sum, where a line to n+1 ends.
#[derive(Clone, Copy)]
struct Text<'a> {
    limits: Limits,
    sums: &'a [u32],
    last: u32,
    ghost summed: { Summed limits sums.now },
    ghost ends: { last ≡ get_or sums.now (length sums.now - 1) 0 },
}

// The best and the chosen next of a start that has a setting.
#[derive(Clone, Copy, Debug, PartialEq, Eq)]
pub struct Chosen {
    pub cost: u64,
    pub next: u32,
}

// What a start takes whose remaining words sum to `rest` and are, as one line, of at most lopt: n+1 at no cost. W-205: if they are shorter
// than lastmin it "has no setting".
fn by_end(l: Limits, rest: u32, end: u32) -> Option<Chosen>
    requires { Ranges l }
    ensures { EndTaken l rest end result }
{
    if rest < l.lastmin + l.space {
        return None;
    }
    Some(Chosen { cost: 0, next: end })
}

// "Then the start takes n+1 if Line(i, n+1) ≤ lopt; otherwise the front is the chooser; with an empty queue there is no setting." W-205:
// below the least last length "the front is no chooser".
// The words before the start have the sum given, a line to n+1 ends at `last`, the strip has n places, and the queue's cost is NONE exactly
// where it is empty.
fn choose(l: Limits, sum: u32, p: Measure, last: u32, queue: &[u32], q: Queue) -> Option<Chosen>
    requires { ChooseAsks l sum last queue.now q }
    ensures { Chooses l sum p.goal last queue.now q result }
{
    if last <= p.goal {
        return by_end(l, last - sum, (queue.len() + 1) as u32);
    }
    if q.cost == NONE {
        return None;
    }
    Some(Chosen {
        cost: q.cost,
        next: queue[q.front],
    })
}

// Writes the best and the chosen next of start i: "where there is no setting, best is 2^64 - 1 and next is 0".
fn settle(i: usize, chosen: Option<Chosen>, best: &mut [u64], next: &mut [u32])
    requires { SettleAsks i best.old next.old }
    ensures { Settles i chosen best.old next.old best.new next.new }
{
    let (cost, to) = match chosen {
        Some(taken) => (taken.cost, taken.next),
        None => (NONE, 0),
    };
    next[i - 1] = to;
    best[i - 1] = cost;
}

// The starts, from `from` down, whose rest, less the space, is shorter than `below`, which is at most lmin: no line is long enough for a
// rule to move, and all take the same. Answers the first that is not one of them.
fn short_starts(
    text: &Text,
    below: u32,
    taken: Option<Chosen>,
    from: usize,
    best: &mut [u64],
    next: &mut [u32],
) -> usize
    requires { ShortAsks text.now.limits below taken from text.now.sums.now best.old next.old }
    ensures { ShortDone text.now.limits below from text.now.sums.now best.new next.new result }
{
    let Text { limits, sums, last } = *text;
    let narrow = below + limits.space;
    for i in (1..=from).rev() {
        if narrow <= last - sums[i - 1] {
            return i;
        }
        settle(i, taken, best, next);
    }
    0
}

// The end, and the starts whose rest is shorter than lmin. W-205: below the least last length there is no setting; the others take n+1 at
// no cost. Answers the first start that is not one of them.
fn last_starts(text: &Text, best: &mut [u64], next: &mut [u32]) -> usize
    requires { LastAsks text.now.sums.now best.old next.old }
    ensures { Begun text.now.limits text.now.sums.now best.new next.new result }
{
    let n = text.sums.len() - 1;
    best[n] = 0;
    next[n] = 0;
    let lmin = text.limits.lmin;
    let from = short_starts(text, text.limits.lastmin.min(lmin), None, n, best, next);
    let free = Chosen {
        cost: 0,
        next: text.sums.len() as u32,
    };
    short_starts(text, lmin, Some(free), from, best, next)
}

// All starts, from n down to 1, on strips that are exactly long enough. Answers the number of moves.
//
// W-202: "A line's length becomes the sum less one space width": a line ends where its sum does and begins a space later, the first word's
// at the space. As measured, reading a start's sum again where the start is settled is faster than holding it until then. Not put into its
// caller, whose values would take registers from the loop.
#[inline(never)]
fn starts(
    text: &Text,
    best: &mut [u64],
    next: &mut [u32],
    queue: &mut [u32],
    moves: &mut [u32],
) -> usize
    requires { StartsAsk text.now.sums.now best.old next.old queue.old moves.old }
    ensures { Starts text.now.limits text.now.sums.now moves.old result best.new next.new moves.new }
{
    let Text {
        limits: l,
        sums,
        last,
    } = *text;
    let mut q = Queue {
        front: 0,
        end: 0,
        candidate: sums.len(),
        moves: 0,
        cost: NONE,
    };
    let first = measure_from(l, l.space);
    let begun = last_starts(text, best, next);
    'going_back: for i in (1..=begun).rev() {
        let p = moved(first, sums[i - 1]);
        let reading = Reading {
            limits: l,
            measure: p,
            ends: sums,
            best,
        };
        let at = at_start(reading, i, queue, q, &mut moves[q.moves..]);
        let chosen = choose(l, sums[i - 1], p, last, queue, at);
        settle(i, chosen, best, next);
        q = Queue {
            moves: q.moves + at.moves,
            ..at
        };
    }
    q.moves
}

// Every strip but the breaks. Only the parts used are lent, so the rest stays as it was. Answers the number of moves.
fn fill(
    l: Limits,
    lengths: &[u32],
    sums: &mut [u32],
    best: &mut [u64],
    next: &mut [u32],
    queue: &mut [u32],
    moves: &mut [u32],
) -> usize
    requires { FillAsks l lengths.now sums.old best.old next.old queue.old moves.old }
    ensures { Filled l lengths.now
        sums.old best.old next.old queue.old moves.old result
        sums.new best.new next.new queue.new moves.new }
{
    let n = lengths.len();
    fill_sums(lengths, sums);
    let filled = &sums[..n + 1];
    let text = Text {
        limits: l,
        sums: filled,
        last: filled[n],
    };
    let taken = starts(
        &text,
        &mut best[..n + 1],
        &mut next[..n + 1],
        &mut queue[..n],
        moves,
    );
    queue[..n].fill(0);
    taken
}

// Sets a paragraph that refusals 1 to 5 pass.
pub fn set(
    l: Limits,
    lengths: &[u32],
    sums: &mut [u32],
    best: &mut [u64],
    next: &mut [u32],
    queue: &mut [u32],
    moves: &mut [u32],
    breaks: &mut [u32],
) -> Result<Set, Unset>
    requires { SetAsks l lengths.now
        (paragraph_strips sums.old best.old next.old queue.old moves.old breaks.old) }
    ensures { BreaksSet l lengths.now
        (paragraph_strips sums.old best.old next.old queue.old moves.old
        breaks.old) result
        (paragraph_strips sums.new best.new next.new queue.new moves.new
        breaks.new) }
{
    let taken = fill(l, lengths, sums, best, next, queue, moves);
    let total = best[0];
    if total == NONE {
        return Err(Unset::None { moves: taken });
    }
    let lines = follow(next, 1, lengths.len(), 1, breaks);
    Ok(Set {
        total,
        lines,
        moves: taken,
    })
}
