// The pointer rules of document 01, a start at a time. Workshop parts: they ask what their callers meet.
#![tactic(auto)]

ghost use Rattle.std.specs.Prelude.{◌≡◌};
ghost use Rattle.paper.specs.Index.{item};

use paper::{Kind, Move};
use strips::NONE;

pub mod moves;
pub mod start;

use moves::Moves;
use start::Start;

// What r came to at a start, and how many moves that took.
#[derive(Clone, Copy, Debug, PartialEq, Eq)]
pub struct Came {
    pub at: usize,
    pub moves: usize,
}

impl Start<'_> {
    ghost use Rattle.pointer.specs.Taking.{Took};
    ghost use Rattle.pointer.specs.Asks.{stepping, jumping, pointing_from, StepsAsk, JumpAsk, JumpsAsk, CanJump};

    // "Step r to r-1 while Gap(i, r) > lmax". Answers what r came to.
    fn steps(&self, r: usize, moves: &mut Moves) -> usize
        requires { StepsAsk (stepping self.now r) self.now r moves.old }
        ensures { Took (stepping self.now r) moves.old moves.new result }
    {
        let mut at = r;
        while self.sums[at - 1] > self.far {
            at -= 1;
            moves.put(Move {
                kind: Kind::Step,
                index: at as u32,
            });
        }
        at
    }

    // Where r jumps: to its left entry, if "it has one and Gap(i, that entry) ≥ lmin".
    fn jump(&self, left: &[u32], r: usize) -> Option<usize>
        requires { JumpAsk self.now left.now r }
        ensures { CanJump self.now left.now r result }
    {
        let to = left[r] as usize;
        if to == 0 {
            return None;
        }
        if self.sums[to - 1] < self.near {
            return None;
        }
        Some(to)
    }

    // "Jump r to its left entry while" it can. Answers what r came to.
    fn jumps(&self, left: &[u32], r: usize, moves: &mut Moves) -> usize
        requires { JumpsAsk (jumping self.now left.now r) self.now left.now r moves.old }
        ensures { Took (jumping self.now left.now r) moves.old moves.new result }
    {
        let mut at = r;
        while let Some(to) = self.jump(left, at) {
            moves.put(Move {
                kind: Kind::Jump,
                index: to as u32,
            });
            at = to;
        }
        at
    }

    // The steps, then the jumps.
    fn point(&self, left: &[u32], r: usize, moves: &mut Moves) -> usize
        requires { JumpsAsk (pointing_from self.now left.now r) self.now left.now r moves.old }
        ensures { Took (pointing_from self.now left.now r) moves.old moves.new result }
    {
        let stepped = self.steps(r, moves);
        self.jumps(left, stepped, moves)
    }
}

impl Start<'_> {
    ghost use Rattle.pointer.specs.Asks.{LinksAsk, LinksCame, JoinAsk, JoinCame};

    // "from k = i+1, while best k > best i, Link k (its left becomes i) and go on at the right of k": cost is the best of
    // the start. Answers the k reached.
    fn links(
        &self,
        cost: u64,
        best: &[u64],
        left: &mut [u32],
        right: &[u32],
        moves: &mut Moves,
    ) -> usize
        requires { LinksAsk self.now cost best.now left.old right.now moves.old }
        ensures { LinksCame self.now best.now left.old right.now moves.old result left.new moves.new }
    {
        let mut k = self.i + 1;
        while best[k] > cost {
            left[k] = self.i as u32;
            moves.put(Move {
                kind: Kind::Link,
                index: k as u32,
            });
            k = right[k] as usize;
        }
        k
    }

    // "Then, for i ≥ 1 only": the links, and "the k reached becomes the right of i".
    fn join(&self, cost: u64, best: &[u64], left: &mut [u32], right: &mut [u32], moves: &mut Moves)
        requires { JoinAsk self.now cost best.now left.old right.old moves.old }
        ensures { JoinCame self.now left.old right.old moves.old left.new right.new moves.new }
    {
        if self.i == 0 {
            return;
        }
        let reached = self.links(cost, best, left, right, moves);
        right[self.i] = reached as u32;
    }
}

impl Start<'_> {
    ghost use Rattle.pointer.specs.Asks.{text_of, start_strips, ChoiceAsk, Chosen, PointerSettleAsk, PointerSettled};
    ghost use Rattle.pointer.specs.Asks.{ApplyAsk, Applied};

    // The length that the start counts: nothing for 0.
    fn own(&self) -> u64
        ensures { result ≡ item (text_of self.now) self.now.i }
    {
        if self.i == 0 {
            0
        } else {
            u64::from(self.sums[self.i] - self.sums[self.i - 1])
        }
    }

    // The best of the start, whose rules came to r: "r is the chooser if Gap(i, r) lies in lmin..lmax and r has a setting, else i has
    // none". The steps left Gap(i, r) within lmax.
    fn choice(&self, best: &[u64], r: usize) -> Option<u64>
        requires { ChoiceAsk self.now best.now r }
        ensures { Chosen self.now r result }
    {
        let b = best[r];
        if b == NONE {
            return None;
        }
        if self.sums[r - 1] < self.near {
            return None;
        }
        Some(self.own() + b)
    }

    // Enters the best of the start and its chosen next. Answers the best as it is entered.
    fn settle(&self, best: &mut [u64], next: &mut [u32], r: usize) -> u64
        requires { PointerSettleAsk self.now best.old next.old r }
        ensures { PointerSettled self.now best.old next.old result best.new next.new }
    {
        let Some(total) = self.choice(best, r) else {
            best[self.i] = NONE;
            next[self.i] = 0;
            return NONE;
        };
        best[self.i] = total;
        next[self.i] = r as u32;
        total
    }

    // The pointer, the choice, the links of one start, which is lent the moves strip from the present count on.
    // The moves in the answer are its own.
    pub fn apply(
        &self,
        best: &mut [u64],
        next: &mut [u32],
        left: &mut [u32],
        right: &mut [u32],
        r: usize,
        strip: &mut [u32],
    ) -> Came
        requires { ApplyAsk self.now r (start_strips best.old next.old left.old right.old) strip.old }
        ensures { Applied self.now r (start_strips best.old next.old left.old right.old) strip.old
            result (start_strips best.new next.new left.new right.new) strip.new }
    {
        let mut moves = Moves { strip, taken: 0 };
        let at = self.point(left, r, &mut moves);
        let cost = self.settle(best, next, at);
        self.join(cost, best, left, right, &mut moves);
        Came {
            at,
            moves: moves.taken,
        }
    }
}
