// What the setters write to every strip alike: the sums, a move, the starts of a setting. Workshop parts: they ask what their callers meet.
#![tactic(auto)]

ghost use Rattle.std.specs.Prelude.{◌≡◌, set};
ghost use Rattle.laws.specs.Strip.{over};
ghost use Rattle.paper.specs.Moves.{code};
ghost use Rattle.paper.specs.Strips.{sums as sums_of};
ghost use Rattle.strips.specs.Asks.{SumsAsk, MoveAsk, FollowAsk, Followed};
ghost use Rattle.strips.specs.Chain.{chain};

use paper::Move;

// "No setting" in the best strip: above every number.
pub const NONE: u64 = u64::MAX;

// Entry k of sums becomes the total of the first k lengths, for k from 0 to n.
pub fn fill_sums(lengths: &[u32], sums: &mut [u32])
    requires { SumsAsk lengths.now sums.old }
    ensures { sums.new ≡ over (sums_of lengths.now) sums.old }
{
    let mut total: u32 = 0;
    sums[0] = 0;
    for (k, length) in lengths.iter().enumerate() {
        total += length;
        sums[k + 1] = total;
    }
}

// Writes a move to its place in the moves strip, coded as a number.
pub fn put(moves: &mut [u32], at: usize, m: Move)
    requires { MoveAsk moves.old at m }
    ensures { moves.new ≡ set moves.old at (code m) }
{
    moves[at] = 8 * m.index + m.kind as u32;
}

// The starts that the nexts lead to from `first` on, up to n, go to the answer strip. Answers their number. The entry for start k stands
// at k - offset.
pub fn follow(next: &[u32], offset: usize, n: usize, first: usize, answer: &mut [u32]) -> usize
    requires { FollowAsk next.now offset n first answer.old }
    ensures { Followed (chain next.now offset n first) answer.old answer.new result }
{
    let mut at = first;
    for (found, entry) in answer.iter_mut().enumerate() {
        if n < at {
            return found;
        }
        *entry = at as u32;
        at = next[at - offset] as usize;
    }
    answer.len()
}
