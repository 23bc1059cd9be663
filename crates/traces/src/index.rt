// An index, with all its strips.
ghost use Rattle.std.specs.Prelude.{◌≤◌, length};

use crate::print;
use capi::hathurmo_set_index;
use paper::PageLimits;

// Sets an index of up to 12 items in strips whose entries are all 7, and prints of each 2 entries more than 01 asks for.
pub fn trace(l: PageLimits, lengths: &[u32])
    requires { length lengths.now ≤ 12 }
{
    let n = lengths.len();
    let mut sums = [7u32; 15];
    let mut best = [7u64; 16];
    let mut next = [7u32; 16];
    let mut left = [7u32; 16];
    let mut right = [7u32; 16];
    let mut moves = [7u32; 26];
    let mut boundaries = [7u32; 14];
    let told = hathurmo_set_index(
        l,
        lengths,
        &mut sums,
        &mut best,
        &mut next,
        &mut left,
        &mut right,
        &mut moves,
        &mut boundaries,
    );
    print::strip("sums:", &sums[..n + 3]);
    print::strip("best:", &best[..n + 4]);
    print::strip("next:", &next[..n + 4]);
    print::strip("left:", &left[..n + 4]);
    print::strip("right:", &right[..n + 4]);
    print::strip("moves:", &moves[..2 * n + 2]);
    print::strip("boundaries:", &boundaries[..n + 2]);
    print::told(told);
}
