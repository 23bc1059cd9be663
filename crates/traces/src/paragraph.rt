// A paragraph, with all its strips, and the penalties of lines as long as its words.
ghost use Rattle.std.specs.Prelude.{◌≤◌, length};

use crate::print;
use capi::{hathurmo_penalty, hathurmo_set_paragraph};
use paper::Limits;

// Prints what is told of the penalty of a line of each length, asked for alone.
pub fn penalties(l: Limits, lengths: &[u32]) {
    for length in lengths {
        print::told(hathurmo_penalty(l, *length));
    }
}

// Sets a paragraph of up to 12 words in strips whose entries are all 7, and prints of each 2 entries more than 01 asks for.
pub fn trace(l: Limits, lengths: &[u32])
    requires { length lengths.now ≤ 12 }
{
    let n = lengths.len();
    let mut sums = [7u32; 15];
    let mut best = [7u64; 15];
    let mut next = [7u32; 15];
    let mut queue = [7u32; 14];
    let mut moves = [7u32; 26];
    let mut breaks = [7u32; 14];
    let told = hathurmo_set_paragraph(
        l,
        lengths,
        &mut sums,
        &mut best,
        &mut next,
        &mut queue,
        &mut moves,
        &mut breaks,
    );
    print::strip("sums:", &sums[..n + 3]);
    print::strip("best:", &best[..n + 3]);
    print::strip("next:", &next[..n + 3]);
    print::strip("queue:", &queue[..n + 2]);
    print::strip("moves:", &moves[..2 * n + 2]);
    print::strip("breaks:", &breaks[..n + 2]);
    print::told(told);
}
