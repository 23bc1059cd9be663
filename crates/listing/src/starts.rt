// The rows of a setting's starts: a paragraph's lines, an index's boundaries.
ghost use Rattle.std.specs.Prelude.{◌≡◌, ◌+◌, ◌<◌, length, get_or};
ghost use Rattle.rows.specs.Writes.{Writes};
ghost use Rattle.listing.specs.Listing.{start_row, start_rows};
ghost use Rattle.listing.specs.Asks.{LineAsks, LineIs, SegmentAsks, SegmentsAsk};

use crate::text::Text;
use job::Asked;
use lines::{line_length, penalty};
use paper::Limits;
use rows::Rows;

// A line's length, and what it costs.
#[derive(Clone, Copy, Debug, PartialEq, Eq)]
struct LineRow {
    length: u64,
    cost: u64,
}

// Of the line from i to j.
fn measured(l: Limits, lengths: &[u32], sums: &[u32], i: usize, j: usize) -> LineRow
    requires { LineAsks l lengths.now sums.now i j }
    ensures { LineIs l lengths.now i j result }
{
    let x = line_length(l, sums, i, j);
    if j == lengths.len() + 1 && x <= l.lopt {
        return LineRow {
            length: u64::from(x),
            cost: 0,
        };
    }
    LineRow {
        length: u64::from(x),
        cost: penalty(l, x),
    }
}

// The start after the k-th, or the end.
fn next_start(starts: &[u32], k: usize, end: usize) -> usize
    requires { k < length starts.now }
    ensures { result ≡ get_or starts.now (k + 1) end }
{
    match starts.get(k + 1) {
        Some(next) => *next as usize,
        None => end,
    }
}

impl Text<'_> {
    // Puts the row of the start i, whose next is j.
    fn start_row(&self, i: usize, j: usize, rows: &mut Rows)
        requires { SegmentAsks self.now.asked self.now.lengths.now i j rows.old.at }
        ensures { Writes (start_row self.now.asked self.now.lengths.now i j) rows.old rows.new }
    {
        match self.asked {
            Asked::Paragraph(l) => {
                let m = measured(l, self.lengths, self.sums, i, j);
                rows.numbered(i as u64, &[m.length, m.cost])
            }
            Asked::Index(_) => rows.numbered(i as u64, &[u64::from(self.lengths[i - 1])]),
        }
    }

    // Puts the rows of all starts.
    pub fn start_rows(&self, starts: &[u32], rows: &mut Rows)
        requires { SegmentsAsk self.now.asked self.now.lengths.now starts.now rows.old.at }
        ensures { Writes (start_rows self.now.asked self.now.lengths.now starts.now) rows.old rows.new }
    {
        let end = self.lengths.len() + 1;
        for (k, start) in starts.iter().enumerate() {
            let j = next_start(starts, k, end);
            self.start_row(*start as usize, j, rows);
        }
    }
}
