// The listing of a paragraph and of an index: what the setter answers, listed.
ghost use Rattle.job.specs.declared.Asked.TheVariants.{Paragraph, Index};
ghost use Rattle.laws.specs.Outcome.{Promise, Is};
ghost use Rattle.listing.specs.Listing.{set_rows, asked_listing};
ghost use Rattle.listing.specs.Asks.{RowsAsk, Answered};
ghost use Rattle.listing.specs.Promise.{bytes_outcome};

use crate::Short;
use crate::heading::head;
use crate::text::Text;
use crate::whole::{Put, whole};
use job::Asked;
use paper::{Limits, PageLimits, Set, Unset};
use refusals::Reason;
use rows::Rows;
use setter::{set_index, set_paragraph};

// The rows of a setting.
#[derive(Clone, Copy)]
struct SetRows<'a> {
    text: Text<'a>,
    starts: &'a [u32],
    total: u64,
    moves: usize,
    ghost asks: { RowsAsk text.asked text.lengths.now starts.now total moves },
}

impl Put for SetRows<'_> {
    ghost bytes = { λ s. set_rows s.text.asked s.text.lengths.now s.starts.now s.total s.moves };

    fn put(&self, out: &mut [u8]) -> usize {
        let mut rows = Rows { out, at: 0 };
        head(
            &mut rows,
            self.text.asked,
            self.text.lengths.len(),
            self.total,
            self.starts.len(),
        );
        self.text.start_rows(self.starts, &mut rows);
        rows.named(b"moves", &[self.moves as u64]);
        rows.at
    }
}

// Lists the setting, or the refusal.
fn list_answer<'a>(
    asked: Asked,
    lengths: &'a [u32],
    sums: &'a [u32],
    starts: &'a [u32],
    answer: Result<Set, Unset>,
    out: &mut [u8],
) -> Result<usize, Short>
    requires { Answered asked lengths.now sums.now starts.now answer }
    ensures { Promise Is
        (bytes_outcome (asked_listing asked lengths.now) out.old)
        result out.new }
{
    match answer {
        Ok(set) => {
            let n = lengths.len();
            let text = Text {
                asked,
                lengths,
                sums: &sums[..n + 1],
            };
            let rows = SetRows {
                text,
                starts: &starts[..set.lines],
                total: set.total,
                moves: set.moves,
            };
            whole(&rows, out)
        }
        Err(Unset::None { moves: _ }) => {
            let none = Reason {
                number: 6,
                place: 0,
            };
            whole(&none, out)
        }
        Err(Unset::Refused(r)) => whole(&Reason::from(r), out),
    }
}

// Lists a paragraph.
fn list_paragraph(l: Limits, lengths: &[u32], out: &mut [u8]) -> Result<usize, Short>
    ensures { Promise Is
        (bytes_outcome (asked_listing (Paragraph l) lengths.now) out.old)
        result out.new }
{
    let mut sums = [0u32; 4097];
    let mut best = [0u64; 4097];
    let mut next = [0u32; 4097];
    let mut queue = [0u32; 4096];
    let mut moves = [0u32; 8192];
    let mut breaks = [0u32; 4096];
    let answer = set_paragraph(
        l,
        lengths,
        &mut sums,
        &mut best,
        &mut next,
        &mut queue,
        &mut moves,
        &mut breaks,
    );
    list_answer(Asked::Paragraph(l), lengths, &sums, &breaks, answer, out)
}

// Lists an index.
fn list_index(l: PageLimits, lengths: &[u32], out: &mut [u8]) -> Result<usize, Short>
    ensures { Promise Is
        (bytes_outcome (asked_listing (Index l) lengths.now) out.old)
        result out.new }
{
    let mut sums = [0u32; 4097];
    let mut best = [0u64; 4098];
    let mut next = [0u32; 4098];
    let mut left = [0u32; 4098];
    let mut right = [0u32; 4098];
    let mut moves = [0u32; 8192];
    let mut boundaries = [0u32; 4096];
    let answer = set_index(
        l,
        lengths,
        &mut sums,
        &mut best,
        &mut next,
        &mut left,
        &mut right,
        &mut moves,
        &mut boundaries,
    );
    list_answer(Asked::Index(l), lengths, &sums, &boundaries, answer, out)
}

// Lists what is asked.
pub fn list_asked(asked: Asked, lengths: &[u32], out: &mut [u8]) -> Result<usize, Short>
    ensures { Promise Is
        (bytes_outcome (asked_listing asked lengths.now) out.old)
        result out.new }
{
    match asked {
        Asked::Paragraph(l) => list_paragraph(l, lengths, out),
        Asked::Index(l) => list_index(l, lengths, out),
    }
}
