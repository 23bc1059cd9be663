// The rows that stand first in a listing.
ghost use Rattle.std.specs.Prelude.{[], ◌∷◌};
ghost use Rattle.rows.specs.Rows.{row};
ghost use Rattle.rows.specs.Puts.{Fits};
ghost use Rattle.rows.specs.Writes.{Writes};
ghost use Rattle.listing.specs.Listing.{headed, head};

use job::Asked;
use rows::Rows;

// What is listed, and what its total and its starts are called.
#[derive(Clone, Copy)]
struct Captions<'a> {
    kind: &'a [u8],
    total: &'a [u8],
    starts: &'a [u8],
}

// What is listed and n, the total, and the count of the starts, each after its caption.
fn heading(rows: &mut Rows, captions: Captions, n: usize, total: u64, count: usize)
    requires { Fits rows.old.at
        (row captions.kind.now (n ∷ []) ∷ row captions.total.now (total ∷ []) ∷ row captions.starts.now (count ∷ []) ∷ []) }
    ensures { Writes (headed captions.entry.kind.now n captions.entry.total.now total captions.entry.starts.now count)
        rows.old rows.new }
{
    rows.named(captions.kind, &[n as u64]);
    rows.named(captions.total, &[total]);
    rows.named(captions.starts, &[count as u64]);
}

// The same under the captions of what is asked.
pub fn head(rows: &mut Rows, asked: Asked, n: usize, total: u64, count: usize)
    requires { Fits rows.old.at (head asked n total count ∷ []) }
    ensures { Writes (head asked n total count) rows.old rows.new }
{
    match asked {
        Asked::Paragraph(_) => {
            let captions = Captions {
                kind: b"paragraph",
                total: b"penalty",
                starts: b"lines",
            };
            heading(rows, captions, n, total, count)
        }
        Asked::Index(_) => {
            let captions = Captions {
                kind: b"index",
                total: b"keys",
                starts: b"boundaries",
            };
            heading(rows, captions, n, total, count)
        }
    }
}
