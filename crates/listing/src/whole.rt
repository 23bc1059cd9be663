// Rows put into a buffer whole, or not at all.
ghost use Rattle.std.specs.Prelude.{List, ℕ};
ghost use Rattle.rows.specs.Puts.{Puts};
ghost use Rattle.laws.specs.Outcome.{Promise, Is};
ghost use Rattle.listing.specs.Promise.{bytes_outcome};

use crate::Short;

// What puts its bytes at the front of a buffer, past whose end nothing is written. Answers how many bytes there are.
pub trait Put {
    ghost bytes: { Self → List ℕ };

    fn put(&self, out: &mut [u8]) -> usize
        ensures { Puts (bytes self.now) 0 out.old result out.new };
}

// The bytes are put first on no buffer, to count them.
pub fn whole<R: Put>(rows: &R, out: &mut [u8]) -> Result<usize, Short>
    ensures { Promise Is (bytes_outcome (R.bytes rows.now) out.old) result out.new }
{
    let size = rows.put(&mut out[..0]);
    if out.len() < size {
        return Err(Short { bytes: size });
    }
    rows.put(out);
    Ok(size)
}
