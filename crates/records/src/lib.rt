// A file of jobs for the vectors: records one after the other, each a size of 2 bytes, low byte first, and so many bytes.
#![tactic(auto)]

ghost use Rattle.std.specs.Prelude.{length};
ghost use Rattle.records.specs.Records.{SplitsShort};

// The number of the first 2 bytes, low byte first, and the bytes after them.
pub fn split_short(bytes: &[u8]) -> Option<(u16, &[u8])>
    ensures { SplitsShort bytes.now result }
{
    let (short, rest) = bytes.split_first_chunk()?;
    Some((u16::from_le_bytes(*short), rest))
}

// The records of a file, or of what is left of it. One that the file cuts off ends with the file.
#[derive(Clone, Debug, Drop)]
pub struct Records<'a>(pub &'a [u8]);

impl<'a> Iterator for Records<'a> {
    type Item = &'a [u8];

    ghost use Rattle.std.specs.Iterator.{at_most};
    ghost use Rattle.records.specs.Records.{TakesFirst};

    ghost next_gives = { λ s r t. TakesFirst s.0.now r t.0.now };

    ghost remaining = { λ s. at_most (length s.0.now) };

    fn next(&mut self) -> Option<&'a [u8]> {
        let (size, rest) = split_short(self.0)?;
        let (record, after) = rest.split_at(rest.len().min(usize::from(size)));
        self.0 = after;
        Some(record)
    }
}
