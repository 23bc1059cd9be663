// The rows of a listing, put into a lent buffer from a place on. Past the buffer's end nothing is written, so that on an empty buffer
// a listing is only counted. Workshop parts: they ask that the place after their bytes is a number.
#![tactic(auto)]

ghost use Rattle.std.specs.Prelude.{[], ◌∷◌};
ghost use Rattle.rows.specs.Rows.{digits, row_rest, row};
ghost use Rattle.rows.specs.Puts.{Fits};
ghost use Rattle.rows.specs.Writes.{Writes};

use itoa::Buffer;

// A lent buffer, and the place of the next byte.
#[derive(Debug, Drop)]
pub struct Rows<'a> {
    pub out: &'a mut [u8],
    pub at: usize,
}

impl Rows<'_> {
    // Puts a byte.
    fn put(&mut self, byte: u8)
        requires { Fits self.old.at ((byte ∷ []) ∷ []) }
        ensures { Writes (byte ∷ []) self.old self.new }
    {
        if self.at < self.out.len() {
            self.out[self.at] = byte;
        }
        self.at += 1;
    }

    // Puts a word.
    fn text(&mut self, word: &[u8])
        requires { Fits self.old.at (word.now ∷ []) }
        ensures { Writes word.now self.old self.new }
    {
        for byte in word {
            self.put(*byte);
        }
    }

    // Puts a number in decimal.
    #[tactic(auto, using(crate::specs::Digits::digits_decimal))]
    pub fn number(&mut self, x: u64)
        requires { Fits self.old.at (digits x ∷ []) }
        ensures { Writes (digits x) self.old self.new }
    {
        let mut buffer = Buffer::new();
        self.text(buffer.format(x).as_bytes());
    }

    // Puts numbers, each after a space, and ends the row.
    fn end(&mut self, numbers: &[u64])
        requires { Fits self.old.at (row_rest numbers.now ∷ []) }
        ensures { Writes (row_rest numbers.now) self.old self.new }
    {
        for x in numbers {
            self.put(b' ');
            self.number(*x);
        }
        self.put(b'\n');
    }

    // Puts a row that begins with a word.
    pub fn named(&mut self, word: &[u8], numbers: &[u64])
        requires { Fits self.old.at (row word.now numbers.now ∷ []) }
        ensures { Writes (row word.now numbers.now) self.old self.new }
    {
        self.text(word);
        self.end(numbers);
    }

    // Puts a row that begins with a number.
    pub fn numbered(&mut self, first: u64, numbers: &[u64])
        requires { Fits self.old.at (row (digits first) numbers.now ∷ []) }
        ensures { Writes (row (digits first) numbers.now) self.old self.new }
    {
        self.number(first);
        self.end(numbers);
    }
}
