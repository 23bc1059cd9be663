// What is listed of a text.
ghost use Rattle.listing.specs.Summed.{Summed};

use job::Asked;

// A text that refusals 1 to 4 pass, with its sums.
#[derive(Clone, Copy)]
pub struct Text<'a> {
    pub asked: Asked,
    pub lengths: &'a [u32],
    pub sums: &'a [u32],
    ghost summed: { Summed asked lengths.now sums.now },
}
