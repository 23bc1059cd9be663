// What a start of an index reads.
ghost use Rattle.std.specs.Prelude.{◌≡◌, ◌+◌, ◌<◌, length, slice_index};
ghost use Rattle.paper.specs.Allowed.{page_limits_hold};
ghost use Rattle.strips.specs.Words.{Holds};

use paper::PageLimits;

// Start i, with the limits and the sums of a text that refusals 1 to 4 pass. Gap(i, r) is sums[r - 1] - sums[i]: it is below lmin where
// sums[r - 1] is below `near`, and above lmax where it is above `far`.
#[derive(Clone, Copy)]
pub struct Start<'a> {
    pub(crate) limits: PageLimits,
    pub(crate) i: usize,
    pub(crate) sums: &'a [u32],
    pub(crate) near: u32,
    pub(crate) far: u32,
    pub ghost held: { Holds (page_limits_hold limits) 0 sums.now },
    pub ghost low: { i < length sums.now },
    pub ghost nearest: { near ≡ slice_index sums.now i + limits.lmin },
    pub ghost farthest: { far ≡ slice_index sums.now i + limits.lmax },
}

impl<'a> Start<'a> {
    // Start i of a text.
    pub fn new(limits: PageLimits, i: usize, sums: &'a [u32]) -> Start<'a>
        requires held { Holds (page_limits_hold limits) 0 sums.now }
        requires low { i < length sums.now }
        ensures same_limits { result.limits ≡ limits }
        ensures same_start { result.i ≡ i }
        ensures same_sums { result.sums.now ≡ sums.entry.now }
    {
        let from = sums[i];
        Start {
            limits,
            i,
            sums,
            near: from + limits.lmin,
            far: from + limits.lmax,
        }
    }
}
