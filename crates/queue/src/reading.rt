// What the rules of a start read.
ghost use Rattle.std.specs.Prelude.{◌≡◌, length};

use lines::{Break, Measure, break_of, through};
use paper::Limits;

// The limits, the measure of the start's lines, where a line to each break ends, and each break's best.
#[derive(Clone, Copy)]
pub struct Reading<'a> {
    pub limits: Limits,
    pub measure: Measure,
    pub ends: &'a [u32],
    pub best: &'a [u64],
    ghost same: { length best.now ≡ length ends.now },
}

impl Reading<'_> {
    ghost use Rattle.std.specs.Prelude.{◌-◌, ◌^◌, ◌<◌};
    ghost use Rattle.lines.specs.Asks.{Indexed};
    ghost use Rattle.queue.specs.Asks.{read, break_at, through_at, Costed};

    // Break j.
    pub fn at(self, j: u32) -> Break
        requires { Indexed self.ends.now j }
        ensures { result ≡ break_at (read self.entry) j }
    {
        break_of(self.ends, self.best, j)
    }

    // F of break j at the start.
    pub fn through(self, j: u32) -> u64
        requires { Costed (read self) j }
        ensures { (result ≡ through_at (read self.entry) j) × (result < 2 ^ 64 - 1) }
    {
        through(self.limits, self.measure.goal, self.ends, self.best, j)
    }
}
