// The moves that a rule takes.
use paper::Move;
use strips::put;

// The moves strip, and how many moves of it are taken: the next is written behind them.
#[derive(Drop)]
pub struct Moves<'a> {
    pub strip: &'a mut [u32],
    pub taken: usize,
}

impl Moves<'_> {
    ghost use Rattle.pointer.specs.Taking.{PutAsk, Put};

    // Takes one move more.
    pub fn put(&mut self, m: Move)
        requires { PutAsk self.old m }
        ensures { Put self.old m self.new }
    {
        put(self.strip, self.taken, m);
        self.taken += 1;
    }
}
