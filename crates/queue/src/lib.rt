// The queue rules of document 01, a start at a time. Workshop parts: they ask what their callers meet.
#![tactic(auto)]

ghost use Rattle.std.specs.Prelude.{◌≡◌, ◌+◌, length, set};
ghost use Rattle.paper.specs.Moves.{code, move};
ghost use Rattle.strips.specs.Asks.{MoveAsk};
ghost use Rattle.lines.specs.Asks.{Indexed};
ghost use Rattle.queue.specs.Asks.{stood, ShedAsks, LongDropped, WorseDropped, WorsePopped, PopBridgedAsks, BridgedPopped};
ghost use Rattle.queue.specs.Asks.{start, AddAsks, ConsiderAsks, Adds, Considers, CandidatesAsk, CandidatesLeave};
ghost use Rattle.queue.specs.Asks.{read, Costed, StartAsks, StartLeaves};

use lines::{Break, bridged, curve, end_of};
use paper::{Kind, Move};
use reading::Reading;
use strips::{NONE, put};

pub mod reading;

// Where the queue stands in its strip, the next candidate, the moves taken so far, and what the front costs: NONE with an empty queue.
#[derive(Clone, Copy)]
pub struct Queue {
    pub front: usize,
    pub end: usize,
    pub candidate: usize,
    pub moves: usize,
    pub cost: u64,
}

impl Queue {
    // Takes a move: it is written behind those taken so far.
    fn take(&mut self, kind: Kind, index: u32, moves: &mut [u32])
        requires { MoveAsk moves.old self.old.moves (move kind index) }
        ensures written { moves.new ≡ set moves.old self.old.moves (code (move kind index)) }
        ensures counted { self.new ≡ record self.old { moves = self.old.moves + 1 } }
    {
        put(moves, self.moves, Move { kind, index });
        self.moves += 1;
    }

    // "1. While the front has Line > lmax: Drop it."
    fn drop_long(&mut self, r: Reading, queue: &[u32], moves: &mut [u32])
        requires { ShedAsks (Indexed r.ends.now) (stood queue.now self.old) self.old.moves (length moves.old) }
        ensures rule { LongDropped r.entry.ends.now r.entry.measure.far (stood queue.now self.old) self.old.moves
            moves.old moves.new self.new.front self.new.moves }
        ensures stays { (self.new.end ≡ self.old.end) × (self.new.candidate ≡ self.old.candidate) }
        ensures cost { self.new.cost ≡ self.old.cost }
    {
        'dropping: for j in &queue[self.front..self.end] {
            if end_of(r.ends, *j) <= r.measure.far {
                break;
            }
            self.take(Kind::Drop, *j, moves);
            self.front += 1;
        }
    }

    // "Pop the rear while F(i, candidate) ≤ F(i, rear)".
    fn pop_worse(&mut self, r: Reading, queue: &[u32], cost: u64, moves: &mut [u32])
        requires { ShedAsks (Costed (read r)) (stood queue.now self.old) self.old.moves (length moves.old) }
        ensures rule { WorsePopped (read r.entry) cost (stood queue.now self.old) self.old.moves
            moves.old moves.new self.new.end self.new.moves }
        ensures stays { (self.new.front ≡ self.old.front) × (self.new.candidate ≡ self.old.candidate) }
        ensures cost { self.new.cost ≡ self.old.cost }
    {
        'popping: for rear in (self.front..self.end).rev() {
            let k = queue[rear];
            if r.through(k) < cost {
                break;
            }
            self.take(Kind::Pop, k, moves);
            self.end = rear;
        }
    }

    // "Pop the rear while two or more stand and the rear is bridged".
    fn pop_bridged(&mut self, r: Reading, queue: &[u32], new: Break, moves: &mut [u32])
        requires { PopBridgedAsks (read r) new (stood queue.now self.old) self.old.moves (length moves.old) }
        ensures rule { BridgedPopped (read r.entry) new (stood queue.now self.old) self.old.moves
            moves.old moves.new self.new.end self.new.moves }
        ensures stays { (self.new.front ≡ self.old.front) × (self.new.candidate ≡ self.old.candidate) }
        ensures cost { self.new.cost ≡ self.old.cost }
    {
        'popping: for rear in (self.front + 1..self.end).rev() {
            let k = queue[rear];
            let n = queue[rear - 1];
            if !bridged(r.limits, new, r.at(k), r.at(n)) {
                break;
            }
            self.take(Kind::Pop, k, moves);
            self.end = rear;
        }
    }

    // "3. While two or more stand and F of the second is ≤ F of the front: Drop the front."
    fn drop_worse(&mut self, r: Reading, queue: &[u32], moves: &mut [u32])
        requires { ShedAsks (Costed (read r)) (stood queue.now self.old) self.old.moves (length moves.old) }
        ensures rule { WorseDropped (read r.entry) (stood queue.now self.old) self.old.moves
            moves.old moves.new self.new.front self.new.cost self.new.moves }
        ensures stays { (self.new.end ≡ self.old.end) × (self.new.candidate ≡ self.old.candidate) }
    {
        if self.end <= self.front {
            self.cost = NONE;
            return;
        }
        self.cost = r.through(queue[self.front]);
        'dropping: for pair in queue[self.front..self.end].windows(2) {
            let second = r.through(pair[1]);
            if self.cost < second {
                break;
            }
            self.take(Kind::Drop, pair[0], moves);
            self.cost = second;
            self.front += 1;
        }
    }

    // The rear is popped twice over, and the candidate added.
    fn add(&mut self, r: Reading, queue: &mut [u32], new: Break, moves: &mut [u32])
        requires { AddAsks (read r) self.old.candidate new (stood queue.old self.old)
            self.old.moves (length moves.old) }
        ensures rule { Adds (read r.entry) self.old.candidate (stood queue.old self.old) self.old.moves
            moves.old self.new.end self.new.moves queue.new moves.new }
        ensures stays { (self.new.front ≡ self.old.front) × (self.new.candidate ≡ self.old.candidate) }
        ensures cost { self.new.cost ≡ self.old.cost }
    {
        let index = self.candidate as u32;
        let cost = curve(r.limits, r.measure.goal, new);
        self.pop_worse(r, queue, cost, moves);
        self.pop_bridged(r, queue, new, moves);
        queue[self.end] = index;
        self.end += 1;
        self.take(Kind::Add, index, moves);
    }

    // "if it is above lmax, or the candidate has no setting, Pass it. Otherwise" pop and add.
    fn consider(&mut self, r: Reading, queue: &mut [u32], new: Break, moves: &mut [u32])
        requires { ConsiderAsks (read r) self.old.candidate new (stood queue.old self.old)
            self.old.moves (length moves.old) }
        ensures rule { Considers (read r.entry) self.old.candidate (stood queue.old self.old) self.old.moves
            moves.old self.new.end self.new.moves queue.new moves.new }
        ensures stays { (self.new.front ≡ self.old.front) × (self.new.candidate ≡ self.old.candidate) }
        ensures cost { self.new.cost ≡ self.old.cost }
    {
        if r.measure.far < new.end || new.best == NONE {
            self.take(Kind::Pass, self.candidate as u32, moves);
            return;
        }
        self.add(r, queue, new, moves);
    }

    // "2. While Line(i, candidate) ≥ lmin: [..] The candidate then falls by one."
    fn candidates(&mut self, r: Reading, i: usize, queue: &mut [u32], moves: &mut [u32])
        requires { CandidatesAsk (read r) i (stood queue.old self.old) self.old.candidate
            self.old.moves (length moves.old) }
        ensures rule { CandidatesLeave (read r.entry) i (stood queue.old self.old) self.old.candidate
            self.old.moves moves.old moves.new (stood queue.new self.new) self.new.candidate self.new.moves }
        ensures stays { self.new.front ≡ self.old.front }
        ensures cost { self.new.cost ≡ self.old.cost }
    {
        'falling: while i < self.candidate {
            let new = r.at(self.candidate as u32);
            if new.end < r.measure.near {
                break;
            }
            self.consider(r, queue, new, moves);
            self.candidate -= 1;
        }
    }
}

// The three rules at start i, which is lent the moves strip from the present count on. The moves in the answer are its own.
pub fn at_start(r: Reading, i: usize, queue: &mut [u32], q: Queue, moves: &mut [u32]) -> Queue
    requires { StartAsks (read r) i queue.old q (length moves.old) }
    ensures { StartLeaves (read r.entry) i (stood queue.old q) q.candidate
        moves.old result queue.new moves.new }
{
    let mut at = Queue { moves: 0, ..q };
    at.drop_long(r, queue, moves);
    at.candidates(r, i, queue, moves);
    at.drop_worse(r, queue, moves);
    at
}
