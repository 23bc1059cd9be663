// Lines, their penalties, and the test of "bridged", on numbers. Every function here is a workshop part: it asks what its callers
// meet.
#![tactic(auto)]

ghost use Rattle.std.specs.Prelude.{◌≡◌, ◌-◌, ◌*◌, ◌^◌, ◌<◌, length, get_or};
ghost use Rattle.laws.specs.Square.{sqd};
ghost use Rattle.paper_theory.specs.Ranges.{Ranges};
ghost use Rattle.paper.specs.Lines.{Inside};
ghost use Rattle.paper.specs.Paragraph.{penalty as formula};
ghost use Rattle.lines.specs.Held.{span, begins, break_in, cost_at, side_at, edge_at, chord_at, bridged_at};
ghost use Rattle.lines.specs.Asks.{Span, Beginning, Placed, Moving, Moved, Indexed, Weighing, Curved, Through, Sided};
ghost use Rattle.lines.specs.Asks.{Three};

use paper::Limits;

// Where a line from a start is inside the measure: it ends at near to far, at best at goal.
#[derive(Clone, Copy)]
pub struct Measure {
    pub near: u32,
    pub goal: u32,
    pub far: u32,
}

// A break as the rules read it: where a line to it ends, and its best.
#[derive(Clone, Copy)]
pub struct Break {
    pub end: u32,
    pub best: u64,
}

// The length of the line from i to j: Line(i, j), the lengths of words i to j-1, less the space (W-202).
pub fn line_length(l: Limits, sums: &[u32], i: usize, j: usize) -> u32
    requires { Span l.space sums.now i j }
    ensures { result ≡ span sums.now i j - l.space }
{
    sums[j - 1] - sums[i - 1] - l.space
}

// The measure of lines that begin at a place of the ends' scale.
pub fn measure_from(l: Limits, at: u32) -> Measure
    requires { Beginning l at }
    ensures { (Placed l result) × (begins l result ≡ at) }
{
    Measure {
        near: at + l.lmin,
        goal: at + l.lopt,
        far: at + l.lmax,
    }
}

// The measure of lines that begin so much later.
pub fn moved(p: Measure, by: u32) -> Measure
    requires { Moving p by }
    ensures { Moved p by result }
{
    Measure {
        near: p.near + by,
        goal: p.goal + by,
        far: p.far + by,
    }
}

// Where a line to break j ends.
pub fn end_of(ends: &[u32], j: u32) -> u32
    requires { Indexed ends.now j }
    ensures { result ≡ get_or ends.now (j - 1) 0 }
{
    ends[j as usize - 1]
}

// Break j.
pub fn break_of(ends: &[u32], best: &[u64], j: u32) -> Break
    requires { (Indexed ends.now j) × (length best.now ≡ length ends.now) }
    ensures { result ≡ break_in ends.now best.now j }
{
    let at = j as usize - 1;
    Break {
        end: ends[at],
        best: best[at],
    }
}

// A·(x - y)², the penalty of a line that ends at x and would be best at y. It is asked of a line inside the measure only (W-204), so that
// square and product fit 32 bits (W-206). By a signed difference the machine need not find which of the two is the greater.
fn weighed(l: Limits, x: u32, y: u32) -> u64
    requires { Weighing l x y }
    ensures { (result ≡ l.a * sqd x y) × (result < 2 ^ 28) }
{
    let d = x as i32 - y as i32;
    u64::from(l.a * (d * d) as u32)
}

// The penalty formula, A·(x - lopt)², inside the measure.
pub fn penalty(l: Limits, x: u32) -> u64
    requires { (Ranges l) × (Inside l.lmin l.lmax x) }
    ensures { result ≡ formula l x }
{
    weighed(l, x, l.lopt)
}

// A line that is best at goal, with the best of its break.
pub fn curve(l: Limits, goal: u32, b: Break) -> u64
    requires { Curved l goal b }
    ensures { (result ≡ cost_at l goal b) × (result < 2 ^ 64 - 1) }
{
    b.best + weighed(l, b.end, goal)
}

// F(i, j) = best of j + A·(Line(i, j) - lopt)².
pub fn through(l: Limits, goal: u32, ends: &[u32], best: &[u64], j: u32) -> u64
    requires { Through l goal ends.now best.now j }
    ensures { (result ≡ cost_at l goal (break_in ends.now best.now j)) × (result < 2 ^ 64 - 1) }
{
    curve(l, goal, break_of(ends, best, j))
}

// A side of the first test of "bridged", for the neighbour n: best b + p(lmax - Line(b, n)), both ends moved on by lmax.
fn side(l: Limits, n: Break, b: Break) -> u64
    requires { Sided l n b }
    ensures { result ≡ side_at l n b }
{
    b.best + weighed(l, b.end + l.lmax, n.end + l.lopt)
}

// The first test: with j the candidate, k the rear and n its neighbour.
fn edge(l: Limits, j: Break, k: Break, n: Break) -> bool
    requires { Three l j k n }
    ensures { result ≡ edge_at l j k n }
{
    side(l, n, j) <= side(l, n, k)
}

// The second test, by how far the breaks lie apart.
#[tactic(auto, using(crate::proofs::Sizes::fitting))]
fn chord(l: Limits, j: Break, k: Break, n: Break) -> bool
    requires { Three l j k n }
    ensures { result ≡ chord_at l j k n }
{
    let jk = u64::from(k.end - j.end);
    let jn = u64::from(n.end - j.end);
    let kn = u64::from(n.end - k.end);
    jk * n.best + kn * j.best + u64::from(l.a) * (jk * jn * kn) <= jn * k.best
}

// Whether the rear k is bridged between the candidate j and its neighbour n. As measured, the second test first is the faster order.
pub fn bridged(l: Limits, j: Break, k: Break, n: Break) -> bool
    requires { Three l j k n }
    ensures { result ≡ bridged_at l j k n }
{
    chord(l, j, k, n) && edge(l, j, k, n)
}
