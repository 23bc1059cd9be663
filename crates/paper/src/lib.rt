// The types of document 01, with what 02's requests add. What they mean stands in specs/, in 01's order.
#![tactic(auto)]

ghost use Rattle.std.specs.Prelude.{◌≡◌};
ghost use Rattle.paper.specs.declared.Unset.TheVariants.{Refused};

// The limits of a paragraph: lmin, lopt, lmax, A, the space (W-202), and the edition of the last-line rule with its least last length
// (W-205).
#[repr(C)]
#[derive(Clone, Copy, Debug, PartialEq, Eq)]
pub struct Limits {
    pub lmin: u32,
    pub lopt: u32,
    pub lmax: u32,
    pub a: u32,
    pub space: u32,
    pub edition: u32,
    pub lastmin: u32,
}

// The limits of an index.
#[repr(C)]
#[derive(Clone, Copy, Debug, PartialEq, Eq)]
pub struct PageLimits {
    pub lmin: u32,
    pub lmax: u32,
}

// "Kinds: 1 Add, 2 Pass, 3 Drop, 4 Pop, 5 Step, 6 Jump, 7 Link."
#[derive(Clone, Copy, Debug, PartialEq, Eq)]
pub enum Kind {
    Add = 1,
    Pass = 2,
    Drop = 3,
    Pop = 4,
    Step = 5,
    Jump = 6,
    Link = 7,
}

// "A move is a kind with the index it touches."
#[derive(Clone, Copy, Debug, PartialEq, Eq)]
pub struct Move {
    pub kind: Kind,
    pub index: u32,
}

// What a caller is told when nothing is set, but for NONE, which has moves to tell.
#[derive(Clone, Copy, Debug, PartialEq, Eq)]
pub enum Refusal {
    Empty,
    Many,
    Limits,
    Length(usize),
    Room(usize),
    Job(usize),
}

// What a setter tells of a setting: its total, how many lines or boundaries it has, and how many moves were taken.
#[derive(Clone, Copy, Debug, PartialEq, Eq)]
pub struct Set {
    pub total: u64,
    pub lines: usize,
    pub moves: usize,
}

// Why a setter sets nothing: there is no setting, as so many moves showed, or the input is refused.
#[derive(Clone, Copy, Debug, PartialEq, Eq)]
pub enum Unset {
    None { moves: usize },
    Refused(Refusal),
}

impl From<Refusal> for Unset {
    ghost from_gives = { λ r u. u ≡ Refused r };

    fn from(r: Refusal) -> Unset {
        Unset::Refused(r)
    }
}
