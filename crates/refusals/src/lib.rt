// The ranges of the numbers allowed, refusals 1 to 5 in their order, and the number and place that each refusal tells.
#![tactic(auto)]

ghost use Rattle.std.specs.Prelude.{◌≡◌, ◌&&◌, ℕ, Bool, not, nat_lt, true};
ghost use Rattle.std.specs.List.{fold, position};
ghost use Rattle.paper.specs.Allowed.{length_holds, last_holds, limits_hold, page_limits_hold};
ghost use Rattle.paper.specs.Told.{first_failing, checked};
ghost use Rattle.refusals.specs.Checks.{words_found, lengths_found, room_found, has_of, needs_of};
ghost use Rattle.refusals.specs.Tells.{TellsOf};

use paper::{Limits, PageLimits, Refusal};

// W-205: "lastmin above lopt, or not 0 under edition 1, or an edition but 1 or 2, is LIMITS"
#[tactic(auto, unfolding(paper::specs::Allowed::last_holds))]
fn last_holds(l: Limits) -> bool
    ensures { result ≡ last_holds l }
{
    (l.lastmin <= l.lopt) & ((l.edition == 1) & (l.lastmin == 0) | (l.edition == 2))
}

// W-202: "a length not above the space is LENGTH". An index has space 0.
#[tactic(auto, unfolding(paper::specs::Allowed::length_holds))]
fn length_holds(space: u32, w: u32) -> bool
    ensures { result ≡ length_holds space w }
{
    (space < w) & (w <= 4095)
}

// Whether every length is allowed. No early exit and no branch, so that the compiler can take several words at a time.
fn all_hold(space: u32, lengths: &[u32]) -> bool
    ensures { result ≡ fold (λ hold w. hold && length_holds space w) true lengths.now }
{
    lengths
        .iter()
        .fold(true, |hold, w| hold & length_holds(space, *w))
}

// The place of the first word whose length is not allowed. Only a list that is refused comes here: not put into its caller, where the
// search would hold the caller's values.
#[inline(never)]
fn first_bad(space: u32, lengths: &[u32]) -> Option<usize>
    ensures { result ≡ position (λ w. not (length_holds space w)) lengths.now }
{
    lengths.iter().position(|w| !length_holds(space, *w))
}

// EMPTY and MANY.
pub fn check_words(most: usize, n: usize) -> Result<(), Refusal>
    ensures { result ≡ words_found most n }
{
    if n == 0 {
        return Err(Refusal::Empty);
    }
    if most < n {
        return Err(Refusal::Many);
    }
    Ok(())
}

// LENGTH, at the first word whose length is not allowed.
pub fn check_lengths(space: u32, lengths: &[u32]) -> Result<(), Refusal>
    ensures { result ≡ lengths_found (first_failing (length_holds space) 1 lengths.now) }
{
    if all_hold(space, lengths) {
        return Ok(());
    }
    match first_bad(space, lengths) {
        Some(k) => Err(Refusal::Length(k + 1)),
        None => Ok(()),
    }
}

// The place of the first strip that has fewer entries than it needs: each has and needs so many.
fn first_short(rooms: &[(usize, usize)]) -> Option<usize>
    ensures { result ≡ position (λ (s : ℕ × ℕ). nat_lt s.0 s.1) rooms.now }
{
    rooms.iter().position(|s| s.0 < s.1)
}

// ROOM, at the first strip that has fewer entries than it needs.
pub fn check_room(rooms: &[(usize, usize)]) -> Result<(), Refusal>
    ensures { result ≡ room_found (has_of rooms.now) (needs_of rooms.now) }
{
    match first_short(rooms) {
        Some(k) => Err(Refusal::Room(k + 1)),
        None => Ok(()),
    }
}

// What refusals 1 to 5 read of a kind of limits.
pub trait Allowed: Copy {
    ghost holds: { Self → Bool };

    ghost space_of: { Self → ℕ };

    fn hold(self) -> bool
        ensures { result ≡ holds self };

    // What every length is to exceed.
    fn space(self) -> u32
        ensures { result ≡ space_of self };
}

impl Allowed for Limits {
    ghost holds = { limits_hold };

    ghost space_of = { λ l. l.space };

    fn hold(self) -> bool {
        (1 <= self.lmin)
            & (self.lmin <= self.lopt)
            & (self.lopt <= self.lmax)
            & (self.lmax <= 4095)
            & (self.lmin < self.lmax)
            & (1 <= self.a)
            & (self.a <= 15)
            & (self.space <= 255)
            & last_holds(self)
    }

    fn space(self) -> u32 {
        self.space
    }
}

impl Allowed for PageLimits {
    ghost holds = { page_limits_hold };

    ghost space_of = { λ l. 0 };

    #[tactic(auto, unfolding(paper::specs::Allowed::page_limits_hold))]
    fn hold(self) -> bool {
        (self.lmin < self.lmax) & (self.lmax <= 65535)
    }

    fn space(self) -> u32 {
        0
    }
}

// The first of refusals 1 to 5 that applies.
pub fn check<L: Allowed>(l: L, lengths: &[u32], rooms: &[(usize, usize)]) -> Result<(), Refusal>
    ensures { result ≡ checked (L.holds l) (L.space_of l) lengths.now (has_of rooms.now) (needs_of rooms.now) }
{
    check_words(4096, lengths.len())?;
    if !l.hold() {
        return Err(Refusal::Limits);
    }
    check_lengths(l.space(), lengths)?;
    check_room(rooms)
}

// 01's number and place.
#[derive(Clone, Copy, Debug, PartialEq, Eq)]
pub struct Reason {
    pub number: u32,
    pub place: usize,
}

impl From<Refusal> for Reason {
    ghost from_gives = { TellsOf };

    #[tactic(auto, unfolding(paper::specs::Told::told_refusal))]
    fn from(r: Refusal) -> Reason {
        let (number, place) = match r {
            Refusal::Empty => (1, 0),
            Refusal::Many => (2, 0),
            Refusal::Limits => (3, 0),
            Refusal::Length(word) => (4, word),
            Refusal::Room(strip) => (5, strip),
            Refusal::Job(offset) => (7, offset),
        };
        Reason { number, place }
    }
}
