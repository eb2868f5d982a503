// The open set of a key, without a look at its pieces again: each step takes the time of one piece.
ghost use Rattle.std.specs.Prelude.{◌≡◌, ℕ, ◌+◌, ◌*◌, ◌<◌, ◌≤◌, ◌||◌, ◌&&◌, nat_eq, nat_le, nat_lt, true, false, List, [], ◌∷◌, ◌++◌, All, IfOk, length, slice_index, if◌then◌else◌};
ghost use Rattle.npf_types.specs.declared.limits.TheConstants.{MAX_PACKET_BYTES};
ghost use Rattle.npf_pieces.specs.declared.arrived.Ending.TheVariants.{Complete, Refused};

use crate::arrived::{Arrived, Ending};
use crate::measure::{beginning_header, end_of, has_waited, unit_of, units_below};
use npf_types::NoMemory;
use npf_types::limits::MAX_PACKET_BYTES;
use std::alloc::Global;

/// Units of 8 bytes that a datagram's data can have.
const UNITS: usize = 8192;

/// Bytes that the length of a datagram can tell (RFC 791 section 3.1, RFC 8200 section 3).
const MAX_LENGTH: u32 = 65_535;

/// What is known of the open set of a key: when it began, how many bytes it has and how far they reach, whether a last piece is
/// there, and the greatest header of a piece that begins the datagram. Its pieces are among those from `first` up to `behind`
/// of all that came, and a unit of 8 bytes is in it where more than `first` had come when it was filled: so nothing is cleared.
#[derive(Drop)]
pub(crate) struct OpenSet {
    pub(crate) first: usize,
    pub(crate) behind: usize,
    begun: Option<u64>,
    filled: Vec<usize>,
    covered: u32,
    reach: u32,
    ended: bool,
    header: u32,
    ghost order: { first ≤ behind },
    ghost narrow: { reach ≤ 65535 },
    ghost headed: { header ≤ MAX_PACKET_BYTES },
    ghost sized: { length filled.items ≡ 8192 },
    ghost past: { (unit : ℕ) → unit < 8192 → slice_index filled.items unit ≤ behind },
}

impl OpenSet {
    ghost use Rattle.npf_pieces.specs.Overlap.{KnowsSet, IsTaken, KeepsTotals, is_filled};
    ghost use Rattle.npf_pieces.specs.Sets.{ending_of, ending_with, is_late, overlaps};

    /// A set without pieces, before any came.
    pub(crate) fn new(alloc: Global) -> Result<OpenSet, NoMemory>
        ensures none { IfOk result (KnowsSet []) }
        ensures place { IfOk result (λ made. (made.first ≡ 0) × (made.behind ≡ 0)) }
    {
        Ok(OpenSet {
            first: 0,
            behind: 0,
            begun: None,
            filled: vec![in alloc; 0; UNITS]?,
            covered: 0,
            reach: 0,
            ended: false,
            header: 0,
        })
    }

    /// A set without pieces, behind so many that came.
    pub(crate) fn restart(&mut self, behind: usize)
        requires { self.old.behind ≤ behind }
        ensures none { KnowsSet [] self.new }
        ensures place { (self.new.first ≡ behind) × (self.new.behind ≡ behind) }
    {
        self.first = behind;
        self.behind = behind;
        self.begun = None;
        self.covered = 0;
        self.reach = 0;
        self.ended = false;
        self.header = 0;
    }

    /// How this one ends the set, if it does: otherwise it is added.
    pub(crate) fn take(&mut self, arrived: &Arrived) -> Option<Ending>
        requires taken { IsTaken arrived.now }
        requires room { self.old.covered ≤ 65535 }
        requires count { self.old.behind < usize.MAX }
        ensures ends { (set : List Arrived) → KnowsSet set self.old → result ≡ ending_with set arrived.now }
        ensures adds { (set : List Arrived) → KnowsSet set self.old → result ≡ None → KnowsSet (set ++ arrived.now ∷ []) self.new }
        ensures place { (self.new.first ≡ self.old.first) × (self.new.behind ≡ self.old.behind + 1) }
    {
        if self.overlaps(arrived) {
            self.behind += 1;
            return Some(Ending::Refused);
        }
        self.add(arrived);
        self.ending()
    }

    /// Whether this one comes too late for the set: 30 seconds or more after its first piece.
    pub(crate) fn is_late(&self, arrived: &Arrived) -> bool
        ensures { (set : List Arrived) → KnowsSet set self.now → result ≡ is_late set arrived.now }
    {
        has_waited(self.begun, arrived.time)
    }

    /// Whether this one overlaps the set.
    fn overlaps(&self, arrived: &Arrived) -> bool
        requires { IsTaken arrived.now }
        ensures { (set : List Arrived) → KnowsSet set self.now → result ≡ overlaps set arrived.now }
    {
        let end = end_of(&arrived.piece);
        let shares = self.has_unit(unit_of(arrived.piece.from), units_below(end));
        self.overlaps_end(shares, arrived.piece.last, end)
    }

    /// Whether a piece that ends here overlaps the set, which shares a byte with it or not.
    fn overlaps_end(&self, shares: bool, last: bool, end: u32) -> bool
        ensures { result ≡ ((shares || (last && self.now.ended)) || ((self.now.ended && nat_lt self.now.reach end) || (last && nat_lt end self.now.reach))) }
    {
        shares
            || (last && self.ended)
            || (self.ended && self.reach < end)
            || (last && end < self.reach)
    }

    /// Whether one of the units from `from` up to `to` is in the set.
    fn has_unit(&self, from: usize, to: usize) -> bool
        requires { to ≤ 8192 }
        ensures some { result ≡ true → (unit : ℕ) × (from ≤ unit) × (unit < to) × (is_filled self.now unit ≡ true) }
        ensures none { result ≡ false → (unit : ℕ) → from ≤ unit → unit < to → is_filled self.now unit ≡ false }
    {
        for unit in from..to {
            if self.first < self.filled[unit] {
                return true;
            }
        }
        false
    }

    /// Adds this one, which doesn't overlap the set.
    fn add(&mut self, arrived: &Arrived)
        requires taken { IsTaken arrived.now }
        requires room { self.old.covered ≤ 65535 }
        requires count { self.old.behind < usize.MAX }
        ensures adds { (set : List Arrived) → KnowsSet set self.old → overlaps set arrived.now ≡ false → KnowsSet (set ++ arrived.now ∷ []) self.new }
        ensures place { (self.new.first ≡ self.old.first) × (self.new.behind ≡ self.old.behind + 1) }
    {
        let piece = &arrived.piece;
        let end = end_of(piece);
        self.behind += 1;
        self.fill(unit_of(piece.from), units_below(end));
        self.begun = self.begun.or(Some(arrived.time));
        self.covered += end - piece.from;
        self.reach = self.reach.max(end);
        self.ended |= piece.last;
        self.header = self.header.max(beginning_header(piece));
    }

    /// The units from `from` up to `to` are in the set from now on.
    fn fill(&mut self, from: usize, to: usize)
        requires order { from ≤ to }
        requires units { to ≤ 8192 }
        requires first { self.old.first < self.old.behind }
        ensures fills { (unit : ℕ) → unit < 8192 → is_filled self.new unit ≡ (is_filled self.old unit || (nat_le from unit && nat_lt unit to)) }
        ensures same { KeepsTotals self.old self.new }
    {
        for unit in from..to {
            self.filled[unit] = self.behind;
        }
    }

    /// How the set ends with the pieces that it has, if it does.
    fn ending(&self) -> Option<Ending>
        ensures { (set : List Arrived) → KnowsSet set self.now → result ≡ ending_of set }
    {
        let whole = self.is_whole();
        let long = self.is_too_long();
        ending_by(whole, long)
    }

    /// Whether a last piece is there, and every byte.
    fn is_whole(&self) -> bool
        ensures { result ≡ (self.now.ended && nat_eq self.now.covered self.now.reach) }
    {
        self.ended && self.covered == self.reach
    }

    /// Whether the datagram would be too long.
    fn is_too_long(&self) -> bool
        ensures { result ≡ nat_lt 65535 (self.now.header + self.now.reach) }
    {
        self.header + self.reach > MAX_LENGTH
    }
}

/// How a set ends that is whole, or not, and whose datagram would be too long, or not.
fn ending_by(whole: bool, long: bool) -> Option<Ending>
    ensures { result ≡ (if whole then Some (if long then Refused else Complete) else None) }
{
    match (whole, long) {
        (false, _) => None,
        (true, true) => Some(Ending::Refused),
        (true, false) => Some(Ending::Complete),
    }
}
