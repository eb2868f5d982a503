// What is told of a packet.
use npf_ruleset::Part;
use npf_types::List;

/// What a group says.
#[derive(Clone, Copy, Debug, PartialEq, Eq)]
pub enum GroupTold {
    Applies,
    /// It is bound to the other direction.
    OtherDirection,
    /// It is bound to another interface.
    OtherInterface,
    /// A group in front of it has a rule that decides.
    NotReached,
}

/// Why a rule isn't asked.
#[derive(Clone, Copy, Debug, PartialEq, Eq)]
pub enum Unasked {
    /// A `final` rule in front of it, of the same group, decides.
    BehindFinal,
    /// Its group is bound to another direction or interface.
    GroupElsewhere,
    /// A group in front of its own answered.
    GroupAnswered,
}

/// What a rule says.
#[derive(Clone, Copy, Debug, PartialEq, Eq)]
pub enum RuleTold {
    /// It doesn't match, and this is the first of its parts that the packet doesn't fit.
    Misfits(Part),
    /// It matches and decides.
    Decides,
    /// It matches, and the rule at this place, counted from 0 in the order of inspection, decides.
    Overridden(usize),
    NotReached(Unasked),
}

/// What a map says.
#[derive(Clone, Copy, Debug, PartialEq, Eq)]
pub enum MapTold {
    /// It doesn't apply, and this is the first of its parts that the packet doesn't fit.
    Misfits(Part),
    /// It is the first that applies.
    Applies,
    /// A map in front of it applies.
    NotReached,
}

/// A group and its rules, in the order of inspection: those of a ruleset stand at its place.
#[derive(Debug, Drop)]
pub struct ToldGroup {
    pub told: GroupTold,
    pub rules: List<RuleTold>,
}

/// What a configuration says of a packet. `decider` is the place, counted from 0 in the order of inspection, of the rule that decides, and `map`
/// that of the map that applies, in the order of the text; None where there is none. `groups` and `maps` have one for each of the configuration's.
#[derive(Debug, Drop)]
pub struct Explanation {
    pub decider: Option<usize>,
    pub groups: List<ToldGroup>,
    pub map: Option<u32>,
    pub maps: List<MapTold>,
}
