// Rules.
use crate::ends::Ends;
use npf_types::{Decision, Dir, IfId, List, Name};

/// Whether a rule keeps the connection of what it passes, and for which interfaces (`stateful` and `stateful-all`
/// of npf.conf(5)).
#[derive(Clone, Copy, Debug, PartialEq, Eq)]
pub enum StateOpt {
    Not,
    OnInterface,
    Everywhere,
}

/// The interface that a rule, a group or a map is bound to: its name, and its number in the run. A name that the run
/// doesn't know has the number 0, and then no packet meets it.
#[derive(Clone, Copy, Debug, PartialEq, Eq)]
pub struct OnIf {
    pub name: Name,
    pub id: IfId,
}

/// One rule, with lists spliced, words replaced by numbers and functions by addresses: one written rule is one rule.
///
/// `last` is the word `final`. `v6` is the family where one is written, true for `inet6`. An empty `protos` means any
/// protocol. `flags` are the bits that have to be set and the mask that they are looked at through. `icmp` is the type
/// and, where given, the code. `procedure` is a place in the model's list, counted from 0.
#[derive(Debug, Drop)]
pub struct Rule {
    pub decision: Decision,
    pub state: StateOpt,
    pub dir: Option<Dir>,
    pub last: bool,
    pub on: Option<OnIf>,
    pub v6: Option<bool>,
    pub protos: List<u8>,
    pub flags: Option<(u8, u8)>,
    pub icmp: Option<(u8, Option<u8>)>,
    pub from: Ends,
    pub to: Ends,
    pub procedure: Option<u32>,
}
