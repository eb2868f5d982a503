// Groups, and what they list.
use crate::rule::{OnIf, Rule};
use npf_types::{Dir, List, Name, Text};

/// What stands in a group: a rule, or the place of a ruleset whose rules are added and taken away while the program
/// runs. Its rules carry their numbers, and `next_id` is the number of the next one.
#[derive(Debug, Drop)]
pub enum Item {
    One(Rule),
    Dynamic {
        name: Name,
        dir: Option<Dir>,
        on: Option<OnIf>,
        next_id: u32,
        rules: List<(u32, Rule)>,
    },
}

/// A group of rules (npf.conf(5), "Groups"). The default group's name is empty, and it is bound to nothing.
#[derive(Debug, Drop)]
pub struct Group {
    pub name: Text,
    pub default: bool,
    pub dir: Option<Dir>,
    pub on: Option<OnIf>,
    pub items: List<Item>,
}
