// The trees of groups.
use crate::boxed::Boxed;
use crate::rule::{Direction, RuleTree};
use crate::value::IfaceTree;
use crate::word::Str;
use npf_types::Span;

/// What stands before a group's brace: its name, with a direction and an interface if they are said; or that it is the
/// default group. `layer` is where `layer-2` stands, which isn't built.
#[derive(Debug, Drop)]
pub enum GroupHead {
    Named {
        name: Str,
        dir: Option<Direction>,
        layer: Option<Span>,
        on: Option<Boxed<IfaceTree>>,
        span: Span,
    },
    Default {
        layer: Option<Span>,
        span: Span,
    },
}

/// An item of a group: a rule, or the place of dynamic rules, whose name is a `Name`.
#[derive(Debug, Drop)]
pub enum ItemTree {
    Rule {
        rule: RuleTree,
        span: Span,
    },
    Ruleset {
        name: Str,
        dir: Option<Direction>,
        on: Option<Boxed<IfaceTree>>,
        span: Span,
    },
}
