// Rules. A choice of quoted words has a span, as every part of the tree has one, so directions and decisions are enums of the tree beside
// the plain types. The field for the word `final` is `last`, since `final` is a reserved word of Rust.
use crate::boxed::Boxed;
use crate::filter::Filter;
use crate::value::IfaceTree;
use crate::word::Str;
use npf_types::Span;

/// A direction, by its word.
#[derive(Clone, Copy, Debug, PartialEq, Eq)]
pub enum Direction {
    In { span: Span },
    Out { span: Span },
}

/// What a rule that blocks answers to the sender.
#[derive(Clone, Copy, Debug, PartialEq, Eq)]
pub enum BlockReturn {
    Return { span: Span },
    ReturnRst { span: Span },
    ReturnIcmp { span: Span },
}

/// Whether a rule blocks, and with which answer if any, or passes.
#[derive(Clone, Copy, Debug, PartialEq, Eq)]
pub enum RuleAction {
    Block {
        answer: Option<BlockReturn>,
        span: Span,
    },
    Pass {
        span: Span,
    },
}

/// Of which packets a rule keeps state: those of its interface, or all.
#[derive(Clone, Copy, Debug, PartialEq, Eq)]
pub enum Stateful {
    Stateful { span: Span },
    StatefulAll { span: Span },
}

/// A rule: what it does, whether it keeps state, its direction and interface if they are said, its filter, whose sockets
/// it is about if it says so, and the procedure that it applies if it names one.
#[derive(Debug, Drop)]
pub struct RuleTree {
    pub action: RuleAction,
    pub stateful: Option<Stateful>,
    pub dir: Option<Direction>,
    /// Whether the word `final` stands there.
    pub last: bool,
    pub on: Option<Boxed<IfaceTree>>,
    pub filter: Filter,
    /// Where a user or a group is named, which isn't built.
    pub owner: Option<Span>,
    /// The procedure's name.
    pub apply: Option<Str>,
    pub span: Span,
}
