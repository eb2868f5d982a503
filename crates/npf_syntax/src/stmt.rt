// The trees of statements.
use crate::boxed::Boxed;
use crate::filter::Filter;
use crate::group::{GroupHead, ItemTree};
use crate::map::{ArrowTree, MapKind, SideTree};
use crate::procedure::Call;
use crate::value::{IfaceTree, One, Values};
use crate::word::{Number, Str, Var, Word};
use npf_types::{List, Span};

/// What a parameter is set to.
#[derive(Debug, Drop)]
pub enum Setting {
    Word { word: Word, span: Span },
    Number { number: Number, span: Span },
}

/// The type of a table.
#[derive(Clone, Copy, Debug, PartialEq, Eq)]
pub enum TableType {
    IpSet { span: Span },
    Lpm { span: Span },
    Const { span: Span },
}

/// A statement: the definition of a variable, `set`, `alg`, `table`, `map`, `group` or `procedure`. A table's name is a
/// `Name`, the name of its file UTF-8. A map may be the place of dynamic maps, which isn't built.
#[derive(Debug, Drop)]
pub enum Stmt {
    Define {
        var: Var,
        values: Values,
        span: Span,
    },
    Set {
        name: Word,
        value: Setting,
        span: Span,
    },
    Alg {
        name: Str,
        span: Span,
    },
    Table {
        name: Word,
        kind: TableType,
        file: Option<Str>,
        span: Span,
    },
    Map {
        iface: Boxed<IfaceTree>,
        kind: Boxed<MapKind>,
        proto: Option<Boxed<One>>,
        left: Boxed<SideTree>,
        arrow: ArrowTree,
        right: Boxed<SideTree>,
        pass: Option<Boxed<Filter>>,
        span: Span,
    },
    MapRuleset {
        iface: Boxed<IfaceTree>,
        span: Span,
    },
    Group {
        head: GroupHead,
        items: List<ItemTree>,
        span: Span,
    },
    Procedure {
        name: Str,
        calls: List<Call>,
        span: Span,
    },
}

/// A configuration: its statements in order, and the place of the text's end.
#[derive(Debug, Drop)]
pub struct Tree {
    pub stmts: List<Stmt>,
    pub end: Span,
}
