// How many rules, tables, maps and procedures there may be.
ghost use Rattle.std.specs.Prelude.{◌≡◌, ◌<◌, ◌∷◌, []};
ghost use Rattle.std.specs.List.{flat_map};
ghost use Rattle.npf_faults.specs.First.{first_fault};
ghost use Rattle.npf_check.specs.Limit.{FindsPlace, limited_places, limit_faults, past_faults, rule_place};

use npf_faults::{ConfFault, Excess, Fault, earlier};
use npf_syntax::{ItemTree, Stmt, Tree};
use npf_types::Span;
use npf_types::limits::{MAX_MAPS, MAX_PROCEDURES, MAX_RULES, MAX_TABLES};

/// The first `TooMany` of these four kinds.
pub(crate) fn limit_fault(tree: &Tree) -> Option<ConfFault>
    ensures { result ≡ first_fault (limit_faults tree.now) }
{
    let stmts = tree.stmts.as_slice();
    let rule = past(Excess::Rules, MAX_RULES, stmts);
    let table = past(Excess::Tables, MAX_TABLES, stmts);
    let map = past(Excess::Maps, MAX_MAPS, stmts);
    let procedure = past(Excess::Procedures, MAX_PROCEDURES, stmts);
    earlier(earlier(earlier(rule, table), map), procedure)
}

// Where a thing stands that is looked for by its place in the text, or how many more are to pass.
enum SpanSearch {
    At(Span),
    Later(usize),
}

fn past(quantity: Excess, most: usize, stmts: &[Stmt]) -> Option<ConfFault>
    requires { most < 4294967296 }
    ensures { result ≡ first_fault (past_faults quantity most stmts.now) }
{
    let mut left = most;
    for stmt in stmts {
        match find_in_stmt(quantity, stmt, left) {
            SpanSearch::At(span) => {
                let fault = Fault::TooMany(quantity, most as u64 + 1);
                return Some(ConfFault { span, fault });
            }
            SpanSearch::Later(later) => left = later,
        }
    }
    None
}

fn find_in_stmt(quantity: Excess, stmt: &Stmt, left: usize) -> SpanSearch
    ensures { FindsPlace (limited_places quantity stmt.now) left result }
{
    match (quantity, stmt) {
        (Excess::Rules, Stmt::Group { items, .. }) => find_rule(items.as_slice(), left),
        (Excess::Tables, Stmt::Table { span, .. }) => find_here(*span, left),
        (Excess::Maps, Stmt::Map { span, .. }) => find_here(*span, left),
        (Excess::Procedures, Stmt::Procedure { span, .. }) => find_here(*span, left),
        _ => SpanSearch::Later(left),
    }
}

fn find_here(span: Span, left: usize) -> SpanSearch
    ensures { FindsPlace (span ∷ []) left result }
{
    if left == 0 {
        SpanSearch::At(span)
    } else {
        SpanSearch::Later(left - 1)
    }
}

fn find_rule(items: &[ItemTree], place: usize) -> SpanSearch
    ensures { FindsPlace (flat_map rule_place items.now) place result }
{
    let mut left = place;
    for item in items {
        match find_in_item(item, left) {
            SpanSearch::At(span) => return SpanSearch::At(span),
            SpanSearch::Later(later) => left = later,
        }
    }
    SpanSearch::Later(left)
}

fn find_in_item(item: &ItemTree, left: usize) -> SpanSearch
    ensures { FindsPlace (rule_place item.now) left result }
{
    match item {
        ItemTree::Rule { rule, .. } => find_here(rule.span, left),
        ItemTree::Ruleset { .. } => SpanSearch::Later(left),
    }
}
