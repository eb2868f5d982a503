// Each name is given once to a thing of its kind. One that stands three times is told twice, a ruleset's at its item.
ghost use Rattle.std.specs.Prelude.{◌≡◌, ◌++◌, IfOk, OnOk, List};
ghost use Rattle.std.specs.List.{flat_map};
ghost use Rattle.npf_faults.specs.First.{first_fault};
ghost use Rattle.npf_check.specs.Duplicate.{duplicate_faults, first_again, repeated, ruleset_given, rulesets_of_stmt};
ghost use Rattle.npf_check.specs.Name.{NameAt, as_list, names_given, no_text};

use crate::name::{Given, NameKind, Names};
use npf_faults::{ConfFault, Fault, earlier, fault_if};
use npf_syntax::{ItemTree, Stmt, Tree};
use npf_types::NoMemory;
use std::alloc::Global;

/// The first `DuplicateName`.
pub(crate) fn duplicate_fault(alloc: Global, tree: &Tree) -> Result<Option<ConfFault>, NoMemory>
    ensures { IfOk result (λ first. first ≡ first_fault (duplicate_faults tree.now)) }
{
    let stmts = tree.stmts.as_slice();
    let variable = repeated_name(alloc, NameKind::Variable, stmts)?;
    let table = repeated_name(alloc, NameKind::Table, stmts)?;
    let procedure = repeated_name(alloc, NameKind::Procedure, stmts)?;
    let group = repeated_name(alloc, NameKind::Group, stmts)?;
    let ruleset = repeated_ruleset(alloc, stmts)?;
    let statement = earlier(earlier(earlier(variable, table), procedure), group);
    Ok(earlier(statement, ruleset))
}

fn repeated_name(
    alloc: Global,
    kind: NameKind,
    stmts: &[Stmt],
) -> Result<Option<ConfFault>, NoMemory>
    ensures { IfOk result (λ first. first ≡ first_fault (repeated no_text (names_given kind stmts.now))) }
{
    let mut so_far = Repeated::new(alloc);
    for stmt in stmts {
        so_far.meet(kind.given(stmt))?;
    }
    Ok(so_far.first)
}

fn repeated_ruleset(alloc: Global, stmts: &[Stmt]) -> Result<Option<ConfFault>, NoMemory>
    ensures { IfOk result (λ first. first ≡ first_fault (repeated no_text (flat_map rulesets_of_stmt stmts.now))) }
{
    let mut so_far = Repeated::new(alloc);
    for stmt in stmts {
        so_far.meet_rulesets(items_of(stmt))?;
    }
    Ok(so_far.first)
}

// The items of a group; other statements have none.
fn items_of(stmt: &Stmt) -> &[ItemTree]
    ensures { flat_map ruleset_given result.now ≡ rulesets_of_stmt stmt.now }
{
    match stmt {
        Stmt::Group { items, .. } => items.as_slice(),
        _ => &[],
    }
}

// The names so far, and the first that was given again.
#[derive(Drop)]
struct Repeated<'a> {
    names: Names<'a>,
    first: Option<ConfFault>,
}

impl<'a> Repeated<'a> {
    fn new(alloc: Global) -> Repeated<'a>
        ensures { (names : List NameAt) → first_again result names ≡ first_fault (repeated no_text names) }
    {
        Repeated {
            names: Names::new(alloc),
            first: None,
        }
    }

    // Takes the next name, if there is one.
    fn meet(&mut self, given: Option<Given<'a>>) -> Result<(), NoMemory>
        ensures { OnOk result ((names : List NameAt) → first_again self.old (as_list given.entry ++ names) ≡ first_again self.new names) }
    {
        let Some(given) = given else {
            return Ok(());
        };
        let again = self.names.has(given.text);
        self.first = earlier(
            self.first,
            fault_if(again, given.span, Fault::DuplicateName),
        );
        self.names.add(given.text)
    }

    fn meet_rulesets(&mut self, items: &'a [ItemTree]) -> Result<(), NoMemory>
        ensures { OnOk result ((names : List NameAt) → first_again self.old (flat_map ruleset_given items.now ++ names) ≡ first_again self.new names) }
    {
        for item in items {
            self.meet(ruleset_given(item))?;
        }
        Ok(())
    }
}

fn ruleset_given(item: &ItemTree) -> Option<Given>
    ensures { as_list result ≡ ruleset_given item.now }
{
    match item {
        ItemTree::Rule { .. } => None,
        ItemTree::Ruleset { name, span, .. } => Some(Given {
            text: name.text.as_slice(),
            span: *span,
        }),
    }
}
