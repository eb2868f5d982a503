// The names that statements give.
ghost use Rattle.std.specs.Prelude.{◌≡◌, ◌||◌, IfOk, OnOk, List, ℕ};
ghost use Rattle.npf_check.specs.Name.{as_list, holds, is_among, is_given, name_given, no_text, with_text};

use npf_syntax::{GroupHead, Stmt};
use npf_types::{NoMemory, Span};
use std::alloc::Global;
use std::collections::HashSet;

/// A kind of thing that statements name.
#[derive(Clone, Copy)]
pub(crate) enum NameKind {
    Variable,
    Table,
    Procedure,
    Group,
}

/// A name, and the place of what it is given to.
#[derive(Clone, Copy)]
pub(crate) struct Given<'a> {
    pub(crate) text: &'a [u8],
    pub(crate) span: Span,
}

impl NameKind {
    /// The name that a statement gives to a thing of this kind.
    pub(crate) fn given(self, stmt: &Stmt) -> Option<Given>
        ensures { as_list result ≡ name_given self stmt.now }
    {
        match (self, stmt) {
            (NameKind::Variable, Stmt::Define { var, span, .. }) => {
                Some(named(var.name.as_slice(), *span))
            }
            (NameKind::Table, Stmt::Table { name, span, .. }) => {
                Some(named(name.text.as_slice(), *span))
            }
            (NameKind::Procedure, Stmt::Procedure { name, span, .. }) => {
                Some(named(name.text.as_slice(), *span))
            }
            (NameKind::Group, Stmt::Group { head, span, .. }) => match head {
                GroupHead::Named { name, .. } => Some(named(name.text.as_slice(), *span)),
                GroupHead::Default { .. } => None,
            },
            _ => None,
        }
    }
}

fn named(text: &[u8], span: Span) -> Given
    ensures { result ≡ record { text = text.entry; span = span } }
{
    Given { text, span }
}

/// Names of one kind.
#[derive(Drop)]
pub(crate) struct Names<'a> {
    texts: HashSet<&'a [u8]>,
}

impl<'a> Names<'a> {
    pub(crate) fn new(alloc: Global) -> Names<'a>
        ensures { (text : List ℕ) → holds result text ≡ no_text text }
    {
        Names {
            texts: HashSet::new(alloc),
        }
    }

    pub(crate) fn add(&mut self, text: &'a [u8]) -> Result<(), NoMemory>
        ensures { OnOk result ((other : List ℕ) → holds self.new other ≡ with_text text.now (holds self.old) other) }
    {
        self.texts.insert(text)?;
        Ok(())
    }

    // Adds a name, if there is one.
    fn add_given(&mut self, given: Option<Given<'a>>) -> Result<(), NoMemory>
        ensures { OnOk result ((other : List ℕ) → holds self.new other ≡ (is_among other (as_list given.entry) || holds self.old other)) }
    {
        match given {
            Some(given) => self.add(given.text),
            None => Ok(()),
        }
    }

    pub(crate) fn has(&self, text: &[u8]) -> bool
        ensures { result ≡ holds self.now text.now }
    {
        self.texts.contains(&text)
    }
}

/// All names that statements give to things of this kind.
pub(crate) fn names_given<'a>(
    alloc: Global,
    kind: NameKind,
    stmts: &'a [Stmt],
) -> Result<Names<'a>, NoMemory>
    ensures { IfOk result (λ names. (text : List ℕ) → holds names text ≡ is_given kind stmts.now text) }
{
    let mut names = Names::new(alloc);
    for stmt in stmts {
        names.add_given(kind.given(stmt))?;
    }
    Ok(names)
}
