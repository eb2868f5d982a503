// What is asked.
ghost use Rattle.std.specs.Prelude.{◌≡◌, ◌&&◌};
ghost use Rattle.npf_model.specs.Place.{fits_dir, fits_on};
ghost use Rattle.npf_explain.specs.Asked.{entry_matches, entry_meets, entry_misfit};

use npf_precedence::RuleEntry;
use npf_ruleset::{Part, Placed, fits_dir, fits_on, rule_misfit};
use npf_table::Table;
use npf_types::{Dir, Facts, IfId};
use std::sync::Arc;

/// A packet by its facts, where it passes, and the tables that its addresses are looked up in.
#[derive(Clone, Copy)]
pub(crate) struct PacketAsked<'a> {
    pub(crate) tables: &'a [Arc<Table>],
    pub(crate) facts: &'a Facts,
    pub(crate) ifid: IfId,
    pub(crate) dir: Dir,
}

impl PacketAsked<'_> {
    /// The first part of the entry's rule that the packet doesn't fit.
    pub(crate) fn misfit(&self, entry: &RuleEntry<'_>) -> Option<Part>
        ensures { result ≡ entry_misfit self.now entry.now }
    {
        let placed = Placed {
            within_dir: entry.within_dir,
            within_on: entry.within_on,
            rule: entry.rule,
        };
        rule_misfit(&placed, self.tables, self.facts, self.ifid, self.dir)
    }

    /// Whether the entry's group applies to the packet and its rule matches.
    pub(crate) fn meets(&self, entry: &RuleEntry<'_>) -> bool
        ensures { result ≡ entry_meets self.now entry.now }
    {
        self.leaves(entry) && self.matches(entry)
    }

    fn leaves(&self, entry: &RuleEntry<'_>) -> bool
        ensures { result ≡ (fits_dir entry.now.group_dir self.now.dir && fits_on entry.now.group_on self.now.ifid) }
    {
        fits_dir(entry.group_dir, self.dir) && fits_on(entry.group_on, self.ifid)
    }

    fn matches(&self, entry: &RuleEntry<'_>) -> bool
        ensures { result ≡ entry_matches self.now entry.now }
    {
        self.misfit(entry).is_none()
    }
}
