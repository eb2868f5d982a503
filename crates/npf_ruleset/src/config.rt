// The flat configuration.
ghost use Rattle.npf_ruleset.specs.Flat.{IsFlat, programs_of};
ghost use Rattle.npf_ruleset.specs.Invariant.{IsBuildable-prop, IsWithinLimits-prop};
ghost use Rattle.npf_ruleset.specs.Refusal.{HasTables, IsBuildable, IsWithinLimits};

use crate::flat::{FlatGroup, FlatRule};
use crate::place::placed_at;
use npf_bpf::Program;
use npf_model::{Map, Model, Rule};
use npf_table::Table;
use npf_types::List;
use std::sync::Arc;

/// A model laid out flat, with as many tables as it declares. Each rule has its program, and there
/// is no more of anything than `build` takes.
#[derive(Drop)]
pub struct Config {
    pub(crate) model: Model,
    pub(crate) tables: Vec<Arc<Table>>,
    pub(crate) groups: List<FlatGroup>,
    pub(crate) rules: List<FlatRule>,
    ghost flat: { IsFlat model.groups groups rules },
    ghost buildable: { IsBuildable model } by { IsBuildable-prop model },
    ghost limits: { IsWithinLimits model (programs_of rules) } by { IsWithinLimits-prop model (programs_of rules) },
    ghost declared: { HasTables model tables.items },
}

impl Config {
    ghost use Rattle.std.specs.Prelude.{◌≡◌, ◌<◌, Some, length, slice_get};
    ghost use Rattle.npf_model.specs.Verdict.{all_rules, rule_at};
    ghost use Rattle.npf_ruleset.specs.Configuration.{programs};
    ghost use Rattle.npf_ruleset.specs.RuleAt.{IsProgramAt};

    /// The rule at a place, counted from 0 in the order of inspection, which must be in range.
    pub fn rule(&self, i: u32) -> &Rule
        requires { i < length (all_rules self.now.model.groups) }
        ensures { rule_at self.now.model i ≡ Some result.now }
    {
        placed_at(
            self.model.groups.as_slice(),
            self.rules.as_slice()[i as usize].place,
        )
        .rule
    }

    /// The map at a place, counted from 0, which must be in range.
    pub fn map(&self, i: u32) -> &Map
        requires { i < length self.now.model.maps }
        ensures { slice_get self.now.model.maps i ≡ Some result.now }
    {
        &self.model.maps.as_slice()[i as usize]
    }

    /// The compiled program of the rule at a place, which must be in range.
    pub fn program(&self, i: u32) -> &Program
        requires { i < length (all_rules self.now.model.groups) }
        ensures value { slice_get (programs self.now) i ≡ Some result.now }
        ensures describes { IsProgramAt self.now.model i result.now }
    {
        &self.rules.as_slice()[i as usize].program
    }

    /// The model that was laid out, with the interfaces' numbers that were set since.
    pub fn model(&self) -> &Model
        ensures { result.now ≡ self.now.model }
    {
        &self.model
    }

    /// The tables that were given, in the order in which the model declares them.
    pub fn tables(&self) -> &[Arc<Table>]
        ensures { result.now ≡ self.now.tables.items }
    {
        &self.tables
    }

    /// The flat rules, in the order of inspection.
    pub fn rules(&self) -> &[FlatRule]
        ensures { result.now ≡ self.now.rules }
    {
        self.rules.as_slice()
    }

    pub(crate) fn groups(&self) -> &[FlatGroup]
        ensures { result.now ≡ self.now.groups }
    {
        self.groups.as_slice()
    }
}
