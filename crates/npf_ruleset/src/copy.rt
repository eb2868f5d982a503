// Copies of what is laid out flat, each equal to what was copied.
ghost use Rattle.std.specs.Prelude.{◌≡◌, IfOk, length};

use crate::config::Config;
use crate::flat::FlatRule;
use npf_table::Table;
use npf_types::{List, NoMemory};
use std::alloc::Global;
use std::sync::Arc;

fn copy_rule(alloc: Global, rule: &FlatRule) -> Result<FlatRule, NoMemory>
    ensures { IfOk result (λ copy. copy ≡ rule.now) }
{
    Ok(FlatRule {
        binding: rule.binding,
        last: rule.last,
        row: rule.row,
        program: rule.program.copy(alloc)?,
        place: rule.place,
        always: rule.always,
    })
}

fn copy_rules(alloc: Global, rules: &[FlatRule]) -> Result<Vec<FlatRule>, NoMemory>
    ensures { IfOk result (λ copies. copies.items ≡ rules.now) }
{
    let mut copies = Vec::with_capacity(alloc, rules.len())?;
    for rule in rules {
        copies.push(copy_rule(alloc, rule)?)?;
    }
    Ok(copies)
}

impl Config {
    ghost use Rattle.npf_ruleset.specs.Configuration.{programs};

    /// The same configuration with these tables in place of its own, as many as there were.
    pub fn with_tables(&self, alloc: Global, tables: Vec<Arc<Table>>) -> Result<Config, NoMemory>
        requires { length tables.items ≡ length self.now.tables.items }
        ensures model { IfOk result (λ config. config.model ≡ self.now.model) }
        ensures tables { IfOk result (λ config. config.tables ≡ tables) }
        ensures programs { IfOk result (λ config. programs config ≡ programs self.now) }
    {
        Ok(Config {
            model: self.model.copy(alloc)?,
            tables,
            groups: List::of_vec(self.groups.as_slice().to_vec(alloc)?),
            rules: List::of_vec(copy_rules(alloc, self.rules.as_slice())?),
        })
    }
}
