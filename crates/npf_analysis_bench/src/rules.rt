// The rules of both configurations as products, in the order of precedence.
use crate::rule_list::RuleList;
use anyhow::Error;
use npf_precedence::in_order;
use npf_products::{Product, Subject, TableSpan};
use npf_ruleset::Config;
use npf_treatment::{NO_RULE, RuleEffect, rule_effect};
use npf_types::{List, Prefix};
use std::alloc::Global;

/// Rules of both, those of the first in front, and a number for the effect of each, equal where the effects are; behind those of either
/// configuration stands that of no rule.
#[derive(Drop)]
pub struct Rules<'a> {
    products: Vec<Product<'a>>,
    tables: Vec<List<Prefix>>,
    old: usize,
    old_effects: Vec<u64>,
    new_effects: Vec<u64>,
}

impl<'a> Rules<'a> {
    pub fn new(alloc: Global, old: &'a Config, new: &'a Config) -> Result<Rules<'a>, Error> {
        let mut rules = Rules {
            products: Vec::new(alloc),
            tables: Vec::new(alloc),
            old: 0,
            old_effects: Vec::new(alloc),
            new_effects: Vec::new(alloc),
        };
        let mut known = Vec::new(alloc);
        known.push(NO_RULE)?;
        rules.old_effects = rules.add(alloc, old, &mut known)?;
        rules.old = rules.products.len();
        rules.new_effects = rules.add(alloc, new, &mut known)?;
        Ok(rules)
    }

    // Puts a configuration's rules behind the others, and gives the numbers of their effects.
    fn add(
        &mut self,
        alloc: Global,
        config: &'a Config,
        known: &mut Vec<RuleEffect>,
    ) -> Result<Vec<u64>, Error> {
        let tables = TableSpan {
            first: self.tables.len(),
            count: config.tables().len(),
        };
        for table in config.tables() {
            self.tables.push(List::of_vec(table.to_vec(alloc)?))?;
        }
        let mut effects = Vec::new(alloc);
        for entry in in_order(alloc, config.model().groups.as_slice())? {
            effects.push(numbered(known, rule_effect(config.model(), entry.rule))?)?;
            self.products.push(Product {
                subject: Subject::Entry(entry),
                tables,
            })?;
        }
        effects.push(0)?;
        Ok(effects)
    }

    pub fn products(&self) -> &[Product<'a>] {
        self.products.as_slice()
    }

    pub fn tables(&self) -> &[List<Prefix>] {
        self.tables.as_slice()
    }

    /// The rules of either configuration.
    pub fn lists(&self) -> (RuleList<'_>, RuleList<'_>) {
        let old = RuleList {
            first: 0,
            count: self.old,
            effects: self.old_effects.as_slice(),
        };
        let new = RuleList {
            first: self.old,
            count: self.products.len().saturating_sub(self.old),
            effects: self.new_effects.as_slice(),
        };
        (old, new)
    }
}

// The number of an effect among those that are known, which it joins.
fn numbered(known: &mut Vec<RuleEffect>, effect: RuleEffect) -> Result<u64, Error> {
    if let Some(place) = known.iter().position(|it| *it == effect) {
        return Ok(place as u64);
    }
    known.push(effect)?;
    Ok(known.len() as u64 - 1)
}
