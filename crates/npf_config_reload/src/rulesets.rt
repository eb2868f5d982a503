// The dynamic rulesets of a configuration, by their names.
ghost use Rattle.std.specs.Prelude.{◌≡◌, ◌++◌, ◌∷◌, [], if◌then◌else◌, IfOk, List, OnOk};
ghost use Rattle.std.specs.List.{flat_map};
ghost use Rattle.std.specs.Option.{option_map};
ghost use Rattle.std.specs.Str.{bytes_eq};
ghost use Rattle.npf_types.specs.declared.name.Name.{Name as Named};
ghost use Rattle.npf_types.specs.Name.{name_bytes};
ghost use Rattle.npf_config_changes.specs.Rulesets.{Ruleset, rulesets_at, rulesets_in};
ghost use Rattle.npf_config_reload.specs.Before.{FindsFirst, found_by, ruleset_before};

use npf_model::{Group, Item, Rule};
use npf_types::{Name, NoMemory};
use std::alloc::Global;
use std::collections::HashMap;

/// A ruleset as a model has it.
#[derive(Clone, Copy)]
pub(crate) struct Dynamic<'a> {
    pub(crate) next_id: u32,
    pub(crate) rules: &'a [(u32, Rule)],
}

/// The first ruleset of each name.
#[derive(Drop)]
pub(crate) struct Rulesets<'a> {
    first: HashMap<&'a [u8], Dynamic<'a>>,
}

impl<'a> Rulesets<'a> {
    /// Those of these groups.
    pub(crate) fn of(alloc: Global, groups: &'a [Group]) -> Result<Rulesets<'a>, NoMemory>
        ensures { IfOk result (λ rulesets. FindsFirst rulesets (λ name. flat_map (rulesets_in name) groups.now)) }
    {
        let mut rulesets = Rulesets::none(alloc);
        for group in groups {
            rulesets.add_all(group.items.as_slice())?;
        }
        Ok(rulesets)
    }

    fn none(alloc: Global) -> Rulesets<'a>
        ensures { FindsFirst result (λ name. []) }
    {
        Rulesets {
            first: HashMap::new(alloc),
        }
    }

    fn add_all(&mut self, items: &'a [Item]) -> Result<(), NoMemory>
        ensures { OnOk result ((before : Named → List Ruleset) → FindsFirst self.old before
            → FindsFirst self.new (λ name. before name ++ flat_map (rulesets_at name) items.now)) }
    {
        for item in items {
            self.add(item)?;
        }
        Ok(())
    }

    /// Puts what the item is behind the others, if it is a ruleset.
    fn add(&mut self, item: &'a Item) -> Result<(), NoMemory>
        ensures { OnOk result ((before : Named → List Ruleset) → FindsFirst self.old before
            → FindsFirst self.new (λ name. before name ++ rulesets_at name item.now)) }
    {
        match item {
            Item::One(_) => Ok(()),
            Item::Dynamic {
                name,
                next_id,
                rules,
                ..
            } => {
                let dynamic = Dynamic {
                    next_id: *next_id,
                    rules: rules.as_slice(),
                };
                self.put(name.as_bytes(), dynamic)
            }
        }
    }

    fn put(&mut self, name: &'a [u8], dynamic: Dynamic<'a>) -> Result<(), NoMemory>
        ensures { OnOk result ((before : Named → List Ruleset) → FindsFirst self.old before
            → FindsFirst self.new (λ other. before other ++ (if bytes_eq name.now (name_bytes other) then ruleset_before dynamic.entry ∷ [] else []))) }
    {
        if self.first.contains_key(&name) {
            return Ok(());
        }
        self.first.insert(name, dynamic)?;
        Ok(())
    }

    /// The ruleset of this name.
    pub(crate) fn named(&self, name: &Name) -> Option<Dynamic<'a>>
        ensures { option_map ruleset_before result ≡ found_by self.now name.now }
    {
        self.first.get(&name.as_bytes()).copied()
    }
}
