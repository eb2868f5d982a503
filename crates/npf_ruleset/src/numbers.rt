// The numbers of the interfaces that a configuration names.
ghost use Rattle.std.specs.Prelude.{◌≡◌, ◌<◌, List, Some};
ghost use Rattle.npf_model.specs.Numbering.{number_of_name};
ghost use Rattle.npf_model.specs.declared.iface.Iface.{Iface};

use crate::binding::Binding;
use crate::config::Config;
use crate::flat::{FlatGroup, FlatRule};
use npf_model::{Group, Iface, Ifaces, Item, Map, OnIf, Rule, number_of_name};
use npf_types::List;

/// What names interfaces, whose numbers can be set in place.
pub(crate) trait NamesIfaces {
    ghost numbered: { List Iface → Self → Self };

    /// Sets the number of each interface to that of its name in the list of the run's interfaces.
    fn number(&mut self, ifaces: &[Iface])
        ensures { self.new ≡ numbered ifaces.now self.old };
}

impl<T: NamesIfaces> NamesIfaces for List<T> {
    ghost use Rattle.std.specs.Prelude.{map};

    ghost numbered = { λ ifaces items. map (T.numbered ifaces) items };

    fn number(&mut self, ifaces: &[Iface]) {
        for item in self.as_mut_slice().iter_mut() {
            item.number(ifaces);
        }
    }
}

impl<T: NamesIfaces> NamesIfaces for Option<T> {
    ghost use Rattle.std.specs.Option.{option_map};

    ghost numbered = { λ ifaces value. option_map (T.numbered ifaces) value };

    fn number(&mut self, ifaces: &[Iface]) {
        if let Some(value) = self {
            value.number(ifaces);
        }
    }
}

impl NamesIfaces for OnIf {
    ghost use Rattle.npf_model.specs.Numbering.{numbered_on};

    ghost numbered = { numbered_on };

    fn number(&mut self, ifaces: &[Iface]) {
        self.id = number_of_name(ifaces, &self.name);
    }
}

impl NamesIfaces for Rule {
    ghost use Rattle.npf_model.specs.Numbering.{numbered_rule};

    ghost numbered = { numbered_rule };

    fn number(&mut self, ifaces: &[Iface]) {
        self.on.number(ifaces);
    }
}

impl NamesIfaces for (u32, Rule) {
    ghost use Rattle.npf_model.specs.Numbering.{numbered_entry};

    ghost numbered = { numbered_entry };

    fn number(&mut self, ifaces: &[Iface]) {
        self.1.number(ifaces);
    }
}

impl NamesIfaces for Item {
    ghost use Rattle.npf_model.specs.Numbering.{numbered_item};

    ghost numbered = { numbered_item };

    fn number(&mut self, ifaces: &[Iface]) {
        match self {
            Item::One(rule) => rule.number(ifaces),
            Item::Dynamic { on, rules, .. } => {
                on.number(ifaces);
                rules.number(ifaces);
            }
        }
    }
}

impl NamesIfaces for Group {
    ghost use Rattle.npf_model.specs.Numbering.{numbered_group};

    ghost numbered = { numbered_group };

    fn number(&mut self, ifaces: &[Iface]) {
        self.on.number(ifaces);
        self.items.number(ifaces);
    }
}

impl NamesIfaces for Map {
    ghost use Rattle.npf_model.specs.Numbering.{numbered_map};

    ghost numbered = { numbered_map };

    fn number(&mut self, ifaces: &[Iface]) {
        self.on.number(ifaces);
        self.filter.number(ifaces);
    }
}

impl NamesIfaces for Binding {
    ghost use Rattle.npf_ruleset.specs.Numbered.{numbered_binding};

    ghost numbered = { numbered_binding };

    fn number(&mut self, ifaces: &[Iface]) {
        self.within.number(ifaces);
        self.on.number(ifaces);
    }
}

impl NamesIfaces for FlatGroup {
    ghost use Rattle.npf_ruleset.specs.Numbered.{numbered_flat_group};

    ghost numbered = { numbered_flat_group };

    fn number(&mut self, ifaces: &[Iface]) {
        self.binding.number(ifaces);
    }
}

impl NamesIfaces for FlatRule {
    ghost use Rattle.npf_ruleset.specs.Numbered.{numbered_flat_rule};

    ghost numbered = { numbered_flat_rule };

    fn number(&mut self, ifaces: &[Iface]) {
        self.binding.number(ifaces);
    }
}

impl Config {
    ghost use Rattle.std.specs.Prelude.{◌≡◌};
    ghost use Rattle.npf_model.specs.Numbering.{numbered};
    ghost use Rattle.npf_ruleset.specs.Configuration.{programs};

    /// Sets the number of each interface that the configuration names to its place in the list,
    /// counted from 1 up to 64, or to 0 where the list hasn't the name or has it past that. All else
    /// stays. It takes no memory.
    pub fn number(&mut self, ifaces: &Ifaces)
        ensures model { self.new.model ≡ numbered ifaces.now.list self.old.model }
        ensures tables { self.new.tables ≡ self.old.tables }
        ensures programs { programs self.new ≡ programs self.old }
    {
        let list = ifaces.list.as_slice();
        self.model.groups.number(list);
        self.model.maps.number(list);
        self.groups.number(list);
        self.rules.number(list);
    }
}
