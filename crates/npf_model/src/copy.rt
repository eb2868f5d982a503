// Copies of models and of their parts, each equal to what was copied.
ghost use Rattle.std.specs.Prelude.{◌≡◌, IfOk};

use crate::ends::{AddrItem, Ends};
use crate::group::{Group, Item};
use crate::map::Map;
use crate::model::Model;
use crate::procedure::Procedure;
use crate::rule::Rule;
use crate::table::TableDecl;
use npf_types::{List, NoMemory};
use std::alloc::Global;

impl Model {
    /// An equal model with lists of its own.
    pub fn copy(&self, alloc: Global) -> Result<Model, NoMemory>
        ensures { IfOk result (λ copy. copy ≡ self.now) }
    {
        self.with_groups(alloc, self.groups.duplicate(alloc)?)
    }

    /// A model with these groups, and with lists of its own that are equal to the others.
    pub fn with_groups(&self, alloc: Global, groups: List<Group>) -> Result<Model, NoMemory>
        ensures { IfOk result (λ copy. copy ≡ record self.now { groups = groups }) }
    {
        Ok(Model {
            groups,
            tables: self.tables.duplicate(alloc)?,
            maps: self.maps.duplicate(alloc)?,
            procedures: self.procedures.duplicate(alloc)?,
            settings: self.settings,
            alg_icmp: self.alg_icmp,
        })
    }
}

impl Rule {
    /// An equal rule with lists of its own.
    pub fn copy(&self, alloc: Global) -> Result<Rule, NoMemory>
        ensures { IfOk result (λ copy. copy ≡ self.now) }
    {
        self.duplicate(alloc)
    }
}

/// What can be copied.
trait Duplicate: Drop {
    fn duplicate(&self, alloc: Global) -> Result<Self, NoMemory>
        ensures { IfOk result (λ copy. copy ≡ self.now) };
}

impl<T: Duplicate> Duplicate for List<T> {
    fn duplicate(&self, alloc: Global) -> Result<List<T>, NoMemory> {
        let items = self.as_slice();
        let mut copies = Vec::with_capacity(alloc, items.len())?;
        for item in items {
            copies.push(item.duplicate(alloc)?)?;
        }
        Ok(List::of_vec(copies))
    }
}

impl<T: Duplicate> Duplicate for Option<T> {
    fn duplicate(&self, alloc: Global) -> Result<Option<T>, NoMemory> {
        match self {
            Some(value) => Ok(Some(value.duplicate(alloc)?)),
            None => Ok(None),
        }
    }
}

impl Duplicate for u8 {
    fn duplicate(&self, _alloc: Global) -> Result<u8, NoMemory> {
        Ok(*self)
    }
}

impl Duplicate for (u16, u16) {
    fn duplicate(&self, _alloc: Global) -> Result<(u16, u16), NoMemory> {
        Ok(*self)
    }
}

impl Duplicate for AddrItem {
    fn duplicate(&self, _alloc: Global) -> Result<AddrItem, NoMemory> {
        Ok(*self)
    }
}

impl Duplicate for (u32, Rule) {
    fn duplicate(&self, alloc: Global) -> Result<(u32, Rule), NoMemory> {
        Ok((self.0, self.1.duplicate(alloc)?))
    }
}

impl Duplicate for Ends {
    fn duplicate(&self, alloc: Global) -> Result<Ends, NoMemory> {
        Ok(Ends {
            excluded: self.excluded,
            addrs: self.addrs.duplicate(alloc)?,
            ports: self.ports.duplicate(alloc)?,
        })
    }
}

impl Duplicate for Rule {
    fn duplicate(&self, alloc: Global) -> Result<Rule, NoMemory> {
        Ok(Rule {
            decision: self.decision,
            state: self.state,
            dir: self.dir,
            last: self.last,
            on: self.on,
            v6: self.v6,
            protos: self.protos.duplicate(alloc)?,
            flags: self.flags,
            icmp: self.icmp,
            from: self.from.duplicate(alloc)?,
            to: self.to.duplicate(alloc)?,
            procedure: self.procedure,
        })
    }
}

impl Duplicate for Item {
    fn duplicate(&self, alloc: Global) -> Result<Item, NoMemory> {
        match self {
            Item::One(rule) => Ok(Item::One(rule.duplicate(alloc)?)),
            Item::Dynamic {
                name,
                dir,
                on,
                next_id,
                rules,
            } => Ok(Item::Dynamic {
                name: *name,
                dir: *dir,
                on: *on,
                next_id: *next_id,
                rules: rules.duplicate(alloc)?,
            }),
        }
    }
}

impl Duplicate for Group {
    fn duplicate(&self, alloc: Global) -> Result<Group, NoMemory> {
        Ok(Group {
            name: self.name.duplicate(alloc)?,
            default: self.default,
            dir: self.dir,
            on: self.on,
            items: self.items.duplicate(alloc)?,
        })
    }
}

impl Duplicate for TableDecl {
    fn duplicate(&self, alloc: Global) -> Result<TableDecl, NoMemory> {
        Ok(TableDecl {
            name: self.name,
            kind: self.kind,
            file: self.file.duplicate(alloc)?,
            file_span: self.file_span,
            span: self.span,
        })
    }
}

impl Duplicate for Map {
    fn duplicate(&self, alloc: Global) -> Result<Map, NoMemory> {
        Ok(Map {
            on: self.on,
            algo: self.algo,
            arrow: self.arrow,
            proto: self.proto,
            inside: self.inside,
            outside: self.outside,
            filter: self.filter.duplicate(alloc)?,
        })
    }
}

impl Duplicate for Procedure {
    fn duplicate(&self, alloc: Global) -> Result<Procedure, NoMemory> {
        Ok(Procedure {
            name: self.name.duplicate(alloc)?,
            min_ttl: self.min_ttl,
            max_mss: self.max_mss,
            no_df: self.no_df,
            log: self.log,
        })
    }
}
