// Configurations of a folder, with the interfaces of both numbered alike.
use anyhow::{Error, anyhow};
use npf_model::{Group, Iface, Ifaces, Item, OnIf};
use npf_outside::{Files, MemFiles};
use npf_ruleset::Config;
use npf_types::limits::MAX_TEXT_BYTES;
use npf_types::{List, Name};
use std::alloc::Global;

/// The configuration of a file, with its tables' files.
pub fn load_file<F: Files>(alloc: Global, files: &mut F, name: &str) -> Result<Config, Error> {
    match files.read(alloc, name, MAX_TEXT_BYTES as u64) {
        Ok(text) => load(alloc, files, text.as_slice()),
        Err(_) => Err(anyhow!("a configuration can't be read")),
    }
}

/// The configuration of a text that names no files.
pub fn load_text(alloc: Global, text: &[u8]) -> Result<Config, Error> {
    let mut files = MemFiles::new(alloc).map_err(|_| anyhow!("out of memory"))?;
    load(alloc, &mut files, text)
}

fn load<F: Files>(alloc: Global, files: &mut F, text: &[u8]) -> Result<Config, Error> {
    if text.len() > MAX_TEXT_BYTES {
        return Err(anyhow!("a text is too long"));
    }
    let ifaces = Ifaces {
        list: List::of_vec(Vec::new(alloc)),
    };
    npf_config::load(alloc, text, &ifaces, files).map_err(|_| anyhow!("a configuration is refused"))
}

/// Numbers the interfaces of both by one list.
pub fn number(alloc: Global, old: &mut Config, new: &mut Config) -> Result<(), Error> {
    let mut names = Vec::new(alloc);
    for config in [&*old, &*new] {
        for group in config.model().groups.as_slice() {
            add_names(&mut names, group)?;
        }
    }
    let mut list = Vec::new(alloc);
    for name in names.as_slice() {
        list.push(Iface {
            name: *name,
            addrs: List::of_vec(Vec::new(alloc)),
        })?;
    }
    let ifaces = Ifaces {
        list: List::of_vec(list),
    };
    old.number(&ifaces);
    new.number(&ifaces);
    Ok(())
}

fn add_names(names: &mut Vec<Name>, group: &Group) -> Result<(), Error> {
    add_name(names, group.on)?;
    for item in group.items.as_slice() {
        if let Item::One(rule) = item {
            add_name(names, rule.on)?;
        }
    }
    Ok(())
}

fn add_name(names: &mut Vec<Name>, on: Option<OnIf>) -> Result<(), Error> {
    if let Some(on) = on {
        if !names.contains(&on.name) {
            names.push(on.name)?;
        }
    }
    Ok(())
}
