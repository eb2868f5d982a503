// A configuration from its text.
use anyhow::{Error, anyhow};
use npf_config::load;
use npf_model::{Iface, Ifaces};
use npf_outside::FolderFiles;
use npf_ruleset::Config;
use npf_types::limits::MAX_TEXT_BYTES;
use npf_types::{List, Name};
use std::alloc::Global;

/// The configuration of a text, for a run with one interface, without addresses.
pub fn config_of(rt: &HostRuntime, text: &[u8], name: &str) -> Result<Config, Error> {
    let alloc = rt.alloc();
    if text.len() > MAX_TEXT_BYTES {
        return Err(anyhow!("the configuration is too long"));
    }
    let none = Ifaces {
        list: List::of_vec(Vec::new(alloc)),
    };
    let Ok(mut config) = load(alloc, text, &none, &mut FolderFiles::new(rt)) else {
        return Err(anyhow!("the configuration is refused"));
    };
    config.number(&interfaces(alloc, name)?);
    Ok(config)
}

fn interfaces(alloc: Global, name: &str) -> Result<Ifaces, Error> {
    let Some(name) = Name::of(name.as_bytes()) else {
        return Err(anyhow!("{name}: no name of an interface"));
    };
    let addrs = List::of_vec(Vec::new(alloc));
    let list = Vec::from_array(alloc, [Iface { name, addrs }])?;
    Ok(Ifaces {
        list: List::of_vec(list),
    })
}
