// A configuration of a text that names no files.
use anyhow::{Error, anyhow};
use npf_config::load;
use npf_model::Ifaces;
use npf_outside::MemFiles;
use npf_ruleset::Config;
use npf_types::List;
use npf_types::limits::MAX_TEXT_BYTES;
use std::alloc::Global;

/// The configuration.
pub fn loaded(alloc: Global, text: &[u8]) -> Result<Config, Error> {
    if text.len() > MAX_TEXT_BYTES {
        return Err(anyhow!("the text is too long"));
    }
    let ifaces = Ifaces {
        list: List::of_vec(Vec::new(alloc)),
    };
    let Ok(mut files) = MemFiles::new(alloc) else {
        return Err(anyhow!("out of memory"));
    };
    match load(alloc, text, &ifaces, &mut files) {
        Ok(config) => Ok(config),
        Err(_) => Err(anyhow!("the rules are refused")),
    }
}
