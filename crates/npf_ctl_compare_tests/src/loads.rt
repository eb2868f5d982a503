// Pairs of configurations of rows.
use anyhow::{Result, anyhow, bail};
use npf_config::load;
use npf_expand_interfaces::read_ifaces;
use npf_fixtures::texts::unescaped;
use npf_model::Ifaces;
use npf_outside::MemFiles;
use npf_ruleset::Config;
use npf_types::limits::MAX_TEXT_BYTES;
use std::alloc::Global;

/// The texts of both, and that of the interfaces.
#[derive(Drop)]
pub struct Setting {
    ifaces: Vec<u8>,
    old: Vec<u8>,
    new: Vec<u8>,
}

impl Setting {
    pub fn new(alloc: Global) -> Setting {
        Setting {
            ifaces: Vec::new(alloc),
            old: Vec::new(alloc),
            new: Vec::new(alloc),
        }
    }

    pub fn set_ifaces(&mut self, alloc: Global, text: &str) -> Result<()> {
        self.ifaces = unescaped(alloc, text)?;
        Ok(())
    }

    pub fn set_old(&mut self, alloc: Global, text: &str) -> Result<()> {
        self.old = unescaped(alloc, text)?;
        Ok(())
    }

    pub fn set_new(&mut self, alloc: Global, text: &str) -> Result<()> {
        self.new = unescaped(alloc, text)?;
        Ok(())
    }

    pub fn ifaces(&self, alloc: Global) -> Result<Ifaces> {
        ifaces_of(alloc, self.ifaces.as_slice())
    }

    pub fn old_config(&self, alloc: Global) -> Result<Config> {
        load_text(alloc, &self.ifaces(alloc)?, self.old.as_slice())
    }

    pub fn new_config(&self, alloc: Global) -> Result<Config> {
        load_text(alloc, &self.ifaces(alloc)?, self.new.as_slice())
    }
}

/// The interfaces of a text.
pub fn ifaces_of(alloc: Global, text: &[u8]) -> Result<Ifaces> {
    if text.len() > MAX_TEXT_BYTES {
        bail!("the text is too long");
    }
    match read_ifaces(alloc, text) {
        Ok(ifaces) => Ok(ifaces),
        Err(fault) => Err(anyhow!("{fault:?}")),
    }
}

/// The configuration of a text, whose tables may be read from the files b, few and odd.
pub fn load_text(alloc: Global, ifaces: &Ifaces, text: &[u8]) -> Result<Config> {
    let mut files = MemFiles::new(alloc)?;
    files.put_file("b", b"192.0.2.0/24\n198.51.100.7\n")?;
    files.put_file("few", b"10.0.0.0/31\n10.0.0.3\n2001:db8::2/127\n")?;
    files.put_file("odd", b"10.0.0.1\n10.0.0.3\n2001:db8::1\n")?;
    if text.len() > MAX_TEXT_BYTES {
        bail!("the text is too long");
    }
    match load(alloc, text, ifaces, &mut files) {
        Ok(config) => Ok(config),
        Err(fault) => Err(anyhow!("{fault:?}")),
    }
}
