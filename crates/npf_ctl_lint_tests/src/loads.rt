// Configurations of rows.
use anyhow::{Result, anyhow, bail};
use npf_config::load;
use npf_ctl_messages::CommandFault;
use npf_expand_interfaces::read_ifaces;
use npf_fixtures::texts::unescaped;
use npf_model::Ifaces;
use npf_outside::MemFiles;
use npf_ruleset::Config;
use npf_types::limits::MAX_TEXT_BYTES;
use std::alloc::Global;

/// A configuration's text.
#[derive(Drop)]
pub struct Setting {
    text: Vec<u8>,
}

impl Setting {
    pub fn new(alloc: Global) -> Setting {
        Setting {
            text: Vec::new(alloc),
        }
    }

    pub fn set_text(&mut self, alloc: Global, text: &str) -> Result<()> {
        self.text = unescaped(alloc, text)?;
        Ok(())
    }

    pub fn config(&self, alloc: Global) -> Result<Config> {
        load_text(alloc, self.text.as_slice())
    }
}

/// The interfaces of every row.
pub fn run_ifaces(alloc: Global) -> Result<Ifaces, CommandFault> {
    match read_ifaces(alloc, b"wm0 192.0.2.254\nwm1 198.51.100.254\n") {
        Ok(ifaces) => Ok(ifaces),
        Err(_) => Err(CommandFault::Usage),
    }
}

/// The configuration of a text, whose tables may be read from the files b, few and odd.
pub fn load_text(alloc: Global, text: &[u8]) -> Result<Config> {
    let mut files = MemFiles::new(alloc)?;
    files.put_file("b", b"192.0.2.0/24\n198.51.100.7\n")?;
    files.put_file("few", b"10.0.0.0/31\n10.0.0.3\n2001:db8::2/127\n")?;
    files.put_file("odd", b"10.0.0.1\n10.0.0.3\n2001:db8::1\n")?;
    if text.len() > MAX_TEXT_BYTES {
        bail!("the text is too long");
    }
    let Ok(ifaces) = run_ifaces(alloc) else {
        bail!("the interfaces are refused");
    };
    match load(alloc, text, &ifaces, &mut files) {
        Ok(config) => Ok(config),
        Err(fault) => Err(anyhow!("{fault:?}")),
    }
}
