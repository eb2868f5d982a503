// Configurations of rows.
ghost use Rattle.std.specs.Prelude.{IfOk};
ghost use Rattle.npf_config.specs.Loaded.{HasNextIds};

use anyhow::{Context, Result, anyhow, bail};
use npf_config::load;
use npf_config_changes::rule_add;
use npf_expand_interfaces::read_ifaces;
use npf_fixtures::texts::unescaped;
use npf_model::Ifaces;
use npf_outside::MemFiles;
use npf_ruleset::Config;
use npf_types::Name;
use npf_types::limits::MAX_TEXT_BYTES;
use std::alloc::Global;

/// A configuration's text, and that of a rule that is added to its ruleset r.
#[derive(Drop)]
pub struct Setting {
    text: Vec<u8>,
    rule: Option<Vec<u8>>,
}

impl Setting {
    pub fn new(alloc: Global) -> Setting {
        Setting {
            text: Vec::new(alloc),
            rule: None,
        }
    }

    pub fn set_text(&mut self, alloc: Global, text: &str) -> Result<()> {
        self.text = unescaped(alloc, text)?;
        self.rule = None;
        Ok(())
    }

    pub fn set_rule(&mut self, alloc: Global, text: &str) -> Result<()> {
        self.rule = Some(unescaped(alloc, text)?);
        Ok(())
    }

    /// The configuration, with the rule where one is added.
    pub fn config(&self, alloc: Global) -> Result<Config> {
        let config = load_text(alloc, self.text.as_slice())?;
        match &self.rule {
            Some(rule) => with_rule(alloc, &config, rule.as_slice()),
            None => Ok(config),
        }
    }
}

/// The interfaces of every row.
pub fn ifaces(alloc: Global) -> Result<Ifaces> {
    match read_ifaces(alloc, b"wm0 192.0.2.254\nwm1 198.51.100.254\n") {
        Ok(ifaces) => Ok(ifaces),
        Err(_) => bail!("the interfaces are refused"),
    }
}

/// The configuration of a text, whose tables may be read from the file b.
fn load_text(alloc: Global, text: &[u8]) -> Result<Config>
    ensures { IfOk result (λ config. HasNextIds 1 config.model) }
{
    let mut files = MemFiles::new(alloc)?;
    files.put_file("b", b"192.0.2.0/24\n198.51.100.7\n")?;
    if text.len() > MAX_TEXT_BYTES {
        bail!("the text is too long");
    }
    match load(alloc, text, &ifaces(alloc)?, &mut files) {
        Ok(config) => Ok(config),
        Err(fault) => Err(anyhow!("{fault:?}")),
    }
}

fn with_rule(alloc: Global, config: &Config, rule: &[u8]) -> Result<Config>
    requires { HasNextIds 1 config.now.model }
{
    if rule.len() > MAX_TEXT_BYTES {
        bail!("the rule is too long");
    }
    let name = Name::of(b"r").context("no name")?;
    match rule_add(alloc, config, name, rule, &ifaces(alloc)?) {
        Ok((config, _number)) => Ok(config),
        Err(fault) => Err(anyhow!("{fault:?}")),
    }
}
