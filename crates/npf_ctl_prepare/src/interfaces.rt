// The numbers of a run's interfaces.
ghost use Rattle.std.specs.Prelude.{◌≡◌};
ghost use Rattle.npf_ruleset.specs.Configuration.{configuration};
ghost use Rattle.npf_ctl_prepare.specs.Prepares.{numbered_by};
ghost use Rattle.npf_ctl_prepare.specs.Told.{IsChangeable};

use npf_model::Ifaces;
use npf_ruleset::Config;

/// The configuration with the numbers of these interfaces, all else as it was.
pub(crate) fn numbered(mut config: Config, ifaces: &Ifaces) -> Config
    requires { IsChangeable 1 config }
    ensures value { configuration result ≡ numbered_by ifaces.now.list (configuration config) }
    ensures changeable { IsChangeable 1 result }
{
    config.number(ifaces);
    config
}
