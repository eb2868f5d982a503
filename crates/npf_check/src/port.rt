// Ports stand beside TCP and UDP alone.
ghost use Rattle.std.specs.Prelude.{◌≡◌};
ghost use Rattle.npf_faults.specs.First.{first_fault};
ghost use Rattle.npf_check.specs.Port.{carries_ports, lists_other, names_ports, port_faults};

use npf_faults::{ConfFault, Fault, fault_if};
use npf_model::Rule;
use npf_types::Span;

/// `PortNeedsTcpUdp`, where the rule at this place has a port and lists another protocol.
pub(crate) fn port_fault(span: Span, rule: &Rule) -> Option<ConfFault>
    ensures { result ≡ first_fault (port_faults span rule.now) }
{
    let misplaced = names_ports(rule) && lists_other(rule.protos.as_slice());
    fault_if(misplaced, span, Fault::PortNeedsTcpUdp)
}

fn names_ports(rule: &Rule) -> bool
    ensures { result ≡ names_ports rule.now }
{
    rule.from.ports.is_some() || rule.to.ports.is_some()
}

fn lists_other(protos: &[u8]) -> bool
    ensures { result ≡ lists_other protos.now }
{
    protos.iter().any(|proto| !carries_ports(*proto))
}

/// Whether the protocol is TCP or UDP.
pub(crate) fn carries_ports(proto: u8) -> bool
    ensures { result ≡ carries_ports proto }
{
    proto == 6 || proto == 17
}
