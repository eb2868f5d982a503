// What is written into the answers to a translated packet.
ghost use Rattle.std.specs.Prelude.{◌≡◌};
ghost use Rattle.std.specs.Option.{option_map};
ghost use Rattle.npf_nat.specs.Answer.{own_end, answer_change};

use npf_key::{destination_port, source_port};
use npf_types::{Addr, Change, End, Facts};

/// The change of the answers to a packet that `there` translates: back to the packet's own ends.
pub fn answer_change(facts: &Facts, there: &Change) -> Change
    ensures { result ≡ answer_change facts.now there.now }
{
    Change {
        src: own_end(facts.dst, destination_port(&facts.l4), there.dst),
        dst: own_end(facts.src, source_port(&facts.l4), there.src),
        neutral: there.neutral,
    }
}

/// The packet's own end where the change names one there, with its port where the change names a
/// port.
fn own_end(addr: Addr, port: u16, named: Option<End>) -> Option<End>
    ensures { result ≡ option_map (own_end addr port) named }
{
    match named {
        Some(End { port: Some(_), .. }) => Some(End {
            addr,
            port: Some(port),
        }),
        Some(End { port: None, .. }) => Some(End { addr, port: None }),
        None => None,
    }
}
