ghost use Rattle.std.specs.Prelude.{◌==◌, ◌&&◌, ◌||◌, not};

use npf_bpf::Program;
use npf_bpfvm::{Cop, run};
use npf_packet::{Decoded, decode};
use npf_types::limits::MAX_PACKET_BYTES;
use npf_types::{Addr, Link};

/// What a packet's header is. Table 7 has each packet's source, and table 9 its destination.
#[derive(Drop)]
struct Telling {
    header: (u32, u32, u32),
}

impl Cop for Telling {
    ghost tells = { λ told. record {
      header = told.header;
      member = λ table source. (table == 7 && source) || (table == 9 && not source);
    } };

    fn header(&self) -> (u32, u32, u32) {
        self.header
    }

    fn member(&self, table: u32, source: bool) -> bool {
        (table == 7 && source) || (table == 9 && !source)
    }
}

/// What the program returns on the packet.
pub fn value_on(program: &Program, packet: &[u8]) -> u32 {
    let telling = Telling {
        header: header_of(packet),
    };
    run(program, packet, &telling)
}

/// The version of a packet of IP, the place of what it carries, and its protocol.
fn header_of(packet: &[u8]) -> (u32, u32, u32) {
    if packet.len() > MAX_PACKET_BYTES {
        return (0, 0, 0);
    }
    match decode(Link::Raw, packet) {
        Decoded::Ip(facts) => {
            let version = match facts.src {
                Addr::V4(_) => 4,
                Addr::V6(_) => 6,
            };
            (version, facts.l4_at, u32::from(facts.proto))
        }
        _ => (0, 0, 0),
    }
}
