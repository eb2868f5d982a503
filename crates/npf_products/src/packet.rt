// A packet of a cell.
ghost use Rattle.std.specs.Prelude.{◌≡◌, ◌≤◌, ◌%◌, ◌^◌, true, slice_index};
ghost use Rattle.npf_products.specs.Number.{AreNumbers, IsPacketOfKind, first_top, numbers_of};
ghost use Rattle.npf_products.specs.Packet.{IsProtocol, address_with, place_dir, l4_of, icmp_with, segment_with};
ghost use Rattle.npf_products.specs.Product.{is_possible_first};
ghost use Rattle.npf_products.specs.Space.{IsCutSpace, IsPossibleCell, packet_cell};

use crate::condition::{CONTROL, DESTINATION, FIRST, PLACE, SECOND, SOURCE};
use crate::kind::{Carried, IpFamily, PacketKind};
use crate::space::Space;
use npf_types::{Addr, Dir, Facts, IfId, L4, Segment};

/// A packet that there can be, where it passes.
#[derive(Clone, Copy, Debug, PartialEq, Eq)]
pub struct CellPacket {
    pub facts: Facts,
    pub ifid: IfId,
    pub dir: Dir,
}

impl Space {
    /// A packet of the cell: of each class the least number.
    pub fn packet_of(&self, cell: &[usize; 6]) -> CellPacket
        requires cut { IsCutSpace self.now }
        requires possible { IsPossibleCell self.now cell.now }
        ensures packet { IsPacketOfKind self.now.kind result.facts result.ifid }
        ensures cell { packet_cell self.now result.facts result.ifid result.dir ≡ cell.now }
    {
        let mut numbers = [0; 6];
        for dimension in 0..6 {
            numbers[dimension] = self.axes[dimension].dimension.member(cell[dimension]);
        }
        packet_with(self.kind, &numbers)
    }
}

/// The packet of the kind with these numbers.
fn packet_with(kind: PacketKind, numbers: &[u128; 6]) -> CellPacket
    requires size { AreNumbers kind numbers.now }
    requires possible { is_possible_first kind.carried kind.family (slice_index numbers.now 3) ≡ true }
    ensures packet { IsPacketOfKind kind result.facts result.ifid }
    ensures numbers { numbers_of result.facts result.ifid result.dir ≡ numbers.now }
{
    CellPacket {
        facts: Facts {
            src: address(kind.family, numbers[SOURCE]),
            dst: address(kind.family, numbers[DESTINATION]),
            proto: protocol_with(kind, numbers[FIRST]),
            ip_at: 0,
            l4_at: 0,
            end: 0,
            l4: carried(kind, numbers[FIRST], numbers[SECOND], numbers[CONTROL]),
        },
        ifid: IfId(low_word(numbers[PLACE])),
        dir: direction(numbers[PLACE]),
    }
}

/// The protocol of the kind, or else its first number.
fn protocol_with(kind: PacketKind, first: u128) -> u8
    requires { first ≤ first_top kind.carried }
    ensures { IsProtocol kind.family kind.carried first result }
{
    match (kind.carried, kind.family) {
        (Carried::Tcp, _) => 6,
        (Carried::Udp, _) => 17,
        (Carried::Icmp, IpFamily::Inet4) => 1,
        (Carried::Icmp, IpFamily::Inet6) => 58,
        (Carried::Other, _) => low_byte(first),
    }
}

/// The direction of the place.
fn direction(place: u128) -> Dir
    ensures { result ≡ place_dir place }
{
    if place < 1 << 16 { Dir::In } else { Dir::Out }
}

/// The address of the family with this number.
fn address(family: IpFamily, number: u128) -> Addr
    ensures { result ≡ address_with family number }
{
    match family {
        IpFamily::Inet4 => Addr::V4((number % (1 << 32)) as u32),
        IpFamily::Inet6 => Addr::V6(number),
    }
}

fn low_byte(number: u128) -> u8
    ensures { result ≡ number % 2 ^ 8 }
{
    (number % (1 << 8)) as u8
}

fn low_word(number: u128) -> u16
    ensures { result ≡ number % 2 ^ 16 }
{
    (number % (1 << 16)) as u16
}

/// What the kind carries, with these numbers, as far as it has them.
fn carried(kind: PacketKind, first: u128, second: u128, control: u128) -> L4
    ensures { result ≡ l4_of kind.carried kind.family first second control }
{
    match kind.carried {
        Carried::Tcp => L4::Tcp {
            sport: low_word(first),
            dport: low_word(second),
            seg: segment(low_byte(control)),
            mss_at: None,
        },
        Carried::Udp => L4::Udp {
            sport: low_word(first),
            dport: low_word(second),
        },
        Carried::Icmp => message(kind.family, low_byte(first), low_byte(second)),
        Carried::Other => L4::Other,
    }
}

fn message(family: IpFamily, kind: u8, code: u8) -> L4
    ensures { result ≡ icmp_with family kind code }
{
    match family {
        IpFamily::Inet4 => L4::Icmp {
            kind,
            code,
            echo: None,
        },
        IpFamily::Inet6 => L4::Icmp6 {
            kind,
            code,
            echo: None,
        },
    }
}

fn segment(flags: u8) -> Segment
    ensures { result ≡ segment_with flags }
{
    Segment {
        flags,
        seq: 0,
        ack: 0,
        win: 0,
        len: 0,
        scale: None,
    }
}
