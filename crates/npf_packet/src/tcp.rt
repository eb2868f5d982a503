// TCP (RFC 9293 section 3.1); specs/Tcp.antt has the picture of its header.
ghost use Rattle.std.specs.Prelude.{◌≡◌, ◌+◌, ◌*◌, ◌/◌, ◌≤◌, length, IfOk};
ghost use Rattle.npf_packet.specs.Packet.{IsPlaced};
ghost use Rattle.npf_packet.specs.Tcp.{CarriesTcp, header_end, segment_of};

use crate::decoded::Decoded;
use crate::packet::IpPacket;
use crate::tcp_option::{Options, options_between};
use npf_fields::{get16, get32};
use npf_types::limits::MAX_PACKET_BYTES;
use npf_types::{L4, Segment};

/// The offsets of the header's fields, in bytes.
mod field {
    pub const SOURCE_PORT: usize = 0;

    pub const DESTINATION_PORT: usize = 2;

    pub const SEQUENCE: usize = 4;

    pub const ACKNOWLEDGMENT: usize = 8;

    pub const DATA_OFFSET: usize = 12;

    pub const FLAGS: usize = 13;

    pub const WINDOW: usize = 14;
}

/// The header without options, in bytes.
const HEADER: usize = 20;

/// What a packet says that carries TCP.
pub(crate) fn decode_tcp(bytes: &[u8], packet: IpPacket) -> Decoded
    requires size { length bytes.now ≤ MAX_PACKET_BYTES }
    requires placed { IsPlaced bytes.now packet }
    ensures { CarriesTcp bytes.now packet result }
{
    match header_end(bytes, packet) {
        Ok(header_end) => {
            let options = options_between(bytes, packet.l4_at + HEADER, header_end);
            Decoded::Ip(packet.facts(segment(bytes, packet, header_end, options)))
        }
        Err(answer) => answer,
    }
}

/// Where the header ends, or the answer where one of its tests fits.
fn header_end(bytes: &[u8], packet: IpPacket) -> Result<usize, Decoded>
    requires size { length bytes.now ≤ MAX_PACKET_BYTES }
    requires placed { IsPlaced bytes.now packet }
    ensures value { result ≡ header_end bytes.now packet }
    ensures after { IfOk result (λ header_end. packet.l4_at + 20 ≤ header_end) }
    ensures before { IfOk result (λ header_end. header_end ≤ packet.end) }
{
    if packet.end < packet.l4_at + HEADER {
        return Err(Decoded::cut(packet.end));
    }
    let header_len = header_len(bytes[packet.l4_at + field::DATA_OFFSET]);
    if header_len < HEADER {
        return Err(Decoded::bad(packet.l4_at + field::DATA_OFFSET));
    }
    if packet.end < packet.l4_at + header_len {
        return Err(Decoded::cut(packet.end));
    }
    Ok(packet.l4_at + header_len)
}

/// The header's length in bytes, from the byte that begins with the data offset.
fn header_len(byte: u8) -> usize
    ensures { result ≡ 4 * (byte / 16) }
{
    4 * (byte >> 4) as usize
}

/// What a segment says whose header is whole.
fn segment(bytes: &[u8], packet: IpPacket, header_end: usize, options: Options) -> L4
    requires size { length bytes.now ≤ MAX_PACKET_BYTES }
    requires placed { IsPlaced bytes.now packet }
    requires after { packet.l4_at + 20 ≤ header_end }
    requires before { header_end ≤ packet.end }
    ensures { result ≡ segment_of bytes.now packet header_end options }
{
    let at = packet.l4_at;
    L4::Tcp {
        sport: get16(bytes, at + field::SOURCE_PORT),
        dport: get16(bytes, at + field::DESTINATION_PORT),
        seg: Segment {
            flags: bytes[at + field::FLAGS],
            seq: get32(bytes, at + field::SEQUENCE),
            ack: get32(bytes, at + field::ACKNOWLEDGMENT),
            win: get16(bytes, at + field::WINDOW),
            len: (packet.end - header_end) as u32,
            scale: options.scale,
        },
        mss_at: options.mss_at,
    }
}
