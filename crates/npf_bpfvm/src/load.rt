// The numbers that a program loads from the packet.
ghost use Rattle.std.specs.Prelude.{◌≡◌, ◌%◌, ◌^◌, ◌<◌, length};
ghost use Rattle.npf_bpf.specs.Load.{header_length_at, loaded};

use npf_bpf::Width;

/// The number at this offset, most significant byte first, or none where it isn't all in the packet.
pub fn load(packet: &[u8], width: Width, at: u64) -> Option<u32>
    requires { at < 2 ^ 33 }
    ensures { result ≡ loaded packet.now width at }
{
    let rest = packet.get(at as usize..)?;
    match (width, rest) {
        (Width::Word, [a, b, c, d, ..]) => Some(u32::from_be_bytes([*a, *b, *c, *d])),
        (Width::Half, [a, b, ..]) => Some(u32::from(u16::from_be_bytes([*a, *b]))),
        (Width::Byte, [a, ..]) => Some(u32::from(*a)),
        _ => None,
    }
}

/// The length of the IPv4 header at this offset: four times its first byte's low half.
pub fn header_length_at(packet: &[u8], at: u32) -> Option<u32>
    ensures { result ≡ header_length_at packet.now at }
{
    let first = load(packet, Width::Byte, u64::from(at))?;
    Some(4 * (first & 0x0f))
}

/// The packet's length, modulo 2^32.
pub fn length_of(packet: &[u8]) -> u32
    ensures { result ≡ length packet.now % 2 ^ 32 }
{
    (packet.len() & 0xffff_ffff) as u32
}
