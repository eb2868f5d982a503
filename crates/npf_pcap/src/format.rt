// The four formats that a magic number tells.
//
// The magic number is read with the highest byte first and compared with four numbers, so bytes tell one format at most, whatever they are,
// and the laws of captures need no premise on bytes.
ghost use Rattle.std.specs.Prelude.{◌≡◌, ◌≢◌, ◌+◌, ◌≤◌, length, IfSome, IfNone};
ghost use Rattle.npf_pcap.specs.declared.format.Endianness.{Endianness as OrderType};
ghost use Rattle.npf_pcap.specs.declared.format.Precision.{Precision as PrecisionType};
ghost use Rattle.npf_pcap.specs.Format.{number_at, magic_of, nanoseconds as nanoseconds_of};

use byteorder::{BigEndian, ByteOrder, LittleEndian};

/// In which order the bytes of a number stand.
#[derive(Clone, Copy, Debug, PartialEq, Eq)]
pub enum Endianness {
    Big,
    Little,
}

impl Endianness {
    /// The 16-bit number at a place.
    pub fn number16(self, bytes: &[u8], at: usize) -> u16
        requires { at + 2 ≤ length bytes.now }
        ensures { result ≡ number_at self 2 bytes.now at }
    {
        match self {
            Endianness::Big => BigEndian::read_u16(&bytes[at..]),
            Endianness::Little => LittleEndian::read_u16(&bytes[at..]),
        }
    }

    /// The 32-bit number at a place.
    pub fn number32(self, bytes: &[u8], at: usize) -> u32
        requires { at + 4 ≤ length bytes.now }
        ensures { result ≡ number_at self 4 bytes.now at }
    {
        match self {
            Endianness::Big => BigEndian::read_u32(&bytes[at..]),
            Endianness::Little => LittleEndian::read_u32(&bytes[at..]),
        }
    }
}

/// What a fraction of a second counts: microseconds or nanoseconds.
#[derive(Clone, Copy, Debug, PartialEq, Eq)]
pub enum Precision {
    Micro,
    Nano,
}

impl Precision {
    /// The nanoseconds in a fraction of a second. One of a second or more counts as the greatest below it.
    pub fn nanoseconds(self, fraction: u32) -> u64
        ensures { result ≡ nanoseconds_of self fraction }
    {
        match self {
            Precision::Micro => u64::from(fraction.min(999_999)) * 1000,
            Precision::Nano => u64::from(fraction.min(999_999_999)),
        }
    }
}

/// What a capture's magic number tells.
#[derive(Clone, Copy, Debug, PartialEq, Eq)]
pub struct Format {
    pub order: Endianness,
    pub precision: Precision,
}

impl Format {
    /// The format with this magic number, which was read with the highest byte first; None where none has it.
    pub fn of_magic(magic: u32) -> Option<Format>
        ensures found { IfSome result (λ f. magic ≡ magic_of f.order f.precision) }
        ensures none { IfNone result ((o : OrderType) (p : PrecisionType) → magic ≢ magic_of o p) }
    {
        let (order, precision) = match magic {
            0xa1b2_c3d4 => (Endianness::Big, Precision::Micro),
            0xa1b2_3c4d => (Endianness::Big, Precision::Nano),
            0xd4c3_b2a1 => (Endianness::Little, Precision::Micro),
            0x4d3c_b2a1 => (Endianness::Little, Precision::Nano),
            _ => return None,
        };
        Some(Format { order, precision })
    }
}
