// A generated packet. A sum of UDP that comes to 0 is written 0xFFFF (RFC 768).
ghost use Rattle.std.specs.Prelude.{◌≡◌, ◌≤◌, ◌++◌, ◌/◌, ◌%◌, ◌^◌, OnOk, length};
ghost use Rattle.npf_fields.specs.Checksum.{with_carries as once_carried};
ghost use Rattle.npf_gen.specs.Datagram.{datagram_bytes, datagram_of, ipv4_words, ipv4_sum as sum_of_ipv4, udp_words, udp_sum as sum_of_udp, internet_sum as sum_of_words, word_bytes};

use npf_types::NoMemory;

// Version 4 and a header of five words of 32 bits, with type of service 0.
const VERSION_AND_LENGTH: u16 = 0x4500;

// Time to live 64, with protocol 17.
const TTL_AND_PROTOCOL: u16 = 0x4011;

// Both headers in bytes, and that of UDP alone.
const TOTAL_LEN: u16 = 28;

const UDP_LEN: u16 = 8;

const PROTOCOL_UDP: u16 = 17;

const PORT_DOMAIN: u16 = 53;

/// A datagram of UDP over IPv4 without payload, by its addresses and ports.
#[derive(Clone, Copy, Debug)]
pub struct Datagram {
    pub src: u32,
    pub sport: u16,
    pub dst: u32,
    pub dport: u16,
}

impl Datagram {
    /// What is sent by three draws: from one of 4,096 hosts and 60,000 ports, to one of 64 servers of names.
    pub fn of_draws(host: u32, port: u32, server: u32) -> Datagram
        ensures { result ≡ datagram_of host port server }
    {
        Datagram {
            src: 0x0a00_0000 + host % 4096,
            sport: 1024 + (port % 60_000) as u16,
            dst: 0xc633_6400 + server % 64,
            dport: PORT_DOMAIN,
        }
    }

    /// Writes its bytes.
    pub fn write(&self, out: &mut Vec<u8>) -> Result<(), NoMemory>
        ensures { OnOk result (out.new.items ≡ out.old.items ++ datagram_bytes self.now) }
    {
        write_words(out, &self.ipv4_header(self.ipv4_sum()))?;
        write_words(out, &self.udp_header(self.udp_sum()))
    }

    // The words of the header of IPv4 (RFC 791 section 3.1).
    fn ipv4_header(&self, sum: u16) -> [u16; 10]
        ensures { result ≡ ipv4_words self.now sum }
    {
        [
            VERSION_AND_LENGTH,
            TOTAL_LEN,
            0, // identification
            0, // flags and fragment offset
            TTL_AND_PROTOCOL,
            sum,
            upper_half(self.src),
            lower_half(self.src),
            upper_half(self.dst),
            lower_half(self.dst),
        ]
    }

    // The words of the header of UDP (RFC 768).
    fn udp_header(&self, sum: u16) -> [u16; 4]
        ensures { result ≡ udp_words self.now sum }
    {
        [self.sport, self.dport, UDP_LEN, sum]
    }

    fn ipv4_sum(&self) -> u16
        ensures { result ≡ sum_of_ipv4 self.now }
    {
        internet_sum(&self.ipv4_header(0))
    }

    // The pseudo-header is counted with the header. Where the sum comes to 0 it is written as 0xFFFF.
    fn udp_sum(&self) -> u16
        ensures { result ≡ sum_of_udp self.now }
    {
        let sum = internet_sum(&[
            upper_half(self.src),
            lower_half(self.src),
            upper_half(self.dst),
            lower_half(self.dst),
            PROTOCOL_UDP,
            UDP_LEN,
            self.sport,
            self.dport,
            UDP_LEN,
            0,
        ]);
        if sum == 0 { 0xffff } else { sum }
    }
}

// The Internet checksum of these words (RFC 1071).
fn internet_sum(words: &[u16]) -> u16
    requires { length words.now ≤ 10 }
    ensures { result ≡ sum_of_words words.now }
{
    let mut total: u32 = 0;
    for word in words {
        total += u32::from(*word);
    }
    !(with_carries(with_carries(total)) as u16)
}

// The carries above 16 bits added to the 16 bits below them.
fn with_carries(total: u32) -> u32
    ensures { result ≡ once_carried total }
{
    (total & 0xffff) + (total >> 16)
}

fn upper_half(address: u32) -> u16
    ensures { result ≡ address / 2 ^ 16 }
{
    (address >> 16) as u16
}

fn lower_half(address: u32) -> u16
    ensures { result ≡ address % 2 ^ 16 }
{
    (address & 0xffff) as u16
}

// Writes words, each with its higher byte first.
fn write_words(out: &mut Vec<u8>, words: &[u16]) -> Result<(), NoMemory>
    ensures { OnOk result (out.new.items ≡ out.old.items ++ word_bytes words.now) }
{
    for word in words {
        out.extend_from_slice(&word.to_be_bytes())?;
    }
    Ok(())
}
