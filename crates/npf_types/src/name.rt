// Names.
ghost use Rattle.std.specs.Prelude.{◌≡◌, ◌≤◌, ◌-◌, ◌==◌, ◌↔◌, length, take, drop, replicate, IsTrue, IsSome, IfSome};
ghost use Rattle.std.specs.List.{list_all};
ghost use Rattle.npf_types.specs.NameText.{is_name, is_name_byte};

/// The longest name, in bytes.
const LONGEST: usize = 15;

/// A name of npf.conf(5), as of a table, a ruleset or an interface: 1 to 15 bytes, a letter first, then letters,
/// digits, `.`, `_` and `-`, all ASCII.
#[derive(Clone, Copy, Debug, PartialEq, Eq, PartialOrd, Ord, Hash)]
pub struct Name {
    len: u8,
    bytes: [u8; 15],
    pub ghost short: { len ≤ 15 },
    pub ghost named: { IsTrue (is_name (take len bytes)) },
    pub ghost padded: { drop len bytes ≡ replicate (15 - len) 0 },
}

impl Name {
    ghost use Rattle.npf_types.specs.Name.{name_bytes};
    ghost use Rattle.npf_types.specs.Named.{named};

    /// The name that these bytes are. None exactly where they are no name.
    pub fn of(bytes: &[u8]) -> Option<Name>
        ensures named { IsSome result ↔ IsTrue (is_name bytes.now) }
        ensures bytes { IfSome result (λ name. name_bytes name ≡ bytes.now) }
        ensures value { IfSome result (λ name. name ≡ named bytes.now) }
    {
        if !is_name(bytes) {
            return None;
        }
        Some(Name {
            len: bytes.len() as u8,
            bytes: padded(bytes),
        })
    }

    /// The name's bytes.
    pub fn as_bytes(&self) -> &[u8]
        ensures value { result.now ≡ name_bytes self.now }
        ensures named { IsTrue (is_name result.now) }
    {
        &self.bytes[..self.len as usize]
    }
}

fn padded(bytes: &[u8]) -> [u8; LONGEST]
    requires { length bytes.now ≤ 15 }
    ensures name { take (length bytes.now) result ≡ bytes.now }
    ensures rest { drop (length bytes.now) result ≡ replicate (15 - length bytes.now) 0 }
{
    let mut padded = [0u8; LONGEST];
    padded[..bytes.len()].copy_from_slice(bytes);
    padded
}

fn is_name(bytes: &[u8]) -> bool
    ensures value { result ≡ is_name bytes.now }
    ensures fits { IsTrue result → length bytes.now ≤ 15 }
{
    let Some(first) = bytes.first() else {
        return false;
    };
    if bytes.len() > LONGEST || !first.is_ascii_alphabetic() {
        return false;
    }
    are_name_bytes(bytes)
}

fn are_name_bytes(bytes: &[u8]) -> bool
    ensures { result ≡ list_all is_name_byte bytes.now }
{
    bytes.iter().all(|byte| is_name_byte(*byte))
}

fn is_name_byte(byte: u8) -> bool
    ensures { result ≡ is_name_byte byte }
{
    byte.is_ascii_alphanumeric() || byte == b'.' || byte == b'_' || byte == b'-'
}
