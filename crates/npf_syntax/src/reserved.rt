// Interfaces that are named where an address is asked for, and the words that none is named by there.
ghost use Rattle.std.specs.Prelude.{◌≡◌};
ghost use Rattle.std.specs.List.{list_any};
ghost use Rattle.std.specs.Str.{bytes_eq};
ghost use Rattle.npf_syntax.specs.Reserved.{is_iface_word, is_reserved};

use npf_types::Name;

/// The words that go on with a rule or a map, where an address may be forgotten before them.
static RESERVED: [&str; 31] = [
    "any",
    "all",
    "from",
    "to",
    "port",
    "apply",
    "pass",
    "block",
    "on",
    "in",
    "out",
    "final",
    "stateful",
    "stateful-all",
    "family",
    "proto",
    "flags",
    "icmp-type",
    "code",
    "inet4",
    "inet6",
    "ifaddrs",
    "dynamic",
    "static",
    "algo",
    "no-ports",
    "user",
    "group",
    "pcap-filter",
    "layer-2",
    "route",
];

fn is_among(words: &[&str], text: &[u8]) -> bool
    ensures { result ≡ list_any (λ word. bytes_eq word.now text.now) words.now }
{
    words.iter().any(|word| word.as_bytes() == text)
}

#[tactic(auto, unfolding(crate::specs::Reserved::reserved))]
fn is_reserved(word: &[u8]) -> bool
    ensures { result ≡ is_reserved word.now }
{
    is_among(&RESERVED, word)
}

/// Whether a word names an interface where an address is asked for: it is a name, and none of the words that are kept for the
/// grammar there.
#[tactic(auto, unfolding(crate::specs::Reserved::is_iface_word))]
pub fn is_iface_word(word: &[u8]) -> bool
    ensures { result ≡ is_iface_word word.now }
{
    Name::of(word).is_some() && !is_reserved(word)
}
