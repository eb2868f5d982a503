// What follows of the keys' definitions: each is a theorem about what `key_of`, `keys_of` and `port_key` equal.
ghost use Rattle.npf_key.specs.Laws.{KeysTellApart, TranslationKeepsFamily, BackwardKeysTellApart, PortKeysStandApart, PortKeysTellApart, AnswersComeBack, ThereAndBack};

/// Packets have one key exactly where their addresses, protocol, interface and ports are the same.
pub fn keys_tell_apart()
    ensures { KeysTellApart }
{}

/// No packet has the key of a port, and ports have one key exactly where their addresses and numbers are the same.
pub fn port_keys_stand_apart()
    ensures apart { PortKeysStandApart }
    ensures told { PortKeysTellApart }
{}

/// A translated packet is of its family still, and another has its backward key exactly where it goes from its destination to its
/// source.
pub fn backward_keys_tell_apart()
    ensures family { TranslationKeepsFamily }
    ensures told { BackwardKeysTellApart }
{
    keys_tell_apart();
}

/// The answer to a packet that isn't translated has the packet's backward key, and the packet's key is the answer's backward
/// key.
pub fn answers_come_back()
    ensures there { AnswersComeBack }
    ensures back { ThereAndBack }
{}
