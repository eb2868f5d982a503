// A hash of the tests' own.
use npf_paths::{Fnv, KeyHash};
use npf_types::Key;

/// FNV-1a for the keys of TCP over IPv4. All others have one hash, so that they meet in the trie down to where their half-bytes part.
pub(crate) struct ByProtocol;

impl KeyHash for ByProtocol {
    ghost use Rattle.npf_trie_tests.specs.ByProtocol.{hash_by_protocol};

    ghost digest = { hash_by_protocol };

    fn hash(key: &Key) -> u64 {
        if key.0[0] >> 48 == 0x0406 {
            Fnv::hash(key)
        } else {
            0
        }
    }
}
