// The classes of keys.
use crate::offers::KEY;
use npf_pieces::FragKey;
use npf_reass::class_of;
use npf_types::Addr;

/// 2001:db8::1 and fe80::2: the exclusive or of their halves is 0xde81_0db8_0000_0003.
const KEY_V6: FragKey = FragKey {
    src: Addr::V6(0x2001_0db8_0000_0000_0000_0000_0000_0001),
    dst: Addr::V6(0xfe80_0000_0000_0000_0000_0000_0000_0002),
    proto: 0,
    id: 7,
    ..KEY
};

#[test]
fn classes_of_keys(rt: HostRuntime) {
    for (classes, key, wanted) in [
        (1, KEY, 0),
        (4, KEY, 1),
        (5, KEY, 1),
        (4096, KEY, 0x211),
        (4096, FragKey { id: 2, ..KEY }, 0x213),
        (4096, FragKey { proto: 6, ..KEY }, 0x206),
        (4096, KEY_V6, 4),
        (7, KEY_V6, 5),
    ] {
        assert_eq!(rt; class_of(classes, &key), wanted, "{classes} {key:?}");
    }
}
