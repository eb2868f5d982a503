use crate::comparison::same;
use npf_types::Addr::{V4, V6};
use npf_types::{Addr, List, Name, Prefix};
use std::process::Abort;
use std::test::Fail;

// Blocks with an address inside and one outside, by the bits of their dotted or hexadecimal spelling.
#[test]
fn a_prefix_has_its_block(rt: HostRuntime) {
    has(
        &rt,
        "10.0.0.0/8",
        (V4(0x0a00_0000), 8),
        V4(0x0aff_ffff),
        V4(0x0b00_0000),
    );
    has(
        &rt,
        "192.0.2.1/32",
        (V4(0xc000_0201), 32),
        V4(0xc000_0201),
        V4(0xc000_0200),
    );
    has(
        &rt,
        "192.168.1.0/25",
        (V4(0xc0a8_0100), 25),
        V4(0xc0a8_017f),
        V4(0xc0a8_0180),
    );
    let documentation = (V6(0x2001_0db8 << 96), 32);
    has(
        &rt,
        "2001:db8::/32",
        documentation,
        V6(0x2001_0db8_ffff << 80),
        V6(0x2001_0db9 << 96),
    );
    has(&rt, "::/0", (V6(0), 0), V6(u128::MAX), V4(0));
    has(&rt, "0.0.0.0/0", (V4(0), 0), V4(u32::MAX), V6(0));
}

/// The block has the first address and not the second.
fn has(rt: &impl Abort, block: &str, (addr, len): (Addr, u8), inside: Addr, outside: Addr) {
    let answers = Prefix::of(addr, len).map(|prefix| (prefix.has(inside), prefix.has(outside)));
    same(rt, block, answers, Some((true, false)));
}

#[test]
fn a_prefix_clears_host_bits_and_knows_its_width(rt: HostRuntime) {
    let cleared = Prefix::of(V4(0x0a01_0203), 8).map(|prefix| (prefix.addr, prefix.len));
    same(&rt, "10.1.2.3/8", cleared, Some((V4(0x0a00_0000), 8)));
    same(&rt, "0.0.0.0/33", Prefix::of(V4(0), 33), None);
    same(&rt, "::/129", Prefix::of(V6(0), 129), None);
    same(&rt, "the width of ::", V6(0).width(), 128);
}

// Texts of RFC 4291 section 2.2 and of RFC 6943 section 3.1.1, and some that are neither.
#[test]
fn addresses_are_read_from_text(rt: HostRuntime) {
    reads(&rt, "192.0.2.1", Some(V4(0xc000_0201)));
    reads(&rt, "0.0.0.0", Some(V4(0)));
    reads(&rt, "255.255.255.255", Some(V4(u32::MAX)));
    reads(&rt, "192.0.2.256", None);
    reads(&rt, "192.0.2.01", None);
    reads(&rt, "192.0.2", None);
    reads(&rt, "2001:db8::1", Some(V6(0x2001_0db8 << 96 | 1)));
    reads(&rt, "::", Some(V6(0)));
    reads(&rt, "::ffff:192.0.2.1", Some(V6(0xffff_c000_0201)));
    reads(&rt, "2001:db8::1::2", None);
    reads(&rt, "2001:db8", None);
    reads(&rt, " ::1", None);
    reads(&rt, "", None);
}

fn reads(rt: &impl Abort, text: &str, addr: Option<Addr>) {
    same(rt, text, Addr::parse_ascii(text.as_bytes()), addr);
}

#[test]
fn names_are_those_of_npf_conf(rt: HostRuntime) {
    is_name(&rt, "wm0", true);
    is_name(&rt, "a", true);
    is_name(&rt, "npf-log.0_x", true);
    is_name(&rt, "abcdefghijklmno", true);
    is_name(&rt, "abcdefghijklmnop", false);
    is_name(&rt, "", false);
    is_name(&rt, "0wm", false);
    is_name(&rt, "-a", false);
    is_name(&rt, "a b", false);
    is_name(&rt, "caf\u{e9}", false);
    same(&rt, "one name", Name::of(b"wm0") == Name::of(b"wm0"), true);
    same(
        &rt,
        "two names",
        Name::of(b"wm0") == Name::of(b"wm1"),
        false,
    );
}

/// The text is a name, which has its bytes, or none.
fn is_name(rt: &impl Abort, text: &str, named: bool) {
    let keeps = Name::of(text.as_bytes()).map(|name| name.as_bytes() == text.as_bytes());
    same(rt, text, keeps, if named { Some(true) } else { None });
}

#[test]
fn a_list_is_its_items(rt: HostRuntime) -> Result<(), Fail> {
    let mut list = List::of_vec([1u8, 2, 3].to_vec(rt.alloc())?);
    list.as_mut_slice()[1] = 7;
    same(&rt, "lent", list.as_slice(), [1, 7, 3].as_slice());
    same(
        &rt,
        "given back",
        list.into_vec().as_slice(),
        [1, 7, 3].as_slice(),
    );
    Ok(())
}
