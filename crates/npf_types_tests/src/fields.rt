use crate::comparison::same;
use npf_fields::{get16, get32, get128, put16, put32, put128, sum_adjust};

// An IPv4 header of 115 bytes of UDP from 192.168.0.1 to 192.168.0.199, with its sum 0xb861: the header by which
// "Internet checksum" is mostly explained.
const HEADER: [u8; 20] = [
    0x45, 0x00, 0x00, 0x73, 0x00, 0x00, 0x40, 0x00, 0x40, 0x11, 0xb8, 0x61, 0xc0, 0xa8, 0x00, 0x01,
    0xc0, 0xa8, 0x00, 0xc7,
];

// The address 2001:db8::1 behind two other bytes (RFC 4291 section 2.2).
const BYTES: [u8; 18] = [
    0xff, 0xfe, 0x20, 0x01, 0x0d, 0xb8, 0, 0, 0, 0, 0, 0, 0, 0, 0, 0, 0, 1,
];

const ADDRESS: u128 = 0x2001_0db8_0000_0000_0000_0000_0000_0001;

#[test]
fn fields_are_read(rt: HostRuntime) {
    same(&rt, "the length", get16(&HEADER, 2), 115);
    same(&rt, "the last word", get16(&HEADER, 18), 0x00c7);
    same(&rt, "the source", get32(&HEADER, 12), 0xc0a8_0001);
    same(&rt, "the address", get128(&BYTES, 2), ADDRESS);
}

#[test]
fn fields_are_written(rt: HostRuntime) {
    let mut bytes = [9u8; 18];
    put16(&mut bytes, 16, 0x1f90);
    put32(&mut bytes, 1, 0x0a00_0001);
    let written = [9, 10, 0, 0, 1, 9, 9, 9, 9, 9, 9, 9, 9, 9, 9, 9, 0x1f, 0x90];
    same(&rt, "a port and an address", bytes, written);
    put16(&mut bytes, 0, 0xfffe);
    put128(&mut bytes, 2, ADDRESS);
    same(&rt, "two bytes and an address", bytes, BYTES);
}

// The sum that stands, the old word, the new word, and the sum that follows.
#[test]
fn sums_are_adjusted(rt: HostRuntime) {
    same(
        &rt,
        "RFC 1624 section 4",
        sum_adjust(0xdd2f, 0x5555, 0x3285),
        0x0000,
    );
    same(
        &rt,
        "a time to live one lower",
        sum_adjust(0xb861, 0x4011, 0x3f11),
        0xb961,
    );
    same(
        &rt,
        "the same word",
        sum_adjust(0x1234, 0xabcd, 0xabcd),
        0x1234,
    );
    same(
        &rt,
        "a carry of two",
        sum_adjust(0x0000, 0x0000, 0xffff),
        0x0000,
    );
    same(
        &rt,
        "a carry out of the carry",
        sum_adjust(0x0000, 0x0000, 0x0001),
        0xfffe,
    );
    same(&rt, "no carry", sum_adjust(0xffff, 0xffff, 0x0001), 0xfffe);
}
