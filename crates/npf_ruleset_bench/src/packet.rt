// The packets that are asked for, of UDP without a payload.
use crate::text::{Match, next, port_for};
use std::alloc::{AllocError, Global};

/// A packet's bytes.
pub type Record = [u8; 28];

/// 64 packets from the upper half of 10.0.0.0/8 to 192.0.2.1, which that rule matches.
pub fn walked(alloc: Global, matched: Match) -> Result<Vec<Record>, AllocError> {
    let mut records = Vec::new(alloc);
    let mut draw = 7;
    for _ in 0..64 {
        draw = next(draw);
        let [first, second, third, _] = draw.to_be_bytes();
        let from = [10, first | 128, second, third];
        records.push(record(from, [192, 0, 2, 1], port_for(matched, draw)))?;
    }
    Ok(records)
}

/// 128 packets to 10.0.r.9, every other one to the port of rule r, in an order that isn't that of the rules.
pub fn run(alloc: Global) -> Result<Vec<Record>, AllocError> {
    let mut records = Vec::new(alloc);
    for number in 0..128u8 {
        let rule = number.wrapping_mul(7) % 128;
        let port = if number % 2 == 0 {
            1000 + u16::from(rule)
        } else {
            53
        };
        records.push(record([192, 0, 2, 1], [10, 0, rule, 9], port))?;
    }
    Ok(records)
}

fn record(from: [u8; 4], to: [u8; 4], port: u16) -> Record {
    let [from0, from1, from2, from3] = from;
    let [to0, to1, to2, to3] = to;
    let [upper, lower] = port.to_be_bytes();
    [
        0x45, 0, 0, 28, 0, 0, 0, 0, 64, 17, 0, 0, from0, from1, from2, from3, to0, to1, to2, to3,
        0x13, 0x88, upper, lower, 0, 8, 0, 0,
    ]
}
