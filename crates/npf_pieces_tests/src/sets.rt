// The sets that pieces make as they come.
ghost use Rattle.npf_pieces.specs.Overlap.{IsTaken};

use crate::pieces::{HEADER, seen};
use npf_pieces::{Arrived, Ending, Seen, SetAt, sets_of};
use npf_types::Link;
use std::alloc::Global;
use std::process::Abort;

/// A second, in nanoseconds.
const SECOND: u64 = 1_000_000_000;

/// A piece of a datagram that came at this time, with the bytes of its fragment field and so many bytes in all.
fn arrived(rt: &impl Abort, time: u64, upper: u8, lower: u8, total: u8) -> Arrived
    ensures { IsTaken result }
{
    let mut bytes = [0; 36];
    bytes[..20].copy_from_slice(&HEADER);
    bytes[3] = total;
    bytes[6] = upper;
    bytes[7] = lower;
    match seen(Link::Raw, &mut bytes) {
        Seen::Piece(piece) => Arrived {
            place: 0,
            time,
            piece,
        },
        _ => panic!(rt; "no piece"),
    }
}

#[test]
fn sets_of_pieces(rt: HostRuntime) {
    let first = arrived(&rt, SECOND, 0x20, 0, 36);
    let overlapping = arrived(&rt, 2 * SECOND, 0, 1, 36);
    let last = arrived(&rt, 2 * SECOND, 0, 2, 28);
    let in_time = arrived(&rt, 31 * SECOND - 1, 0, 2, 28);
    let late = arrived(&rt, 31 * SECOND, 0, 2, 28);
    let other_last = arrived(&rt, 2 * SECOND, 0, 1, 28);
    let past_last = arrived(&rt, 2 * SECOND, 0x20, 3, 28);
    let behind_gap = arrived(&rt, 2 * SECOND, 0, 3, 28);
    let complete = SetAt {
        first: 0,
        behind: 2,
        ending: Ending::Complete,
    };
    let refused = SetAt {
        ending: Ending::Refused,
        ..complete
    };
    let unfinished = SetAt {
        ending: Ending::Unfinished,
        ..complete
    };
    let waits = SetAt {
        first: 0,
        behind: 1,
        ending: Ending::Unfinished,
    };
    let waits_too = SetAt {
        first: 1,
        behind: 2,
        ..waits
    };
    check(&rt, rt.alloc(), first, last, &[complete]);
    check(&rt, rt.alloc(), last, first, &[complete]);
    check(&rt, rt.alloc(), first, overlapping, &[refused]);
    check(&rt, rt.alloc(), first, first, &[refused]);
    check(&rt, rt.alloc(), last, last, &[refused]);
    check(&rt, rt.alloc(), last, other_last, &[refused]);
    check(&rt, rt.alloc(), last, past_last, &[refused]);
    check(&rt, rt.alloc(), past_last, last, &[refused]);
    check(&rt, rt.alloc(), first, behind_gap, &[unfinished]);
    check(&rt, rt.alloc(), first, in_time, &[complete]);
    check(&rt, rt.alloc(), first, late, &[waits, waits_too]);
}

fn check(rt: &impl Abort, alloc: Global, one: Arrived, other: Arrived, want: &[SetAt])
    requires one { IsTaken one }
    requires other { IsTaken other }
{
    let sets = sets_of(alloc, &[one, other]).expect(rt, "memory");
    assert_eq!(rt; sets.as_slice(), want);
}
