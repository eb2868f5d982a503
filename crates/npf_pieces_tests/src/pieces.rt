// Packets as the RFCs lay them out, with what they are reckoned by hand to be.
ghost use Rattle.std.specs.Prelude.{◌≤◌, length};
ghost use Rattle.npf_pieces.specs.Piece.{IfPiece, IsGood, IsPlacedPiece};

use npf_pieces::{FragKey, Piece, Seen, one_seeing, piece_of};
use npf_traffic::{Packet, PacketBytes};
use npf_types::{Addr, Dir, IfId, Link};

/// The header of a datagram from 10.0.0.1 to 192.0.2.1 with the identification 0x1234.
pub(crate) const HEADER: [u8; 20] = [
    0x45, 0, 0, 36, 0x12, 0x34, 0x20, 0, 64, 17, 0, 0, 10, 0, 0, 1, 192, 0, 2, 1,
];

const KEY: FragKey = FragKey {
    ifid: IfId(3),
    dir: Dir::Out,
    src: Addr::V4(0x0a000001),
    dst: Addr::V4(0xc0000201),
    proto: 17,
    id: 0x1234,
};

/// The piece that an IPv4 packet of `end` bytes without options is.
const fn piece(from: u32, last: bool, end: u32) -> Seen {
    Seen::Piece(Piece {
        key: KEY,
        from,
        last,
        ip_at: 0,
        next_at: 0,
        next: 0,
        head_end: 20,
        data_at: 20,
        end,
    })
}

pub(crate) fn seen(link: Link, bytes: &mut [u8]) -> Seen
    requires { length bytes.old ≤ 100 }
    ensures good { IfPiece IsGood result }
    ensures placed { IfPiece (IsPlacedPiece (length bytes.old)) result }
{
    piece_of(&Packet {
        time: 7,
        link,
        ifid: IfId(3),
        dir: Dir::Out,
        held: None,
        bytes: PacketBytes::of(bytes),
    })
}

#[test]
fn pieces_of_ipv4(rt: HostRuntime) {
    for (total, upper, lower, want) in [
        (36, 0x20, 0x00, piece(0, false, 36)),
        (28, 0x00, 0x02, piece(16, true, 28)),
        (36, 0x60, 0x01, piece(8, false, 36)),
        (29, 0x1f, 0xfd, piece(65_512, true, 29)),
        (36, 0x00, 0x00, Seen::NoFragment),
        (36, 0x40, 0x00, Seen::NoFragment),
        (60, 0x20, 0x00, Seen::NoFragment),
        (33, 0x20, 0x00, Seen::Bad),
        (20, 0x20, 0x00, Seen::Bad),
        (20, 0x00, 0x02, Seen::Bad),
        (35, 0x1f, 0xfe, piece(65_520, true, 35)),
        (36, 0x1f, 0xfe, Seen::Bad),
    ] {
        let mut bytes = [0; 36];
        bytes[..20].copy_from_slice(&HEADER);
        bytes[3] = total;
        bytes[6] = upper;
        bytes[7] = lower;
        let got = seen(Link::Raw, &mut bytes);
        assert_eq!(rt; got, want, "{total} {upper} {lower}");
    }
    one_seeing();
}

#[test]
fn pieces_of_ipv6(rt: HostRuntime) {
    for (payload, offset, want) in [
        (24, 0x01, Some((0, false, 16))),
        (24, 0x09, Some((8, false, 16))),
        (19, 0x12, Some((16, true, 11))),
        (24, 0x00, Some((0, true, 16))),
        (8, 0x00, Some((0, true, 0))),
        (8, 0x01, None),
        (19, 0x01, None),
    ] {
        let mut bytes = [0; 64];
        bytes[0] = 0x60;
        bytes[5] = payload;
        bytes[6] = 44;
        bytes[23] = 1;
        bytes[39] = 2;
        bytes[40] = 17;
        bytes[43] = offset;
        bytes[46] = 0x56;
        bytes[47] = 0x78;
        let got = seen(Link::Raw, &mut bytes);
        assert_eq!(rt;
            got,
            want.map_or(Seen::Bad, |(from, last, size)| piece_v6(from, last, size)),
            "{payload} {offset}"
        );
    }
}

/// The piece of IPv6 with so many bytes of data behind both headers.
fn piece_v6(from: u32, last: bool, size: u8) -> Seen {
    Seen::Piece(Piece {
        key: FragKey {
            src: Addr::V6(1),
            dst: Addr::V6(2),
            proto: 0,
            id: 0x5678,
            ..KEY
        },
        from,
        last,
        ip_at: 0,
        next_at: 6,
        next: 17,
        head_end: 40,
        data_at: 48,
        end: 48 + u32::from(size),
    })
}
