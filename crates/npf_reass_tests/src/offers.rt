// Numbered pieces, and what is told of the lists that they are gathered in.
use npf_pieces::{FragKey, Piece};
use npf_types::{Addr, Dir, IfId};
use std::fmt::Write;
use std::test::Fail;

/// From 10.0.0.1 to 192.0.2.1: with UDP, the exclusive or of the addresses and the protocol is 0xca00_0211.
pub(crate) const KEY: FragKey = FragKey {
    ifid: IfId(3),
    dir: Dir::Out,
    src: Addr::V4(0x0a00_0001),
    dst: Addr::V4(0xc000_0201),
    proto: 17,
    id: 0,
};

/// How many datagrams the pieces are of.
const DATAGRAMS: u64 = 5;

/// The piece with this number, of the datagram whose identification is the number modulo 5.
pub(crate) fn piece_of_number(number: u64) -> Piece {
    Piece {
        key: FragKey {
            id: (number % DATAGRAMS) as u32,
            ..KEY
        },
        from: 8 * (number % 8192) as u32,
        last: false,
        ip_at: 0,
        next_at: 0,
        next: 0,
        head_end: 20,
        data_at: 20,
        end: 28,
    }
}

/// Puts a line for each list, with the numbers in it, behind what was told before.
pub(crate) fn put_lists(told: &mut String, lists: &[Vec<(u64, Piece)>]) -> Result<(), Fail> {
    for list in lists {
        put_list(told, list.as_slice())?;
    }
    Ok(())
}

fn put_list(told: &mut String, list: &[(u64, Piece)]) -> Result<(), Fail> {
    for (number, piece) in list {
        let own = *piece == piece_of_number(*number);
        write!(told, "{number}{} ", if own { "" } else { "?" })?;
    }
    told.push('\n')?;
    Ok(())
}
