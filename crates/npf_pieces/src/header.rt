// The header of a datagram, made of that of the piece which begins it (RFC 791 section 3.2, RFC 8200 section 4.5).
ghost use Rattle.std.specs.Prelude.{◌≡◌, ◌+◌, ◌-◌, ◌<◌, ◌≤◌, length};
ghost use Rattle.npf_packet.specs.Place.{least_ip_header};
ghost use Rattle.npf_pieces.specs.Datagram.{IsHeaderOf, IsHeaderV4, IsHeaderV6};
ghost use Rattle.npf_pieces.specs.Piece.{named_from};

use crate::piece::Piece;
use npf_fields::{get16, put16, sum_adjust};
use npf_types::Addr;

/// The offsets of the header's fields, in bytes (RFC 791 section 3.1).
mod field_v4 {
    pub const TOTAL_LENGTH: usize = 2;

    pub const FRAGMENT: usize = 6;

    pub const CHECKSUM: usize = 10;
}

/// The offsets of the header's fields, in bytes (RFC 8200 section 3).
mod field_v6 {
    pub const PAYLOAD_LENGTH: usize = 4;
}

/// The least bit of the fragment field that doesn't tell a fragment: those below it say that more follow, or at which offset.
const WHOLE: u16 = 0x4000;

/// Makes the header of the piece that begins a datagram the datagram's, which tells this length.
pub(crate) fn put_header(header: &mut [u8], piece: &Piece, told: u16)
    requires least { least_ip_header piece.now.key.src ≤ length header.old }
    requires named { piece.now.next_at - piece.now.ip_at < length header.old }
    requires behind { named_from piece.now.key.src piece.now.ip_at ≤ piece.now.next_at }
    ensures { IsHeaderOf piece.now.key.src piece.now header.old header.new told }
{
    match piece.key.src {
        Addr::V4(_) => put_header_v4(header, told),
        Addr::V6(_) => put_headers_v6(
            header,
            told,
            (piece.next_at - piece.ip_at) as usize,
            piece.next,
        ),
    }
}

/// Makes the header of a piece of IPv4 that of its datagram of so many bytes.
fn put_header_v4(header: &mut [u8], total: u16)
    requires { 20 ≤ length header.old }
    ensures { IsHeaderV4 header.old header.new total }
{
    let old_total = get16(header, field_v4::TOTAL_LENGTH);
    let old_fragment = get16(header, field_v4::FRAGMENT);
    let fragment = old_fragment - old_fragment % WHOLE;
    let sum = sum_adjust(get16(header, field_v4::CHECKSUM), old_total, total);
    put16(header, field_v4::TOTAL_LENGTH, total);
    put16(header, field_v4::FRAGMENT, fragment);
    put16(
        header,
        field_v4::CHECKSUM,
        sum_adjust(sum, old_fragment, fragment),
    );
}

/// Makes the headers of a piece of IPv6 those of its datagram, with so many bytes behind the first: the byte at `named_at` names
/// what comes behind them.
fn put_headers_v6(headers: &mut [u8], payload: u16, named_at: usize, next: u8)
    requires fixed { 6 ≤ length headers.old }
    requires within { named_at < length headers.old }
    ensures { IsHeaderV6 headers.old headers.new payload named_at next }
{
    headers[named_at] = next;
    put16(headers, field_v6::PAYLOAD_LENGTH, payload);
}
