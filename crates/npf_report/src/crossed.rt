// What stands behind a packet's number.
ghost use Rattle.std.specs.Prelude.{◌≡◌, ◌+◌, ◌≤◌, ◌++◌, codes, length, drop};
ghost use Rattle.npf_types.specs.Name.{name_bytes};
ghost use Rattle.npf_report.specs.LineText.{crossed_text, dir_text};

use crate::page::{write_bytes, write_text};
use npf_types::{Dir, Name};

/// No interface and direction are longer, in bytes.
const CROSSED_ROOM: usize = 24;

/// The interface that packets crossed and their direction, as their lines have them.
#[derive(Clone, Copy)]
pub struct Crossed {
    pub name: Name,
    pub dir: Dir,
    bytes: [u8; CROSSED_ROOM],
    start: usize,
    pub ghost within: { start ≤ 24 },
    pub ghost spelt: { drop start bytes ≡ crossed_text (name_bytes name) dir },
}

impl Crossed {
    /// Packets that crossed this interface in this direction.
    pub fn of(name: Name, dir: Dir) -> Crossed
        ensures name { result.name ≡ name }
        ensures dir { result.dir ≡ dir }
    {
        let mut bytes = [0; CROSSED_ROOM];
        let behind = write_text(&mut bytes, CROSSED_ROOM, dir_text(dir));
        let place = write_bytes(&mut bytes, behind, name.as_bytes());
        let start = write_text(&mut bytes, place, " ");
        Crossed {
            name,
            dir,
            bytes,
            start,
        }
    }

    /// Writes it in front of a place of a page, and answers where it begins. It is copied in one size, whatever its length.
    #[inline(always)]
    pub(crate) fn write(&self, page: &mut [u8], end: usize) -> usize
        requires room { 24 ≤ end }
        requires within { end ≤ length page.old }
        ensures order { result ≤ end }
        ensures short { end ≤ result + 24 }
        ensures written { drop result page.new ≡ crossed_text (name_bytes self.now.name) self.now.dir ++ drop end page.old }
    {
        let from = end - CROSSED_ROOM;
        page[from..end].copy_from_slice(&self.bytes);
        from + self.start
    }
}

fn dir_text(dir: Dir) -> &'static str
    ensures value { result.now ≡ dir_text dir }
    ensures short { length result.now ≤ 5 }
{
    match dir {
        Dir::In => " in ",
        Dir::Out => " out ",
    }
}
