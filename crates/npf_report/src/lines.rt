// The line of a packet.
ghost use Rattle.std.specs.Prelude.{◌≡◌, ◌≤◌, ◌++◌, length, drop, IfOk};
ghost use Rattle.npf_types.specs.Name.{name_bytes};
ghost use Rattle.npf_report.specs.LineText.{line_text};

use crate::crossed::Crossed;
use crate::outcomes::write_outcome;
use crate::page::{write_number, write_text};
use npf_engine::Outcome;
use npf_types::{Dir, Name, NoMemory};
use std::alloc::Global;

/// No line of a report is longer, in bytes.
pub const LINE_ROOM: usize = 192;

/// The line, with its line feed, of the packet of this number, which came on this interface in this direction.
pub fn line(
    alloc: Global,
    n: u64,
    name: Name,
    dir: Dir,
    outcome: &Outcome,
) -> Result<Vec<u8>, NoMemory>
    ensures { IfOk result (λ line. line.items ≡ line_text n (name_bytes name) dir outcome.now) }
{
    let mut page = [0; LINE_ROOM];
    let start = write_line(&mut page, LINE_ROOM, n, &Crossed::of(name, dir), outcome);
    Ok(Vec::from_slice(alloc, &page[start..])?)
}

/// Writes that line in front of a place of a page, and answers where it begins. What stands in front of it may change.
#[tactic(auto, unfolding(crate::specs::LineText::line_text))]
pub fn write_line(
    page: &mut [u8],
    end: usize,
    n: u64,
    crossed: &Crossed,
    outcome: &Outcome,
) -> usize
    requires room { 192 ≤ end }
    requires within { end ≤ length page.old }
    ensures order { result ≤ end }
    ensures line { drop result page.new
        ≡ line_text n (name_bytes crossed.now.name) crossed.now.dir outcome.now ++ drop end page.old }
{
    let feed = write_text(page, end, "\n");
    let told = write_outcome(page, feed, outcome);
    let behind = crossed.write(page, told);
    write_number(page, behind, n)
}
