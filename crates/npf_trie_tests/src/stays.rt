// A reader that pins an epoch after another pass has scanned it, and the epoch that it holds back.
ghost use Rattle.std.specs.Prelude.{◌≡◌};
ghost use Rattle.npf_cells_pins.specs.declared.pin.Pin.TheVariants.{Idle};
ghost use Rattle.npf_cells.specs.Cells.{IsPassIn};

use crate::answers::{put, same};
use crate::by_protocol::ByProtocol;
use npf_cells::{CellPass, Cells, LAST_EPOCH};
use npf_epoch::{enter, leave, scan_readers, try_advance};
use npf_flow::FlowLaw;
use std::alloc::Global;
use std::test::Fail;

// The first pass of a table pins by this place.
const FIRST_READER: u32 = 65;

// The reader loads the epoch and is set aside. The other raises it, loads it and scans all readers, each being idle. The
// reader pins what it loaded, and protects. The other raises the epoch by the scan that it made; it can't by the next one, until
// the reader unpins. Tells what each loaded, and then whether the epoch was raised.
fn tell_held(
    cells: &Cells<FlowLaw, ByProtocol>,
    reader: &mut CellPass<FlowLaw>,
    other: &mut CellPass<FlowLaw>,
    told: &mut String,
) -> Result<(), Fail>
    requires own { IsPassIn cells.now reader.old }
    requires other_own { IsPassIn cells.now other.old }
    requires idle { reader.old.seat.me.0.epochs.pin ≡ Idle }
{
    let first = cells.load_epoch(reader);
    let raised = try_advance(cells, other);
    let second = cells.load_epoch(other);
    if second == LAST_EPOCH || !scan_readers(cells, other, second) {
        return Err("a reader is pinned".into());
    }
    cells.pin(reader, first);
    let protecting = cells.protect(reader);
    let raised_again = cells.advance(other, second);
    let raised_past_it = try_advance(cells, other);
    let third = cells.load_epoch(other);
    let scanned = cells.scan_reader(other, FIRST_READER);
    cells.unpin(reader);
    let raised_after_it = try_advance(cells, other);
    put(told, &[first, second, protecting, third, scanned])?;
    put(
        told,
        &[raised, raised_again, raised_past_it, raised_after_it],
    )
}

fn tell_reader(alloc: Global, told: &mut String) -> Result<(), Fail> {
    let (cells, mut reader) = Cells::<FlowLaw, ByProtocol>::new(alloc, 64, 16)?;
    let mut other = cells.split(&mut reader);
    tell_held(&cells, &mut reader, &mut other, told)
}

// Whether the epoch is raised once and again beside a stay, and once the stay has ended; and the epoch then.
fn tell_stay(alloc: Global, told: &mut String) -> Result<(), Fail> {
    let (cells, mut reader) = Cells::<FlowLaw, ByProtocol>::new(alloc, 1, 16)?;
    let mut other = cells.split(&mut reader);
    enter(&cells, &mut reader);
    let once = try_advance(&cells, &mut other);
    let again = try_advance(&cells, &mut other);
    leave(&cells, &mut reader);
    let after = try_advance(&cells, &mut other);
    cells.join(&mut reader, other);
    put(told, &(once, again, after, cells.load_epoch(&mut reader)))
}

#[test]
fn reader_is_protected_from_its_second_load_on(rt: HostRuntime) -> Result<(), Fail> {
    let mut told = String::new(rt.alloc());
    tell_reader(rt.alloc(), &mut told)?;
    tell_stay(rt.alloc(), &mut told)?;
    same(
        &rt,
        told.as_str(),
        "[2, 3, 3, 4, 3]
[true, true, false, true]
(true, false, true, 4)
",
    );
    Ok(())
}
