// Where packets pass.
ghost use Rattle.std.specs.Prelude.{◌≡◌, ◌+◌, ◌∷◌, [], IfOk, OnOk};
ghost use Rattle.npf_model.specs.Place.{fits_dir, fits_on, is_on};
ghost use Rattle.npf_model.specs.declared.rule.OnIf.{OnIf};
ghost use Rattle.npf_products.specs.declared.kind.PacketKind.{PacketKind};
ghost use Rattle.npf_products.specs.Adds.{AddsTest};
ghost use Rattle.npf_products.specs.Number.{first_place};

use crate::add::{add_range, add_ranges, add_test};
use crate::condition::{Condition, PLACE};
use npf_model::OnIf;
use npf_types::{Dir, IfId, NoMemory};
use std::alloc::Global;

// The place of the interface 0 where packets go out.
const OUT: u128 = 1 << 16;

/// Adds the condition that the direction is the one that is asked for, if one is.
pub(crate) fn add_direction(
    alloc: Global,
    conditions: &mut Vec<Condition>,
    asked: Option<Dir>,
) -> Result<(), NoMemory>
    ensures { OnOk result ((kind : PacketKind) → AddsTest kind conditions.old.items conditions.new.items (λ _ _ _ dir. fits_dir asked dir)) }
{
    let Some(dir) = asked else {
        return Ok(());
    };
    let first = first_place(dir);
    add_range(alloc, conditions, PLACE, first, first + (OUT - 1))?;
    Ok(())
}

/// The least place of the direction.
fn first_place(dir: Dir) -> u128
    ensures { result ≡ first_place dir }
{
    match dir {
        Dir::In => 0,
        Dir::Out => OUT,
    }
}

/// Adds the condition that the interface is the one that is asked for, if one is.
pub(crate) fn add_interface(
    alloc: Global,
    conditions: &mut Vec<Condition>,
    asked: Option<OnIf>,
) -> Result<(), NoMemory>
    ensures { OnOk result ((kind : PacketKind) → AddsTest kind conditions.old.items conditions.new.items (λ _ _ ifid _. fits_on asked ifid)) }
{
    let Some(on) = asked else {
        return Ok(());
    };
    add_on(alloc, conditions, on.id)?;
    Ok(())
}

/// Adds the condition that the interface is this one, which is none of a packet where its number is 0.
pub(crate) fn add_on(
    alloc: Global,
    conditions: &mut Vec<Condition>,
    id: IfId,
) -> Result<(), NoMemory>
    ensures { OnOk result ((kind : PacketKind) (on : OnIf) → on.id ≡ id
        → AddsTest kind conditions.old.items conditions.new.items (λ _ _ ifid _. is_on on ifid)) }
{
    if id.0 == 0 {
        add_test(alloc, conditions, false)?;
        return Ok(());
    }
    add_ranges(alloc, conditions, PLACE, places_of(alloc, id.0)?)?;
    Ok(())
}

/// The places of the interface of this number.
fn places_of(alloc: Global, id: u16) -> Result<Vec<(u128, u128)>, NoMemory>
    ensures { IfOk result (λ places. places.items ≡ (id, id) ∷ (65536 + id, 65536 + id) ∷ []) }
{
    let number = u128::from(id);
    Ok(vec![in alloc; (number, number), (OUT + number, OUT + number)]?)
}
