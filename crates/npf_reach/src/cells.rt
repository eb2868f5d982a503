// Products as boxes, kind by kind.
ghost use Rattle.std.specs.Prelude.{◌≡◌, ◌≤◌, All, IfOk, IsErrOf, map};
ghost use Rattle.npf_steps.specs.Spent.{IsSpent};
ghost use Rattle.npf_reach.specs.Kinds.{AreKindsOf, IsKindOf, cells_kind};

use crate::kind_cells::KindCells;
use npf_products::{PacketKind, Product, Space, kinds};
use npf_steps::{Steps, Stopped};
use npf_types::{List, Prefix};
use std::alloc::Global;

/// The products' boxes for each kind of packets. The tables are those of all configurations that products are of, one behind the other.
///
/// # Errors
/// `Stopped::Spent` where it wants more steps than are left, and `Stopped::NoMemory`.
pub fn cells_of(
    alloc: Global,
    tables: &[List<Prefix>],
    products: &[Product<'_>],
    steps: &mut Steps,
) -> Result<Vec<KindCells>, Stopped>
    ensures kinds { IfOk result (λ cells. AreKindsOf tables.now products.now cells.items) }
    ensures spent { IsErrOf result Stopped.Spent → IsSpent steps.new }
    ensures most { steps.new.most ≡ steps.old.most }
    ensures rises { steps.old.taken ≤ steps.new.taken }
{
    let all = kinds();
    let cells = cells_of_kinds(alloc, &all, tables, products, steps)?;
    Ok(cells)
}

/// The products' boxes for each of these kinds.
fn cells_of_kinds(
    alloc: Global,
    kinds: &[PacketKind],
    tables: &[List<Prefix>],
    products: &[Product<'_>],
    steps: &mut Steps,
) -> Result<Vec<KindCells>, Stopped>
    ensures each { IfOk result (λ cells. All (IsKindOf tables.now products.now) cells.items) }
    ensures kinds { IfOk result (λ cells. map cells_kind cells.items ≡ kinds.now) }
    ensures spent { IsErrOf result Stopped.Spent → IsSpent steps.new }
    ensures most { steps.new.most ≡ steps.old.most }
    ensures rises { steps.old.taken ≤ steps.new.taken }
{
    let mut cells = Vec::new(alloc);
    for kind in kinds {
        cells.push(kind_cells(alloc, *kind, tables, products, steps)?)?;
    }
    Ok(cells)
}

/// The products' boxes for one kind.
fn kind_cells(
    alloc: Global,
    kind: PacketKind,
    tables: &[List<Prefix>],
    products: &[Product<'_>],
    steps: &mut Steps,
) -> Result<KindCells, Stopped>
    ensures kind { IfOk result (λ cells. cells_kind cells ≡ kind) }
    ensures of { IfOk result (IsKindOf tables.now products.now) }
    ensures spent { IsErrOf result Stopped.Spent → IsSpent steps.new }
    ensures most { steps.new.most ≡ steps.old.most }
    ensures rises { steps.old.taken ≤ steps.new.taken }
{
    let space = Space::new(alloc, kind, tables, products, steps)?;
    let boxes = space.boxes(alloc, steps)?;
    Ok(KindCells { space, boxes })
}
