// The addresses of a rule and the block of a map's side.
ghost use Rattle.std.specs.Prelude.{◌≡◌, ◌++◌, IfOk, OnOk, map, unwrap_or};
ghost use Rattle.std.specs.List.{flat_map};
ghost use Rattle.npf_types.specs.Address.{width};
ghost use Rattle.npf_types.specs.Block.{block};
ghost use Rattle.npf_expand_values.specs.Address.{host_item, items_of};
ghost use Rattle.npf_expand_values.specs.Atom.{kept_atom};
ghost use Rattle.npf_expand_values.specs.Source.{declared_by};

use crate::atom::Atom;
use crate::declarations::Declarations;
use crate::iface::Interfaces;
use npf_model::AddrItem;
use npf_types::{Addr, NoMemory, Prefix};
use std::alloc::Global;

/// What values are among the addresses of a rule.
pub fn items_of_each<'a>(
    alloc: Global,
    interfaces: &'a Interfaces<'_>,
    declarations: &Declarations,
    atoms: &[Atom<'a>],
) -> Result<Vec<AddrItem>, NoMemory>
    ensures { IfOk result (λ items. items.items
        ≡ flat_map (λ atom. items_of interfaces.now.list.now (declared_by declarations.now.source).tables (kept_atom atom)) atoms.now) }
{
    let mut items = Vec::new(alloc);
    for atom in atoms {
        add_items(&mut items, interfaces, declarations, atom)?;
    }
    Ok(items)
}

fn add_items<'a>(
    items: &mut Vec<AddrItem>,
    interfaces: &'a Interfaces<'_>,
    declarations: &Declarations,
    atom: &Atom<'a>,
) -> Result<(), NoMemory>
    ensures { OnOk result (items.new.items ≡ items.old.items ++ items_of interfaces.now.list.now (declared_by declarations.now.source).tables (kept_atom atom.now)) }
{
    match atom {
        Atom::Block(addr, len) => {
            items.push(AddrItem::Net(block_of(*addr, *len)))?;
            Ok(())
        }
        Atom::Table(name) => {
            items.push(AddrItem::InTable(declarations.table(name.text.as_slice())))?;
            Ok(())
        }
        _ => add_hosts(items, interfaces.hosts(atom)),
    }
}

fn add_hosts(items: &mut Vec<AddrItem>, addrs: &[Addr]) -> Result<(), NoMemory>
    ensures { OnOk result (items.new.items ≡ items.old.items ++ map host_item addrs.now) }
{
    for addr in addrs {
        items.push(AddrItem::Net(block_of(*addr, None)))?;
    }
    Ok(())
}

/// The block of an address and a length, or of the address alone.
pub fn block_of(addr: Addr, len: Option<u32>) -> Prefix
    ensures { result ≡ block addr (unwrap_or len (width addr)) }
{
    let width = addr.width();
    let len = match len {
        Some(len) => len.min(u32::from(width)) as u8,
        None => width,
    };
    Prefix::of(addr, len).unwrap()
}
