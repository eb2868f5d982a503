// The interfaces of a run by their names, and their addresses by family.
ghost use Rattle.std.specs.Prelude.{◌≡◌, ◌+◌, ◌<◌, IfOk, Some, get_or, length, map};
ghost use Rattle.std.specs.List.{filter};
ghost use Rattle.npf_types.specs.declared.address.Addr.{Addr};
ghost use Rattle.npf_model.specs.declared.iface.Iface.{Iface};
ghost use Rattle.npf_model.specs.Numbering.{number_of_name};
ghost use Rattle.npf_expand_values.specs.Iface.{addresses_of, addresses_of_first, is_of};
ghost use Rattle.npf_expand_values.specs.Parted.{AreParted, iface_texts, is_v4, is_v6};
ghost use Rattle.npf_expand_values.specs.Place.{ArePlaces};

use crate::place::Places;
use npf_model::{Iface, number_of_place};
use npf_syntax::Function;
use npf_types::{Addr, IfId, Name, NoMemory};
use std::alloc::{AllocError, Global};

/// The addresses of an interface, those of each family.
#[derive(Drop)]
pub(crate) struct Families {
    v4: Vec<Addr>,
    v6: Vec<Addr>,
}

/// The interfaces of a run, with the places of their names.
#[derive(Drop)]
pub struct Interfaces<'a> {
    pub list: &'a [Iface],
    places: Places<'a>,
    families: Vec<Families>,
    ghost placed: { ArePlaces places (iface_texts list.now) },
    ghost parted: { AreParted families.items list.now },
}

impl<'a> Interfaces<'a> {
    /// Those of this list.
    pub fn new(alloc: Global, list: &'a [Iface]) -> Result<Interfaces<'a>, NoMemory>
        ensures { IfOk result (λ interfaces. interfaces.list.now ≡ list.now) }
    {
        let places = places_of(alloc, list)?;
        let families = families_of(alloc, list)?;
        Ok(Interfaces {
            list,
            places,
            families,
        })
    }

    /// The number of the interface in the run: its place counted from 1, and 0 of one that isn't there or stands past the
    /// last that has a number.
    pub(crate) fn number(&self, name: &Name) -> IfId
        ensures { result ≡ record { 0 = number_of_name self.now.list.now name.now } }
    {
        match self.places.place(name.as_bytes()) {
            Some(place) => number_of_place(place + 1),
            None => IfId::UNKNOWN,
        }
    }

    /// The addresses that a function gives of the interface of this name; of one that isn't there none.
    pub(crate) fn addresses(&self, function: Function, name: &[u8]) -> &[Addr]
        ensures { result.now ≡ addresses_of self.now.list.now function (Some name.now) }
    {
        match self.places.place(name) {
            Some(place) => self.addresses_at(function, place),
            None => &[],
        }
    }

    /// All addresses of the interface of this name; of one that isn't there none.
    pub(crate) fn all_addresses(&self, name: &[u8]) -> &[Addr]
        ensures { result.now ≡ addresses_of_first self.now.list.now name.now }
    {
        match self.places.place(name) {
            Some(place) => self.all_at(place),
            None => &[],
        }
    }

    fn all_at(&self, place: usize) -> &[Addr]
        requires { place < length self.now.list.now }
        ensures { (d : Iface) → result.now ≡ (get_or self.now.list.now place d).addrs }
    {
        self.list[place].addrs.as_slice()
    }

    fn addresses_at(&self, function: Function, place: usize) -> &[Addr]
        requires { place < length self.now.list.now }
        ensures { (d : Iface) → result.now ≡ filter (is_of function) (get_or self.now.list.now place d).addrs }
    {
        match function {
            Function::Inet4 { .. } => self.families[place].v4.as_slice(),
            Function::Inet6 { .. } => self.families[place].v6.as_slice(),
            Function::IfAddrs { .. } => self.list[place].addrs.as_slice(),
        }
    }
}

fn places_of<'a>(alloc: Global, list: &'a [Iface]) -> Result<Places<'a>, NoMemory>
    ensures { IfOk result (λ places. ArePlaces places (iface_texts list.now)) }
{
    let mut places = Places::new(alloc);
    for iface in list {
        places.add(iface.name.as_bytes())?;
    }
    Ok(places)
}

fn families_of(alloc: Global, list: &[Iface]) -> Result<Vec<Families>, NoMemory>
    ensures { IfOk result (λ families. AreParted families.items list.now) }
{
    let mut families = Vec::new(alloc);
    for iface in list {
        let addrs = iface.addrs.as_slice();
        families.push(Families {
            v4: v4_of(alloc, addrs)?,
            v6: v6_of(alloc, addrs)?,
        })?;
    }
    Ok(families)
}

fn v4_of(alloc: Global, addrs: &[Addr]) -> Result<Vec<Addr>, AllocError>
    ensures { IfOk result (λ all. all.items ≡ filter is_v4 addrs.now) }
{
    addrs
        .iter()
        .copied()
        .filter(|addr| is_v4(addr))
        .collect(alloc)
}

fn v6_of(alloc: Global, addrs: &[Addr]) -> Result<Vec<Addr>, AllocError>
    ensures { IfOk result (λ all. all.items ≡ filter is_v6 addrs.now) }
{
    addrs
        .iter()
        .copied()
        .filter(|addr| !is_v4(addr))
        .collect(alloc)
}

fn is_v4(addr: &Addr) -> bool
    ensures { result ≡ is_v4 addr.now }
{
    matches!(addr, Addr::V4(_))
}
