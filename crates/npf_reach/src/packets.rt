// Packets of all kinds.
use crate::kind_cells::KindCells;
use crate::part::KindPart;
use npf_products::{CellPacket, Product};
use npf_search::Decider;
use npf_steps::{Steps, Stopped};
use npf_types::{List, NoMemory, Prefix};
use std::alloc::Global;

/// Packets of all kinds, of which products and tables tell: those of some cells of each kind.
#[derive(Drop)]
pub struct Packets<'a> {
    pub(crate) tables: &'a [List<Prefix>],
    pub(crate) products: &'a [Product<'a>],
    pub(crate) parts: Vec<KindPart<'a>>,
}

impl<'a> Packets<'a> {
    ghost use Rattle.std.specs.Prelude.{◌≡◌, ◌≤◌, ◌<◌, ◌+◌, ◌&&◌, true, false, IfOk, IfSome, IsErrOf, Ok, None, length};
    ghost use Rattle.npf_types.specs.declared.direction.Dir.{Dir};
    ghost use Rattle.npf_types.specs.declared.facts.Facts.{Facts};
    ghost use Rattle.npf_types.specs.declared.interface.IfId.{IfId};
    ghost use Rattle.npf_steps.specs.Spent.{IsSpent};
    ghost use Rattle.npf_search.specs.Region.{decides};
    ghost use Rattle.npf_reach.specs.Kinds.{AreKindsOf, IsPacket, held_at};
    ghost use Rattle.npf_reach.specs.Packets.{IsOf, has_packet};

    /// All packets that there can be.
    ///
    /// # Errors
    /// Where memory runs out.
    pub fn new(
        alloc: Global,
        tables: &'a [List<Prefix>],
        products: &'a [Product<'a>],
        cells: &'a [KindCells],
    ) -> Result<Packets<'a>, NoMemory>
        requires { AreKindsOf tables.now products.now cells.now }
        ensures of { IfOk result (λ packets. IsOf tables.now products.now packets) }
        ensures all { IfOk result (λ packets. (facts : Facts) (ifid : IfId) (dir : Dir) → IsPacket facts ifid → has_packet packets facts ifid dir ≡ true) }
    {
        let mut parts = Vec::new(alloc);
        for kind in cells {
            parts.push(KindPart::new(alloc, kind)?)?;
        }
        Ok(Packets {
            tables,
            products,
            parts,
        })
    }

    /// Those of the packets on which the decider, a place of a list of products, decides. It takes a step for each kind.
    ///
    /// # Errors
    /// `Stopped::Spent` where the steps don't suffice, and want of memory.
    pub fn narrow(
        &self,
        alloc: Global,
        decider: Decider,
        steps: &mut Steps,
    ) -> Result<Packets<'a>, Stopped>
        requires of { IsOf self.now.tables.now self.now.products.now self.now }
        requires known { decider.first + decider.count ≤ length self.now.products.now }
        ensures of { IfOk result (λ packets. IsOf self.now.tables.now self.now.products.now packets) }
        ensures narrowed { IfOk result (λ packets. (facts : Facts) (ifid : IfId) (dir : Dir) → IsPacket facts ifid
            → has_packet packets facts ifid dir ≡ (has_packet self.now facts ifid dir && decides (held_at self.now.tables.now self.now.products.now facts ifid dir) decider)) }
        ensures spent { IsErrOf result Stopped.Spent → IsSpent steps.new }
        ensures most { steps.new.most ≡ steps.old.most }
        ensures rises { steps.old.taken ≤ steps.new.taken }
    {
        let mut parts = Vec::new(alloc);
        for part in &self.parts {
            if let Some(narrowed) = part.narrow(alloc, decider, steps)? {
                parts.push(narrowed)?;
            }
        }
        Ok(Packets {
            tables: self.tables,
            products: self.products,
            parts,
        })
    }

    /// One of the packets; none exactly where there is none.
    ///
    /// # Errors
    /// `Stopped::Spent` where the steps don't suffice, and want of memory.
    pub fn packet(&self, alloc: Global, steps: &mut Steps) -> Result<Option<CellPacket>, Stopped>
        requires { IsOf self.now.tables.now self.now.products.now self.now }
        ensures none { result ≡ Ok None → (facts : Facts) (ifid : IfId) (dir : Dir) → IsPacket facts ifid → has_packet self.now facts ifid dir ≡ false }
        ensures possible { IfOk result (λ found. IfSome found (λ packet. IsPacket packet.facts packet.ifid)) }
        ensures found { IfOk result (λ found. IfSome found (λ packet. has_packet self.now packet.facts packet.ifid packet.dir ≡ true)) }
        ensures spent { IsErrOf result Stopped.Spent → IsSpent steps.new }
        ensures most { steps.new.most ≡ steps.old.most }
        ensures rises { steps.old.taken ≤ steps.new.taken }
    {
        for part in &self.parts {
            if let Some(packet) = part.packet(alloc, steps)? {
                return Ok(Some(packet));
            }
        }
        Ok(None)
    }

    /// Whether two products surely hold of the same ones of the packets.
    pub fn is_alike(&self, one: usize, other: usize) -> bool
        requires of { IsOf self.now.tables.now self.now.products.now self.now }
        requires one { one < length self.now.products.now }
        requires other { other < length self.now.products.now }
        ensures { result ≡ true → (facts : Facts) (ifid : IfId) (dir : Dir) → IsPacket facts ifid → has_packet self.now facts ifid dir ≡ true
            → held_at self.now.tables.now self.now.products.now facts ifid dir one ≡ held_at self.now.tables.now self.now.products.now facts ifid dir other }
    {
        for part in &self.parts {
            if !part.is_alike(one, other) {
                return false;
            }
        }
        true
    }
}
