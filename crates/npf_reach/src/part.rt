// Packets of one kind.
ghost use Rattle.npf_search.specs.Region.{IsRegionOf};
ghost use Rattle.npf_reach.specs.Kinds.{IsWithinKind};

use crate::kind_cells::KindCells;
use npf_products::CellPacket;
use npf_search::{Decider, Region};
use npf_steps::{Steps, Stopped};
use npf_types::NoMemory;
use std::alloc::Global;

/// The packets of a kind whose cells are those of a region.
#[derive(Drop)]
pub(crate) struct KindPart<'a> {
    pub cells: &'a KindCells,
    pub region: Region,
    ghost of: { IsRegionOf cells.now.boxes region },
    ghost within: { IsWithinKind cells.now region },
}

impl<'a> KindPart<'a> {
    ghost use Rattle.std.specs.Prelude.{◌≡◌, ◌≤◌, ◌<◌, ◌+◌, ◌&&◌, true, false, IfOk, IfSome, IsErrOf, Ok, None};
    ghost use Rattle.npf_types.specs.declared.direction.Dir.{Dir};
    ghost use Rattle.npf_types.specs.declared.facts.Facts.{Facts};
    ghost use Rattle.npf_types.specs.declared.interface.IfId.{IfId};
    ghost use Rattle.npf_steps.specs.Spent.{IsSpent};
    ghost use Rattle.npf_search.specs.Region.{decides};
    ghost use Rattle.npf_products.specs.Space.{IsCutSpace, product_count};
    ghost use Rattle.npf_reach.specs.Kinds.{IsPacket, cells_kind, is_met_by, is_of_kind};
    ghost use Rattle.npf_reach.specs.Packets.{part_has};

    /// All packets of the kind.
    pub fn new(alloc: Global, cells: &'a KindCells) -> Result<KindPart<'a>, NoMemory>
        ensures cells { IfOk result (λ part. part.cells.now ≡ cells.now) }
        ensures all { IfOk result (λ part. (facts : Facts) (ifid : IfId) (dir : Dir) → IsPacket facts ifid
            → part_has part facts ifid dir ≡ is_of_kind (cells_kind cells.now) facts) }
    {
        let last = cells.boxes.count - 1;
        Ok(KindPart {
            cells,
            region: Region::new(alloc, &cells.boxes, last)?,
        })
    }

    /// Those of the packets on which the decider decides; none where it surely decides on none.
    pub fn narrow(
        &self,
        alloc: Global,
        decider: Decider,
        steps: &mut Steps,
    ) -> Result<Option<KindPart<'a>>, Stopped>
        requires { decider.first + decider.count ≤ product_count self.now.cells.now.space }
        ensures none { result ≡ Ok None → (facts : Facts) (ifid : IfId) (dir : Dir) → IsPacket facts ifid
            → (part_has self.now facts ifid dir && decides (is_met_by self.now.cells.now facts ifid dir) decider) ≡ false }
        ensures cells { IfOk result (λ found. IfSome found (λ part. part.cells.now ≡ self.now.cells.now)) }
        ensures narrowed { IfOk result (λ found. IfSome found (λ part. (facts : Facts) (ifid : IfId) (dir : Dir) → IsPacket facts ifid
            → part_has part facts ifid dir ≡ (part_has self.now facts ifid dir && decides (is_met_by self.now.cells.now facts ifid dir) decider))) }
        ensures spent { IsErrOf result Stopped.Spent → IsSpent steps.new }
        ensures most { steps.new.most ≡ steps.old.most }
        ensures rises { steps.old.taken ≤ steps.new.taken }
    {
        let cells = self.cells;
        let Some(region) = self.region.narrow(alloc, &cells.boxes, decider, steps)? else {
            return Ok(None);
        };
        Ok(Some(KindPart { cells, region }))
    }

    /// One of the packets; none exactly where there is none.
    pub fn packet(&self, alloc: Global, steps: &mut Steps) -> Result<Option<CellPacket>, Stopped>
        requires { IsCutSpace self.now.cells.now.space }
        ensures none { result ≡ Ok None → (facts : Facts) (ifid : IfId) (dir : Dir) → IsPacket facts ifid → part_has self.now facts ifid dir ≡ false }
        ensures possible { IfOk result (λ found. IfSome found (λ packet. IsPacket packet.facts packet.ifid)) }
        ensures found { IfOk result (λ found. IfSome found (λ packet. part_has self.now packet.facts packet.ifid packet.dir ≡ true)) }
        ensures spent { IsErrOf result Stopped.Spent → IsSpent steps.new }
        ensures most { steps.new.most ≡ steps.old.most }
        ensures rises { steps.old.taken ≤ steps.new.taken }
    {
        let Some(cell) = self.region.cell(alloc, &self.cells.boxes, steps)? else {
            return Ok(None);
        };
        Ok(Some(self.cells.space.packet_of(&cell)))
    }

    /// Whether the boxes of two products are the same, so that both hold of the same packets of the kind.
    pub fn is_alike(&self, one: usize, other: usize) -> bool
        requires one { one < product_count self.now.cells.now.space }
        requires other { other < product_count self.now.cells.now.space }
        ensures { result ≡ true → (facts : Facts) (ifid : IfId) (dir : Dir) → IsPacket facts ifid → part_has self.now facts ifid dir ≡ true
            → is_met_by self.now.cells.now facts ifid dir one ≡ is_met_by self.now.cells.now facts ifid dir other }
    {
        let boxes = &self.cells.boxes;
        boxes.get(one) == boxes.get(other)
    }
}
