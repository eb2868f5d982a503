// The packets of a kind as cells.
ghost use Rattle.npf_products.specs.Space.{AreBoxesOf};

use npf_boxes::Boxes;
use npf_products::Space;

/// The packets of a kind as cells, with a box for each product and behind them that of all packets of the kind.
#[derive(Drop)]
pub struct KindCells {
    pub(crate) space: Space,
    pub(crate) boxes: Boxes,
    ghost boxes_of: { AreBoxesOf space boxes },
}
