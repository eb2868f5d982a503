// A difference between maps.
use npf_products::CellPacket;

/// A packet that two configurations pass alike and into which their maps write different things, with these maps' places in the models, counted from 0; none where
/// no map applies.
#[derive(Clone, Copy, Debug, PartialEq, Eq)]
pub struct MapDifference {
    pub old: Option<usize>,
    pub new: Option<usize>,
    pub packet: CellPacket,
}
