// The answer to a question about a class.
use npf_products::CellPacket;

/// For each rule of a configuration, in the order of inspection, a packet of a class on which it decides, where there is one; and one on which
/// no rule does, where there is one.
#[derive(Debug, Drop)]
pub struct Deciders {
    pub rules: Vec<Option<CellPacket>>,
    pub none: Option<CellPacket>,
}

impl Deciders {
    ghost use Rattle.std.specs.Prelude.{◌≡◌, None, slice_index_or};

    /// The packet that was found for the rule at this place, if one was. Behind the last rule none was.
    pub fn rule(&self, place: usize) -> Option<CellPacket>
        ensures { result ≡ slice_index_or self.now.rules.items place None }
    {
        match self.rules.get(place) {
            Some(found) => *found,
            None => None,
        }
    }
}
