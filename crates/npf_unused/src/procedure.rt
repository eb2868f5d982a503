// Which procedures are called.
ghost use Rattle.std.specs.Prelude.{◌≡◌, IfOk};
ghost use Rattle.npf_unused.specs.Unused.{procedures_used};

use crate::usable::{Usable, is_used};
use npf_model::Model;
use npf_types::NoMemory;
use std::alloc::Global;

/// Whether some rule calls it, of each procedure of a model, in the order in which the model declares them.
pub fn procedures_used(alloc: Global, model: &Model) -> Result<Vec<bool>, NoMemory>
    ensures { IfOk result (λ used. used.items ≡ procedures_used model.now) }
{
    let mut used = Vec::new(alloc);
    for place in 0..model.procedures.as_slice().len() {
        used.push(is_used(model, Usable::Procedure(place)))?;
    }
    Ok(used)
}
