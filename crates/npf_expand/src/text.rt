// Copies of texts of the tree.
ghost use Rattle.std.specs.Prelude.{◌≡◌, IfOk};
ghost use Rattle.std.specs.Option.{option_map};

use npf_syntax::Str;
use npf_types::{List, NoMemory, Text};
use std::alloc::Global;

pub(crate) fn text_of(alloc: Global, bytes: &[u8]) -> Result<Text, NoMemory>
    ensures { IfOk result (λ text. text ≡ bytes.now) }
{
    let mut copy = Vec::with_capacity(alloc, bytes.len())?;
    copy.extend_from_slice(bytes)?;
    Ok(List::of_vec(copy))
}

pub(crate) fn maybe_text(alloc: Global, string: &Option<Str>) -> Result<Option<Text>, NoMemory>
    ensures { IfOk result (λ text. text ≡ option_map (λ s. s.text) string.now) }
{
    match string {
        Some(string) => Ok(Some(text_of(alloc, string.text.as_slice())?)),
        None => Ok(None),
    }
}
