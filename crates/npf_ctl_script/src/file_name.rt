// A file's name in quotes.
ghost use Rattle.std.specs.Prelude.{◌≡◌, ◌≤◌, IfOk, List, ℕ, MatchOption};
ghost use Rattle.npf_ctl_script.specs.Arguments.{IsFileName, IsQuoted};

use npf_table::{first_place, trim_end, trim_start};
use npf_types::{List, NoMemory, Text};
use std::alloc::Global;
use std::str;

/// The name of the file, where the text has its quoted name and nothing else.
pub(crate) fn file_name_of(alloc: Global, text: &[u8]) -> Result<Option<Text>, NoMemory>
    ensures { IfOk result (λ answer. MatchOption answer
        ((file : List ℕ) → ¬ IsFileName text.now file) (λ file. IsFileName text.now file)) }
{
    let Some(name) = quoted(trim_end(trim_start(text))) else {
        return Ok(None);
    };
    let file = name.to_vec(alloc)?;
    Ok(Some(List::of_vec(file)))
}

/// What stands between the quotes.
fn quoted(text: &[u8]) -> Option<&[u8]>
    ensures { MatchOption result ((file : List ℕ) → ¬ IsQuoted text.now file) (λ file. IsQuoted text.now file.now) }
{
    if text.len() < 2 || text[0] != b'"' || text[text.len() - 1] != b'"' {
        return None;
    }
    let name = &text[1..text.len() - 1];
    if first_place(name, b'"').is_some() || str::from_utf8(name).is_err() {
        return None;
    }
    Some(name)
}
