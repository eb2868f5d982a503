// What is said of a map that can't be: which of the conditions of such maps holds of it.
ghost use Rattle.std.specs.Prelude.{◌≡◌, ◌≤◌, ◌++◌, IfOk, OnOk, length};
ghost use Rattle.npf_types.specs.declared.limits.TheConstants.{MAX_TEXT_BYTES};
ghost use Rattle.npf_ctl_why.specs.Map.{ExplainsMap, IsReasonIn, IsReasonInTree, map_text, sentence_on_map};
ghost use Rattle.npf_ctl_why.specs.Reason.{PutsBehind};

use npf_expand::expand;
use npf_faults::Refused;
use npf_lexer::lex;
use npf_model::Ifaces;
use npf_parser::parse;
use npf_syntax::Tree;
use npf_text::write_text;
use npf_types::NoMemory;
use npf_types::limits::MAX_TEXT_BYTES;
use npf_why::Sentence;
use npf_why_map::{MapReason, reason_at};
use std::alloc::Global;

/// Appends the sentence on the map that is written at this byte of the text, for a run with these interfaces; where the text has no map there
/// that can't be, the sentence on any that can't.
pub(crate) fn write_map(
    alloc: Global,
    into: &mut Vec<u8>,
    text: &[u8],
    ifaces: &Ifaces,
    at: u32,
) -> Result<(), NoMemory>
    requires { length text.now ≤ MAX_TEXT_BYTES }
    ensures { OnOk result (PutsBehind (ExplainsMap ifaces.now.list text.now at) into.old.items into.new.items) }
{
    let reason = reason_in(alloc, text, ifaces, at)?;
    write_map_reason(into, reason)
}

fn write_map_reason(into: &mut Vec<u8>, reason: Option<MapReason>) -> Result<(), NoMemory>
    ensures { OnOk result (into.new.items ≡ into.old.items ++ map_text reason) }
{
    write_text(into, "  ")?;
    write_text(into, sentence_on_map(reason))?;
    write_text(into, "\n")
}

fn sentence_on_map(reason: Option<MapReason>) -> &'static str
    ensures { result.now ≡ sentence_on_map reason }
{
    match reason {
        Some(reason) => reason.sentence(),
        None => Sentence::ImpossibleMap.words(),
    }
}

fn reason_in(
    alloc: Global,
    text: &[u8],
    ifaces: &Ifaces,
    at: u32,
) -> Result<Option<MapReason>, NoMemory>
    requires { length text.now ≤ MAX_TEXT_BYTES }
    ensures { IfOk result (IsReasonIn ifaces.now.list text.now at) }
{
    let tokens = match lex(alloc, text) {
        Ok(tokens) => tokens,
        Err(Refused::NoMemory) => return Err(NoMemory),
        Err(Refused::Fault(_)) => return Ok(None),
    };
    match parse(alloc, &tokens) {
        Ok(tree) => reason_in_tree(alloc, &tree, ifaces, at),
        Err(Refused::NoMemory) => Err(NoMemory),
        Err(Refused::Fault(_)) => Ok(None),
    }
}

fn reason_in_tree(
    alloc: Global,
    tree: &Tree,
    ifaces: &Ifaces,
    at: u32,
) -> Result<Option<MapReason>, NoMemory>
    ensures { IfOk result (IsReasonInTree ifaces.now.list tree.now at) }
{
    match expand(alloc, tree, ifaces) {
        Ok(model) => Ok(reason_at(at, tree, &model)),
        Err(Refused::NoMemory) => Err(NoMemory),
        Err(Refused::Fault(_)) => Ok(None),
    }
}
