// A text to its model.
use anyhow::{Result, anyhow};
use npf_expand::expand;
use npf_expand_interfaces::read_ifaces;
use npf_faults::Refused;
use npf_lexer::lex;
use npf_model::Model;
use npf_parser::parse;
use npf_types::limits::MAX_TEXT_BYTES;
use std::alloc::Global;

/// The model of a text for a run without interfaces.
pub fn model_of(alloc: Global, text: &[u8]) -> Result<Model> {
    meaning_of(alloc, text).map_err(|refused| anyhow!("{refused:?}"))
}

fn meaning_of(alloc: Global, text: &[u8]) -> Result<Model, Refused> {
    if text.len() > MAX_TEXT_BYTES {
        return Err(Refused::NoMemory);
    }
    let tokens = lex(alloc, text)?;
    let tree = parse(alloc, tokens.as_slice())?;
    let ifaces = read_ifaces(alloc, b"")?;
    expand(alloc, &tree, &ifaces)
}
