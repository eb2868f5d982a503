// The stages of a text, from its tokens to its checks and to its canonical text.
use npf_check::{check, check_rule};
use npf_expand::{expand, expand_rule};
use npf_expand_interfaces::read_ifaces;
use npf_faults::Refused;
use npf_lexer::{Token, lex};
use npf_model::{Ifaces, Model, Rule};
use npf_parser::{parse, parse_rule};
use npf_show::show;
use npf_syntax::Tree;
use npf_types::limits::MAX_TEXT_BYTES;
use std::alloc::Global;

pub fn tokens_of(alloc: Global, text: &[u8]) -> Result<Vec<Token>, Refused> {
    if text.len() > MAX_TEXT_BYTES {
        return Err(Refused::NoMemory);
    }
    lex(alloc, text)
}

pub fn tree_of(alloc: Global, text: &[u8]) -> Result<Tree, Refused> {
    let tokens = tokens_of(alloc, text)?;
    parse(alloc, tokens.as_slice())
}

pub fn ifaces_of(alloc: Global, file: &[u8]) -> Result<Ifaces, Refused> {
    if file.len() > MAX_TEXT_BYTES {
        return Err(Refused::NoMemory);
    }
    read_ifaces(alloc, file)
}

/// The model of a text over a file of interfaces, or the first fault of the stage that refuses it.
pub fn model_of(alloc: Global, file: &[u8], text: &[u8]) -> Result<Model, Refused> {
    let ifaces = ifaces_of(alloc, file)?;
    let tree = tree_of(alloc, text)?;
    let model = expand(alloc, &tree, &ifaces)?;
    check(alloc, &tree, &model)?;
    Ok(model)
}

/// The rule of a text beside a model, or the first fault of the stage that refuses it.
pub fn rule_of(alloc: Global, file: &[u8], model: &Model, text: &[u8]) -> Result<Rule, Refused> {
    let ifaces = ifaces_of(alloc, file)?;
    let tokens = tokens_of(alloc, text)?;
    let tree = parse_rule(alloc, tokens.as_slice())?;
    let rule = expand_rule(alloc, &tree, model, &ifaces)?;
    match check_rule(&tree, &rule) {
        Ok(()) => Ok(rule),
        Err(fault) => Err(Refused::Fault(fault)),
    }
}

/// The canonical text of a text.
pub fn shown(alloc: Global, file: &[u8], text: &[u8]) -> Result<Vec<u8>, Refused> {
    let model = model_of(alloc, file, text)?;
    Ok(show(alloc, &model)?)
}
