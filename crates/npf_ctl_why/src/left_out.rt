// What is said of a fault of a text from which something was taken out.
ghost use Rattle.std.specs.Prelude.{◌≡◌, ◌≤◌, IfOk, Some, length, option_map};
ghost use Rattle.npf_types.specs.declared.limits.TheConstants.{MAX_TEXT_BYTES};
ghost use Rattle.npf_ctl_why.specs.LeftOut.{IsToldOfLeft, LeavesOut, SaysOfLeft, equals, gives_name, gives_word, has_equals, is_left_out, is_same_word, name_of_statement};

use crate::reason::{unknown_word, variable_in, word_behind};
use crate::text::explanation;
use npf_ctl_messages::CommandFault;
use npf_faults::{ConfFault, Fault, Refused};
use npf_lexer::{Sign, Token, TokenKind, lex};
use npf_model::Ifaces;
use npf_types::NoMemory;
use npf_types::limits::MAX_TEXT_BYTES;
use npf_why::tokens_at;
use std::alloc::Global;

/// What is said of a fault that a command met in a text from which these tokens are gone, for a run with these interfaces: nothing, where a
/// variable, a table or a procedure isn't known that they give. The text has at most `MAX_TEXT_BYTES` bytes.
pub fn explanation_of_left(
    alloc: Global,
    told: &CommandFault,
    text: &[u8],
    gone: &[Token],
    ifaces: &Ifaces,
) -> Result<Vec<u8>, NoMemory>
    requires { length text.now ≤ MAX_TEXT_BYTES }
    ensures { IfOk result (λ out. SaysOfLeft ifaces.now.list text.now gone.now told.now out.items) }
{
    if is_told(alloc, told, text, gone)? {
        explanation(alloc, told, Some(text), ifaces)
    } else {
        Ok(Vec::new(alloc))
    }
}

fn is_told(
    alloc: Global,
    told: &CommandFault,
    text: &[u8],
    gone: &[Token],
) -> Result<bool, NoMemory>
    requires { length text.now ≤ MAX_TEXT_BYTES }
    ensures { IfOk result (IsToldOfLeft text.now gone.now told.now) }
{
    match told {
        CommandFault::Configuration { fault, .. } => Ok(!leaves_out(alloc, text, gone, fault)?),
        _ => Ok(true),
    }
}

fn leaves_out(
    alloc: Global,
    text: &[u8],
    gone: &[Token],
    fault: &ConfFault,
) -> Result<bool, NoMemory>
    requires { length text.now ≤ MAX_TEXT_BYTES }
    ensures { IfOk result (LeavesOut text.now gone.now fault.now) }
{
    match lex(alloc, text) {
        Ok(tokens) => Ok(is_left_out(fault, gone, &tokens)),
        Err(Refused::NoMemory) => Err(NoMemory),
        Err(Refused::Fault(_)) => Ok(false),
    }
}

fn is_left_out(fault: &ConfFault, gone: &[Token], tokens: &[Token]) -> bool
    ensures { result ≡ is_left_out fault.now gone.now tokens.now }
{
    match unknown_word(fault.fault, tokens_at(tokens, fault.span.at)) {
        Some(name) => gives_name(fault.fault, name, gone),
        None => false,
    }
}

/// Whether a statement among these tokens gives the name, of the kind that the fault is about.
fn gives_name(fault: Fault, name: &[u8], gone: &[Token]) -> bool
    ensures { result ≡ gives_name fault name.now gone.now }
{
    for place in 0..gone.len() {
        if is_same_word(name, name_of_statement(fault, gone.split_at(place).1)) {
            return true;
        }
    }
    false
}

fn is_same_word(word: &[u8], other: Option<&[u8]>) -> bool
    ensures { result ≡ is_same_word word.now (option_map (λ other. other.now) other.entry) }
{
    match other {
        Some(other) => other == word,
        None => false,
    }
}

/// The name that a statement gives which begins with these tokens: a variable's, a table's or a procedure's.
fn name_of_statement(fault: Fault, tokens: &[Token]) -> Option<&[u8]>
    ensures { option_map (λ name. name.now) result ≡ name_of_statement fault tokens.now }
{
    match fault {
        Fault::UnknownVariable if has_equals(tokens.get(1)) => variable_in(tokens),
        Fault::UnknownTable => word_behind(tokens, "table", 2),
        Fault::UnknownProcedure => word_behind(tokens, "procedure", 1),
        _ => None,
    }
}

fn has_equals(token: Option<&Token>) -> bool
    ensures { result ≡ has_equals (option_map (λ token. token.now) token.entry) }
{
    match token {
        Some(token) => matches!(token.kind, TokenKind::Sign(Sign::Equals)),
        None => false,
    }
}
