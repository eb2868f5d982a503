// What is said of a fault below the line of the text.
ghost use Rattle.std.specs.Prelude.{◌≡◌, ◌≤◌, ◌+◌, ◌++◌, [], IfOk, Ok, OnOk, length, map, option_map};
ghost use Rattle.npf_types.specs.Reading.{IsOnly};
ghost use Rattle.npf_lexer.specs.Lexer.{IsLexed};
ghost use Rattle.npf_why.specs.Candidate.{candidate_kind};
ghost use Rattle.npf_ctl_why.specs.Names.{interface_in, known_names, marks, near_text, setting_in, unknown_word, variable_in, word_behind, word_in};
ghost use Rattle.npf_ctl_why.specs.Reason.{PutsBehind, ExplainsExpected, ExplainsFault, ExplainsHalt, ExplainsNamed, NamesNear, byte_sentence, halt_sentence};
ghost use Rattle.npf_ctl_why.specs.Sentences.{is_hardware_address, is_pair, is_pair_behind_colon, sentence_text, shown_at, tail_text};

use crate::excerpt::{from, write_shown};
use crate::listed::{Marks, write_names, write_standing};
use crate::map::write_map;
use npf_faults::{ConfFault, Fault, Refused};
use npf_lexer::{Sign, Token, TokenKind, lex};
use npf_model::{Iface, Ifaces};
use npf_parser::parse;
use npf_syntax::Tree;
use npf_text::{write_number, write_text};
use npf_types::limits::MAX_TEXT_BYTES;
use npf_types::{NoMemory, Span};
use npf_why::{
    Candidate, GivenNames, Sentence, could_stand, given_names, interfaces, looked_up, near,
    sentence_at, settings, tokens_at, tokens_before,
};
use std::alloc::Global;

/// Appends the sentence on a fault of this text, what could stand at its place, and known names that are near the one that stands there.
pub(crate) fn write_reason(
    alloc: Global,
    into: &mut Vec<u8>,
    text: &[u8],
    ifaces: &Ifaces,
    fault: &ConfFault,
) -> Result<(), NoMemory>
    requires { length text.now ≤ MAX_TEXT_BYTES }
    ensures { OnOk result (PutsBehind (ExplainsFault ifaces.now.list text.now fault.now) into.old.items into.new.items) }
{
    match fault.fault {
        Fault::BadByte => write_bad_byte(into, from(text, fault.span.at as usize)),
        Fault::Expected => write_expected(alloc, into, text, fault.span),
        Fault::BadMap => write_map(alloc, into, text, ifaces, fault.span.at),
        _ => write_named(alloc, into, fault, text, ifaces),
    }
}

fn write_bad_byte(into: &mut Vec<u8>, rest: &[u8]) -> Result<(), NoMemory>
    ensures { OnOk result (into.new.items ≡ into.old.items ++ sentence_text (byte_sentence rest.now) []) }
{
    write_sentence(into, byte_sentence(rest), &[])
}

fn write_named(
    alloc: Global,
    into: &mut Vec<u8>,
    fault: &ConfFault,
    text: &[u8],
    ifaces: &Ifaces,
) -> Result<(), NoMemory>
    requires { length text.now ≤ MAX_TEXT_BYTES }
    ensures { OnOk result (PutsBehind (ExplainsNamed ifaces.now.list text.now fault.now) into.old.items into.new.items) }
{
    let sentence = Sentence::of(&fault.fault);
    write_sentence(into, sentence, shown(text, fault.span))?;
    write_near(alloc, into, fault, ifaces.list.as_slice(), text)
}

/// The bytes of a place.
fn shown(text: &[u8], span: Span) -> &[u8]
    ensures { result.now ≡ shown_at text.now span }
{
    let rest = from(text, span.at as usize);
    if span.len as usize <= rest.len() {
        rest.split_at(span.len as usize).0
    } else {
        rest
    }
}

fn byte_sentence(rest: &[u8]) -> Sentence
    ensures { result ≡ byte_sentence rest.now }
{
    if is_hardware_address(rest) {
        Sentence::HardwareAddress
    } else {
        Sentence::NoToken
    }
}

/// Whether six pairs of hexadecimal digits begin here, with colons between.
fn is_hardware_address(rest: &[u8]) -> bool
    ensures { result ≡ is_hardware_address rest.now }
{
    rest.len() >= 17
        && is_pair(rest, 0)
        && is_pair_behind_colon(rest, 2)
        && is_pair_behind_colon(rest, 5)
        && is_pair_behind_colon(rest, 8)
        && is_pair_behind_colon(rest, 11)
        && is_pair_behind_colon(rest, 14)
}

fn is_pair_behind_colon(rest: &[u8], at: usize) -> bool
    requires { at + 3 ≤ length rest.now }
    ensures { result ≡ is_pair_behind_colon rest.now at }
{
    rest[at] == b':' && is_pair(rest, at + 1)
}

fn is_pair(rest: &[u8], at: usize) -> bool
    requires { at + 2 ≤ length rest.now }
    ensures { result ≡ is_pair rest.now at }
{
    rest[at].is_ascii_hexdigit() && rest[at + 1].is_ascii_hexdigit()
}

fn write_sentence(into: &mut Vec<u8>, sentence: Sentence, shown: &[u8]) -> Result<(), NoMemory>
    ensures { OnOk result (into.new.items ≡ into.old.items ++ sentence_text sentence shown.now) }
{
    write_text(into, "  ")?;
    write_text(into, sentence.words())?;
    write_tail(into, sentence, shown)?;
    write_text(into, "\n")
}

fn write_tail(into: &mut Vec<u8>, sentence: Sentence, shown: &[u8]) -> Result<(), NoMemory>
    ensures { OnOk result (into.new.items ≡ into.old.items ++ tail_text sentence shown.now) }
{
    match sentence {
        Sentence::NumberUnfit(most) => write_number(into, u64::from(most)),
        Sentence::CannotGoOn | Sentence::VariableUnfit | Sentence::UndefinedVariable => {
            write_text(into, "`")?;
            write_shown(into, shown)?;
            write_text(into, "`")
        }
        _ => Ok(()),
    }
}

/// Where the tokens are a tree, the value of a variable can't stand at the place; else the grammar halts there.
fn write_expected(
    alloc: Global,
    into: &mut Vec<u8>,
    text: &[u8],
    span: Span,
) -> Result<(), NoMemory>
    requires { length text.now ≤ MAX_TEXT_BYTES }
    ensures { OnOk result (PutsBehind (ExplainsExpected text.now span) into.old.items into.new.items) }
{
    let tokens = match lex(alloc, text) {
        Ok(tokens) => tokens,
        Err(Refused::NoMemory) => return Err(NoMemory),
        Err(Refused::Fault(_)) => return write_sentence(into, Sentence::NoToken, &[]),
    };
    match parse(alloc, &tokens) {
        Ok(_) => write_sentence(into, Sentence::VariableUnfit, shown(text, span)),
        Err(Refused::NoMemory) => Err(NoMemory),
        Err(Refused::Fault(_)) => write_halt(alloc, into, text, &tokens, span),
    }
}

fn write_halt(
    alloc: Global,
    into: &mut Vec<u8>,
    text: &[u8],
    tokens: &[Token],
    span: Span,
) -> Result<(), NoMemory>
    requires length { length text.now ≤ MAX_TEXT_BYTES }
    requires lexed { IsOnly IsLexed text.now (Ok tokens.now) }
    ensures { OnOk result (PutsBehind (ExplainsHalt text.now tokens.now span) into.old.items into.new.items) }
{
    let standing = match could_stand(alloc, text, span.at) {
        Ok(standing) => standing,
        Err(_) => return Err(NoMemory),
    };
    let sentence = halt_sentence(tokens_at(tokens, span.at), &standing);
    write_sentence(into, sentence, shown(text, span))?;
    write_standing(alloc, into, &standing)
}

/// The sentence on the first of these tokens.
fn halt_sentence(tokens: &[Token], standing: &[Candidate]) -> Sentence
    ensures { result ≡ halt_sentence tokens.now (map candidate_kind standing.now) }
{
    match tokens.first() {
        Some(token) => sentence_at(&token.kind, standing),
        None => Sentence::TextEnds,
    }
}

/// Appends the line of near names, where the fault is one of names.
fn write_near(
    alloc: Global,
    into: &mut Vec<u8>,
    fault: &ConfFault,
    ifaces: &[Iface],
    text: &[u8],
) -> Result<(), NoMemory>
    requires { length text.now ≤ MAX_TEXT_BYTES }
    ensures { OnOk result (PutsBehind (NamesNear ifaces.now text.now fault.now) into.old.items into.new.items) }
{
    let tokens = match lex(alloc, text) {
        Ok(tokens) => tokens,
        Err(Refused::NoMemory) => return Err(NoMemory),
        Err(Refused::Fault(_)) => return Ok(()),
    };
    match parse(alloc, &tokens) {
        Ok(tree) => write_near_names(alloc, into, &tokens, &tree, ifaces, fault),
        Err(Refused::NoMemory) => Err(NoMemory),
        Err(Refused::Fault(_)) => Ok(()),
    }
}

fn write_near_names(
    alloc: Global,
    into: &mut Vec<u8>,
    tokens: &[Token],
    tree: &Tree,
    ifaces: &[Iface],
    fault: &ConfFault,
) -> Result<(), NoMemory>
    ensures { OnOk result (into.new.items ≡ into.old.items ++ near_text ifaces.now tokens.now tree.now fault.now) }
{
    let Some(word) = unknown_word(fault.fault, tokens_at(tokens, fault.span.at)) else {
        return Ok(());
    };
    let known = known_names(alloc, fault, tokens, tree, ifaces)?;
    let names = near(alloc, word, &known)?;
    write_names(into, marks(fault.fault), &names)
}

/// The name that isn't known, of the tokens at its fault's place; None of other faults.
pub(crate) fn unknown_word(fault: Fault, tokens: &[Token]) -> Option<&[u8]>
    ensures { option_map (λ word. word.now) result ≡ unknown_word fault tokens.now }
{
    match fault {
        Fault::UnknownVariable => variable_in(tokens),
        Fault::UnknownInterface => interface_in(tokens),
        Fault::UnknownService => word_in(tokens, 0),
        Fault::UnknownTable => word_in(tokens, 1),
        Fault::UnknownProcedure => word_in(tokens, 0),
        Fault::Unbuilt => setting_in(tokens),
        _ => None,
    }
}

pub(crate) fn variable_in(tokens: &[Token]) -> Option<&[u8]>
    ensures { option_map (λ word. word.now) result ≡ variable_in tokens.now }
{
    match tokens.first() {
        Some(token) => match &token.kind {
            TokenKind::Var(name) => Some(name.as_slice()),
            _ => None,
        },
        None => None,
    }
}

/// What a `set` statement sets; None of another statement.
fn setting_in(tokens: &[Token]) -> Option<&[u8]>
    ensures { option_map (λ word. word.now) result ≡ setting_in tokens.now }
{
    word_behind(tokens, "set", 1)
}

/// The word at a place, where this word is the first; None elsewhere.
pub(crate) fn word_behind<'a>(tokens: &'a [Token], first: &str, place: usize) -> Option<&'a [u8]>
    ensures { option_map (λ word. word.now) result ≡ word_behind first.now place tokens.now }
{
    if word_in(tokens, 0)? == first.as_bytes() {
        word_in(tokens, place)
    } else {
        None
    }
}

/// The name of an interface, or of that whose addresses a function gives.
fn interface_in(tokens: &[Token]) -> Option<&[u8]>
    ensures { option_map (λ word. word.now) result ≡ interface_in tokens.now }
{
    match tokens.get(1) {
        Some(token) => match token.kind {
            TokenKind::Sign(Sign::OpenParen) => word_in(tokens, 2),
            _ => word_in(tokens, 0),
        },
        None => None,
    }
}

fn word_in(tokens: &[Token], place: usize) -> Option<&[u8]>
    ensures { option_map (λ word. word.now) result ≡ word_in tokens.now place }
{
    match tokens.get(place) {
        Some(token) => match &token.kind {
            TokenKind::Word(text) | TokenKind::Str(text) => Some(text.as_slice()),
            _ => None,
        },
        None => None,
    }
}

/// The names that are known of the kind that the fault is about.
fn known_names<'a>(
    alloc: Global,
    fault: &ConfFault,
    tokens: &[Token],
    tree: &'a Tree,
    ifaces: &'a [Iface],
) -> Result<Vec<&'a [u8]>, NoMemory>
    ensures { IfOk result (λ names. map (λ name. name.now) names.items ≡ known_names ifaces.now tokens.now tree.now fault.now) }
{
    match fault.fault {
        Fault::UnknownVariable => {
            given_names(alloc, tree, GivenNames::VariablesBefore(fault.span.at))
        }
        Fault::UnknownInterface => interfaces(alloc, ifaces),
        Fault::UnknownService => looked_up(alloc, tokens_before(tokens, fault.span.at)),
        Fault::UnknownTable => given_names(alloc, tree, GivenNames::Tables),
        Fault::Unbuilt => settings(alloc),
        _ => given_names(alloc, tree, GivenNames::Procedures),
    }
}

fn marks(fault: Fault) -> Marks
    ensures { result ≡ marks fault }
{
    match fault {
        Fault::UnknownVariable => Marks::Variable,
        Fault::UnknownTable => Marks::Table,
        _ => Marks::None,
    }
}
