// Values and lists of values: a function for each line of the grammar.
//
// Line feeds inside a list lie behind its tokens, so that one token of sight decides. The name of a function is a word with an argument
// behind it, or else an ordinary word. A value that breaks off stops where it does; one that is written to its end and can't stand there
// stops at its first token (`fitted`).
ghost use Rattle.std.specs.Prelude.{◌≡◌, IfOk, IfErr};
ghost use Rattle.npf_lexer.specs.declared.token.Sign.TheVariants as Sign;
ghost use Rattle.npf_phrase.specs.Grammar.{◌&◌, fitted, meaning, optional};
ghost use Rattle.npf_parser_values.specs.declared.stop.Stop.TheVariants.{NoMemory as no_memory};
ghost use Rattle.npf_parser_values.specs.Answer.{Answers, AnswersAlone, Finds};
ghost use Rattle.npf_parser_values.specs.Token.{address, spaced};
ghost use Rattle.npf_parser_values.specs.Value.{iface, number_behind, is_range, number_value, is_prefix, address_value, table_value, function, word_of, argument, function_value, word_value, variable_value, string_value, written, is_port, is_port_end, can_stand, value, listed_values, values_inside, value_list, values};

use crate::leaf::{
    is_name, read_address, read_name_string, read_name_word, read_number, read_string,
    read_variable, read_word,
};
use crate::role::ValueRole;
use crate::stop::Stop;
use crate::text::{copied, span_to};
use crate::tokens::{after_sign, after_spaced, behind_sign, behind_spaced, behind_word, skip};
use npf_lexer::{Sign, Token, TokenKind};
use npf_syntax::{
    Address, Boxed, Function, IfaceTree, Number, Value, ValueList, Values, Word, is_iface_word,
};
use npf_types::List;
use std::alloc::Global;

/// An interface, and the tokens behind it; or the tokens at which it stops going on.
#[tactic(auto, unfolding(crate::specs::Value::iface))]
pub fn read_iface<'a>(
    alloc: Global,
    tokens: &'a [Token],
) -> Result<(IfaceTree, &'a [Token]), Stop<'a>>
    ensures { Answers ((meaning iface).read tokens.now) result }
{
    match tokens.first() {
        Some(first) if matches!(first.kind, TokenKind::Str(_)) => {
            let (string, rest) = read_name_string(alloc, tokens)?;
            let span = span_to(tokens, rest);
            Ok((IfaceTree::Str { string, span }, rest))
        }
        Some(first) if matches!(first.kind, TokenKind::Var(_)) => {
            let (var, rest) = read_variable(alloc, tokens)?;
            let span = span_to(tokens, rest);
            Ok((IfaceTree::Var { var, span }, rest))
        }
        _ => {
            let (word, rest) = read_name_word(alloc, tokens)?;
            let span = span_to(tokens, rest);
            Ok((IfaceTree::Word { word, span }, rest))
        }
    }
}

/// A number behind a sign, where the sign stands first.
fn read_number_behind(
    joining: Sign,
    inside: bool,
    tokens: &[Token],
) -> Result<(Option<Number>, &[Token]), Stop>
    ensures { AnswersAlone ((meaning (number_behind joining inside)).read tokens.now) result }
{
    match behind_spaced(joining, inside, tokens) {
        Some(rest) => {
            let (number, rest) = read_number(rest)?;
            Ok((Some(number), skip(inside, rest)))
        }
        None => Ok((None, tokens)),
    }
}

fn is_range(first: Number, last: Option<Number>) -> bool
    ensures { result ≡ is_range (first, last) }
{
    match last {
        Some(last) => first.value <= last.value,
        None => true,
    }
}

#[tactic(auto, unfolding(crate::specs::Value::number_value))]
fn read_number_value(inside: bool, tokens: &[Token]) -> Result<(Value, &[Token]), Stop>
    ensures { AnswersAlone ((meaning (number_value inside)).read tokens.now) result }
{
    let (first, rest) = read_number(tokens)?;
    let (last, rest) = read_number_behind(Sign::Dash, inside, skip(inside, rest))?;
    if is_range(first, last) {
        let span = span_to(tokens, rest);
        return Ok((Value::Number { first, last, span }, rest));
    }
    Err(Stop::Before(tokens))
}

fn is_prefix(address: Address, len: Option<Number>) -> bool
    ensures { result ≡ is_prefix (address, len) }
{
    match len {
        Some(len) => len.value <= u32::from(address.addr.width()),
        None => true,
    }
}

/// An address, and the length behind it where one stands there.
fn read_prefix(
    inside: bool,
    tokens: &[Token],
) -> Result<((Address, Option<Number>), &[Token]), Stop>
    ensures { AnswersAlone ((meaning (fitted is_prefix (spaced inside address & number_behind Sign.Slash inside))).read tokens.now) result }
{
    let (address, rest) = read_address(tokens)?;
    let (len, rest) = read_number_behind(Sign::Slash, inside, skip(inside, rest))?;
    if is_prefix(address, len) {
        return Ok(((address, len), rest));
    }
    Err(Stop::Before(tokens))
}

#[tactic(auto, unfolding(crate::specs::Value::address_value))]
fn read_address_value<'a>(
    alloc: Global,
    inside: bool,
    tokens: &'a [Token],
) -> Result<(Value, &'a [Token]), Stop<'a>>
    ensures { Answers ((meaning (address_value inside)).read tokens.now) result }
{
    let ((address, len), rest) = read_prefix(inside, tokens)?;
    let address = Boxed::new(alloc, address)?;
    let span = span_to(tokens, rest);
    Ok((Value::Address { address, len, span }, rest))
}

#[tactic(auto, unfolding(crate::specs::Value::table_value))]
fn read_table_value<'a>(
    alloc: Global,
    inside: bool,
    tokens: &'a [Token],
) -> Result<(Value, &'a [Token]), Stop<'a>>
    ensures { Answers ((meaning (table_value inside)).read tokens.now) result }
{
    let rest = after_spaced(Sign::Less, inside, tokens)?;
    let (name, rest) = read_word(alloc, rest)?;
    let rest = after_spaced(Sign::Greater, inside, skip(inside, rest))?;
    if is_name(name.text.as_slice()) {
        let span = span_to(tokens, rest);
        return Ok((Value::Table { name, span }, rest));
    }
    Err(Stop::Before(tokens))
}

/// Which of the three functions the first word is, and the tokens behind it.
#[tactic(auto, unfolding(crate::specs::Value::function))]
fn function_of(tokens: &[Token]) -> Option<(Function, &[Token])>
    ensures { Finds function tokens.now result }
{
    if let Some(rest) = behind_word("inet4", tokens) {
        let span = span_to(tokens, rest);
        return Some((Function::Inet4 { span }, rest));
    }
    if let Some(rest) = behind_word("inet6", tokens) {
        let span = span_to(tokens, rest);
        return Some((Function::Inet6 { span }, rest));
    }
    match behind_word("ifaddrs", tokens) {
        Some(rest) => {
            let span = span_to(tokens, rest);
            Some((Function::IfAddrs { span }, rest))
        }
        None => None,
    }
}

fn read_function(inside: bool, tokens: &[Token]) -> Result<(Function, &[Token]), Stop>
    ensures { AnswersAlone ((meaning (spaced inside function)).read tokens.now) result }
{
    match function_of(tokens) {
        Some((function, rest)) => Ok((function, skip(inside, rest))),
        None => Err(Stop::Before(tokens)),
    }
}

/// The interface in parentheses, where a parenthesis stands there.
fn read_argument<'a>(
    alloc: Global,
    inside: bool,
    tokens: &'a [Token],
) -> Result<(Option<IfaceTree>, &'a [Token]), Stop<'a>>
    ensures { Answers ((meaning (optional (argument inside))).read tokens.now) result }
{
    match behind_spaced(Sign::OpenParen, inside, tokens) {
        Some(rest) => {
            let (iface, rest) = read_iface(alloc, rest)?;
            let rest = after_spaced(Sign::CloseParen, inside, skip(inside, rest))?;
            Ok((Some(iface), rest))
        }
        None => Ok((None, tokens)),
    }
}

/// A function's name as a word.
fn word_of<'a>(alloc: Global, function: Function) -> Result<Word, Stop<'a>>
    ensures word { IfOk result (λ word. word ≡ word_of function) }
    ensures memory { IfErr result (λ stop. stop ≡ no_memory) }
{
    let (name, span) = match function {
        Function::Inet4 { span } => ("inet4", span),
        Function::Inet6 { span } => ("inet6", span),
        Function::IfAddrs { span } => ("ifaddrs", span),
    };
    let text = copied(alloc, name.as_bytes())?;
    Ok(Word { text, span })
}

/// A value that begins with the name of a function: its addresses, or where no parenthesis stands behind it, a word.
#[tactic(auto, unfolding(crate::specs::Value::function_value))]
fn read_function_value<'a>(
    alloc: Global,
    inside: bool,
    tokens: &'a [Token],
) -> Result<(Value, &'a [Token]), Stop<'a>>
    ensures { Answers ((meaning (function_value inside)).read tokens.now) result }
{
    let (function, rest) = read_function(inside, tokens)?;
    let (iface, rest) = read_argument(alloc, inside, rest)?;
    let span = span_to(tokens, rest);
    match iface {
        Some(iface) => {
            let iface = Boxed::new(alloc, iface)?;
            let value = Value::Function {
                function,
                iface,
                span,
            };
            Ok((value, rest))
        }
        None => {
            let word = word_of(alloc, function)?;
            Ok((Value::Word { word, span }, rest))
        }
    }
}

#[tactic(auto, unfolding(crate::specs::Value::function_value, crate::specs::Value::function))]
fn read_word_value<'a>(
    alloc: Global,
    inside: bool,
    tokens: &'a [Token],
) -> Result<(Value, &'a [Token]), Stop<'a>>
    ensures { Answers ((meaning (word_value inside)).read tokens.now) result }
{
    if function_of(tokens).is_some() {
        return read_function_value(alloc, inside, tokens);
    }
    let (word, rest) = read_word(alloc, tokens)?;
    let rest = skip(inside, rest);
    let span = span_to(tokens, rest);
    Ok((Value::Word { word, span }, rest))
}

fn read_variable_value<'a>(
    alloc: Global,
    inside: bool,
    tokens: &'a [Token],
) -> Result<(Value, &'a [Token]), Stop<'a>>
    ensures { Answers ((meaning (variable_value inside)).read tokens.now) result }
{
    let (var, rest) = read_variable(alloc, tokens)?;
    let rest = skip(inside, rest);
    let span = span_to(tokens, rest);
    Ok((Value::Var { var, span }, rest))
}

fn read_string_value<'a>(
    alloc: Global,
    inside: bool,
    tokens: &'a [Token],
) -> Result<(Value, &'a [Token]), Stop<'a>>
    ensures { Answers ((meaning (string_value inside)).read tokens.now) result }
{
    let (string, rest) = read_string(alloc, tokens)?;
    let rest = skip(inside, rest);
    let span = span_to(tokens, rest);
    Ok((Value::Str { string, span }, rest))
}

/// A value, by the kind of its first token.
#[tactic(auto, unfolding(crate::specs::Value::written, crate::specs::Value::number_value, crate::specs::Value::address_value, crate::specs::Value::function_value, crate::specs::Value::function))]
fn read_written<'a>(
    alloc: Global,
    inside: bool,
    tokens: &'a [Token],
) -> Result<(Value, &'a [Token]), Stop<'a>>
    ensures { Answers ((meaning (written inside)).read tokens.now) result }
{
    match tokens.first() {
        Some(first) if matches!(first.kind, TokenKind::Number(_)) => read_number_value(
            inside, tokens,
        ),
        Some(first) if matches!(first.kind, TokenKind::Address(_)) => read_address_value(
            alloc, inside, tokens,
        ),
        Some(first) if matches!(first.kind, TokenKind::Word(_)) => read_word_value(
            alloc, inside, tokens,
        ),
        Some(first) if matches!(first.kind, TokenKind::Var(_)) => read_variable_value(
            alloc, inside, tokens,
        ),
        Some(first) if matches!(first.kind, TokenKind::Str(_)) => read_string_value(
            alloc, inside, tokens,
        ),
        _ => read_table_value(alloc, inside, tokens),
    }
}

fn is_port(number: Number) -> bool
    ensures { result ≡ is_port number }
{
    number.value <= 65535
}

fn is_port_end(number: Option<Number>) -> bool
    ensures { result ≡ is_port_end number }
{
    match number {
        Some(number) => is_port(number),
        None => true,
    }
}

/// Whether a written value can stand there.
fn can_stand(role: ValueRole, value: &Value) -> bool
    ensures { result ≡ can_stand role value.now }
{
    match (role, value) {
        (ValueRole::Any, _) => true,
        (
            ValueRole::Address,
            Value::Address { .. }
            | Value::Table { .. }
            | Value::Function { .. }
            | Value::Var { .. },
        ) => true,
        (ValueRole::Address, Value::Word { word, .. }) => is_iface_word(word.text.as_slice()),
        (ValueRole::Address, Value::Str { string, .. }) => is_name(string.text.as_slice()),
        (ValueRole::Port, Value::Number { first, last, .. }) => is_port(*first)
            && is_port_end(*last),
        (ValueRole::Port, Value::Word { .. } | Value::Var { .. }) => true,
        _ => false,
    }
}

/// A value that may stand where `role` says, `inside` a list or not, and the tokens behind it; or the tokens at which it stops going on,
/// which are these where a value is written that may not stand there.
#[tactic(auto, unfolding(crate::specs::Value::value))]
pub fn read_value<'a>(
    alloc: Global,
    role: ValueRole,
    inside: bool,
    tokens: &'a [Token],
) -> Result<(Value, &'a [Token]), Stop<'a>>
    ensures { Answers ((meaning (value role inside)).read tokens.now) result }
{
    let (value, rest) = read_written(alloc, inside, tokens)?;
    if can_stand(role, &value) {
        return Ok((value, rest));
    }
    Err(Stop::Before(tokens))
}

/// The values of a list, one at least.
fn read_listed_values<'a>(
    alloc: Global,
    role: ValueRole,
    tokens: &'a [Token],
) -> Result<(List<Value>, &'a [Token]), Stop<'a>>
    ensures { Answers ((meaning (listed_values role)).read tokens.now) result }
{
    let mut values = Vec::new(alloc);
    let mut rest = tokens;
    'values: loop {
        let (value, behind) = read_value(alloc, role, true, rest)?;
        values.push(value)?;
        match behind_spaced(Sign::Comma, true, behind) {
            Some(next) => rest = next,
            None => return Ok((List::of_vec(values), behind)),
        }
    }
}

/// The values up to the closing brace, of which there may be none.
fn read_values_inside<'a>(
    alloc: Global,
    role: ValueRole,
    tokens: &'a [Token],
) -> Result<(List<Value>, &'a [Token]), Stop<'a>>
    ensures { Answers ((meaning (values_inside role)).read tokens.now) result }
{
    if behind_sign(Sign::CloseBrace, tokens).is_some() {
        return Ok((List::of_vec(Vec::new(alloc)), tokens));
    }
    read_listed_values(alloc, role, tokens)
}

/// Values in braces, of which there may be none, and the tokens behind them; or the tokens at which they stop going on.
#[tactic(auto, unfolding(crate::specs::Value::value_list))]
pub fn read_value_list<'a>(
    alloc: Global,
    role: ValueRole,
    tokens: &'a [Token],
) -> Result<(ValueList, &'a [Token]), Stop<'a>>
    ensures { Answers ((meaning (value_list role)).read tokens.now) result }
{
    let rest = after_spaced(Sign::OpenBrace, true, tokens)?;
    let (values, rest) = read_values_inside(alloc, role, rest)?;
    let rest = after_sign(Sign::CloseBrace, rest)?;
    let span = span_to(tokens, rest);
    Ok((ValueList { values, span }, rest))
}

/// A value or a list of them, and the tokens behind it; or the tokens at which it stops going on.
#[tactic(auto, unfolding(crate::specs::Value::values, crate::specs::Value::value_list))]
pub fn read_values<'a>(
    alloc: Global,
    role: ValueRole,
    tokens: &'a [Token],
) -> Result<(Values, &'a [Token]), Stop<'a>>
    ensures { Answers ((meaning (values role)).read tokens.now) result }
{
    match behind_sign(Sign::OpenBrace, tokens) {
        Some(_) => {
            let (list, rest) = read_value_list(alloc, role, tokens)?;
            let span = span_to(tokens, rest);
            Ok((Values::List { list, span }, rest))
        }
        None => {
            let (value, rest) = read_value(alloc, role, false, tokens)?;
            let span = span_to(tokens, rest);
            Ok((Values::One { value, span }, rest))
        }
    }
}
