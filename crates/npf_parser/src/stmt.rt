// Statements and files: a function for each line of the grammar.
//
// Any tokens are taken, and read up to the first `End`, or to the list's end where there is none; what `lex` gives ends with the one that
// it has.
ghost use Rattle.std.specs.Prelude.{◌≡◌, codes, IfOk};
ghost use Rattle.npf_types.specs.declared.span.Span.{Span};
ghost use Rattle.npf_faults.specs.declared.fault.Fault.TheVariants.{Expected};
ghost use Rattle.npf_syntax.specs.declared.rule.RuleTree.{RuleTree};
ghost use Rattle.npf_syntax.specs.declared.stmt.Tree.{Tree};
ghost use Rattle.npf_phrase.specs.Grammar.{meaning, optional, preceded};
ghost use Rattle.npf_phrase.specs.Phrase.{head};
ghost use Rattle.npf_parser_values.specs.Answer.{Answers, AnswersAlone};
ghost use Rattle.npf_parser_values.specs.Token.{quoted, text_string};
ghost use Rattle.npf_parser.specs.Stmt.{define, setting, set, alg, older_type, table_type, dynamic, table, stmt, ends_stmt, stmts, file, lone_rule};
ghost use Rattle.npf_parser.specs.Parse.{Means, Parses, HasMeaning, HaltsAt, StopsAt, OnFault, AnswersUnlessMemory, FaultsUnlessMemory};

use crate::group::read_group;
use crate::map::read_map;
use crate::procedure::read_procedure;
use crate::rule::read_rule;
use npf_faults::Refused;
use npf_lexer::{Sign, Token, TokenKind};
use npf_parser_values::{
    Stop, ValueRole, after_sign, after_word, behind_separator, behind_word, is_at_separator,
    read_end, read_name_word, read_number, read_string, read_text_string, read_values,
    read_variable, read_word, refused_by, span_to,
};
use npf_syntax::{RuleTree, Setting, Stmt, Str, TableType, Tree};
use npf_types::List;
use std::alloc::Global;

#[tactic(auto, unfolding(crate::specs::Stmt::define))]
fn read_define<'a>(alloc: Global, tokens: &'a [Token]) -> Result<(Stmt, &'a [Token]), Stop<'a>>
    ensures { Answers ((meaning define).read tokens.now) result }
{
    let (var, rest) = read_variable(alloc, tokens)?;
    let rest = after_sign(Sign::Equals, rest)?;
    let (values, rest) = read_values(alloc, ValueRole::Any, rest)?;
    let span = span_to(tokens, rest);
    Ok((Stmt::Define { var, values, span }, rest))
}

#[tactic(auto, unfolding(crate::specs::Stmt::setting))]
fn read_setting<'a>(alloc: Global, tokens: &'a [Token]) -> Result<(Setting, &'a [Token]), Stop<'a>>
    ensures { Answers ((meaning setting).read tokens.now) result }
{
    match tokens.first() {
        Some(
            Token {
                kind: TokenKind::Number(_),
                ..
            },
        ) => {
            let (number, rest) = read_number(tokens)?;
            let span = span_to(tokens, rest);
            Ok((Setting::Number { number, span }, rest))
        }
        _ => {
            let (word, rest) = read_word(alloc, tokens)?;
            let span = span_to(tokens, rest);
            Ok((Setting::Word { word, span }, rest))
        }
    }
}

#[tactic(auto, unfolding(crate::specs::Stmt::set))]
fn read_set<'a>(alloc: Global, tokens: &'a [Token]) -> Result<(Stmt, &'a [Token]), Stop<'a>>
    ensures { Answers ((meaning set).read tokens.now) result }
{
    let rest = after_word("set", tokens)?;
    let (name, rest) = read_word(alloc, rest)?;
    let (value, rest) = read_setting(alloc, rest)?;
    let span = span_to(tokens, rest);
    Ok((Stmt::Set { name, value, span }, rest))
}

#[tactic(auto, unfolding(crate::specs::Stmt::alg))]
fn read_alg<'a>(alloc: Global, tokens: &'a [Token]) -> Result<(Stmt, &'a [Token]), Stop<'a>>
    ensures { Answers ((meaning alg).read tokens.now) result }
{
    let rest = after_word("alg", tokens)?;
    let (name, rest) = read_string(alloc, rest)?;
    let span = span_to(tokens, rest);
    Ok((Stmt::Alg { name, span }, rest))
}

#[tactic(auto, unfolding(crate::specs::Stmt::table_type))]
fn read_table_type(tokens: &[Token]) -> Result<(TableType, &[Token]), Stop>
    ensures { AnswersAlone ((meaning table_type).read tokens.now) result }
{
    if let Some(rest) = behind_word("ipset", tokens) {
        let span = span_to(tokens, rest);
        return Ok((TableType::IpSet { span }, rest));
    }
    if let Some(rest) = behind_word("lpm", tokens) {
        let span = span_to(tokens, rest);
        return Ok((TableType::Lpm { span }, rest));
    }
    if let Some(rest) = behind_word("const", tokens) {
        let span = span_to(tokens, rest);
        return Ok((TableType::Const { span }, rest));
    }
    read_older_type(tokens)
}

fn read_older_type(tokens: &[Token]) -> Result<(TableType, &[Token]), Stop>
    ensures { AnswersAlone ((meaning older_type).read tokens.now) result }
{
    if let Some(rest) = behind_word("hash", tokens) {
        let span = span_to(tokens, rest);
        return Ok((TableType::IpSet { span }, rest));
    }
    if let Some(rest) = behind_word("tree", tokens) {
        let span = span_to(tokens, rest);
        return Ok((TableType::Lpm { span }, rest));
    }
    match behind_word("cdb", tokens) {
        Some(rest) => {
            let span = span_to(tokens, rest);
            Ok((TableType::Const { span }, rest))
        }
        None => Err(Stop::Before(tokens)),
    }
}

/// The tokens behind `dynamic`, which may be left out and says nothing.
fn behind_dynamic(tokens: &[Token]) -> &[Token]
    ensures { (meaning dynamic).read tokens.now ≡ Ok (tt, result.now) }
{
    match behind_word("dynamic", tokens) {
        Some(rest) => rest,
        None => tokens,
    }
}

fn read_optional_file<'a>(
    alloc: Global,
    tokens: &'a [Token],
) -> Result<(Option<Str>, &'a [Token]), Stop<'a>>
    ensures { Answers ((meaning (optional (preceded (quoted (codes "file")) text_string))).read tokens.now) result }
{
    match behind_word("file", tokens) {
        Some(rest) => {
            let (string, rest) = read_text_string(alloc, rest)?;
            Ok((Some(string), rest))
        }
        None => Ok((None, tokens)),
    }
}

#[tactic(auto, unfolding(crate::specs::Stmt::table))]
fn read_table<'a>(alloc: Global, tokens: &'a [Token]) -> Result<(Stmt, &'a [Token]), Stop<'a>>
    ensures { Answers ((meaning table).read tokens.now) result }
{
    let rest = after_word("table", tokens)?;
    let rest = after_sign(Sign::Less, rest)?;
    let (name, rest) = read_name_word(alloc, rest)?;
    let rest = after_sign(Sign::Greater, rest)?;
    let rest = after_word("type", rest)?;
    let (kind, rest) = read_table_type(rest)?;
    let rest = behind_dynamic(rest);
    let (file, rest) = read_optional_file(alloc, rest)?;
    let span = span_to(tokens, rest);
    Ok((
        Stmt::Table {
            name,
            kind,
            file,
            span,
        },
        rest,
    ))
}

#[tactic(auto, unfolding(crate::specs::Stmt::stmt, crate::specs::Stmt::set, crate::specs::Stmt::alg, crate::specs::Stmt::table, crate::specs::Stmt::map, crate::specs::Stmt::group, crate::specs::Stmt::procedure))]
fn read_stmt<'a>(alloc: Global, tokens: &'a [Token]) -> Result<(Stmt, &'a [Token]), Stop<'a>>
    ensures { Answers ((meaning stmt).read tokens.now) result }
{
    if behind_word("set", tokens).is_some() {
        return read_set(alloc, tokens);
    }
    if behind_word("alg", tokens).is_some() {
        return read_alg(alloc, tokens);
    }
    if behind_word("table", tokens).is_some() {
        return read_table(alloc, tokens);
    }
    if behind_word("map", tokens).is_some() {
        return read_map(alloc, tokens);
    }
    if behind_word("group", tokens).is_some() {
        return read_group(alloc, tokens);
    }
    if behind_word("procedure", tokens).is_some() {
        return read_procedure(alloc, tokens);
    }
    read_define(alloc, tokens)
}

/// Whether a statement ends here.
fn ends_stmt(tokens: &[Token]) -> bool
    ensures { result ≡ ends_stmt (head tokens.now) }
{
    is_at_separator(tokens)
        || match tokens.first() {
            Some(token) => matches!(token.kind, TokenKind::End),
            None => true,
        }
}

/// Statements with separators between them.
fn read_stmts<'a>(alloc: Global, tokens: &'a [Token]) -> Result<(List<Stmt>, &'a [Token]), Stop<'a>>
    ensures { Answers ((meaning stmts).read tokens.now) result }
{
    let mut stmts = Vec::new(alloc);
    let mut rest = tokens;
    'stmts: loop {
        if ends_stmt(rest) {
            match behind_separator(rest) {
                Some(next) => rest = next,
                None => return Ok((List::of_vec(stmts), rest)),
            }
        } else {
            let (stmt, behind) = read_stmt(alloc, rest)?;
            stmts.push(stmt)?;
            match behind_separator(behind) {
                Some(next) => rest = next,
                None => return Ok((List::of_vec(stmts), behind)),
            }
        }
    }
}

#[tactic(auto, unfolding(crate::specs::Stmt::file))]
fn read_file<'a>(alloc: Global, tokens: &'a [Token]) -> Result<(Tree, &'a [Token]), Stop<'a>>
    ensures { Answers ((meaning file).read tokens.now) result }
{
    let (stmts, rest) = read_stmts(alloc, tokens)?;
    let (end, rest) = read_end(rest)?;
    Ok((Tree { stmts, end }, rest))
}

#[tactic(auto, unfolding(crate::specs::Stmt::lone_rule))]
fn read_lone_rule<'a>(
    alloc: Global,
    tokens: &'a [Token],
) -> Result<(RuleTree, &'a [Token]), Stop<'a>>
    ensures { Answers ((meaning lone_rule).read tokens.now) result }
{
    let (rule, rest) = read_rule(alloc, tokens)?;
    let (_, rest) = read_end(rest)?;
    Ok((rule, rest))
}

/// The tree of a configuration's tokens, which `lex` gave; or the place of the first token at which no statement goes on,
/// or of a written value that can't stand in its place (20). It refuses no tokens that are a configuration, unless memory
/// runs out.
pub fn parse(alloc: Global, tokens: &[Token]) -> Result<Tree, Refused>
    ensures tree { IfOk result (λ tree. Parses tokens.now tree) }
    ensures refused { OnFault result (λ fault. ¬ HasMeaning file tokens.now) }
    ensures fault { OnFault result (λ fault. fault.fault ≡ Expected) }
    ensures stops { OnFault result (λ fault. StopsAt file tokens.now fault.span) }
    ensures halts { OnFault result (λ fault. HaltsAt file tokens.now fault.span) }
    ensures complete { (tree : Tree) → Parses tokens.now tree → AnswersUnlessMemory tree result }
    ensures exactly { (span : Span) → HaltsAt file tokens.now span → FaultsUnlessMemory span result }
{
    match read_file(alloc, tokens) {
        Ok((tree, _)) => Ok(tree),
        Err(stop) => Err(refused_by(stop)),
    }
}

/// The rule that the tokens are, with nothing but the text's end behind; or the place of the first token at which no rule
/// goes on, or of a written value that can't stand in its place (20).
pub fn parse_rule(alloc: Global, tokens: &[Token]) -> Result<RuleTree, Refused>
    ensures rule { IfOk result (λ rule. Means lone_rule tokens.now rule) }
    ensures refused { OnFault result (λ fault. ¬ HasMeaning lone_rule tokens.now) }
    ensures fault { OnFault result (λ fault. fault.fault ≡ Expected) }
    ensures stops { OnFault result (λ fault. StopsAt lone_rule tokens.now fault.span) }
    ensures halts { OnFault result (λ fault. HaltsAt lone_rule tokens.now fault.span) }
    ensures complete { (rule : RuleTree) → Means lone_rule tokens.now rule → AnswersUnlessMemory rule result }
    ensures exactly { (span : Span) → HaltsAt lone_rule tokens.now span → FaultsUnlessMemory span result }
{
    match read_lone_rule(alloc, tokens) {
        Ok((rule, _)) => Ok(rule),
        Err(stop) => Err(refused_by(stop)),
    }
}
