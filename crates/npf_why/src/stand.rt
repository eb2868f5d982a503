// What can stand at a place of a text, asked of the parser: a candidate is put behind the tokens before the place, and what may follow it
// behind that, and where the parser halts tells.
ghost use Rattle.std.specs.Prelude.{◌≡◌, ◌≤◌, ◌∷◌, ◌++◌, [], All, Err, IfErr, IfOk, List, MatchBool, Ok, OnOk, length, map, ◌||◌};
ghost use Rattle.std.specs.List.{prefix_len};
ghost use Rattle.npf_types.specs.Reading.{IsOnly};
ghost use Rattle.npf_lexer.specs.Lexer.{IfFault, IsLexed};
ghost use Rattle.npf_lexer.specs.declared.token.Sign.{Sign as SignType};
ghost use Rattle.npf_lexer.specs.declared.token.Token.{Token as TokenType};
ghost use Rattle.npf_lexer.specs.declared.token.TokenKind.TheVariants as Kind;
ghost use Rattle.npf_why.specs.Candidate.{candidate_kinds, candidate_kind};
ghost use Rattle.npf_why.specs.Stand.{CanStand, CannotStand, HasLine, Passes, Stops, ThoseThatStand, before, is_before, is_behind, put, told_with};

use crate::candidate::{Candidate, candidates};
use npf_faults::Refused;
use npf_lexer::{Sign, Token, TokenKind, lex};
use npf_parser::parse;
use npf_types::limits::MAX_TEXT_BYTES;
use npf_types::{NoMemory, Span};
use std::alloc::Global;

/// The candidates that can stand in a text of npf.conf(5) behind the tokens that begin before byte `at`, in the order of all. The text has
/// at most `MAX_TEXT_BYTES` bytes; one that has no tokens is refused with its fault (10 to 12).
pub fn could_stand(alloc: Global, text: &[u8], at: u32) -> Result<Vec<Candidate>, Refused>
    requires { length text.now ≤ MAX_TEXT_BYTES }
    ensures told { (tokens : List TokenType) → IsOnly IsLexed text.now (Ok tokens)
        → IfOk result (λ told. ThoseThatStand (before at tokens) candidate_kinds (map candidate_kind told.items)) }
    ensures fault { IfErr result (IfFault (λ fault. IsOnly IsLexed text.now (Err fault))) }
{
    let mut tokens = lex(alloc, text)?;
    let front = front_len(&tokens, at);
    tokens.truncate(front);
    Ok(those_that_stand(alloc, &mut tokens, candidates())?)
}

/// How many tokens begin before this byte. Those of a text have a line from 1 on.
fn front_len(tokens: &[Token], at: u32) -> usize
    ensures { result ≡ prefix_len (is_before at) tokens.now }
{
    tokens
        .iter()
        .take_while(|token| token.span.line > 0 && token.span.at < at)
        .count()
}

fn those_that_stand(
    alloc: Global,
    tokens: &mut Vec<Token>,
    candidates: &[Candidate],
) -> Result<Vec<Candidate>, NoMemory>
    requires { All HasLine tokens.old.items }
    ensures { IfOk result (λ told. ThoseThatStand tokens.old.items (map candidate_kind candidates.now) (map candidate_kind told.items)) }
{
    let mut told = Vec::new(alloc);
    'candidates: for candidate in candidates {
        let stands = can_stand(alloc, tokens, candidate)?;
        tell(&mut told, candidate, stands)?;
    }
    Ok(told)
}

fn tell(told: &mut Vec<Candidate>, candidate: &Candidate, stands: bool) -> Result<(), NoMemory>
    ensures { OnOk result (map candidate_kind told.new.items ≡ told_with stands (candidate_kind candidate.now) (map candidate_kind told.old.items)) }
{
    if stands {
        told.push(*candidate)?;
    }
    Ok(())
}

fn can_stand(
    alloc: Global,
    tokens: &mut Vec<Token>,
    candidate: &Candidate,
) -> Result<bool, NoMemory>
    requires { All HasLine tokens.old.items }
    ensures same { OnOk result (tokens.new.items ≡ tokens.old.items) }
    ensures stands { IfOk result (λ stands. MatchBool stands (CanStand tokens.old.items (candidate_kind candidate.now)) (CannotStand tokens.old.items (candidate_kind candidate.now))) }
{
    let kind = candidate.kind(alloc)?;
    tokens.push(put(1, kind))?;
    let alone = passes_end(alloc, tokens, 2)?;
    let called = passes_call(alloc, tokens)?;
    tokens.pop();
    Ok(either(alone, called))
}

fn either(one: bool, other: bool) -> bool
    ensures { result ≡ (one || other) }
{
    one || other
}

/// Whether the last token goes on with a parenthesis.
fn passes_call(alloc: Global, tokens: &mut Vec<Token>) -> Result<bool, NoMemory>
    ensures same { OnOk result (tokens.new.items ≡ tokens.old.items) }
    ensures passes { IfOk result (λ passes. let all : List TokenType = tokens.old.items ++ put 2 (Kind.Sign SignType.OpenParen) ∷ put 3 Kind.End ∷ [] in
        MatchBool passes (Passes all) (Stops all)) }
{
    tokens.push(put(2, TokenKind::Sign(Sign::OpenParen)))?;
    let passes = passes_end(alloc, tokens, 3)?;
    tokens.pop();
    Ok(passes)
}

/// Whether the tokens go on to the text's end, or halt behind the candidate.
fn passes_end(alloc: Global, tokens: &mut Vec<Token>, col: u32) -> Result<bool, NoMemory>
    ensures same { OnOk result (tokens.new.items ≡ tokens.old.items) }
    ensures passes { IfOk result (λ passes. let all : List TokenType = tokens.old.items ++ put col Kind.End ∷ [] in
        MatchBool passes (Passes all) (Stops all)) }
{
    tokens.push(put(col, TokenKind::End))?;
    let passes = passes(alloc, tokens)?;
    tokens.pop();
    Ok(passes)
}

fn passes(alloc: Global, tokens: &[Token]) -> Result<bool, NoMemory>
    ensures { IfOk result (λ passes. MatchBool passes (Passes tokens.now) (Stops tokens.now)) }
{
    let fault = match parse(alloc, tokens) {
        Ok(_) => return Ok(true),
        Err(Refused::NoMemory) => return Err(NoMemory),
        Err(Refused::Fault(fault)) => fault,
    };
    Ok(is_behind(fault.span))
}

/// Whether a place is that of a token behind the candidate: no text has it, and it isn't the candidate's.
fn is_behind(span: Span) -> bool
    ensures { result ≡ is_behind span }
{
    span.line == 0 && span.col != 1
}

/// A token that stands in no text.
fn put(col: u32, kind: TokenKind) -> Token
    ensures { result ≡ put col kind }
{
    let span = Span {
        line: 0,
        col,
        at: 0,
        len: 0,
    };
    Token { kind, span }
}
