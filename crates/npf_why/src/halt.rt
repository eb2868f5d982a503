// What is told of a place at which the grammar halts, by the candidates that can stand there: a sentence on the token that does, and which
// of the candidates are named.
ghost use Rattle.std.specs.Prelude.{◌≡◌, None, map};
ghost use Rattle.npf_types.specs.declared.address.Addr.TheVariants.{V4};
ghost use Rattle.npf_types.specs.NameText.{is_name};
ghost use Rattle.npf_lexer.specs.declared.token.TokenKind.TheVariants as Kind;
ghost use Rattle.npf_why.specs.Candidate.{candidate_kind, same_kind};
ghost use Rattle.npf_why.specs.Halt.{greatest_from, has_its_companion, is_function, is_name_there, is_older, is_passed_over, is_told, is_told_string, is_told_word, is_unbuilt, larger, number_sentence, sentence_at, stands, string_sentence, word_sentence};

use crate::candidate::Candidate;
use crate::sentence::Sentence;
use npf_lexer::{Sign, TokenKind};
use npf_syntax::is_iface_word;
use npf_types::Name;

/// The sentence on a token at which the grammar halts, where these candidates can stand: if a token of its kind can, its value is unfit.
pub fn sentence_at(kind: &TokenKind, standing: &[Candidate]) -> Sentence
    ensures { result ≡ sentence_at kind.now (map candidate_kind standing.now) }
{
    match kind {
        TokenKind::LineFeed => Sentence::LineEnds,
        TokenKind::End => Sentence::TextEnds,
        TokenKind::Number(number) => number_sentence(*number, greatest(standing)),
        TokenKind::Address(_) => address_sentence(standing),
        TokenKind::Word(text) => word_sentence(text.as_slice(), standing),
        TokenKind::Str(_) => string_sentence(standing),
        TokenKind::Sign(sign) => sign_sentence(*sign, standing),
        _ => Sentence::CannotGoOn,
    }
}

fn number_sentence(number: u32, most: Option<u32>) -> Sentence
    ensures { result ≡ number_sentence number most }
{
    match most {
        None => Sentence::CannotGoOn,
        Some(most) if most < number => Sentence::NumberUnfit(most),
        Some(_) => Sentence::RangeUnfit,
    }
}

fn address_sentence(standing: &[Candidate]) -> Sentence
    ensures { result ≡ sentence_at (Kind.Address (V4 0)) (map candidate_kind standing.now) }
{
    if stands_address(standing) {
        Sentence::PrefixUnfit
    } else {
        Sentence::CannotGoOn
    }
}

/// A name of more than 15 bytes, or flags that are none.
fn word_sentence(text: &[u8], standing: &[Candidate]) -> Sentence
    ensures { result ≡ word_sentence text.now (map candidate_kind standing.now) }
{
    if stands_word("a", standing) {
        if is_name(text) {
            Sentence::CannotGoOn
        } else {
            Sentence::NameUnfit
        }
    } else if stands_word("S", standing) {
        Sentence::FlagsUnfit
    } else {
        Sentence::CannotGoOn
    }
}

fn is_name(text: &[u8]) -> bool
    ensures { result ≡ is_name text.now }
{
    Name::of(text).is_some()
}

fn string_sentence(standing: &[Candidate]) -> Sentence
    ensures { result ≡ string_sentence (map candidate_kind standing.now) }
{
    if stands_string("", standing) {
        Sentence::FileNameUnfit
    } else if stands_string("a", standing) {
        Sentence::NameUnfit
    } else {
        Sentence::CannotGoOn
    }
}

/// The sign before a table's name stands for the name.
fn sign_sentence(sign: Sign, standing: &[Candidate]) -> Sentence
    ensures { result ≡ sentence_at (Kind.Sign sign) (map candidate_kind standing.now) }
{
    if sign == Sign::Less && stands_sign(Sign::Less, standing) {
        Sentence::NameUnfit
    } else {
        Sentence::CannotGoOn
    }
}

/// The greatest number that can stand.
pub fn greatest(standing: &[Candidate]) -> Option<u32>
    ensures { result ≡ greatest_from None (map candidate_kind standing.now) }
{
    let mut found = None;
    'standing: for candidate in standing {
        if let Candidate::Number(number) = candidate {
            found = Some(larger(found, *number));
        }
    }
    found
}

fn larger(found: Option<u32>, number: u32) -> u32
    ensures { result ≡ larger found number }
{
    match found {
        Some(found) if number < found => found,
        _ => number,
    }
}

/// Whether a candidate that can stand is named: of words that are names there no more than one, of numbers the greatest, and of words that
/// aren't built, or that only older texts have, none.
pub fn is_told(candidate: &Candidate, standing: &[Candidate]) -> bool
    ensures { result ≡ is_told (candidate_kind candidate.now) (map candidate_kind standing.now) }
{
    match candidate {
        Candidate::Word(text) => is_told_word(text, standing),
        Candidate::Str(text) => is_told_string(text, standing),
        Candidate::Number(number) => greatest(standing) == Some(*number),
        _ => true,
    }
}

fn is_told_word(text: &str, standing: &[Candidate]) -> bool
    ensures { result ≡ is_told_word text.now (map candidate_kind standing.now) }
{
    if text == "a" {
        return true;
    }
    if text == "S" {
        return !stands_word("a", standing);
    }
    has_its_companion(text, standing)
        && !is_passed_over(text)
        && (!is_name_there(text, standing) || (is_function(text) && stands_address(standing)))
}

/// Whether a word stands as what it mostly is: `group` as a statement and `dynamic` as a map's, and not as what isn't built.
fn has_its_companion(text: &str, standing: &[Candidate]) -> bool
    ensures { result ≡ has_its_companion text.now (map candidate_kind standing.now) }
{
    if text == "group" {
        stands_word("procedure", standing)
    } else if text == "dynamic" {
        stands_word("static", standing)
    } else {
        true
    }
}

fn is_function(text: &str) -> bool
    ensures { result ≡ is_function text.now }
{
    text == "inet4" || text == "inet6" || text == "ifaddrs"
}

/// Whether the word stands as a name, where names can: an interface's, as which some words are kept back, or another, as which none is.
fn is_name_there(text: &str, standing: &[Candidate]) -> bool
    ensures { result ≡ is_name_there text.now (map candidate_kind standing.now) }
{
    stands_word("a", standing) && (is_iface_word(text.as_bytes()) || stands_word("block", standing))
}

/// Whether the word isn't built, or only older texts have it.
fn is_passed_over(text: &str) -> bool
    ensures { result ≡ is_passed_over text.now }
{
    is_older(text) || is_unbuilt(text)
}

fn is_older(text: &str) -> bool
    ensures { result ≡ is_older text.now }
{
    text == "hash" || text == "tree" || text == "cdb" || text == "inet" || text == "normalise"
}

fn is_unbuilt(text: &str) -> bool
    ensures { result ≡ is_unbuilt text.now }
{
    text == "no-ports"
        || text == "layer-2"
        || text == "user"
        || text == "pcap-filter"
        || text == "route"
}

fn is_told_string(text: &str, standing: &[Candidate]) -> bool
    ensures { result ≡ is_told_string text.now (map candidate_kind standing.now) }
{
    if text == "a" {
        return true;
    }
    text != "" && text != "random-id" && !stands_string("a", standing)
}

fn stands_word(text: &str, standing: &[Candidate]) -> bool
    ensures { result ≡ stands (map candidate_kind standing.now) (Kind.Word text.now) }
{
    for candidate in standing {
        if is_word(candidate, text) {
            return true;
        }
    }
    false
}

fn is_word(candidate: &Candidate, text: &str) -> bool
    ensures { result ≡ same_kind (Kind.Word text.now) (candidate_kind candidate.now) }
{
    match candidate {
        Candidate::Word(word) => text == *word,
        _ => false,
    }
}

fn stands_string(text: &str, standing: &[Candidate]) -> bool
    ensures { result ≡ stands (map candidate_kind standing.now) (Kind.Str text.now) }
{
    for candidate in standing {
        if is_string(candidate, text) {
            return true;
        }
    }
    false
}

fn is_string(candidate: &Candidate, text: &str) -> bool
    ensures { result ≡ same_kind (Kind.Str text.now) (candidate_kind candidate.now) }
{
    match candidate {
        Candidate::Str(string) => text == *string,
        _ => false,
    }
}

fn stands_sign(sign: Sign, standing: &[Candidate]) -> bool
    ensures { result ≡ stands (map candidate_kind standing.now) (Kind.Sign sign) }
{
    for candidate in standing {
        if is_sign(candidate, sign) {
            return true;
        }
    }
    false
}

fn is_sign(candidate: &Candidate, sign: Sign) -> bool
    ensures { result ≡ same_kind (Kind.Sign sign) (candidate_kind candidate.now) }
{
    match candidate {
        Candidate::Sign(other) => sign.text() == other.text(),
        _ => false,
    }
}

fn stands_address(standing: &[Candidate]) -> bool
    ensures { result ≡ stands (map candidate_kind standing.now) (Kind.Address (V4 0)) }
{
    for candidate in standing {
        if is_address(candidate) {
            return true;
        }
    }
    false
}

fn is_address(candidate: &Candidate) -> bool
    ensures { result ≡ same_kind (Kind.Address (V4 0)) (candidate_kind candidate.now) }
{
    matches!(candidate, Candidate::Address)
}
