// What is tried where the grammar halts, in the order in which it is told.
ghost use Rattle.std.specs.Prelude.{◌≡◌, IfOk, map};
ghost use Rattle.npf_why.specs.Candidate.{candidate_kinds, candidate_kind};

use npf_lexer::{Sign, TokenKind};
use npf_types::{Addr, List, NoMemory, Text};
use std::alloc::Global;

/// A token that may stand somewhere in a configuration.
#[derive(Clone, Copy, Debug)]
pub enum Candidate {
    /// A word of the grammar; `a` stands for all names, and `S` for letters of TCP's flags.
    Word(&'static str),
    /// A string of this text: an option's name; `a` stands for all names, and no text for all strings.
    Str(&'static str),
    Sign(Sign),
    Number(u32),
    Variable,
    Address,
    /// A line feed or a semicolon.
    Separator,
    /// The text's end.
    End,
}

static CANDIDATES: [Candidate; 86] = [
    Candidate::Word("set"),
    Candidate::Word("alg"),
    Candidate::Word("table"),
    Candidate::Word("map"),
    Candidate::Word("group"),
    Candidate::Word("procedure"),
    Candidate::Word("type"),
    Candidate::Word("ipset"),
    Candidate::Word("lpm"),
    Candidate::Word("const"),
    Candidate::Word("file"),
    Candidate::Word("dynamic"),
    Candidate::Word("static"),
    Candidate::Word("algo"),
    Candidate::Word("default"),
    Candidate::Word("ruleset"),
    Candidate::Word("block"),
    Candidate::Word("return"),
    Candidate::Word("return-rst"),
    Candidate::Word("return-icmp"),
    Candidate::Word("pass"),
    Candidate::Word("stateful"),
    Candidate::Word("stateful-all"),
    Candidate::Word("in"),
    Candidate::Word("out"),
    Candidate::Word("final"),
    Candidate::Word("on"),
    Candidate::Word("family"),
    Candidate::Word("proto"),
    Candidate::Word("flags"),
    Candidate::Word("icmp-type"),
    Candidate::Word("code"),
    Candidate::Word("all"),
    Candidate::Word("from"),
    Candidate::Word("to"),
    Candidate::Word("any"),
    Candidate::Word("port"),
    Candidate::Word("inet4"),
    Candidate::Word("inet6"),
    Candidate::Word("ifaddrs"),
    Candidate::Word("apply"),
    Candidate::Word("log"),
    Candidate::Word("normalize"),
    Candidate::Str("min-ttl"),
    Candidate::Str("max-mss"),
    Candidate::Str("no-df"),
    Candidate::Sign(Sign::OpenBrace),
    Candidate::Sign(Sign::CloseBrace),
    Candidate::Sign(Sign::OpenParen),
    Candidate::Sign(Sign::CloseParen),
    Candidate::Sign(Sign::Comma),
    Candidate::Sign(Sign::Slash),
    Candidate::Sign(Sign::Dash),
    Candidate::Sign(Sign::Colon),
    Candidate::Sign(Sign::Equals),
    Candidate::Sign(Sign::Exclamation),
    Candidate::Sign(Sign::Less),
    Candidate::Sign(Sign::Greater),
    Candidate::Sign(Sign::Right),
    Candidate::Sign(Sign::Left),
    Candidate::Sign(Sign::Both),
    Candidate::Str("a"),
    Candidate::Str(""),
    Candidate::Variable,
    Candidate::Address,
    Candidate::Word("a"),
    Candidate::Word("S"),
    Candidate::Number(0),
    Candidate::Number(32),
    Candidate::Number(128),
    Candidate::Number(255),
    Candidate::Number(65535),
    Candidate::Number(4294967295),
    Candidate::Separator,
    Candidate::End,
    Candidate::Word("hash"),
    Candidate::Word("tree"),
    Candidate::Word("cdb"),
    Candidate::Word("inet"),
    Candidate::Word("normalise"),
    Candidate::Word("no-ports"),
    Candidate::Word("layer-2"),
    Candidate::Word("user"),
    Candidate::Word("pcap-filter"),
    Candidate::Word("route"),
    Candidate::Str("random-id"),
];

/// The tokens that are tried.
#[tactic(auto, unfolding(crate::specs::Candidate::candidate_kinds))]
pub(crate) fn candidates() -> &'static [Candidate]
    ensures { map candidate_kind result.now ≡ candidate_kinds }
{
    &CANDIDATES
}

impl Candidate {
    /// What the token is.
    pub(crate) fn kind(&self, alloc: Global) -> Result<TokenKind, NoMemory>
        ensures { IfOk result (λ kind. kind ≡ candidate_kind self.now) }
    {
        match self {
            Candidate::Word(text) => Ok(TokenKind::Word(text_of(alloc, text)?)),
            Candidate::Str(text) => Ok(TokenKind::Str(text_of(alloc, text)?)),
            Candidate::Sign(sign) => Ok(TokenKind::Sign(*sign)),
            Candidate::Number(number) => Ok(TokenKind::Number(*number)),
            Candidate::Variable => Ok(TokenKind::Var(text_of(alloc, "a")?)),
            Candidate::Address => Ok(TokenKind::Address(Addr::V4(0))),
            Candidate::Separator => Ok(TokenKind::LineFeed),
            Candidate::End => Ok(TokenKind::End),
        }
    }
}

fn text_of(alloc: Global, text: &str) -> Result<Text, NoMemory>
    ensures { IfOk result (λ copy. copy ≡ text.now) }
{
    Ok(List::of_vec(text.as_bytes().to_vec(alloc)?))
}
