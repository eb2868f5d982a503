// The tokens of a text before a place, and from it on.
ghost use Rattle.std.specs.Prelude.{◌≡◌, ◌≤◌, length, nat_lt};
ghost use Rattle.std.specs.List.{prefix_len};
ghost use Rattle.npf_why.specs.Tokens.{tokens_at, tokens_before};

use npf_lexer::Token;

/// The tokens from a place on.
pub fn tokens_at(tokens: &[Token], at: u32) -> &[Token]
    ensures { result.now ≡ tokens_at at tokens.now }
{
    tokens.split_at(count_before(tokens, at)).1
}

/// The tokens before a place.
pub fn tokens_before(tokens: &[Token], at: u32) -> &[Token]
    ensures { result.now ≡ tokens_before at tokens.now }
{
    tokens.split_at(count_before(tokens, at)).0
}

fn count_before(tokens: &[Token], at: u32) -> usize
    ensures count { result ≡ prefix_len (λ token. nat_lt token.span.at at) tokens.now }
    ensures within { result ≤ length tokens.now }
{
    tokens.iter().take_while(|token| token.span.at < at).count()
}
