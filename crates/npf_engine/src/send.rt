// What is sent of a packet. All are inlined: a packet that isn't sent pays for a test alone.
ghost use Rattle.std.specs.Prelude.{◌≡◌, None, length, IfSome};
ghost use Rattle.std.specs.Option.{option_map};
ghost use Rattle.npf_icmpalg.specs.Error.{HasQuotedRoom};
ghost use Rattle.npf_rewrite.specs.Room.{HasRoom};
ghost use Rattle.npf_engine.specs.Answer.{IsRewrittenBy, IsSentSo, quoted_by};

use crate::answer::{Rewriting, Translation};
use npf_icmpalg::{Inner, inner_of, translate_error};
use npf_rewrite::{normalize, translate};
use npf_types::Facts;

/// Normalises and then translates the packet with these facts, where it is sent; of any other no byte changes.
#[inline(always)]
pub(crate) fn rewrite(bytes: &mut [u8], facts: &Facts, rewriting: &Option<Rewriting>)
    requires { HasRoom (length bytes.old) facts.now }
    ensures sent { IsSentSo bytes.old facts.now rewriting.now (option_map (λ _. bytes.new) rewriting.now) }
    ensures kept { rewriting.now ≡ None → bytes.new ≡ bytes.old }
{
    if let Some(rewriting) = rewriting {
        rewrite_sent(bytes, facts, rewriting);
    }
}

/// Rewrites a packet that is sent, and an error with what it quotes, which its bytes tell as they arrived.
#[inline(always)]
fn rewrite_sent(bytes: &mut [u8], facts: &Facts, rewriting: &Rewriting)
    requires { HasRoom (length bytes.old) facts.now }
    ensures { IsRewrittenBy bytes.old facts.now rewriting.now.translation rewriting.now.action rewriting.now.change bytes.new }
{
    let quoted = quoted_by(bytes, facts, rewriting.translation);
    normalize(bytes, facts, &rewriting.action);
    match quoted {
        Some(inner) => translate_error(bytes, facts, &inner, &rewriting.change),
        None => translate(bytes, facts, &rewriting.change),
    }
}

/// What is translated together with the packet, which quotes it.
#[inline(always)]
fn quoted_by(bytes: &[u8], facts: &Facts, translation: Translation) -> Option<Inner>
    requires { HasRoom (length bytes.now) facts.now }
    ensures value { result ≡ quoted_by bytes.now facts.now translation }
    ensures placed { IfSome result (HasQuotedRoom facts.now) }
{
    match translation {
        Translation::OfPacket => None,
        Translation::OfError => inner_of(bytes, facts),
    }
}
