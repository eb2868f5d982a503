// The words of a rule.
ghost use Rattle.std.specs.Prelude.{◌≡◌, length};
ghost use Rattle.std.specs.Option.{option_map};
ghost use Rattle.npf_expand.specs.Rule.{decision_of, dir_of, flag_bit, flag_bits, flags_of_detail, is_inet6, mask_bits, return_of, state_of_words};

use npf_model::StateOpt;
use npf_syntax::{BlockReturn, Detail, Direction, Family, RuleAction, Stateful, Word};
use npf_types::{Decision, Dir, Return};

pub(crate) fn decision_of(action: &RuleAction) -> Decision
    ensures { result ≡ decision_of action.now }
{
    match action {
        RuleAction::Block { answer, .. } => Decision::Block(return_of(answer)),
        RuleAction::Pass { .. } => Decision::Pass,
    }
}

fn return_of(answer: &Option<BlockReturn>) -> Return
    ensures { result ≡ return_of answer.now }
{
    match answer {
        None => Return::Nothing,
        Some(BlockReturn::Return { .. }) => Return::Any,
        Some(BlockReturn::ReturnRst { .. }) => Return::Rst,
        Some(BlockReturn::ReturnIcmp { .. }) => Return::Icmp,
    }
}

pub(crate) fn state_of(words: &Option<Stateful>) -> StateOpt
    ensures { result ≡ state_of_words words.now }
{
    match words {
        None => StateOpt::Not,
        Some(Stateful::Stateful { .. }) => StateOpt::OnInterface,
        Some(Stateful::StatefulAll { .. }) => StateOpt::Everywhere,
    }
}

pub(crate) fn dir_of(dir: &Option<Direction>) -> Option<Dir>
    ensures { result ≡ option_map dir_of dir.now }
{
    match dir {
        None => None,
        Some(Direction::In { .. }) => Some(Dir::In),
        Some(Direction::Out { .. }) => Some(Dir::Out),
    }
}

/// Whether the family is IPv6, where one is written.
pub(crate) fn is_inet6(family: &Option<Family>) -> Option<bool>
    ensures { result ≡ option_map is_inet6 family.now }
{
    match family {
        None => None,
        Some(Family::Inet4 { .. }) => Some(false),
        Some(Family::Inet6 { .. }) => Some(true),
    }
}

/// The control bits that have to be set, and those that are looked at.
pub(crate) fn flags_of(detail: &Option<Detail>) -> Option<(u8, u8)>
    ensures { result ≡ flags_of_detail detail.now }
{
    match detail {
        Some(Detail::Flags { flags, mask, .. }) => {
            Some((flag_bits(flags.text.as_slice()), mask_bits(flags, mask)))
        }
        _ => None,
    }
}

fn mask_bits(flags: &Word, mask: &Option<Word>) -> u8
    ensures { result ≡ mask_bits flags.now mask.now }
{
    match mask {
        None => flag_bits(flags.text.as_slice()),
        Some(mask) => flag_bits(mask.text.as_slice()),
    }
}

fn flag_bits(letters: &[u8]) -> u8
    ensures { result ≡ flag_bits letters.now }
{
    let mut bits = 0;
    let mut at = letters.len();
    while at > 0 {
        at -= 1;
        bits = flag_bit(letters[at]) | bits;
    }
    bits
}

fn flag_bit(letter: u8) -> u8
    ensures { result ≡ flag_bit letter }
{
    match letter {
        b'F' => 1,
        b'S' => 2,
        b'R' => 4,
        b'P' => 8,
        b'A' => 16,
        b'U' => 32,
        b'E' => 64,
        b'W' => 128,
        _ => 0,
    }
}
