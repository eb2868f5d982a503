// The filters of rules and maps.
ghost use Rattle.std.specs.Prelude.{◌≡◌, ◌++◌, OnOk};
ghost use Rattle.npf_show.specs.Filter.{family_pieces, protocol_pieces, protocols_pieces, flags_pieces, code_pieces, icmp_pieces, filter_pieces};
ghost use Rattle.npf_show.specs.Piece.{spelled, optional_pieces};

use crate::ends::show_where;
use crate::page::Page;
use crate::shown::{Shown, show_list};
use npf_model::{Model, Rule};
use npf_types::NoMemory;

/// The part of a rule that a map's filter has, too.
pub(crate) fn show_filter(rule: &Rule, model: &Model, page: &mut Page) -> Result<(), NoMemory>
    ensures { OnOk result (page.new ≡ page.old ++ spelled (filter_pieces model.now rule.now)) }
{
    show_family(rule.v6, page)?;
    show_protocols(rule.protos.as_slice(), model, page)?;
    show_flags(rule.flags, page)?;
    show_icmp(rule.icmp, page)?;
    show_where(&rule.from, &rule.to, model, page)?;
    Ok(())
}

fn show_family(v6: Option<bool>, page: &mut Page) -> Result<(), NoMemory>
    ensures { OnOk result (page.new ≡ page.old ++ spelled (optional_pieces family_pieces v6)) }
{
    let Some(v6) = v6 else {
        return Ok(());
    };
    page.word("family")?;
    page.word(if v6 { "inet6" } else { "inet4" })?;
    Ok(())
}

impl Shown for u8 {
    ghost pieces = { λ model protocol. protocol_pieces protocol };

    fn show(&self, _model: &Model, page: &mut Page) -> Result<(), NoMemory> {
        page.number(u32::from(*self))
    }
}

fn show_protocols(protocols: &[u8], model: &Model, page: &mut Page) -> Result<(), NoMemory>
    ensures { OnOk result (page.new ≡ page.old ++ spelled (protocols_pieces protocols.now)) }
{
    if protocols.is_empty() {
        return Ok(());
    }
    page.word("proto")?;
    show_list(protocols, model, page)?;
    Ok(())
}

fn show_flags(flags: Option<(u8, u8)>, page: &mut Page) -> Result<(), NoMemory>
    ensures { OnOk result (page.new ≡ page.old ++ spelled (optional_pieces flags_pieces flags)) }
{
    let Some(flags) = flags else {
        return Ok(());
    };
    page.word("flags")?;
    page.flags(flags.0)?;
    page.glued_sign("/")?;
    page.glued_flags(flags.1)?;
    Ok(())
}

fn show_icmp(icmp: Option<(u8, Option<u8>)>, page: &mut Page) -> Result<(), NoMemory>
    ensures { OnOk result (page.new ≡ page.old ++ spelled (optional_pieces icmp_pieces icmp)) }
{
    let Some(icmp) = icmp else {
        return Ok(());
    };
    page.word("icmp-type")?;
    page.number(u32::from(icmp.0))?;
    show_code(icmp.1, page)?;
    Ok(())
}

fn show_code(code: Option<u8>, page: &mut Page) -> Result<(), NoMemory>
    ensures { OnOk result (page.new ≡ page.old ++ spelled (optional_pieces code_pieces code)) }
{
    let Some(code) = code else {
        return Ok(());
    };
    page.word("code")?;
    page.number(u32::from(code))?;
    Ok(())
}
