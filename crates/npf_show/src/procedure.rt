// Procedures.
ghost use Rattle.std.specs.Prelude.{◌≡◌, ◌++◌, OnOk, IfOk};
ghost use Rattle.npf_show.specs.Piece.{spelled, optional_pieces};
ghost use Rattle.npf_show.specs.Procedure.{procedure_lines, procedure_head, log_line, normalize_line, options_line, normal_options, normal_option};

use crate::bound::show_name;
use crate::page::Page;
use crate::shown::{Shown, show_with_commas};
use npf_model::{Model, Procedure};
use npf_types::{Name, NoMemory};
use std::alloc::Global;

/// An option of a procedure's normalisation.
#[derive(Clone, Copy, Debug)]
pub(crate) enum NormalOption {
    MinTtl(u8),
    MaxMss(u16),
    NoDf,
}

impl Shown for Procedure {
    ghost pieces = { λ model procedure. procedure_lines procedure };

    fn show(&self, model: &Model, page: &mut Page) -> Result<(), NoMemory> {
        show_head(self, page)?;
        show_log(self.log, page)?;
        show_normalize(self, model, page)?;
        page.close()?;
        Ok(())
    }
}

fn show_head(procedure: &Procedure, page: &mut Page) -> Result<(), NoMemory>
    ensures { OnOk result (page.new ≡ page.old ++ spelled (procedure_head procedure.now)) }
{
    page.glued_word(b"procedure")?;
    page.quoted(procedure.name.as_slice())?;
    page.sign("{")?;
    page.end_line()?;
    Ok(())
}

fn show_log(log: Option<Name>, page: &mut Page) -> Result<(), NoMemory>
    ensures { OnOk result (page.new ≡ page.old ++ spelled (optional_pieces log_line log)) }
{
    let Some(name) = log else {
        return Ok(());
    };
    page.indent()?;
    page.glued_word(b"log")?;
    page.glued_sign(":")?;
    show_name(&name, page)?;
    page.end_line()?;
    Ok(())
}

fn show_normalize(procedure: &Procedure, model: &Model, page: &mut Page) -> Result<(), NoMemory>
    ensures { OnOk result (page.new ≡ page.old ++ spelled (normalize_line (normal_options procedure.now))) }
{
    let options = normal_options(page.alloc(), procedure)?;
    show_options(options.as_slice(), model, page)?;
    Ok(())
}

fn show_options(options: &[NormalOption], model: &Model, page: &mut Page) -> Result<(), NoMemory>
    ensures { OnOk result (page.new ≡ page.old ++ spelled (normalize_line options.now)) }
{
    if options.is_empty() {
        return Ok(());
    }
    show_options_line(options, model, page)?;
    Ok(())
}

fn show_options_line(
    options: &[NormalOption],
    model: &Model,
    page: &mut Page,
) -> Result<(), NoMemory>
    ensures { OnOk result (page.new ≡ page.old ++ spelled (options_line options.now)) }
{
    page.indent()?;
    page.glued_word(b"normalize")?;
    page.glued_sign(":")?;
    show_with_commas(options, model, page)?;
    page.end_line()?;
    Ok(())
}

fn normal_options(alloc: Global, procedure: &Procedure) -> Result<Vec<NormalOption>, NoMemory>
    ensures { IfOk result (λ options. options.items ≡ normal_options procedure.now) }
{
    let mut options = Vec::new(alloc);
    if let Some(number) = procedure.min_ttl {
        options.push(NormalOption::MinTtl(number))?;
    }
    if let Some(number) = procedure.max_mss {
        options.push(NormalOption::MaxMss(number))?;
    }
    if procedure.no_df {
        options.push(NormalOption::NoDf)?;
    }
    Ok(options)
}

impl Shown for NormalOption {
    ghost pieces = { λ model option. normal_option option };

    fn show(&self, _model: &Model, page: &mut Page) -> Result<(), NoMemory> {
        match self {
            NormalOption::MinTtl(number) => {
                page.quoted(b"min-ttl")?;
                page.number(u32::from(*number))
            }
            NormalOption::MaxMss(number) => {
                page.quoted(b"max-mss")?;
                page.number(u32::from(*number))
            }
            NormalOption::NoDf => page.quoted(b"no-df"),
        }
    }
}
