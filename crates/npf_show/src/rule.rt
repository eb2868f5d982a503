// Rules.
ghost use Rattle.std.specs.Prelude.{◌≡◌, ◌++◌, IfOk, OnOk, slice_get};
ghost use Rattle.npf_show.specs.Piece.{spelled, optional_pieces};
ghost use Rattle.npf_show.specs.Rule.{decision_pieces, return_pieces, state_pieces, final_pieces, apply_pieces, rule_pieces, name_of_procedure};

use crate::filter::show_filter;
use crate::page::Page;
use crate::shown::Shown;
use npf_model::{Model, Rule, StateOpt};
use npf_types::{Decision, NoMemory, Return};
use std::alloc::Global;

/// A rule as the canonical text has it, without the spaces in front of it and the line's end.
pub fn show_rule(alloc: Global, model: &Model, rule: &Rule) -> Result<Vec<u8>, NoMemory>
    ensures { IfOk result (λ text. text.items ≡ spelled (rule_pieces model.now rule.now)) }
{
    let mut page = Page::new(alloc);
    rule.show(model, &mut page)?;
    Ok(page.into_text())
}

impl Shown for Rule {
    ghost pieces = { rule_pieces };

    fn show(&self, model: &Model, page: &mut Page) -> Result<(), NoMemory> {
        self.decision.show(model, page)?;
        self.state.show(model, page)?;
        self.dir.show(model, page)?;
        show_final(self.last, page)?;
        self.on.show(model, page)?;
        show_filter(self, model, page)?;
        show_apply(self.procedure, model, page)?;
        Ok(())
    }
}

impl Shown for Decision {
    ghost pieces = { λ model decision. decision_pieces decision };

    fn show(&self, model: &Model, page: &mut Page) -> Result<(), NoMemory> {
        match self {
            Decision::Pass => page.glued_word(b"pass"),
            Decision::Block(answer) => {
                page.glued_word(b"block")?;
                answer.show(model, page)
            }
        }
    }
}

impl Shown for Return {
    ghost pieces = { λ model answer. return_pieces answer };

    fn show(&self, _model: &Model, page: &mut Page) -> Result<(), NoMemory> {
        match self {
            Return::Nothing => Ok(()),
            Return::Any => page.word("return"),
            Return::Rst => page.word("return-rst"),
            Return::Icmp => page.word("return-icmp"),
        }
    }
}

impl Shown for StateOpt {
    ghost pieces = { λ model state. state_pieces state };

    fn show(&self, _model: &Model, page: &mut Page) -> Result<(), NoMemory> {
        match self {
            StateOpt::Not => Ok(()),
            StateOpt::OnInterface => page.word("stateful"),
            StateOpt::Everywhere => page.word("stateful-all"),
        }
    }
}

fn show_final(last: bool, page: &mut Page) -> Result<(), NoMemory>
    ensures { OnOk result (page.new ≡ page.old ++ spelled (final_pieces last)) }
{
    if last {
        page.word("final")?;
    }
    Ok(())
}

fn show_apply(procedure: Option<u32>, model: &Model, page: &mut Page) -> Result<(), NoMemory>
    ensures { OnOk result (page.new ≡ page.old ++ spelled (optional_pieces (apply_pieces model.now) procedure)) }
{
    let Some(number) = procedure else {
        return Ok(());
    };
    page.word("apply")?;
    page.quoted(procedure_name(model, number))?;
    Ok(())
}

fn procedure_name(model: &Model, number: u32) -> &[u8]
    ensures { result.now ≡ name_of_procedure (slice_get model.now.procedures number) }
{
    match model.procedures.as_slice().get(number as usize) {
        Some(procedure) => procedure.name.as_slice(),
        None => b"",
    }
}
