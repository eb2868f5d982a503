// The rules of a model compiled, one after another in the order of inspection, and laid out flat.
ghost use Rattle.std.specs.Prelude.{◌≡◌, ◌≤◌, ◌<◌, All, IfOk, IfErr, length};
ghost use Rattle.std.specs.List.{AllZip};
ghost use Rattle.npf_model.specs.Verdict.{PlacedRule, all_rules};
ghost use Rattle.npf_ruleset.specs.Flat.{IsCompiled, IsFlatRule, programs_of};
ghost use Rattle.npf_ruleset.specs.Layout.{ArePlacesOf, fault_there};
ghost use Rattle.npf_ruleset.specs.Place.{IsPlaceOfRule, placed_at};
ghost use Rattle.npf_ruleset.specs.Refusal.{AreProgramsOf, IsCompilable, RefusesAllRules};

use crate::always::describes_all;
use crate::binding::Binding;
use crate::fault::BuildFault;
use crate::flat::FlatRule;
use crate::place::{RulePlace, placed_at};
use crate::row::Row;
use npf_bpf::Program;
use npf_bpfgen::{GenFault, compile};
use npf_model::Group;
use npf_types::NoMemory;
use std::alloc::Global;

pub(crate) fn compile_all(
    alloc: Global,
    groups: &[Group],
    places: &[RulePlace],
) -> Result<Vec<Program>, BuildFault>
    requires places { ArePlacesOf groups.now places.now }
    requires rules { All IsCompilable (all_rules groups.now) }
    requires room { length (all_rules groups.now) ≤ 4096 }
    ensures ok { IfOk result (λ programs. AreProgramsOf (all_rules groups.now) programs.items) }
    ensures refuses { IfErr result (RefusesAllRules (all_rules groups.now)) }
{
    let mut programs = Vec::with_capacity(alloc, places.len())?;
    for (at, place) in places.iter().enumerate() {
        match compile(alloc, placed_at(groups, *place).rule) {
            Ok(program) => programs.push(program)?,
            Err(fault) => return Err(fault_at(at, fault)),
        }
    }
    Ok(programs)
}

fn fault_at(at: usize, fault: GenFault) -> BuildFault
    requires { at < 4096 }
    ensures { result ≡ fault_there at fault }
{
    match fault {
        GenFault::TooLong(weight) => BuildFault::TooLong {
            rule: at as u32,
            weight,
        },
        GenFault::NoMemory => BuildFault::NoMemory,
    }
}

/// The flat rules of a model whose rules have these programs.
pub(crate) fn lay_out(
    alloc: Global,
    groups: &[Group],
    places: &[RulePlace],
    programs: Vec<Program>,
) -> Result<Vec<FlatRule>, NoMemory>
    requires places { ArePlacesOf groups.now places.now }
    requires programs { AreProgramsOf (all_rules groups.now) programs.items }
    ensures rules { IfOk result (λ rules. AllZip (IsFlatRule groups.now) (all_rules groups.now) rules.items) }
    ensures programs { IfOk result (λ rules. programs_of rules.items ≡ programs.items) }
{
    let mut rules = Vec::with_capacity(alloc, programs.len())?;
    for program in programs {
        rules.push(flat_rule(groups, places[rules.len()], program))?;
    }
    Ok(rules)
}

fn flat_rule(groups: &[Group], place: RulePlace, program: Program) -> FlatRule
    requires { IsPlaceOfRule groups.now place }
    ensures stands { (placed : PlacedRule) → placed_at groups.now place ≡ Some placed → IsCompiled placed.rule program → IsFlatRule groups.now placed result }
    ensures program { result.program ≡ program }
{
    let placed = placed_at(groups, place);
    FlatRule {
        binding: Binding::of_rule(&placed),
        last: placed.rule.last,
        row: Row::of(placed.rule),
        always: describes_all(&program),
        program,
        place,
    }
}
