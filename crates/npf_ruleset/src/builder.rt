// A model compiled.
ghost use Rattle.std.specs.Prelude.{◌≡◌, ◌≤◌, IfOk, IfErr, length};
ghost use Rattle.npf_model.specs.Verdict.{all_rules};
ghost use Rattle.npf_ruleset.specs.Configuration.{programs};
ghost use Rattle.npf_ruleset.specs.Flat.{instructions};
ghost use Rattle.npf_ruleset.specs.Refusal.{AreProgramsOf, HasTables, IsBuildable, IsWithinLimits, RefusesModel};

use crate::compile::{compile_all, lay_out};
use crate::config::Config;
use crate::fault::BuildFault;
use crate::layout::GroupLayout;
use npf_bpf::Program;
use npf_model::Model;
use npf_table::Table;
use npf_types::limits::MAX_INSTRUCTIONS;
use npf_types::{List, NoMemory};
use std::alloc::Global;
use std::sync::Arc;

/// Compiles a model's rules and lays them out flat, beside its tables in the order in which the
/// model declares them. Refused for the first rule, in the order of inspection, whose weight passes
/// 4,096; then where all programs together have more than `MAX_INSTRUCTIONS` instructions; or for
/// want of memory. The model has at most 4,096 rules and 256 maps, each list of a rule has fewer
/// than 2^56 elements, each table's number is below 2^31, and there are as many tables as the model
/// declares, at most 64.
pub fn build(alloc: Global, model: Model, tables: Vec<Arc<Table>>) -> Result<Config, BuildFault>
    requires buildable { IsBuildable model }
    requires tables { HasTables model tables.items }
    ensures model { IfOk result (λ config. config.model ≡ model) }
    ensures tables { IfOk result (λ config. config.tables ≡ tables) }
    ensures accepts { IfOk result (λ config. IsWithinLimits model (programs config)) }
    ensures refuses { IfErr result (RefusesModel model) }
{
    let programs = compiled(alloc, &model)?;
    let total = instructions(&programs);
    if total > MAX_INSTRUCTIONS as u64 {
        return Err(BuildFault::TooMuch(total));
    }
    Ok(assemble(alloc, model, tables, programs)?)
}

/// The programs of a model's rules, in the order of inspection, each compiled anew. Refused for the
/// first rule whose weight passes 4,096, or for want of memory.
fn compiled(alloc: Global, model: &Model) -> Result<Vec<Program>, BuildFault>
    requires { IsBuildable model.now }
    ensures ok { IfOk result (λ programs. AreProgramsOf (all_rules model.now.groups) programs.items) }
    ensures refuses { IfErr result (RefusesModel model.now) }
{
    let groups = model.groups.as_slice();
    let layout = GroupLayout::of(alloc, groups)?;
    compile_all(alloc, groups, &layout.places)
}

/// Lays a model out flat with the programs of its rules, in the order of inspection, and its tables.
/// Nothing is compiled. What `build` asks of a model and its tables is asked here too, and of the
/// programs that they keep the limits.
pub fn assemble(
    alloc: Global,
    model: Model,
    tables: Vec<Arc<Table>>,
    compiled: Vec<Program>,
) -> Result<Config, NoMemory>
    requires buildable { IsBuildable model }
    requires programs { IsWithinLimits model compiled.items }
    requires tables { HasTables model tables.items }
    ensures model { IfOk result (λ config. config.model ≡ model) }
    ensures tables { IfOk result (λ config. config.tables ≡ tables) }
    ensures programs { IfOk result (λ config. programs config ≡ compiled.items) }
{
    let layout = GroupLayout::of(alloc, model.groups.as_slice())?;
    let rules = lay_out(alloc, model.groups.as_slice(), &layout.places, compiled)?;
    Ok(Config {
        model,
        tables,
        groups: List::of_vec(layout.groups),
        rules: List::of_vec(rules),
    })
}

/// How many instructions programs have together, of which there are at most 4,096.
pub fn instructions(programs: &[Program]) -> u64
    requires { length programs.now ≤ 4096 }
    ensures { result ≡ instructions programs.now }
{
    let mut total = 0;
    for program in programs {
        total += program.insns().len() as u64;
    }
    total
}
