// The elaboration of a whole configuration, statement by statement.
//
// Values and faults are total: a number past what may stand in its place, which no grammar accepts there, is taken for the greatest that
// may. So a model is defined of every tree, also of one that no text has.
ghost use Rattle.std.specs.Prelude.{◌≡◌, ◌++◌, ℕ, [], IfErr, IfOk, List, None, OnOk};
ghost use Rattle.std.specs.List.{flat_map};
ghost use Rattle.npf_types.specs.declared.span.Span.{Span};
ghost use Rattle.npf_syntax.specs.declared.stmt.Stmt.{Stmt};
ghost use Rattle.npf_faults.specs.First.{first_fault};
ghost use Rattle.npf_expand_values.specs.Scope.{env_in, ifaces_in};
ghost use Rattle.npf_expand_values.specs.Source.{declared_by};
ghost use Rattle.npf_expand.specs.Elaborates.{Elaborates, RefusesTree, procedures_of, stmts_faults};
ghost use Rattle.npf_expand.specs.Settings.{asks_icmp, settings_of};
ghost use Rattle.npf_expand.specs.Step.{Adding, IsStmtRead};
ghost use Rattle.npf_expand.specs.Table.{tables_of};

use crate::group::read_group;
use crate::map::{MapLine, map_fault, map_of, pass_count};
use crate::met::NodeTally;
use crate::procedure::procedure_of;
use crate::settings::{asks_icmp, settings_of};
use crate::table::table_of;
use npf_expand_values::{Declarations, Interfaces, Scope, Variables};
use npf_faults::Refused;
use npf_model::{Group, Ifaces, Map, Model, Procedure, TableDecl};
use npf_syntax::{GroupHead, ItemTree, Stmt, Tree, Values, Var};
use npf_types::{List, NoMemory, Span};
use std::alloc::Global;

/// What a configuration's tree means for a run with these interfaces. Refused with the fault that stands first in the text, of two
/// at one place the one with the smaller number, or for want of memory.
pub fn expand(alloc: Global, tree: &Tree, ifaces: &Ifaces) -> Result<Model, Refused>
    ensures ok { IfOk result (λ model. Elaborates tree.now ifaces.now.list model) }
    ensures refused { IfErr result (RefusesTree tree.now ifaces.now.list) }
{
    let interfaces = Interfaces::new(alloc, ifaces.list.as_slice())?;
    expand_for(alloc, tree, &interfaces)
}

fn expand_for<'a>(
    alloc: Global,
    tree: &'a Tree,
    interfaces: &'a Interfaces<'_>,
) -> Result<Model, Refused>
    ensures ok { IfOk result (λ model. Elaborates tree.now interfaces.now.list.now model) }
    ensures refused { IfErr result (RefusesTree tree.now interfaces.now.list.now) }
{
    let stmts = tree.stmts.as_slice();
    let declarations = Declarations::of_stmts(alloc, stmts)?;
    let state = read_stmts(alloc, interfaces, &declarations, stmts)?;
    if let Some(fault) = state.met.first {
        return Err(Refused::Fault(fault));
    }
    Ok(state.into_model(alloc, stmts)?)
}

fn read_stmts<'a, 'i>(
    alloc: Global,
    interfaces: &'a Interfaces<'i>,
    declarations: &Declarations<'a>,
    stmts: &'a [Stmt],
) -> Result<State<'a, 'i>, NoMemory>
    ensures first { IfOk result (λ state. state.met.first
        ≡ first_fault (stmts_faults interfaces.now.list.now (declared_by declarations.now.source) [] 0 stmts.now)) }
    ensures adding { IfOk result (λ state. state.met.first ≡ None
        → Adding interfaces.now.list.now (declared_by declarations.now.source) state stmts.now) }
{
    let mut state = State::new(alloc, interfaces);
    for stmt in stmts {
        state.step(alloc, declarations, stmt)?;
    }
    Ok(state)
}

/// What was read of a configuration so far.
#[derive(Drop)]
pub(crate) struct State<'a, 'i> {
    pub(crate) variables: Variables<'a, 'i>,
    pub(crate) met: NodeTally,
    pub(crate) groups: Vec<Group>,
    pub(crate) defaults: Vec<Group>,
    pub(crate) maps: Vec<Map>,
}

impl<'a, 'i> State<'a, 'i> {
    fn new(alloc: Global, interfaces: &'a Interfaces<'i>) -> State<'a, 'i>
        ensures none { (text : List ℕ) → env_in result.variables text ≡ None }
        ensures run { ifaces_in result.variables ≡ interfaces.now.list.now }
        ensures met { (result.met.first ≡ None) × (result.met.elements ≡ 0) }
        ensures empty { (result.groups.items ≡ []) × (result.defaults.items ≡ []) × (result.maps.items ≡ []) }
    {
        State {
            variables: Variables::new(alloc, interfaces),
            met: NodeTally::none(),
            groups: Vec::new(alloc),
            defaults: Vec::new(alloc),
            maps: Vec::new(alloc),
        }
    }

    fn step(
        &mut self,
        alloc: Global,
        declarations: &Declarations<'a>,
        stmt: &'a Stmt,
    ) -> Result<(), NoMemory>
        ensures { OnOk result (IsStmtRead (ifaces_in self.old.variables) (declared_by declarations.now.source) self.old self.new stmt.now) }
    {
        match stmt {
            Stmt::Define { var, values, .. } => self.define(alloc, declarations, var, values),
            Stmt::Map {
                iface,
                kind,
                proto,
                left,
                arrow,
                right,
                pass,
                span,
            } => {
                let line = MapLine {
                    iface: iface.get(),
                    kind: kind.get(),
                    proto,
                    left: left.get(),
                    arrow: *arrow,
                    right: right.get(),
                    pass,
                };
                self.add_map(alloc, declarations, &line, *span)
            }
            Stmt::Group { head, items, .. } => {
                self.add_group(alloc, declarations, head, items.as_slice())
            }
            Stmt::Set { .. } => Ok(()),
            Stmt::Alg { .. } => Ok(()),
            Stmt::MapRuleset { .. } => Ok(()),
            Stmt::Table { .. } => Ok(()),
            Stmt::Procedure { .. } => Ok(()),
        }
    }

    fn define(
        &mut self,
        alloc: Global,
        declarations: &Declarations<'a>,
        var: &'a Var,
        values: &'a Values,
    ) -> Result<(), NoMemory>
        ensures { OnOk result ((span : Span) → IsStmtRead (ifaces_in self.old.variables) (declared_by declarations.now.source) self.old self.new (Stmt.Define var.now values.now span)) }
    {
        let scope = Scope {
            variables: &self.variables,
            declarations,
        };
        let fault = scope.definition_fault(values);
        let def = scope.definition(alloc, values, &fault)?;
        self.met.meet(fault);
        self.variables.put(var.name.as_slice(), def)?;
        Ok(())
    }

    fn add_map(
        &mut self,
        alloc: Global,
        declarations: &Declarations<'a>,
        line: &MapLine<'a>,
        span: Span,
    ) -> Result<(), NoMemory>
        ensures { OnOk result (IsStmtRead (ifaces_in self.old.variables) (declared_by declarations.now.source) self.old self.new
            (Stmt.Map line.now.iface.now line.now.kind.now line.now.proto.now line.now.left.now line.now.arrow line.now.right.now line.now.pass.now span)) }
    {
        let scope = Scope {
            variables: &self.variables,
            declarations,
        };
        let more = pass_count(&scope, alloc, line.pass)?;
        self.met.meet_rule(map_fault(&scope, line), more, span);
        if self.met.first.is_some() {
            return Ok(());
        }
        self.maps.push(map_of(&scope, alloc, line)?)?;
        Ok(())
    }

    fn add_group(
        &mut self,
        alloc: Global,
        declarations: &Declarations<'a>,
        head: &'a GroupHead,
        items: &'a [ItemTree],
    ) -> Result<(), NoMemory>
        ensures { OnOk result ((span : Span) → IsStmtRead (ifaces_in self.old.variables) (declared_by declarations.now.source) self.old self.new (Stmt.Group head.now items.now span)) }
    {
        let scope = Scope {
            variables: &self.variables,
            declarations,
        };
        let group = read_group(&scope, alloc, &mut self.met, head, items)?;
        match head {
            GroupHead::Named { .. } => {
                self.groups.push(group)?;
                Ok(())
            }
            GroupHead::Default { .. } => {
                self.defaults.push(group)?;
                Ok(())
            }
        }
    }

    /// The model of statements that were all read.
    fn into_model(self, alloc: Global, stmts: &[Stmt]) -> Result<Model, NoMemory>
        ensures { IfOk result (λ model. model ≡ record {
          groups = self.entry.groups.items ++ self.entry.defaults.items;
          tables = flat_map tables_of stmts.now;
          maps = self.entry.maps.items;
          procedures = flat_map procedures_of stmts.now;
          settings = settings_of stmts.now;
          alg_icmp = asks_icmp stmts.now;
        }) }
    {
        let tables = tables_of_each(alloc, stmts)?;
        let procedures = procedures_of_each(alloc, stmts)?;
        let State {
            mut groups,
            mut defaults,
            maps,
            ..
        } = self;
        groups.append(&mut defaults)?;
        Ok(Model {
            groups: List::of_vec(groups),
            tables: List::of_vec(tables),
            maps: List::of_vec(maps),
            procedures: List::of_vec(procedures),
            settings: settings_of(stmts),
            alg_icmp: asks_icmp(stmts),
        })
    }
}

fn tables_of_each(alloc: Global, stmts: &[Stmt]) -> Result<Vec<TableDecl>, NoMemory>
    ensures { IfOk result (λ tables. tables.items ≡ flat_map tables_of stmts.now) }
{
    let mut tables = Vec::new(alloc);
    for stmt in stmts {
        add_table(alloc, &mut tables, stmt)?;
    }
    Ok(tables)
}

fn add_table(alloc: Global, tables: &mut Vec<TableDecl>, stmt: &Stmt) -> Result<(), NoMemory>
    ensures { OnOk result (tables.new.items ≡ tables.old.items ++ tables_of stmt.now) }
{
    match stmt {
        Stmt::Table {
            name,
            kind,
            file,
            span,
        } => {
            tables.push(table_of(alloc, name, kind, file, *span)?)?;
            Ok(())
        }
        _ => Ok(()),
    }
}

fn procedures_of_each(alloc: Global, stmts: &[Stmt]) -> Result<Vec<Procedure>, NoMemory>
    ensures { IfOk result (λ procedures. procedures.items ≡ flat_map procedures_of stmts.now) }
{
    let mut procedures = Vec::new(alloc);
    for stmt in stmts {
        add_procedure(alloc, &mut procedures, stmt)?;
    }
    Ok(procedures)
}

fn add_procedure(
    alloc: Global,
    procedures: &mut Vec<Procedure>,
    stmt: &Stmt,
) -> Result<(), NoMemory>
    ensures { OnOk result (procedures.new.items ≡ procedures.old.items ++ procedures_of stmt.now) }
{
    match stmt {
        Stmt::Procedure { name, calls, .. } => {
            procedures.push(procedure_of(alloc, name.text.as_slice(), calls.as_slice())?)?;
            Ok(())
        }
        _ => Ok(()),
    }
}
