// The tables and procedures that a configuration declares, by their names.
ghost use Rattle.std.specs.Prelude.{◌≡◌, ◌<◌, ◌≤◌, ◌+◌, ◌++◌, ℕ, IfOk, List, OnOk, map, min, unwrap_or};
ghost use Rattle.npf_types.specs.Name.{name_bytes};
ghost use Rattle.npf_expand_values.specs.Declarations.{declared_in, no_number, procedure_name, procedure_names, table_name, table_names, table_number};
ghost use Rattle.npf_expand_values.specs.Place.{ArePlaces};
ghost use Rattle.npf_expand_values.specs.Source.{declared_by, declared_of};

use crate::place::Places;
use crate::source::Source;
use npf_model::{Model, Procedure, TableDecl};
use npf_syntax::Stmt;
use npf_types::NoMemory;
use std::alloc::Global;

/// What declares tables and procedures, and the places of their names there.
#[derive(Drop)]
pub struct Declarations<'a> {
    pub source: Source<'a>,
    tables: Places<'a>,
    procedures: Places<'a>,
    ghost tables_placed: { ArePlaces tables (declared_by source).tables },
    ghost procedures_placed: { ArePlaces procedures (declared_by source).procedures },
}

impl<'a> Declarations<'a> {
    /// Those of a text.
    pub fn of_stmts(alloc: Global, stmts: &'a [Stmt]) -> Result<Declarations<'a>, NoMemory>
        ensures { IfOk result (λ declarations. declared_by declarations.source ≡ declared_in stmts.now) }
    {
        let tables = table_places(alloc, stmts)?;
        let procedures = procedure_places(alloc, stmts)?;
        Ok(Declarations {
            source: Source::InText(stmts),
            tables,
            procedures,
        })
    }

    /// Those of a model.
    pub fn of_model(alloc: Global, model: &'a Model) -> Result<Declarations<'a>, NoMemory>
        ensures { IfOk result (λ declarations. declared_by declarations.source ≡ declared_of model.now) }
    {
        let tables = places_of_tables(alloc, model.tables.as_slice())?;
        let procedures = places_of_procedures(alloc, model.procedures.as_slice())?;
        Ok(Declarations {
            source: Source::InModel(model),
            tables,
            procedures,
        })
    }

    /// The place of a table, counted from 0.
    pub(crate) fn table(&self, name: &[u8]) -> u32
        ensures { result ≡ table_number (declared_by self.now.source).tables name.now }
    {
        number_of(self.tables.place(name))
    }

    /// The place of a procedure, counted from 0.
    pub fn procedure(&self, name: &[u8]) -> u32
        ensures { result ≡ table_number (declared_by self.now.source).procedures name.now }
    {
        number_of(self.procedures.place(name))
    }
}

// A place as a number; one that isn't there, or passes the greatest number, has the number of none.
fn number_of(place: Option<usize>) -> u32
    ensures { result ≡ min (unwrap_or place no_number) no_number }
{
    match place {
        Some(place) => place.min(u32::MAX as usize) as u32,
        None => u32::MAX,
    }
}

fn places_of_tables<'a>(alloc: Global, tables: &'a [TableDecl]) -> Result<Places<'a>, NoMemory>
    ensures { IfOk result (λ places. ArePlaces places (map (λ table. name_bytes table.name) tables.now)) }
{
    let mut places = Places::new(alloc);
    for table in tables {
        places.add(table.name.as_bytes())?;
    }
    Ok(places)
}

fn places_of_procedures<'a>(
    alloc: Global,
    procedures: &'a [Procedure],
) -> Result<Places<'a>, NoMemory>
    ensures { IfOk result (λ places. ArePlaces places (map (λ procedure. procedure.name) procedures.now)) }
{
    let mut places = Places::new(alloc);
    for procedure in procedures {
        places.add(procedure.name.as_slice())?;
    }
    Ok(places)
}

fn table_places<'a>(alloc: Global, stmts: &'a [Stmt]) -> Result<Places<'a>, NoMemory>
    ensures { IfOk result (λ places. ArePlaces places (table_names stmts.now)) }
{
    let mut places = Places::new(alloc);
    for stmt in stmts {
        add_table(&mut places, stmt)?;
    }
    Ok(places)
}

fn procedure_places<'a>(alloc: Global, stmts: &'a [Stmt]) -> Result<Places<'a>, NoMemory>
    ensures { IfOk result (λ places. ArePlaces places (procedure_names stmts.now)) }
{
    let mut places = Places::new(alloc);
    for stmt in stmts {
        add_procedure(&mut places, stmt)?;
    }
    Ok(places)
}

fn add_table<'a>(places: &mut Places<'a>, stmt: &'a Stmt) -> Result<(), NoMemory>
    requires { places.old.count < usize.MAX }
    ensures added { OnOk result ((names : List (List ℕ)) → ArePlaces places.old names → ArePlaces places.new (names ++ table_name stmt.now)) }
    ensures counted { OnOk result (places.new.count ≤ places.old.count + 1) }
{
    match stmt {
        Stmt::Table { name, .. } => places.add(name.text.as_slice()),
        _ => Ok(()),
    }
}

fn add_procedure<'a>(places: &mut Places<'a>, stmt: &'a Stmt) -> Result<(), NoMemory>
    requires { places.old.count < usize.MAX }
    ensures added { OnOk result ((names : List (List ℕ)) → ArePlaces places.old names → ArePlaces places.new (names ++ procedure_name stmt.now)) }
    ensures counted { OnOk result (places.new.count ≤ places.old.count + 1) }
{
    match stmt {
        Stmt::Procedure { name, .. } => places.add(name.text.as_slice()),
        _ => Ok(()),
    }
}
