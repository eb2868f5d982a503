// Where the tables and the procedures of one model stand in another.
ghost use Rattle.std.specs.Prelude.{◌≡◌, ◌≤◌, ◌<◌, IfOk, IfSome, length, map};
ghost use Rattle.std.specs.Option.{option_map};
ghost use Rattle.std.specs.Str.{bytes_eq};
ghost use Rattle.npf_model.specs.Verdict.{first_where};
ghost use Rattle.npf_config_reload.specs.Before.{again_of};
ghost use Rattle.npf_config_reload.specs.Taken.{again_in, place_again, procedure_in, table_in};

use npf_config_changes::table_place;
use npf_model::{Model, Procedure, TableDecl};
use npf_types::NoMemory;
use npf_types::limits::{MAX_PROCEDURES, MAX_TABLES};
use std::alloc::Global;

/// The place in the file of each table and each procedure of the configuration before, where the file has one of its name.
#[derive(Drop)]
pub(crate) struct FilePlaces {
    tables: Vec<Option<u32>>,
    procedures: Vec<Option<u32>>,
}

impl FilePlaces {
    pub(crate) fn of(alloc: Global, old: &Model, file: &Model) -> Result<FilePlaces, NoMemory>
        requires tables { length file.now.tables ≤ MAX_TABLES }
        requires procedures { length file.now.procedures ≤ MAX_PROCEDURES }
        ensures { IfOk result (λ places. again_of places ≡ again_in old.now file.now) }
    {
        Ok(FilePlaces {
            tables: tables_in(alloc, old.tables.as_slice(), file)?,
            procedures: procedures_in(alloc, old.procedures.as_slice(), file)?,
        })
    }

    /// The table that stood at this place.
    pub(crate) fn table(&self, place: u32) -> Option<u32>
        ensures { result ≡ place_again (again_of self.now).tables place }
    {
        place_again(&self.tables, place)
    }

    /// The procedure that stood at this place.
    pub(crate) fn procedure(&self, place: u32) -> Option<u32>
        ensures { result ≡ place_again (again_of self.now).procedures place }
    {
        place_again(&self.procedures, place)
    }
}

fn place_again(places: &[Option<u32>], place: u32) -> Option<u32>
    ensures { result ≡ place_again places.now place }
{
    match places.get(place as usize) {
        Some(again) => *again,
        None => None,
    }
}

fn tables_in(
    alloc: Global,
    tables: &[TableDecl],
    file: &Model,
) -> Result<Vec<Option<u32>>, NoMemory>
    requires { length file.now.tables ≤ MAX_TABLES }
    ensures { IfOk result (λ places. places.items ≡ map (table_in file.now) tables.now) }
{
    let mut places = Vec::with_capacity(alloc, tables.len())?;
    for table in tables {
        places.push(table_in(table, file))?;
    }
    Ok(places)
}

fn table_in(table: &TableDecl, file: &Model) -> Option<u32>
    requires { length file.now.tables ≤ MAX_TABLES }
    ensures { result ≡ table_in file.now table.now }
{
    match table_place(file.tables.as_slice(), &table.name) {
        Some(place) => Some(place as u32),
        None => None,
    }
}

fn procedures_in(
    alloc: Global,
    procedures: &[Procedure],
    file: &Model,
) -> Result<Vec<Option<u32>>, NoMemory>
    requires { length file.now.procedures ≤ MAX_PROCEDURES }
    ensures { IfOk result (λ places. places.items ≡ map (procedure_in file.now) procedures.now) }
{
    let mut places = Vec::with_capacity(alloc, procedures.len())?;
    for procedure in procedures {
        places.push(procedure_in(procedure, file))?;
    }
    Ok(places)
}

fn procedure_in(procedure: &Procedure, file: &Model) -> Option<u32>
    requires { length file.now.procedures ≤ MAX_PROCEDURES }
    ensures { result ≡ procedure_in file.now procedure.now }
{
    let name = procedure.name.as_slice();
    for (at, other) in file.procedures.as_slice().iter().enumerate() {
        if other.name.as_slice() == name {
            return Some(at as u32);
        }
    }
    None
}
