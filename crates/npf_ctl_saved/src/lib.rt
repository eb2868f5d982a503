// The connections that a run begins with: those of a file, put into the new table, or none; and the
// names of the run's interfaces, by which such a file is read and saved.
//
// The contract: the table begins with the connections of the file, by their entries alone, or the
// first fault is told: that the file can't be read, that its text is refused, and then the table was
// not asked, or that the table had no node. Want of memory says nothing (specs/Loading).
#![tactic(auto)]

mod interfaces;
mod loads;

pub use interfaces::interface_names;
pub use loads::load_connections;
