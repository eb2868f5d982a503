// What of a configuration nothing uses: tables and procedures that no rule and no map names, and tables that are named and have no address.
//
// A table is declared for the rules and maps that name it at one of their ends, and a procedure for the rules that call it (npf.conf(5), "Tables",
// "Procedures"). No packet is asked for: what a rule names it may use, whether or not the rule decides on any.
//
// The contract (specs/Unused): something is used exactly where some rule or some map names it; of a table that is used it is said whether it has a block.
#![tactic(auto)]

mod procedure;
mod table;
mod usable;

pub use procedure::procedures_used;
pub use table::{TableFinding, table_finding, table_findings};
pub use usable::{Usable, is_used};
