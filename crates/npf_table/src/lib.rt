// Address tables (npf.conf(5), "Tables"): sets of addresses, or of address blocks, that rules name instead of listing
// them. An `ipset` or `const` table has single addresses, an `lpm` table blocks of any length; a `const` one never changes.
//
// A table file has an address or a block on each line (RFC 4291 section 2.2, RFC 4632 section 3.1), with comments from
// `#` on. `line` says what a line is, `prefix_text` what an entry is, `table` reads the file and answers for the table.
//
// The words of other texts of npfctl (a script's) are parted and read by the same functions, so these are handed out.
//
// The contract: a table is a list of prefixes, none of which is there twice, and has an address exactly where one of
// them has it. A file's table has exactly the prefixes that its lines write, or the file is refused for its first bad
// line. A change is refused for the table's kind first, and then for what is there; a refused one changes nothing.
#![tactic(auto)]

mod fault;
mod line;
mod prefix_text;
mod table;

pub use fault::TableFault;
pub use line::{trim_end, trim_start};
pub use prefix_text::{first_place, written_prefix};
pub use table::Table;
