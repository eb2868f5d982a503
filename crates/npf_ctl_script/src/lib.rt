// The script of a run (docs/npfctl.8, "Scripts"): a command on each line, which names a capture, begins a phase, or stands
// in one.
//
// `words` parts a line into words; `command`, `verb`, `direction`, `number`, `seconds` and `file_name` say what one of them is,
// `last` what the last one of a line is, `change` what stands first in a change of rules or tables. `arguments` reads what
// follows a command, `section` says which commands may come next, and `reading` reads the text line by line. `laws`: a text is
// one script at most, and none that is refused.
//
// The contract: what is read is each line of the text that isn't skipped, with its number from 1 and as its command's form has
// it (specs/Arguments, specs/Lines), and the text is refused exactly where a line has none of the forms or stands where it may
// not; then the first such line is told.
#![tactic(auto)]

mod arguments;
mod change;
mod change_word;
mod command;
mod direction;
mod file_name;
mod last;
pub mod laws;
mod lines;
mod number;
mod script;
mod seconds;
mod section;
mod words;

pub use lines::read_script;
pub use script::{Script, ScriptFault, ScriptLine};
