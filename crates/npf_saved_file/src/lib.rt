// The file of saved connections, by which a run can go on where another ended: a head, the run's
// interfaces in their order, and the connections by rising forward key.
//
// `lines` takes the text line by line, `conns` says which connection may stand behind others, and
// `reading` reads the whole and holds it against a run: its interfaces, and how many connections it
// has room for.
//
// The contract: a text is read exactly where it is that of some interfaces and connections which
// may stand in this order, and it is then the text of what is read, so writing that gives it again.
// Any other text is refused at its first bad line; behind that, other interfaces than the run's are
// told before too many connections.
#![tactic(auto)]

mod conns;
mod fault;
mod lines;
mod read;

pub use fault::SavedFault;
pub use read::read_saved;
