// The connections of a table saved as a text and loaded from it, so that a gateway's state can go from
// one run into the next.
//
// `saving` writes the text of all Live connections of a table; `loading` puts the connections of such a
// text into a new table. `laws`: a table has one text, so saving after loading gives the text that was
// loaded.
//
// The contract: what is saved is the text of the table's state (specs/Saving): each Live connection
// that holds a forward key, by rising forward keys, with all keys that it holds and its flow but for
// the number of the packet that opened it. After a load the table's state has the text that was loaded,
// and its history the entries of that text's connections, one behind the other, and no others
// (specs/Loading). A text is refused as npf_saved_file refuses it, before the table is asked, or where
// the table had no node for a key: then a front of its connections is loaded. All is proved from the
// contract of `Connections`, whatever the table.
#![tactic(auto)]

pub mod laws;
mod loads;
mod saves;

pub use loads::load;
pub use saves::save;
