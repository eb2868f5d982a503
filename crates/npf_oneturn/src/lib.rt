// A table of connections that many threads use one after the other: the whole state lies in one slot, under one turn.
//
// A pass takes the turn by a compare-exchange of the table's one word, has the store to itself, and gives the turn back by the store
// that frees the word; all the entries of a call are made at that store. So a call costs two steps and the store's own work,
// and calls of many threads are in a line. It is the plainest table that meets `Connections`: what is proved above the trait runs
// over it, and later over any other. The word and the slot are those of atomic_table; the lock is the test-and-set lock of Herlihy
// and Shavit, "The Art of Multiprocessor Programming", chapter 7.
//
// A connection is freed only while no pass is entered: the slot counts those that are, so that what a pass was answered in its stay
// stays. The one contract: `OneTurn` meets `Connections<L>` for every law `L` whose flows may go to another thread.
#![tactic(auto)]

mod contents;
pub mod laws;
mod moves;
mod one_turn;
mod rule;
mod turn;
mod view;
mod work;

pub use contents::Contents;
pub use one_turn::{OneTurn, OneTurnPass};
pub use rule::{CallEnding, OneTurnRule};
pub use view::View;
