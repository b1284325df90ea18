// The goal and the table of a bench: entries that are given, end marks, entries that are earned, and which lists a mode accepts by them.
#![tactic(auto)]

mod refusals;
mod table;

pub use refusals::{AskRefusal, GiveRefusal, MarkRefusal};
pub use table::Table;
