// What it means that a goal can be forced, and what settling a table has to do with it.
#![tactic(auto)]

mod entry;

pub use entry::{Earned, Entry};
