// What a rule book is: the forms in which a rule and an answer are told, the trait that every book implements, and the one search for the first record that agrees with a given one.
#![tactic(auto)]

mod book;
mod search;
mod told;

pub use book::RuleBook;
pub use search::{Same, first_place};
pub use told::{Answer, Key, Mode, RuleHead, Screen, Screens, ToldAnswer};
