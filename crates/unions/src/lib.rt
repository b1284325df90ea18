// Which sets unite a reach for each answer of a rule, in a given table.
#![tactic(auto)]

mod sets;

pub use sets::SetList;
