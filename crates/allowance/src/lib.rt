// An allowance over any rule book, itself a rule book: the book below with one key counted down.
#![tactic(auto)]

mod allowance;
mod laws;
mod refusal;
mod setting;

pub use allowance::Allowance;
pub use laws::most_modes;
pub use refusal::SettingRefusal;
