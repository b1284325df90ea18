// Plan images: the layout of their words, the check of a plan, and a rule book that reads a checked plan in place.
#![tactic(auto)]

mod format;
mod image;
mod layout;
mod parts;
mod refusal;
#[cfg(test)]
mod tests;

pub use format::most_rules;
pub use image::Image;
pub use parts::split;
pub use refusal::Refusal;
