// A lock over any rule book, itself a rule book: the book below without the rules of locked keys.
// Beside it the places that a layer keeps of the rules below, and the trait of books in which a key can be locked.
#![tactic(auto)]

mod keys;
mod laws;
mod lock;
mod lockable;
mod places;
mod refusal;

pub use laws::most_keys;
pub use lock::Lock;
pub use lockable::Lockable;
pub use places::Places;
pub use refusal::LockRefusal;
