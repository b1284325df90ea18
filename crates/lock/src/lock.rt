// A lock: the book below without the rules whose key is locked.
use crate::keys::Keys;
use crate::places::Places;

pub mod book;
pub mod calls;

// `places` are those of the rules below that are listed: the rules of unlocked keys.
// That they are those is a theorem over the layer's life and no invariant of its type: it would ask for `B: RuleBook`, and a caller's own generic struct could then hold no allowance over a lock.
#[derive(Drop)]
pub struct Lock<B> {
    below: B,
    keys: Keys,
    places: Places,
}
