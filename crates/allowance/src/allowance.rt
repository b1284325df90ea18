// An allowance: the book below, with one key counted down.
use crate::setting::Setting;
use lock::Places;

pub mod book;
pub mod calls;
mod levels;

// Where it is set, `first` are the places of the rules below that are listed where none is left.
// They stand beside the setting and not in it: their room is taken when the allowance is made, set or not.
// That they are those is a theorem over the layer's life and no invariant of its type: it would ask for `B: RuleBook`, and a caller's own generic struct could then hold no allowance over a lock.
#[derive(Drop)]
pub struct Allowance<B> {
    below: B,
    setting: Option<Setting>,
    first: Places,
}
