// The entries of a table.
ghost use Rattle.forcing.specs.Entries.{same_entry};

use rulebook::{Same, Screen};
use states::{State, StateSet};

// An entry: with the screen on top, the state accepts what all states of the set accept below it.
#[derive(Clone, Copy, PartialEq, Eq, Debug)]
pub struct Entry {
    pub state: State,
    pub screen: Screen,
    pub set: StateSet,
}

// An entry that settling entered, and the number of the rule that entered it.
#[derive(Clone, Copy, PartialEq, Eq, Debug)]
pub struct Earned {
    pub entry: Entry,
    pub rule: usize,
}

// Entries agree in state, screen and set: their own sameness, stated in this crate's words, so the `impl` is their own too.
impl Same for Entry {
    ghost same = { same_entry };

    fn agrees(&self, other: &Entry) -> bool {
        *self == *other
    }
}
