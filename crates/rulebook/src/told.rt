// The forms in which a book tells a rule and an answer.
ghost use Rattle.std.specs.Prelude.{◌≡◌};
ghost use Rattle.rulebook.specs.Told.{told_of};

// A mode's number, below the book's P.
pub type Mode = u8;

// A screen's number, below the book's G.
pub type Screen = u8;

// A key's number, 0 to 63.
pub type Key = u8;

// What an answer puts in the place of the top screen: nothing, one screen, or two of which the first becomes the top.
#[derive(Clone, Copy, PartialEq, Eq, Debug)]
pub enum Screens {
    Gone,
    One(Screen),
    Two(Screen, Screen),
}

// One answer of a rule: the mode and the screens that replace the stack's mode and its top screen.
#[derive(Clone, Copy, PartialEq, Eq, Debug)]
pub struct Answer {
    pub mode: Mode,
    pub screens: Screens,
}

// A rule without its answers: its key, the mode and the top screen of the stacks to which it applies, and how many answers it has.
#[derive(Clone, Copy, PartialEq, Eq, Debug)]
pub struct RuleHead {
    pub key: Key,
    pub mode: Mode,
    pub screen: Screen,
    pub answers: u8,
}

// An answer in plain numbers: its mode, how many screens it has, and two screens, 0 where absent.
// The count stands beside the screens because callers are promised these four numbers; within the program an answer has its `Screens`.
#[derive(Clone, Copy)]
pub struct ToldAnswer {
    pub mode: Mode,
    pub count: u8,
    pub first: Screen,
    pub second: Screen,
}

impl Answer {
    // The same answer in plain numbers. A method and no `From`, since callers are promised it by this name.
    pub fn told(&self) -> ToldAnswer
        ensures { result ≡ told_of self.now }
    {
        let (count, first, second) = match self.screens {
            Screens::Gone => (0, 0, 0),
            Screens::One(a) => (1, a, 0),
            Screens::Two(a, b) => (2, a, b),
        };
        ToldAnswer {
            mode: self.mode,
            count,
            first,
            second,
        }
    }
}
