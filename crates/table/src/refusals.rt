// Why a call on a table was refused.
// The number of a refusal is what users are told, and no form of it within the program. Callers are promised it by this name.
ghost use Rattle.std.specs.Prelude.{◌≡◌};
ghost use Rattle.table.specs.Refusals.{give_number, mark_number, ask_number};

// Why an entry was not given.
#[derive(Clone, Copy, PartialEq, Eq, Debug)]
pub enum GiveRefusal {
    // The state is above 63.
    NoSuchState,
    // The screen is not below the book's G.
    NoSuchScreen,
    // A mode belongs to the set.
    ModeInSet,
    // The entry is given already.
    AlreadyGiven,
    // As many entries are given as a table can hold.
    Full,
}

impl GiveRefusal {
    // The number by which users know the refusal.
    pub fn number(&self) -> u8
        ensures { result ≡ give_number self.now }
    {
        match self {
            GiveRefusal::NoSuchState => 9,
            GiveRefusal::NoSuchScreen => 10,
            GiveRefusal::ModeInSet => 11,
            GiveRefusal::AlreadyGiven => 12,
            GiveRefusal::Full => 13,
        }
    }
}

// Why a state got no end mark.
#[derive(Clone, Copy, PartialEq, Eq, Debug)]
pub enum MarkRefusal {
    // The state is above 63.
    NoSuchState,
}

impl MarkRefusal {
    // The number by which users know the refusal.
    pub fn number(&self) -> u8
        ensures { result ≡ mark_number self.now }
    {
        match self {
            MarkRefusal::NoSuchState => 9,
        }
    }
}

// Why a question was not answered.
#[derive(Clone, Copy, PartialEq, Eq, Debug)]
pub enum AskRefusal {
    // The table is open.
    Open,
    // The mode is not below the book's P.
    NoSuchMode,
    // The screen at this place of the list, the lowest such place, is not below the book's G.
    NoSuchScreen(usize),
}

impl AskRefusal {
    // The number by which users know the refusal.
    pub fn number(&self) -> u8
        ensures { result ≡ ask_number self.now }
    {
        match self {
            AskRefusal::Open => 15,
            AskRefusal::NoSuchMode => 16,
            AskRefusal::NoSuchScreen(_) => 10,
        }
    }
}
