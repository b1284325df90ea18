// Why a load was refused, and where.
ghost use Rattle.std.specs.Prelude.{◌≡◌};
ghost use Rattle.image.specs.Refusals.{number_of, place_of};

#[derive(Clone, Copy, PartialEq, Eq, Debug)]
pub enum Refusal {
    // There is no word at all.
    NoWords,
    // Word 0 is no heading.
    BadHeading,
    // The length, given here, is not the one that the heading asks for.
    WrongLength(usize),
    // The word at this place is no rule word.
    BadRule(usize),
    // The word at this place is no answer word, or should be 0 and is not.
    BadAnswer(usize),
}

impl Refusal {
    // The number by which users know the refusal: what they are told, and no form of it within the program. Callers are promised it by this name.
    pub fn number(&self) -> u8
        ensures { result ≡ number_of self.now }
    {
        match self {
            Refusal::NoWords => 1,
            Refusal::BadHeading => 2,
            Refusal::WrongLength(_) => 1,
            Refusal::BadRule(_) => 3,
            Refusal::BadAnswer(_) => 4,
        }
    }

    // The number of the word at fault, or the length of the words where that is at fault: what users are told beside the number.
    pub fn place(&self) -> usize
        ensures { result ≡ place_of self.now }
    {
        match self {
            Refusal::NoWords | Refusal::BadHeading => 0,
            Refusal::WrongLength(length) => *length,
            Refusal::BadRule(place) => *place,
            Refusal::BadAnswer(place) => *place,
        }
    }
}
