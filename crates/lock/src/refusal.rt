// Why a key was not locked.
ghost use Rattle.std.specs.Prelude.{◌≡◌};
ghost use Rattle.lock.specs.Refusals.{number_of};

#[derive(Clone, Copy, PartialEq, Eq, Debug)]
pub enum LockRefusal {
    // The key is above 63.
    NoSuchKey,
    // The key is locked already.
    AlreadyLocked,
    // As many keys are locked as a lock can hold.
    Full,
}

impl LockRefusal {
    // The number by which users know the refusal: what they are told, and no form of it within the program. Callers are promised it by this name.
    pub fn number(&self) -> u8
        ensures { result ≡ number_of self.now }
    {
        match self {
            LockRefusal::NoSuchKey => 5,
            LockRefusal::AlreadyLocked => 6,
            LockRefusal::Full => 7,
        }
    }
}
