// What holds of a lock over every book.
ghost use Rattle.std.specs.Prelude.{◌≡◌};
ghost use Rattle.lock.specs.Laws.{LocksKeepFormed, NothingLocked, LocksPile, LocksInEitherOrder, LocksNarrow, LocksPassOn};

pub(crate) const MOST_KEYS: usize = 16;

// The most keys that a lock holds.
// A lock over a well-formed book means a well-formed one; with no key locked it is the book below. Locks pile up to one lock with the keys of all, and list the same rules in whatever order the keys are locked. More keys only leave out rules, and a lock over a book with rules left out is a lock with rules left out.
pub fn most_keys() -> usize
    ensures value { result ≡ 16 }
    ensures formed { LocksKeepFormed }
    ensures none { NothingLocked }
    ensures piles { LocksPile }
    ensures order { LocksInEitherOrder }
    ensures narrows { LocksNarrow }
    ensures passes { LocksPassOn }
{
    MOST_KEYS
}
