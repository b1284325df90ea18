// Rule books in which a key can be locked: a lock, and each layer that passes this down to a lock below it.
ghost use Rattle.std.specs.Prelude.{ℕ, List};
ghost use Rattle.rulebook.specs.Book.{Book};
ghost use Rattle.lock.specs.Locking.{Locks};

use crate::refusal::LockRefusal;
use rulebook::{Key, RuleBook};

pub trait Lockable: RuleBook {
    // The keys that are locked.
    ghost keys: { Self → List ℕ };

    // The book that it means with these keys locked.
    ghost under: { Self → List ℕ → Book };

    // Locks a key and answers how many are locked then. A refusal changes nothing.
    fn lock(&mut self, key: Key) -> Result<usize, LockRefusal>
        ensures { Locks keys under Self.RuleBook.meaning self.old key result self.new };
}
