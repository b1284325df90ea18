// Making a lock, locking a key in it, and locking one in a lock below it.
ghost use Rattle.std.specs.Prelude.{◌≡◌, IfOk, IfErr};
ghost use Rattle.lock.specs.Life.{Made, Follows, AlwaysLists, OnlyLeavesOut};
ghost use Rattle.lock.specs.Lock.{keys_of, lock_book, lock_under};
ghost use Rattle.lock.specs.Locked.{locked};
ghost use Rattle.lock.specs.Locking.{Locks};

use crate::keys::Keys;
use crate::lock::Lock;
use crate::lockable::Lockable;
use crate::places::Places;
use crate::refusal::LockRefusal;
use rulebook::{Key, RuleBook};
use std::alloc::{AllocFailed, Global};

impl<B: RuleBook> Lock<B> {
    // A lock over this book, with no key locked: it lists what the book lists. Where memory is wanting the book comes back.
    // Whatever is called then, a lock means the book below it without the rules of its locked keys, and locking one more leaves out rules and changes nothing else.
    #[tactic(auto, using(crate::proofs::Lives::always_lists, crate::proofs::Lives::only_leaves_out))]
    pub fn new(heap: Global, below: B) -> Result<Lock<B>, AllocFailed<B>>
        ensures made { IfOk result (λ s. Made B.meaning below s) }
        ensures refused { IfErr result (λ y. y.value ≡ below) }
        ensures lived { AlwaysLists B.meaning }
        ensures narrows { OnlyLeavesOut B.meaning }
    {
        // Not by `?`, which would lose the book.
        let Ok(places) = Places::new(heap, &below, &[]) else {
            return Err(AllocFailed { value: below });
        };
        Ok(Lock {
            below,
            keys: Keys::new(),
            places,
        })
    }

    // Lists the rules below whose keys are not locked.
    fn list_anew(&mut self)
        ensures below { self.new.below ≡ self.old.below }
        ensures keys { self.new.keys ≡ self.old.keys }
        ensures meaning { lock_book B.meaning self.new ≡ locked (keys_of self.old) (B.meaning self.old.below) }
    {
        self.places.refill(&self.below, self.keys.as_slice());
    }
}

impl<B: RuleBook> Lockable for Lock<B> {
    ghost keys = { keys_of };

    ghost under = { lock_under B.RuleBook.meaning };

    fn lock(&mut self, key: Key) -> Result<usize, LockRefusal> {
        let count = self.keys.lock(key)?;
        self.list_anew();
        Ok(count)
    }
}

impl<B: Lockable> Lock<B> {
    // Locks a key in the lock below this one, and answers how many are locked there then. A refusal changes nothing.
    pub fn lock_below(&mut self, key: Key) -> Result<usize, LockRefusal>
        ensures below { Locks B.keys B.under B.RuleBook.meaning self.old.below key result self.new.below }
        ensures follows { Follows B.RuleBook.meaning self.old result self.new }
    {
        let locked = self.below.lock(key)?;
        self.list_anew();
        Ok(locked)
    }
}
