// The keys that are locked in one lock: up to 16, which lie in the lock itself.
ghost use Rattle.std.specs.Prelude.{◌≡◌, false, [], is_ok};
ghost use Rattle.lock.specs.Locked.{lock_answer, keys_after};

use crate::laws::MOST_KEYS;
use crate::refusal::LockRefusal;
use arrayvec::ArrayVec;
use rulebook::{Key, first_place};

#[derive(Drop)]
pub(crate) struct Keys {
    list: ArrayVec<Key, MOST_KEYS>,
}

impl Keys {
    // No key.
    pub(crate) fn new() -> Keys
        ensures { result.list.items ≡ [] }
    {
        Keys {
            list: ArrayVec::new(),
        }
    }

    pub(crate) fn as_slice(&self) -> &[Key]
        ensures { result.now ≡ self.now.list.items }
    {
        self.list.as_slice()
    }

    // One key more, and how many there are then. A refusal changes nothing.
    pub(crate) fn lock(&mut self, key: Key) -> Result<usize, LockRefusal>
        ensures value { result ≡ lock_answer self.old.list.items key }
        ensures items { self.new.list.items ≡ keys_after self.old.list.items key }
        ensures same { is_ok result ≡ false → self.new ≡ self.old }
    {
        if key > 63 {
            return Err(LockRefusal::NoSuchKey);
        }
        if first_place(self.as_slice(), &key).is_some() {
            return Err(LockRefusal::AlreadyLocked);
        }
        if self.list.len() >= MOST_KEYS {
            return Err(LockRefusal::Full);
        }
        self.list.push(key);
        Ok(self.list.len())
    }
}
