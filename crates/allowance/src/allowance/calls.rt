// Making an allowance, setting it, and locking a key in a lock below it.
ghost use Rattle.std.specs.Prelude.{◌≡◌, IfOk, IfErr};
ghost use Rattle.allowance.specs.Allowed.{allowance};
ghost use Rattle.allowance.specs.Life.{Made, Sets, Follows, AlwaysLists, AlwaysAllows};
ghost use Rattle.lock.specs.Locking.{Locks};

use crate::allowance::Allowance;
use crate::refusal::SettingRefusal;
use crate::setting::Setting;
use lock::{LockRefusal, Lockable, Places};
use rulebook::{Key, RuleBook};
use std::alloc::{AllocFailed, Global};

impl<B: RuleBook> Allowance<B> {
    // An allowance over this book, not set: it lists what the book lists. Where memory is wanting the book comes back.
    // Whatever is called then, an allowance means the book below it under its setting, and a setting that fitted goes on to fit.
    #[tactic(auto, using(crate::proofs::Lives::always_lists, crate::proofs::Lives::always_allows))]
    pub fn new(heap: Global, below: B) -> Result<Allowance<B>, AllocFailed<B>>
        ensures made { IfOk result (λ s. Made B.meaning below s) }
        ensures refused { IfErr result (λ y. y.value ≡ below) }
        ensures lists { AlwaysLists B.meaning }
        ensures lived { AlwaysAllows B.meaning }
    {
        // By `map_err` a closure would hold the book, which asks `B: Drop` of callers.
        let Ok(first) = Places::new(heap, &below, &[]) else {
            return Err(AllocFailed { value: below });
        };
        Ok(Allowance {
            below,
            setting: None,
            first,
        })
    }

    // Lets the key be pressed `most` times, in place of an earlier setting, and answers how many modes there are then. A refusal changes nothing.
    pub fn set(&mut self, key: Key, most: u8) -> Result<u8, SettingRefusal>
        ensures { Sets B.meaning self.old key most result self.new }
    {
        let setting = Setting { key, most };
        let modes = setting.admit(&self.below)?;
        self.setting = Some(setting);
        self.first.refill(&self.below, &[key]);
        Ok(modes)
    }
}

impl<B: Lockable> Allowance<B> {
    // Locks a key in the lock below, and answers how many are locked there then. The setting stays, and the rules follow the book below. A refusal changes nothing.
    pub fn lock_below(&mut self, key: Key) -> Result<usize, LockRefusal>
        ensures below { Locks B.keys B.under B.RuleBook.meaning self.old.below key result self.new.below }
        ensures follows { Follows B.RuleBook.meaning self.old result self.new }
    {
        let locked = self.below.lock(key)?;
        if let Some(setting) = self.setting {
            self.first.refill(&self.below, &[setting.key]);
        }
        Ok(locked)
    }
}

impl<B: Lockable> Lockable for Allowance<B> {
    ghost keys = { λ s. B.Lockable.keys s.below };

    ghost under = { λ s keys. allowance s.setting (B.Lockable.under s.below keys) };

    fn lock(&mut self, key: Key) -> Result<usize, LockRefusal> {
        self.lock_below(key)
    }
}
