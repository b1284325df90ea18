// A lock as a rule book: it lists the rules below that stand at its places.
ghost use Rattle.lock.specs.Formed.{picked_formed};
ghost use Rattle.lock.specs.Lock.{lock_book};

use crate::lock::Lock;
use rulebook::{Answer, RuleBook, RuleHead};

impl<B: RuleBook> RuleBook for Lock<B> {
    ghost meaning = { lock_book B.RuleBook.meaning };

    ghost formed = { λ s. picked_formed s.places.list.items (B.RuleBook.meaning s.below) s.places.rises (B.RuleBook.formed s.below) };

    fn modes(&self) -> u8 {
        self.below.modes()
    }

    fn screens(&self) -> u8 {
        self.below.screens()
    }

    fn rules(&self) -> usize {
        self.places.count(&self.below)
    }

    fn rule(&self, k: usize) -> Option<RuleHead> {
        self.below.rule(self.places.find(k)?)
    }

    fn answer(&self, k: usize, j: usize) -> Option<Answer> {
        self.below.answer(self.places.find(k)?, j)
    }
}
