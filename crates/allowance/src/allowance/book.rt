// An allowance as a rule book: its levels, or the book below where none count.
ghost use Rattle.allowance.specs.Allowance.{allowance_book};
ghost use Rattle.allowance.specs.Levels.{allowance_formed};

use crate::allowance::Allowance;
use rulebook::{Answer, RuleBook, RuleHead};

// Each question chooses by a `match`: tried as one function over a `&dyn RuleBook`, which gets no proof over a book below whose type is a parameter.
impl<B: RuleBook> RuleBook for Allowance<B> {
    ghost meaning = { allowance_book B.RuleBook.meaning };

    ghost formed = { λ s. allowance_formed s.first.list.items s.setting (B.RuleBook.meaning s.below) s.first.rises (B.RuleBook.formed s.below) };

    fn modes(&self) -> u8 {
        match self.levels() {
            Some(levels) => levels.modes(),
            None => self.below.modes(),
        }
    }

    fn screens(&self) -> u8 {
        self.below.screens()
    }

    fn rules(&self) -> usize {
        match self.levels() {
            Some(levels) => levels.rules(),
            None => self.below.rules(),
        }
    }

    fn rule(&self, k: usize) -> Option<RuleHead> {
        match self.levels() {
            Some(levels) => levels.rule(k),
            None => self.below.rule(k),
        }
    }

    fn answer(&self, k: usize, j: usize) -> Option<Answer> {
        match self.levels() {
            Some(levels) => levels.answer(k, j),
            None => self.below.answer(k, j),
        }
    }
}
