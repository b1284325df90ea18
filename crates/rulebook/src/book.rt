// The trait of a rule book. Whoever implements it says by `meaning` which book it is, and answers every question from that.
ghost use Rattle.std.specs.Prelude.{◌≡◌, length};
ghost use Rattle.rulebook.specs.Book.{Book, WellFormed, rule_at, answer_at};

use crate::told::{Answer, RuleHead};

pub trait RuleBook {
    // The book that this value stands for.
    ghost meaning: { Self → Book };

    // That book keeps to all the bounds of a book.
    ghost formed: { (x : Self) → WellFormed (meaning x) };

    // P, the number of modes.
    fn modes(&self) -> u8
        ensures { result ≡ (meaning self.now).modes };

    // G, the number of screens.
    fn screens(&self) -> u8
        ensures { result ≡ (meaning self.now).screens };

    // The number of rules.
    fn rules(&self) -> usize
        ensures { result ≡ length (meaning self.now).rules };

    // Rule k, counted from 0, or none beyond the list.
    fn rule(&self, k: usize) -> Option<RuleHead>
        ensures { result ≡ rule_at (meaning self.now) k };

    // Answer j of rule k, both counted from 0, or none beyond either list.
    fn answer(&self, k: usize, j: usize) -> Option<Answer>
        ensures { result ≡ answer_at (meaning self.now) k j };
}
