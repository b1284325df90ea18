// An image as a rule book: every question is answered from the words.
ghost use Rattle.image.specs.Formed.{decoded_formed};
ghost use Rattle.image.specs.Held.{book_in};

use crate::image::Image;
use rulebook::{Answer, RuleBook, RuleHead};

#[tactic(auto, using(crate::proofs::Questions::questions))]
impl<'a> RuleBook for Image<'a> {
    ghost meaning = { book_in };

    ghost formed = { λ s. decoded_formed s.plan.words.now s.valid };

    fn modes(&self) -> u8 {
        self.plan.heading().modes()
    }

    fn screens(&self) -> u8 {
        self.plan.heading().screens()
    }

    fn rules(&self) -> usize {
        self.plan.heading().rules()
    }

    fn rule(&self, k: usize) -> Option<RuleHead> {
        Some(self.plan.rule(k)?.head())
    }

    fn answer(&self, k: usize, j: usize) -> Option<Answer> {
        let rule = self.plan.rule(k)?;
        if j >= usize::from(rule.head().answers) {
            return None;
        }
        Some(Answer::from(rule.answer_word(j)))
    }
}
