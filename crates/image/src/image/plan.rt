// A plan: the words of a heading and of the rules that it counts, nine words for each.
ghost use Rattle.std.specs.Prelude.{◌≡◌, ◌+◌, ◌*◌, ◌<◌, ◌≤◌, length, MatchOption};
ghost use Rattle.image.specs.Layout.{rules_in, head_of};
ghost use Rattle.image.specs.Plan.{heading, rule_place, rule_word, answer_word};

use crate::layout::{AnswerWord, Heading, RuleWord};
use rulebook::RuleHead;

// The words of a plan, as many as its heading asks for.
#[derive(Clone, Copy)]
pub(super) struct Plan<'a> {
    pub(super) words: &'a [u32],
    ghost whole: { length words.now ≡ 1 + 9 * rules_in (heading words.now) },
}

// The nine words of rule k of a plan.
#[derive(Clone, Copy)]
pub(super) struct RuleWords<'a> {
    pub(super) plan: Plan<'a>,
    pub(super) k: usize,
    ghost inside: { k < rules_in (heading plan.words.now) },
}

impl<'a> Plan<'a> {
    // The first word.
    pub(super) fn heading(&self) -> Heading
        ensures { result.0 ≡ heading self.now.words.now }
    {
        Heading(self.words[0])
    }

    // The words of rule k, counted from 0, or none beyond the list.
    pub(super) fn rule(&self, k: usize) -> Option<RuleWords<'a>>
        ensures { MatchOption result (rules_in (heading self.now.words.now) ≤ k) (λ rule. (rule.plan ≡ self.now) × (rule.k ≡ k)) }
    {
        if k >= self.heading().rules() {
            return None;
        }
        Some(RuleWords { plan: *self, k })
    }
}

impl<'a> RuleWords<'a> {
    // Where they begin. A refusal tells the place of a word, so a slice cut into groups of nine would still want this count.
    pub(super) fn place(&self) -> usize
        ensures { result ≡ rule_place self.now.k }
    {
        1 + 9 * self.k
    }

    // The rule word.
    pub(super) fn word(&self) -> RuleWord
        ensures { result.0 ≡ rule_word self.now.plan.words.now self.now.k }
    {
        RuleWord(self.plan.words[self.place()])
    }

    // The rule that it tells, without its answers.
    pub(super) fn head(&self) -> RuleHead
        ensures { result ≡ head_of (rule_word self.now.plan.words.now self.now.k) }
    {
        RuleHead::from(self.word())
    }

    // The word of answer j, counted from 0.
    pub(super) fn answer_word(&self, j: usize) -> AnswerWord
        requires { j < 8 }
        ensures { result.0 ≡ answer_word self.now.plan.words.now self.now.k j }
    {
        AnswerWord(self.plan.words[self.place() + 1 + j])
    }
}
