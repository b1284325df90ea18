// The three kinds of a plan's words: their fields, and the tests that keep them within the bounds of a plan.
ghost use Rattle.std.specs.Prelude.{◌≡◌, ◌<◌};
ghost use Rattle.image.specs.Layout.{field, kind_of, spare_in, modes_in, screens_in, rules_in, mode_in, head_of, heading_good, rule_good, screen_good, answer_good, count_in, first_in, second_in, answer_of};

use rulebook::{Answer, RuleHead, Screens};

// `width` bits of the word, from bit `at` up.
fn bits(word: u32, at: u32, width: u32) -> u32
    requires low { at < 32 }
    requires narrow { width < 32 }
    ensures { result ≡ field word at width }
{
    (word >> at) & ((1 << width) - 1)
}

// The eight bits of the word from bit `at` up.
fn byte(word: u32, at: u32) -> u8
    requires { at < 32 }
    ensures { result ≡ field word at 8 }
{
    bits(word, at, 8) as u8
}

// The kind of a word: a number of the layout, held against one kind at a time and kept nowhere, so an enum of kinds would only be matched away again.
fn kind(word: u32) -> u32
    ensures { result ≡ kind_of word }
{
    word >> 28
}

// The bits of a rule or answer word that have no meaning.
fn spare(word: u32) -> u32
    ensures { result ≡ spare_in word }
{
    bits(word, 26, 2)
}

// The first word of a plan.
#[derive(Clone, Copy)]
pub(crate) struct Heading(pub(crate) u32);

impl Heading {
    // P, the number of modes.
    pub(crate) fn modes(self) -> u8
        ensures { result ≡ modes_in self.0 }
    {
        byte(self.0, 0)
    }

    // G, the number of screens.
    pub(crate) fn screens(self) -> u8
        ensures { result ≡ screens_in self.0 }
    {
        byte(self.0, 8)
    }

    // The number of rules.
    pub(crate) fn rules(self) -> usize
        ensures { result ≡ rules_in self.0 }
    {
        bits(self.0, 16, 12) as usize
    }

    // Within the bounds of a plan.
    pub(crate) fn is_good(self) -> bool
        ensures { result ≡ heading_good self.0 }
    {
        kind(self.0) == 1
            && (1..=60).contains(&self.modes())
            && (1..=128).contains(&self.screens())
            && self.rules() <= 1024
    }
}

// The first of a rule's nine words.
#[derive(Clone, Copy)]
pub(crate) struct RuleWord(pub(crate) u32);

impl RuleWord {
    // Within the bounds of a plan with this heading.
    pub(crate) fn is_good(self, plan: Heading) -> bool
        ensures { result ≡ rule_good (modes_in plan.0) (screens_in plan.0) self.0 }
    {
        let rule = RuleHead::from(self);
        kind(self.0) == 2
            && spare(self.0) == 0
            && rule.mode < plan.modes()
            && rule.screen < plan.screens()
            && (1..=8).contains(&rule.answers)
    }
}

// The rule that a rule word tells, without its answers.
impl From<RuleWord> for RuleHead {
    ghost from_gives = { λ word rule. rule ≡ head_of word.0 };

    fn from(word: RuleWord) -> RuleHead {
        RuleHead {
            key: bits(word.0, 16, 6) as u8,
            mode: byte(word.0, 0),
            screen: byte(word.0, 8),
            answers: bits(word.0, 22, 4) as u8,
        }
    }
}

// One of the eight words of a rule that may tell an answer.
#[derive(Clone, Copy)]
pub(crate) struct AnswerWord(pub(crate) u32);

impl AnswerWord {
    // The answer's mode.
    fn mode(self) -> u8
        ensures { result ≡ mode_in self.0 }
    {
        byte(self.0, 0)
    }

    // The number of the answer's screens. A number, since the layout has room for 3, which is no count of screens.
    fn count(self) -> u32
        ensures { result ≡ count_in self.0 }
    {
        bits(self.0, 8, 2)
    }

    // The answer's first screen.
    fn first(self) -> u8
        ensures { result ≡ first_in self.0 }
    {
        byte(self.0, 10)
    }

    // The answer's second screen.
    fn second(self) -> u8
        ensures { result ≡ second_in self.0 }
    {
        byte(self.0, 18)
    }

    // Within the bounds of a plan with this heading.
    pub(crate) fn is_good(self, plan: Heading) -> bool
        ensures { result ≡ answer_good (modes_in plan.0) (screens_in plan.0) self.0 }
    {
        kind(self.0) == 3
            && spare(self.0) == 0
            && self.mode() < plan.modes()
            && self.count() <= 2
            && screen_good(plan.screens(), 0 < self.count(), self.first())
            && screen_good(plan.screens(), 1 < self.count(), self.second())
    }
}

// A screen field of an answer word: below the limit where the screen is there, else 0. Not an `Option`, which would leave no absent field to hold against 0.
fn screen_good(limit: u8, present: bool, screen: u8) -> bool
    ensures { result ≡ screen_good limit present screen }
{
    if present { screen < limit } else { screen == 0 }
}

// The answer that a good answer word tells.
impl From<AnswerWord> for Answer {
    ghost from_gives = { λ word answer. answer ≡ answer_of word.0 };

    fn from(word: AnswerWord) -> Answer {
        let screens = match word.count() {
            0 => Screens::Gone,
            1 => Screens::One(word.first()),
            _ => Screens::Two(word.first(), word.second()),
        };
        Answer {
            mode: word.mode(),
            screens,
        }
    }
}
