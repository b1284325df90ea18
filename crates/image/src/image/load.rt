// Making an image, and loading words into it.
ghost use Rattle.std.specs.Prelude.{◌≡◌, ◌<◌, true, length, is_ok, if◌then◌else◌, Ok, Err, IfOk, IfErr};
ghost use Rattle.rulebook.specs.Book.{Book};
ghost use Rattle.image.specs.Encode.{encoded, Holds};
ghost use Rattle.image.specs.Held.{book_in, blank};
ghost use Rattle.image.specs.Plan.{answer_fault, rule_fault, plan_fault, unless, outcome, decoded};

use crate::image::Image;
use crate::image::plan::{Plan, RuleWords};
use crate::layout::Heading;
use crate::refusal::Refusal;

// The heading of a plan with one mode, one screen and no rules.
static BLANK: [u32; 1] = [0x1000_0101];

impl<'a> Image<'a> {
    // An image with one mode, one screen and no rules.
    #[tactic(auto, unfolding(crate::specs::Plan::first_some))]
    pub fn new() -> Image<'a>
        ensures { book_in result ≡ blank }
    {
        Image {
            plan: Plan { words: &BLANK },
        }
    }

    // Replaces what the image holds by the plan that these words are, and answers its number of rules. A refused load leaves the image as it was.
    // The words that are written for a book are accepted and mean that book, and no other words are accepted.
    #[tactic(auto, using(crate::proofs::Written::reads_back, crate::proofs::Rewritten::writes_back))]
    pub fn load(&mut self, words: &'a [u32]) -> Result<usize, Refusal>
        ensures value { result ≡ outcome words.now }
        ensures words { self.new.plan.words.now ≡ (if is_ok result then words.now else self.old.plan.words.now) }
        ensures meaning { book_in self.new ≡ (if is_ok result then decoded words.now else book_in self.old) }
        ensures reads { (b : Book) → Holds 1024 b → words.now ≡ encoded b → (result ≡ Ok (length b.rules)) × (book_in self.new ≡ b) }
        ensures writes { is_ok result ≡ true → encoded (book_in self.new) ≡ words.now }
    {
        *self = Image::checked(words)?;
        Ok(self.plan.heading().rules())
    }

    // The image of these words, or why they are none.
    fn checked(words: &'a [u32]) -> Result<Image<'a>, Refusal>
        ensures words { IfOk result (λ image. image.plan.words.now ≡ words.now) }
        ensures refusal { IfErr result (λ refusal. outcome words.now ≡ Err refusal) }
    {
        let [first, ..] = words else {
            return Err(Refusal::NoWords);
        };
        let heading = Heading(*first);
        if !heading.is_good() {
            return Err(Refusal::BadHeading);
        }
        if words.len() != 1 + 9 * heading.rules() {
            return Err(Refusal::WrongLength(words.len()));
        }
        let plan = Plan { words };
        plan.check()?;
        Ok(Image { plan })
    }
}

impl<'a> Plan<'a> {
    // Fails at what is wrong first after the heading, if anything.
    #[tactic(auto, using(crate::proofs::Faults::none_in))]
    fn check(&self) -> Result<(), Refusal>
        ensures { result ≡ unless (plan_fault self.now.words.now) tt }
    {
        // By their numbers, not as groups by `as_chunks`: a fault is defined, and a refusal told, by where a word stands.
        for k in 0..self.heading().rules() {
            RuleWords { plan: *self, k }.check()?;
        }
        Ok(())
    }
}

impl<'a> RuleWords<'a> {
    // Fails at what is wrong first in the nine words, if anything.
    #[tactic(auto, using(crate::proofs::Faults::none_in))]
    fn check(&self) -> Result<(), Refusal>
        ensures { result ≡ unless (rule_fault self.now.plan.words.now self.now.k) tt }
    {
        if !self.word().is_good(self.plan.heading()) {
            return Err(Refusal::BadRule(self.place()));
        }
        // By their numbers, for the same reason.
        for j in 0..8 {
            self.check_answer(j)?;
        }
        Ok(())
    }

    // Fails where the word of answer j is wrong.
    fn check_answer(&self, j: usize) -> Result<(), Refusal>
        requires { j < 8 }
        ensures { result ≡ unless (answer_fault self.now.plan.words.now self.now.k j) tt }
    {
        let word = self.answer_word(j);
        let good = if j < usize::from(self.head().answers) {
            word.is_good(self.plan.heading())
        } else {
            word.0 == 0
        };
        if !good {
            return Err(Refusal::BadAnswer(self.place() + 1 + j));
        }
        Ok(())
    }
}
