// The text that shows a plan to a person: the listing of any rule book, and the whole text for an input.
#![tactic(auto)]

ghost use Rattle.std.specs.Prelude.{◌≡◌, IfOk, Some, string_bytes};
ghost use Rattle.std.specs.List.{slice_get};
ghost use Rattle.listing.specs.Pieces.{line_in};
ghost use Rattle.listing.specs.Text.{answer_text, listed};

mod whole;

use rulebook::{Answer, RuleBook, Screens};
use std::alloc::{AllocError, Global};
use std::fmt;
pub use whole::show;

// The text of a book: a first line, then a line for each rule.
pub fn list<B: RuleBook>(heap: Global, book: &B) -> Result<String, AllocError>
    ensures { IfOk result (λ t. string_bytes t ≡ listed (B.meaning book.now)) }
{
    format!(in heap; "{}", Listing { book })
}

// A book as the text shows it.
#[derive(Drop)]
struct Listing<'a, B> {
    book: &'a B,
}

impl<'a, B: RuleBook> fmt::Display for Listing<'a, B> {
    ghost output = { λ s. Some (listed (B.meaning s.book.now)) };

    #[tactic(auto, using(crate::proofs::Lines::written))]
    fn fmt<W: fmt::Write>(&self, f: &mut fmt::Formatter<W>) -> fmt::Result {
        let book = self.book;
        let modes = book.modes();
        let screens = book.screens();
        let rules = book.rules();
        writeln!(f, "modes {modes}, screens {screens}, rules {rules}")?;
        for k in 0..rules {
            write!(f, "{}", Line { book, k })?;
        }
        Ok(())
    }
}

// The line of rule `k` of a book.
#[derive(Drop)]
struct Line<'a, B> {
    book: &'a B,
    k: usize,
}

impl<'a, B: RuleBook> fmt::Display for Line<'a, B> {
    ghost output = { λ s. Some (line_in s.k (slice_get (B.meaning s.book.now).rules s.k)) };

    #[tactic(auto, using(crate::proofs::Lines::written))]
    fn fmt<W: fmt::Write>(&self, f: &mut fmt::Formatter<W>) -> fmt::Result {
        let book = self.book;
        let k = self.k;
        let Some(head) = book.rule(k) else {
            return Ok(());
        };
        write!(
            f,
            "rule {k}: key {}, mode {}, screen {}, answers",
            head.key, head.mode, head.screen
        )?;
        // A `for`, since a loop over a chain that asks the book (`map_while`, `filter_map`) gets no proof.
        for j in 0..usize::from(head.answers) {
            if let Some(answer) = book.answer(k, j) {
                write!(f, " {}", Shown(answer))?;
            }
        }
        writeln!(f)
    }
}

// An answer as the text shows it.
#[derive(Drop)]
struct Shown(Answer);

impl fmt::Display for Shown {
    ghost output = { λ s. Some (answer_text s.0) };

    fn fmt<W: fmt::Write>(&self, f: &mut fmt::Formatter<W>) -> fmt::Result {
        let mode = self.0.mode;
        match self.0.screens {
            Screens::Gone => write!(f, "({mode}: none)"),
            Screens::One(a) => write!(f, "({mode}: {a})"),
            Screens::Two(a, b) => write!(f, "({mode}: {a}, {b})"),
        }
    }
}
