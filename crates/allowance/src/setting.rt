// What an allowance is set to, and where its rules come from.
ghost use Rattle.std.specs.Prelude.{◌≡◌};
ghost use Rattle.allowance.specs.Allowed.{fits, set_answer};
ghost use Rattle.allowance.specs.Moved.{left_after};

use crate::refusal::SettingRefusal;
use rulebook::{Key, RuleBook};

// The counted key, and how many times it can be pressed.
#[derive(Clone, Copy)]
pub(crate) struct Setting {
    pub(crate) key: Key,
    pub(crate) most: u8,
}

// Where a rule of an allowance comes from: its place in the book below, and how many are left.
#[derive(Clone, Copy)]
pub(crate) struct Origin {
    pub(crate) left: u8,
    pub(crate) place: usize,
}

impl Setting {
    // What setting it over this book answers: how many modes there are then.
    pub(crate) fn admit<B: RuleBook>(&self, book: &B) -> Result<u8, SettingRefusal>
        ensures { result ≡ set_answer (B.meaning book.now) self.now.key self.now.most }
    {
        if self.key > 63 {
            return Err(SettingRefusal::NoSuchKey);
        }
        if !self.fits(book) {
            return Err(SettingRefusal::DoesNotFit);
        }
        Ok(book.modes() * (self.most + 1))
    }

    // Whether the key can be counted so many times over this book.
    pub(crate) fn fits<B: RuleBook>(&self, book: &B) -> bool
        ensures { result ≡ fits self.now.most (B.meaning book.now) }
    {
        let levels = usize::from(self.most) + 1;
        usize::from(book.modes()) * levels <= 60 && levels * book.rules() <= 65_535
    }

    // How many are left after a press of a key.
    pub(crate) fn left_after(&self, key: Key, left: u8) -> u8
        ensures { result ≡ left_after self.now.key key left }
    {
        if key == self.key {
            left.saturating_sub(1)
        } else {
            left
        }
    }
}
