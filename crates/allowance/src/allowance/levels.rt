// The levels of an allowance: the rules below with none left, and then all of them with 1 left, with 2, and so on.
ghost use Rattle.std.specs.Prelude.{◌≡◌, ◌<◌, ◌≤◌, true, Some, None, MatchOption};
ghost use Rattle.std.specs.Option.{IfSome};
ghost use Rattle.allowance.specs.Allowance.{allowance_book, Comes};
ghost use Rattle.allowance.specs.Allowed.{allowed, allowed_at, fits, in_force};
ghost use Rattle.allowance.specs.Levels.{allowed_at_formed};
ghost use Rattle.allowance.specs.Life.{LivedOver};
ghost use Rattle.allowance.specs.Moved.{mode_with};

use crate::allowance::Allowance;
use crate::setting::{Origin, Setting};
use lock::Places;
use rulebook::{Answer, Mode, RuleBook, RuleHead};

// A book under a setting that fits it. `first` are the places of the rules below that are listed where none is left.
#[derive(Drop)]
pub(super) struct Levels<'a, B: RuleBook> {
    below: &'a B,
    first: &'a Places,
    setting: Setting,
    ghost fit: { fits setting.most (B.RuleBook.meaning below.now) ≡ true },
}

impl<B: RuleBook> Allowance<B> {
    // The levels that count: none before any setting, or where it does not fit the book below.
    // Where the allowance has lived, whatever was called and whatever became of the book below, its levels mean that book with the set key counted down.
    #[tactic(auto, using(crate::proofs::Lives::always_lists))]
    pub(super) fn levels(&self) -> Option<Levels<'_, B>>
        ensures counts { MatchOption result (in_force self.now.setting (B.meaning self.now.below) ≡ None) (λ l. (in_force self.now.setting (B.meaning self.now.below) ≡ Some l.setting) × (B.meaning l.below.now ≡ B.meaning self.now.below)) }
        ensures meaning { MatchOption result (allowance_book B.meaning self.now ≡ B.meaning self.now.below) (λ l. allowance_book B.meaning self.now ≡ ⟦<Levels<'static, B> as RuleBook>⟧.meaning l) }
        ensures allowed { LivedOver B.meaning (λ before after. Unit) self.now → IfSome result (λ l. ⟦<Levels<'static, B> as RuleBook>⟧.meaning l ≡ allowed l.setting.key l.setting.most (B.meaning l.below.now)) }
    {
        let setting = self.setting.filter(|setting| setting.fits(&self.below))?;
        Some(Levels {
            below: &self.below,
            first: &self.first,
            setting,
        })
    }
}

impl<B: RuleBook> RuleBook for Levels<'_, B> {
    ghost meaning = { λ l. allowed_at l.first.now.list.items l.setting.key l.setting.most (B.RuleBook.meaning l.below.now) };

    ghost formed = { λ l. allowed_at_formed l.setting.key l.setting.most (B.RuleBook.meaning l.below.now) l.fit (B.RuleBook.formed l.below.now) l.first.now.list.items l.first.now.rises };

    fn modes(&self) -> u8 {
        self.below.modes() * (self.setting.most + 1)
    }

    fn screens(&self) -> u8 {
        self.below.screens()
    }

    fn rules(&self) -> usize {
        self.first.count(self.below) + self.setting.most as usize * self.below.rules()
    }

    fn rule(&self, k: usize) -> Option<RuleHead> {
        let origin = self.find(k)?;
        let head = self.below.rule(origin.place)?;
        Some(RuleHead {
            mode: self.mode(origin.left, head.mode),
            ..head
        })
    }

    fn answer(&self, k: usize, j: usize) -> Option<Answer> {
        let origin = self.find(k)?;
        let head = self.below.rule(origin.place)?;
        let answer = self.below.answer(origin.place, j)?;
        let left = self.setting.left_after(head.key, origin.left);
        Some(Answer {
            mode: self.mode(left, answer.mode),
            ..answer
        })
    }
}

impl<B: RuleBook> Levels<'_, B> {
    // The number of a mode below with so many left.
    fn mode(&self, left: u8, mode: Mode) -> Mode
        requires left { left ≤ self.now.setting.most }
        requires mode { mode < (B.meaning self.now.below.now).modes }
        ensures { result ≡ mode_with (B.meaning self.now.below.now).modes left mode }
    {
        mode + self.below.modes() * left
    }

    // Where rule `k` comes from.
    fn find(&self, k: usize) -> Option<Origin>
        ensures { Comes self.now.first.now.list.items self.now.setting (B.meaning self.now.below.now) k result }
    {
        let first = self.first.count(self.below);
        let Some(above) = k.checked_sub(first) else {
            return self.first.find(k).map(|place| Origin { left: 0, place });
        };
        let rules = self.below.rules();
        let level = above.checked_div(rules)?;
        (level < self.setting.most as usize).then(|| Origin {
            left: level as u8 + 1,
            place: above % rules,
        })
    }
}
