// What holds of an allowance over every book.
ghost use Rattle.std.specs.Prelude.{◌≡◌};
ghost use Rattle.allowance.specs.Laws.{AllowancesKeepFormed, UnsetListsBelow, RuleCount, AllowancesPassOn, FittingLasts};

const MOST_MODES: u8 = 60;

// The most modes that an allowance has.
// An allowance with no more of them, over a well-formed book, means a well-formed one. Before any setting it is the book below. It has A + 1 times the rules below, less those with the counted key where none is left. Over a book with rules left out it is an allowance with rules left out, and a setting that fits goes on to fit.
pub fn most_modes() -> u8
    ensures value { result ≡ 60 }
    ensures formed { AllowancesKeepFormed result }
    ensures unset { UnsetListsBelow }
    ensures count { RuleCount }
    ensures passes { AllowancesPassOn }
    ensures lasts { FittingLasts }
{
    MOST_MODES
}
