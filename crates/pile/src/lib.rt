// The pile of books that the program stands on: an allowance over a lock over the image of a plan.
#![tactic(auto)]

ghost use Rattle.std.specs.Prelude.{◌≡◌, IfOk};
ghost use Rattle.image.specs.Held.{book_in};
ghost use Rattle.pile.specs.Life.{PileMade, PileStands};
ghost use Rattle.pile.specs.Pile.{pile_book};

#[cfg(test)]
mod tests;

use allowance::Allowance;
use image::Image;
use lock::Lock;
use std::alloc::{AllocError, Global};

// The layers over a plan's image.
pub type Pile<'a> = Allowance<Lock<Image<'a>>>;

// The pile over a plan, with no key locked and the allowance not set: it lists what the plan lists.
// Whatever keys are locked and whatever is set then, in any order, it means the plan under the locked keys and the setting.
#[tactic(auto, using(crate::proofs::Stands::pile_stands))]
pub fn over<'a>(heap: Global, plan: Image<'a>) -> Result<Pile<'a>, AllocError>
    ensures meaning { IfOk result (λ p. pile_book p ≡ book_in plan.entry) }
    ensures made { IfOk result (λ p. PileMade plan.entry p) }
    ensures lived { PileStands }
{
    let lock = Lock::new(heap, plan)?;
    Ok(Allowance::new(heap, lock)?)
}
