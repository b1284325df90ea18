// An image: a plan whose words were checked.
ghost use Rattle.std.specs.Prelude.{◌≡◌, true};
ghost use Rattle.image.specs.Plan.{accepted};

pub mod book;
mod load;
mod plan;

use plan::Plan;

#[derive(Drop)]
pub struct Image<'a> {
    plan: Plan<'a>,
    ghost valid: { accepted plan.words.now ≡ true },
}
