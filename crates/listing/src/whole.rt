// The whole text for an input: the listing of its plan, or why and where loading refused it.
ghost use Rattle.std.specs.Prelude.{◌≡◌, IfOk, string_bytes};
ghost use Rattle.listing.specs.Whole.{refusal_line, plan_text, input_text};

use crate::list;
use image::{Image, Refusal};
use std::alloc::{AllocError, Global};

// The text for an input of these bytes. What follows the plan's image is left alone.
pub fn show(heap: Global, bytes: &[u8]) -> Result<String, AllocError>
    ensures { IfOk result (λ t. string_bytes t ≡ input_text bytes.now) }
{
    let words = input::words(heap, bytes)?;
    let (plan, _jobs) = image::split(&words);
    show_plan(heap, plan)
}

// The text for a plan of these words.
fn show_plan(heap: Global, words: &[u32]) -> Result<String, AllocError>
    ensures { IfOk result (λ t. string_bytes t ≡ plan_text words.now) }
{
    let mut plan = Image::new();
    match plan.load(words) {
        Ok(_) => {
            let book = pile::over(heap, plan)?;
            list(heap, &book)
        }
        Err(refusal) => refusal_line(heap, refusal),
    }
}

// The line that tells a refused load. One `format!` of two numbers, round which a `Display` would only be a wrapping.
fn refusal_line(heap: Global, refusal: Refusal) -> Result<String, AllocError>
    ensures { IfOk result (λ t. string_bytes t ≡ refusal_line refusal) }
{
    let number = refusal.number();
    let place = refusal.place();
    format!(in heap; "load !{number} {place}\n")
}
