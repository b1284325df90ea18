// Which words of an input are the plan's image, and which are the jobs after it.
ghost use Rattle.std.specs.Prelude.{◌≡◌, take, drop};
ghost use Rattle.image.specs.Plan.{image_length};

use crate::layout::Heading;

// The words of the plan's image, and the job words after them.
pub fn split(words: &[u32]) -> (&[u32], &[u32])
    ensures image { result.0.now ≡ take (image_length words.now) words.now }
    ensures jobs { result.1.now ≡ drop (image_length words.now) words.now }
{
    words.split_at(image_length(words))
}

// How many of the words are the image: one, and nine for each rule that the first word counts, or all where there are fewer.
fn image_length(words: &[u32]) -> usize
    ensures { result ≡ image_length words.now }
{
    let [heading, ..] = words else {
        return 0;
    };
    words.len().min(1 + 9 * Heading(*heading).rules())
}
