// What the format promises.
ghost use Rattle.std.specs.Prelude.{◌≡◌};
ghost use Rattle.image.specs.Encode.{ReadsBack, WritesBack};

const MOST_RULES: usize = 1024;

// The most rules that an image can hold.
// Every well-formed book with no more of them is accepted once it is written, and read back as it was; and words that are accepted are the very words that are written for the book they say.
#[tactic(auto, using(crate::proofs::Rewritten::writes_back))]
pub fn most_rules() -> usize
    ensures value { result ≡ 1024 }
    ensures reads { ReadsBack result }
    ensures writes { WritesBack }
{
    MOST_RULES
}
