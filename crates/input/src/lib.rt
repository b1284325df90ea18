// From the bytes of an input to its words.
#![tactic(auto)]

ghost use Rattle.std.specs.Prelude.{◌≡◌, IfOk};
ghost use Rattle.input.specs.Words.{words_of};

use std::alloc::{AllocError, Global};

// The most words that are taken from an input.
pub const MOST_WORDS: usize = 13_314;

// The words of an input: a last part word is dropped, and words beyond the most are not taken.
pub fn words(heap: Global, bytes: &[u8]) -> Result<Vec<u32>, AllocError>
    ensures { IfOk result (λ v. v.items ≡ words_of bytes.now) }
{
    let (whole, _) = bytes.as_chunks::<4>();
    whole
        .iter()
        .take(MOST_WORDS)
        .map(|word| u32::from_le_bytes(*word))
        .collect(heap)
}

#[cfg(test)]
mod tests {
    use super::*;
    use std::test::Fail;

    #[test]
    fn a_part_word_is_dropped(rt: HostRuntime) -> Result<(), Fail> {
        let read = words(rt.alloc(), &[0x02, 0x03, 0x04, 0x10, 0x07])?;
        assert_eq!(rt; read.as_slice(), [0x1004_0302].as_slice());
        Ok(())
    }

    #[test]
    fn words_beyond_the_most_are_not_taken(rt: HostRuntime) -> Result<(), Fail> {
        let bytes = vec![in rt.alloc(); 0u8; 4 * MOST_WORDS + 4]?;
        let read = words(rt.alloc(), &bytes)?;
        assert_eq!(rt; read.len(), MOST_WORDS);
        Ok(())
    }
}
