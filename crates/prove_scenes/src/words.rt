// The words in which static bytes lie.
ghost use Rattle.std.specs.Prelude.{◌≡◌, [], ◌∷◌, length};
ghost use Rattle.model_machine.specs.model_device.specs.Bytes.{zeros};
ghost use Rattle.model_machine.specs.model_device.specs.Pieces.{touched_words};

/// Returns the number of words that `count` bytes from `at` on lie in.
#[tactic(auto, using(crate::proofs::WordLemmas::words_are, crate::proofs::WordLemmas::no_words))]
pub fn words_of(at: u32, count: u32) -> u64
    ensures { result ≡ length (touched_words ((at, zeros count) ∷ [])) }
{
    if count == 0 {
        return 0;
    }
    (at as u64 + count as u64 - 1) / 8 - at as u64 / 8 + 1
}
