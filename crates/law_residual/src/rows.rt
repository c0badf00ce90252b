//! Worked rows: a formatted device of 256 words, with other words in it, and one that refuses a write.
#![tactic(auto, unfolding(crate::specs::Computed::meaning_with, crate::specs::Computed::shown_on))]

ghost use Rattle.std.specs.Prelude.{◌≡◌, [], ◌∷◌, replicate};
ghost use Rattle.model_play.specs.model_device.specs.declared.cause.Cause.TheVariants.{BadBlock};
ghost use Rattle.model_play.specs.model_device.specs.Bytes.{zeros};
ghost use Rattle.model_play.specs.model_device.specs.PowerUp.{OnCard, AtFault};
ghost use Rattle.model_play.specs.model_machine.specs.Chain.{Reply};
ghost use Rattle.model_play.specs.Play.{Answered, FailureStop, Ready, Silenced};
ghost use Rattle.law_residual.specs.Refusals.{refuses_after};
ghost use Rattle.law_residual.specs.Computed.{formatted, meaning_with, refuses_write, shown_on, still_open, used_before};

/// What a word of the hole has, and a word of a journal that is shut, is not seen.
pub fn free_word()
    ensures hole { meaning_with 200 (replicate 8 0x5A) ≡ OnCard (record { size = 256; layout = 2; apps = [] }) }
    ensures journal { meaning_with 9 (replicate 8 0x5A) ≡ OnCard (record { size = 256; layout = 2; apps = [] }) }
{}

/// What the header of the hole has is seen.
pub fn header_of_the_hole()
    ensures { meaning_with 131 (replicate 8 0x5A) ≡ AtFault BadBlock 131 }
{}

/// Two images of one card with no recovery left, on a device that refuses its write 26, which is one of the count.
pub fn same_write_refused()
    ensures one { shown_on (refuses_write 26) formatted
        ≡ Ready 0 ∷ Answered (Reply [] 0x9000) ∷ Answered (Reply [] 0x9000) ∷ FailureStop ∷ [] }
    ensures other { shown_on (refuses_write 26) used_before
        ≡ Ready 0 ∷ Answered (Reply [] 0x9000) ∷ Answered (Reply [] 0x9000) ∷ FailureStop ∷ [] }
{}

/// An image of this card whose recovery makes two writes: the write that is refused is the same one if it is counted
/// from after the recovery.
pub fn refused_after_recovery()
    ensures { shown_on (refuses_after 2 (refuses_write 26)) still_open
        ≡ Ready 2 ∷ Answered (Reply [] 0x9000) ∷ Answered (Reply [] 0x9000) ∷ FailureStop ∷ [] }
{}

/// Counted from the first write that is tried it is not: here write 2 shuts the gate, there it is one of the load. So a
/// law without recoveries of one number would be false.
pub fn refused_in_recovery()
    ensures pending { shown_on (refuses_write 2) still_open ≡ FailureStop ∷ Silenced ∷ Silenced ∷ Silenced ∷ [] }
    ensures settled { shown_on (refuses_write 2) formatted ≡ Ready 0 ∷ FailureStop ∷ Silenced ∷ Silenced ∷ [] }
{}
