//! Worked rows: lines that write exactly what the table says at the most.
#![tactic(auto, unfolding(crate::specs::Computed::last_atomic, crate::specs::Computed::last_line_failure, crate::specs::Computed::last_failure, crate::specs::Computed::play_failure, crate::specs::Computed::most_in_play))]

ghost use Rattle.std.specs.Prelude.{◌≡◌, [], ◌∷◌};
ghost use Rattle.law_family.specs.model_device.specs.Bytes.{zeros};
ghost use Rattle.law_family.specs.model_device.specs.Image.{Two};
ghost use Rattle.law_family.specs.model_device.specs.Stopped.{writes};
ghost use Rattle.law_wear.specs.Laws.{times_written};
ghost use Rattle.law_wear.specs.Computed.{last_atomic, most_in_play, last_line_failure, last_failure, play_failure};
ghost use Rattle.law_wear.specs.Decks.{clearing, creation, deletion, first_load, longest_power, odd_piece, three_instructions, two_instructions};

/// A power-up that recovers 64 words of journal 1 and migrates the card: 65 writes and 6.
pub fn power()
    ensures { last_line_failure longest_power ≡ (71, 71) }
{}

/// A load as the first application: 2 words of code, 2 of DIR, 2 of FCI, 512 of zeros, 4 of the record, and three
/// header words.
pub fn load()
    ensures { last_failure first_load ≡ (532, 532) }
{}

/// Two instructions that each clear 255 bytes in 33 words, within a budget of two.
pub fn instructions()
    ensures two { last_failure two_instructions ≡ (156, 156) }
    ensures three { last_failure three_instructions ≡ (156, 780000) }
{}

/// A deletion before another application: the root, and the header of the hole.
pub fn deletion_of_one()
    ensures { last_failure deletion ≡ (8, 8) }
{}

/// A piece of 1,024 bytes at an odd place.
pub fn piece()
    ensures { last_failure odd_piece ≡ (129, 129) }
{}

/// A creation with 4,096 static bytes and no data.
pub fn creation_of_one()
    ensures { last_failure creation ≡ (526, 526) }
{}

/// A whole play: of its lines `load` writes 53 and may, `apdu` writes 156 and may, and `power` writes none and may
/// write 71.
pub fn play()
    ensures { play_failure two_instructions ≡ (209, 280) }
{}

/// The atomic writes of two instructions, of a load and of a deletion.
pub fn atomic_writes()
    ensures instructions { last_atomic two_instructions ≡ (2, 2) }
    ensures load { last_atomic first_load ≡ (1, 1) }
    ensures deletion { last_atomic deletion ≡ (1, 1) }
{}

/// Words of a whole play, at the most: the gate once by `power`, twice by the load and four times by two instructions; the
/// first word of the heap once by `power`, by the 43 plain writes and the atomic write of the load, and by two
/// instructions; word 3 of the journal by `power` and each atomic write.
pub fn words_of_play()
    ensures gate { most_in_play 130 two_instructions ≡ 7 }
    ensures heap { most_in_play 131 two_instructions ≡ 47 }
    ensures journal { most_in_play 3 two_instructions ≡ 4 }
{}

/// An atomic write of one word writes its gate twice, so a bound of one is false; the word itself, once.
pub fn words_of_one()
    ensures gate { times_written 130 (writes Two ((200, zeros 8) ∷ [])) ≡ 2 }
    ensures target { times_written 200 (writes Two ((200, zeros 8) ∷ [])) ≡ 1 }
{}
