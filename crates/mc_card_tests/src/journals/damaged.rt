#![tactic(auto, unfolding(model_device::specs::Image::targets_1, model_device::specs::Image::targets_2, model_device::specs::Image::pairs))]

ghost use Rattle.std.specs.Prelude.{◌≡◌, [], ◌∷◌};
ghost use Rattle.model_device.specs.Image.{look, count_of_recovery_writes, after, Closed, Refused, Words};
ghost use Rattle.mc_card_tests.specs.Poked.{image_with_numbers};

/// The gate is open over a head of zeros.
pub fn open_without_a_count()
    ensures { look (image_with_numbers ((130, 0x4F50454E2D322D2D) ∷ [])) ≡ Refused 2 }
{}

/// A target below the heap.
pub fn target_below_the_heap()
    ensures { look (image_with_numbers ((130, 0x4F50454E2D322D2D) ∷ (2, 1) ∷ (3, 0x0082000000000000) ∷ []))
        ≡ Refused 3 }
{}

/// One pair: recovery still has to write its target and shut the gate.
pub fn one_pair_is_owed()
    ensures { count_of_recovery_writes (image_with_numbers
        ((130, 0x4F50454E2D322D2D) ∷ (2, 1) ∷ (3, 0x0083000000000000) ∷ (19, 0x48001F7D00000000)
        ∷ [])) ≡ 2 }
{}

/// The words after the replay of one pair.
pub fn one_pair_is_replayed()
    ensures { after (image_with_numbers ((130, 0x4F50454E2D322D2D) ∷ (2, 1) ∷ (3, 0x0083000000000000)
        ∷ (19, 0x48001F7D00000000)
        ∷ [])) ≡ Words
        (image_with_numbers ((131, 0x48001F7D00000000) ∷ (130, 0x534855542D2D2D2D) ∷ (2, 1) ∷ (3, 0x0083000000000000)
        ∷ (19, 0x48001F7D00000000) ∷ [])) }
{}

/// One pair in the journal of layout 1.
pub fn one_pair_of_layout_1()
    ensures { count_of_recovery_writes (image_with_numbers
        ((1, 0x4F50454E2D312D2D) ∷ (2, 1) ∷ (3, 0x83) ∷ (4, 0x48001F7D00000000) ∷ [])) ≡ 2 }
{}

/// Both gates open.
pub fn both_gates_open()
    ensures { look (image_with_numbers ((1, 0x4F50454E2D312D2D) ∷ (130, 0x4F50454E2D322D2D) ∷ [])) ≡ Refused 1 }
{}

/// The targets do not ascend.
pub fn targets_that_fall()
    ensures { look (image_with_numbers ((130, 0x4F50454E2D322D2D) ∷ (2, 2) ∷ (3, 0x0084008300000000) ∷ []))
        ≡ Refused 3 }
{}

/// The first target of the second word repeats the last target of the first word.
pub fn targets_that_repeat()
    ensures { look (image_with_numbers ((130, 0x4F50454E2D322D2D) ∷ (2, 5) ∷ (3, 0x0000008300840085)
        ∷ (4, 0x0085000000000000)
        ∷ [])) ≡ Refused 4 }
{}

/// The last word of the device as a target.
pub fn last_word_as_a_target()
    ensures { count_of_recovery_writes (image_with_numbers
        ((130, 0x4F50454E2D322D2D) ∷ (2, 5) ∷ (3, 0x0000008300840085) ∷ (4, 0x00FF000000000000)
        ∷ [])) ≡ 6 }
{}

/// A target past the last word.
pub fn target_past_the_end()
    ensures { look (image_with_numbers ((130, 0x4F50454E2D322D2D) ∷ (2, 5) ∷ (3, 0x0000008300840085)
        ∷ (4, 0x0100000000000000)
        ∷ [])) ≡ Refused 4 }
{}

/// A target past the count.
pub fn target_past_the_count()
    ensures { look (image_with_numbers ((130, 0x4F50454E2D322D2D) ∷ (2, 1) ∷ (3, 0x0083008400000000) ∷ []))
        ≡ Refused 3 }
{}

/// A target word of layout 1 whose first bytes are not zero.
pub fn front_of_a_target_word()
    ensures { look (image_with_numbers ((1, 0x4F50454E2D312D2D) ∷ (2, 2) ∷ (3, 0x83) ∷ (5, 0x10083) ∷ [])) ≡ Refused 5 }
{}

/// A count of 65.
pub fn count_past_64()
    ensures { look (image_with_numbers ((1, 0x4F50454E2D312D2D) ∷ (2, 65) ∷ [])) ≡ Refused 2 }
{}

/// A gate that holds the opening word of the other journal is shut.
pub fn gate_of_another_word()
    ensures { look (image_with_numbers ((1, 0x4F50454E2D322D2D) ∷ (130, 0x4F50454E2D312D2D) ∷ [])) ≡ Closed }
{}
