// Worked examples of what a line leaves and counts.
ghost use Rattle.std.specs.Prelude.{◌≡◌, true, false, [], ◌∷◌, Some, None};
ghost use Rattle.model_play.specs.model_device.specs.declared.device.Stop.TheVariants.{Off, Worn};
ghost use Rattle.model_play.specs.model_device.specs.Bytes.{zeros};
ghost use Rattle.model_play.specs.model_device.specs.Device.{blank_words};
ghost use Rattle.model_play.specs.model_machine.specs.declared.instruction.Ins.TheVariants.{Nop};
ghost use Rattle.model_play.specs.DeckGrammar as line;
ghost use Rattle.model_play.specs.Play.{start, formatted_image};
ghost use Rattle.mc_script.specs.Counting.{on_after};
ghost use Rattle.mc_script.specs.Plays.{words_after};
ghost use Rattle.mc_script.specs.StepCounts.{instructions, command_search};

/// Whether power is on after a line.
pub fn power_after_lines()
    ensures power { on_after false line.Power None ≡ true }
    ensures cut { on_after false line.Power (Some (record { kind = Off; at = 1; left = zeros 8 })) ≡ false }
    ensures failed { on_after false line.Power (Some (record { kind = Worn; at = 1; left = zeros 8 })) ≡ true }
    ensures answered { on_after true (line.Sent (line.Apdu [])) None ≡ true }
    ensures refused { on_after false (line.Sent (line.Apdu [])) None ≡ false }
    ensures budget { on_after false (line.Budget 5) None ≡ false }
{}

/// The words after lines: those of a `format` line, and no other after a power line that makes no write.
#[tactic(auto, unfolding(model_play::specs::Play::step, model_play::specs::Play::moves_of))]
pub fn words_after_lines()
    ensures none { words_after (blank_words 256) (start (blank_words 256)) [] [] [] ≡ blank_words 256 }
    ensures format { words_after (blank_words 256) (start (blank_words 256)) ((1, line.Format) ∷ []) (None ∷ []) []
        ≡ formatted_image (blank_words 256) }
    ensures power { words_after (blank_words 256) (start (blank_words 256)) ((1, line.Format) ∷ (2, line.Power) ∷ [])
        (None ∷ None ∷ []) [] ≡ formatted_image (blank_words 256) }
{}

/// The steps of turns and of commands.
pub fn steps_of_commands()
    ensures turns { instructions (
        record { depth = 1; at = 0; ins = Some Nop; dt = 0; c = false; z = false; end = None; wrote = None }
        ∷ record { depth = 1; at = 1; ins = None; dt = 0; c = false; z = false; end = None; wrote = None }
        ∷ []) ≡ 1 }
    ensures open { command_search (record { size = 256; layout = 2; apps = [] }) (0xBE ∷ 0x12 ∷ 0 ∷ 0 ∷ []) ≡ 3 }
    ensures create { command_search (record { size = 256; layout = 2; apps = [] }) (0xBE ∷ 0x16 ∷ 0 ∷ 0 ∷ []) ≡ 0 }
    ensures select { command_search (record { size = 256; layout = 2; apps = [] }) (0 ∷ 0x12 ∷ 0 ∷ 0 ∷ []) ≡ 0 }
{}
