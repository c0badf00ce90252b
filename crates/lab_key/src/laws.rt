ghost use Rattle.lab_key.specs.Laws.{KeyLaw, NumberLaw, StateLaw};

/// Two keys are equal, by the test of the code, exactly if they are those of one base and of the same that runs on it, by
/// the test of the definition.
pub fn keys_tell_states_apart()
    ensures { KeyLaw }
{}

/// Two cards that are kept have one number exactly if they are one card with the same that runs on it, by the test of the
/// definition.
pub fn cards_have_one_number()
    ensures { NumberLaw }
{}

/// Two states that are kept are equal, by the test of the code, exactly if they are one, by the test of the definition.
pub fn kept_states_are_states()
    ensures { StateLaw }
{}
