// Laws of the table, the spelling and the decoder.
ghost use Rattle.std.specs.Prelude.{◌≡◌, ◌+◌, ◌<◌, ℕ, List, [], ◌++◌, length, Result};
ghost use Rattle.std.specs.List.{AllByRecursion};
ghost use Rattle.model_text.specs.model_machine.specs.Code.{Shaped, spell, instruction_at, DecodesTo};
ghost use Rattle.model_text.specs.model_machine.specs.declared.instruction.DecodeFault.{DecodeFault};
ghost use Rattle.model_text.specs.model_machine.specs.declared.instruction.Ins.{Ins};

/// At each place of code exactly one result holds: one instruction with one next place, `Undefined`, or
/// `Past`.
pub fn one_answer_at_each_place()
    ensures holds { (code : List ℕ) (at : ℕ) → AllByRecursion (λ b. b < 256) code → DecodesTo code at
        (instruction_at code at) }
    ensures only { (code : List ℕ) (at : ℕ) (answer : Result (Ins × ℕ) DecodeFault) → DecodesTo code at answer
        → instruction_at code at ≡ answer }
{}

/// A spelling at the front of any bytes is decoded there, with its length.
pub fn a_spelling_is_decoded()
    ensures { (i : Ins) (rest : List ℕ) → Shaped i → instruction_at (spell i ++ rest) 0 ≡ Ok (i, length (spell i)) }
{}

/// The spellings are a prefix code: none is a prefix of another, and no two instructions have the same one.
pub fn spellings_are_prefix_free()
    ensures { (i j : Ins) (rest : List ℕ) → Shaped i → Shaped j → spell i ++ rest ≡ spell j → (i ≡ j) × (rest ≡ []) }
{}
