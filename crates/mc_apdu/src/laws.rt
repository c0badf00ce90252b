ghost use Rattle.std.specs.Prelude.{◌≡◌, ◌↔◌, ℕ, List, [], ◌∷◌, ◌++◌, replicate, Some, None};
ghost use Rattle.model_machine.specs.Apdu.{apdu_read, ApduParts, IsApdu};

/// A command is parsed exactly if it has one of the seven cases, with the parts of that case.
pub fn seven_cases()
    ensures { (b : List ℕ) (a : ApduParts) → (apdu_read b ≡ Some a) ↔ IsApdu b a }
{}

/// Lengths that no short case has.
#[tactic(auto, unfolding(model_machine::specs::Apdu::apdu_read))]
pub fn wrong_lengths()
    ensures no_header { apdu_read (0x80 ∷ 1 ∷ []) ≡ None }
    ensures data_missing { apdu_read (0x80 ∷ 1 ∷ 0 ∷ 0 ∷ 2 ∷ 0xaa ∷ []) ≡ None }
    ensures number_cut { apdu_read (0x80 ∷ 1 ∷ 0 ∷ 0 ∷ 0 ∷ 0 ∷ []) ≡ None }
    ensures le_cut { apdu_read (0x80 ∷ 1 ∷ 0 ∷ 0 ∷ 0 ∷ 0 ∷ 2 ∷ 0x11 ∷ 0x22 ∷ 0 ∷ []) ≡ None }
    ensures behind { apdu_read (0x80 ∷ 1 ∷ 0 ∷ 0 ∷ 2 ∷ 0x11 ∷ 0x22 ∷ 0 ∷ 0 ∷ []) ≡ None }
{}

/// Commands to the card manager, and one to an application.
#[tactic(auto, unfolding(model_machine::specs::Apdu::apdu_read))]
pub fn short_rows()
    ensures class { apdu_read (0xff ∷ 1 ∷ 0 ∷ 0 ∷ [])
        ≡ Some (record { cla = 0xff; ins = 1; p1 = 0; p2 = 0; p3 = 0; body = []; le = None }) }
    ensures manager { apdu_read (0xbe ∷ 0x99 ∷ 0 ∷ 0 ∷ [])
        ≡ Some (record { cla = 0xbe; ins = 0x99; p1 = 0; p2 = 0; p3 = 0; body = []; le = None }) }
    ensures select { apdu_read (0 ∷ 0xa4 ∷ 4 ∷ 2 ∷ [])
        ≡ Some (record { cla = 0; ins = 0xa4; p1 = 4; p2 = 2; p3 = 0; body = []; le = None }) }
    ensures application { apdu_read (0x80 ∷ 1 ∷ 0 ∷ 0 ∷ [])
        ≡ Some (record { cla = 0x80; ins = 1; p1 = 0; p2 = 0; p3 = 0; body = []; le = None }) }
    ensures open { apdu_read (0xbe ∷ 0x12 ∷ 0 ∷ 0 ∷ 0xc ∷ 0 ∷ 0xf ∷ 0 ∷ 2 ∷ 0 ∷ 0 ∷ 0 ∷ 0 ∷ 0 ∷ 9 ∷ 0 ∷ 9 ∷ [])
        ≡ Some (record {
          cla = 0xbe;
          ins = 0x12;
          p1 = 0;
          p2 = 0;
          p3 = 12;
          body = 0 ∷ 0xf ∷ 0 ∷ 2 ∷ 0 ∷ 0 ∷ 0 ∷ 0 ∷ 0 ∷ 9 ∷ 0 ∷ 9 ∷ [];
          le = None;
        }) }
    ensures load { apdu_read (0xbe ∷ 0x24 ∷ 0 ∷ 1 ∷ 1 ∷ 0xb9 ∷ [])
        ≡ Some (record { cla = 0xbe; ins = 0x24; p1 = 0; p2 = 1; p3 = 1; body = 0xb9 ∷ []; le = None }) }
    ensures data_and_le { apdu_read (0x80 ∷ 1 ∷ 0 ∷ 0 ∷ 4 ∷ 0x11 ∷ 0x22 ∷ 0x33 ∷ 0x44 ∷ 4 ∷ [])
        ≡ Some (record {
          cla = 0x80;
          ins = 1;
          p1 = 0;
          p2 = 0;
          p3 = 4;
          body = 0x11 ∷ 0x22 ∷ 0x33 ∷ 0x44 ∷ [];
          le = Some 4;
        }) }
    ensures le { apdu_read (0x80 ∷ 1 ∷ 0 ∷ 0 ∷ 4 ∷ [])
        ≡ Some (record { cla = 0x80; ins = 1; p1 = 0; p2 = 0; p3 = 4; body = []; le = Some 4 }) }
    ensures le_256 { apdu_read (0x80 ∷ 1 ∷ 0 ∷ 0 ∷ 0 ∷ [])
        ≡ Some (record { cla = 0x80; ins = 1; p1 = 0; p2 = 0; p3 = 0; body = []; le = Some 256 }) }
    ensures data_and_256 { apdu_read (0x80 ∷ 1 ∷ 0 ∷ 0 ∷ 2 ∷ 0x11 ∷ 0x22 ∷ 0 ∷ [])
        ≡ Some (record { cla = 0x80; ins = 1; p1 = 0; p2 = 0; p3 = 2; body = 0x11 ∷ 0x22 ∷ []; le = Some 256 }) }
{}

/// Commands with a two-byte number after a zero byte.
#[tactic(auto, unfolding(model_machine::specs::Apdu::apdu_read))]
pub fn extended_rows()
    ensures data_and_le { apdu_read (0x80 ∷ 1 ∷ 0 ∷ 0 ∷ 0 ∷ 0 ∷ 2 ∷ 0x11 ∷ 0x22 ∷ 0 ∷ 4 ∷ [])
        ≡ Some (record { cla = 0x80; ins = 1; p1 = 0; p2 = 0; p3 = 0; body = 0x11 ∷ 0x22 ∷ []; le = Some 4 }) }
    ensures data_and_most { apdu_read (0x80 ∷ 1 ∷ 0 ∷ 0 ∷ 0 ∷ 0 ∷ 2 ∷ 0x11 ∷ 0x22 ∷ 0 ∷ 0 ∷ [])
        ≡ Some (record { cla = 0x80; ins = 1; p1 = 0; p2 = 0; p3 = 0; body = 0x11 ∷ 0x22 ∷ []; le = Some 65535 }) }
    ensures le { apdu_read (0x80 ∷ 1 ∷ 0 ∷ 0 ∷ 0 ∷ 0 ∷ 2 ∷ [])
        ≡ Some (record { cla = 0x80; ins = 1; p1 = 0; p2 = 0; p3 = 0; body = []; le = Some 2 }) }
    ensures data { apdu_read (0x80 ∷ 1 ∷ 0 ∷ 0 ∷ 0 ∷ 0 ∷ 2 ∷ 0x11 ∷ 0x22 ∷ [])
        ≡ Some (record { cla = 0x80; ins = 1; p1 = 0; p2 = 0; p3 = 0; body = 0x11 ∷ 0x22 ∷ []; le = None }) }
    ensures most { apdu_read (0x80 ∷ 1 ∷ 0 ∷ 0 ∷ 0 ∷ 0 ∷ 0 ∷ [])
        ≡ Some (record { cla = 0x80; ins = 1; p1 = 0; p2 = 0; p3 = 0; body = []; le = Some 65535 }) }
    ensures long_data { apdu_read (0x80 ∷ 1 ∷ 0 ∷ 0 ∷ 0 ∷ 4 ∷ 0 ∷ [] ++ replicate 1024 7)
        ≡ Some (record { cla = 0x80; ins = 1; p1 = 0; p2 = 0; p3 = 0; body = replicate 1024 7; le = None }) }
    ensures too_long { apdu_read (0x80 ∷ 1 ∷ 0 ∷ 0 ∷ 0 ∷ 4 ∷ 1 ∷ [] ++ replicate 1025 7) ≡ None }
{}
