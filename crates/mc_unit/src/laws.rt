ghost use Rattle.std.specs.Prelude.{◌≡◌, ◌↔◌, ◌<◌, ◌≤◌, ℕ, true, List, [], ◌∷◌, ◌++◌, length, take, Ok, Err, slice_index};
ghost use Rattle.model_card.specs.model_device.specs.Bytes.{zeros};
ghost use Rattle.model_card.specs.Units.{made_dir, made_fci, name_of, unit_bytes, unit_read, IsUnit, UnitParts};
ghost use Rattle.mc_unit.specs.Rows.{counter_code, counter_name, counter_unit, short_below};

use model_card::{AidFault, UnitRefusal};

/// The bytes that are read as a unit are exactly those of the grammar.
pub fn is_grammar()
    ensures { (b : List ℕ) (u : UnitParts) → ((i : ℕ) → slice_index b i < 256) → (unit_read b ≡ Ok u) ↔ IsUnit b u }
{}

/// The DIR record that is made from a name has this name.
pub fn made_name()
    ensures { (name : List ℕ) → 5 ≤ length name → length name ≤ 16 → name_of (made_dir name) ≡ Ok name }
{}

/// The unit of a counter: written, read, and cut at each length.
#[tactic(auto, unfolding(model_card::specs::Units::unit_read, crate::specs::Rows::short_below))]
pub fn counter_rows()
    ensures written { unit_bytes counter_code [] (made_dir counter_name) (made_fci counter_name) ≡ counter_unit }
    ensures read { unit_read counter_unit
        ≡ Ok (record {
          number = zeros 8;
          code = counter_code;
          init = [];
          dir = made_dir counter_name;
          fci = made_fci counter_name;
          aid = counter_name;
        }) }
    ensures cut { short_below 53 counter_unit ≡ true }
    ensures signed { unit_read (take 49 counter_unit ++ 0 ∷ 1 ∷ 7 ∷ 0 ∷ 0 ∷ []) ≡ Err UnitRefusal.Signed }
    ensures enciphered { unit_read (take 51 counter_unit ++ 0 ∷ 1 ∷ []) ≡ Err UnitRefusal.Enciphered }
    ensures tail { unit_read (counter_unit ++ 0 ∷ []) ≡ Err UnitRefusal.Tail }
{}

/// Units that are refused by a length, before the bytes that it counts.
#[tactic(auto, unfolding(model_card::specs::Units::unit_read))]
pub fn length_rows()
    ensures no_code { unit_read (zeros 10) ≡ Err UnitRefusal.NoCode }
    ensures code { unit_read (zeros 8 ++ 0x20 ∷ 1 ∷ []) ≡ Err UnitRefusal.TooLarge }
    ensures largest_code { unit_read (zeros 8 ++ 0x20 ∷ 0 ∷ []) ≡ Err UnitRefusal.Short }
    ensures init { unit_read (take 25 counter_unit ++ 0x10 ∷ 1 ∷ []) ≡ Err UnitRefusal.TooLarge }
    ensures dir { unit_read (take 27 counter_unit ++ 0 ∷ 0x81 ∷ []) ≡ Err UnitRefusal.TooLarge }
    ensures fci { unit_read (take 38 counter_unit ++ 0 ∷ 0x81 ∷ []) ≡ Err UnitRefusal.TooLarge }
    ensures no_name { unit_read (unit_bytes counter_code [] [] []) ≡ Err UnitRefusal.NoAid }
    ensures short_name { unit_read (unit_bytes counter_code [] (made_dir (zeros 4)) []) ≡ Err UnitRefusal.AidLength }
{}

/// DIR records and their names.
#[tactic(auto, unfolding(model_card::specs::Units::name_of))]
pub fn name_rows()
    ensures label_behind { name_of (0x61 ∷ 0xc ∷ 0x4f ∷ 5 ∷ 0xa0 ∷ 0 ∷ 0 ∷ 0 ∷ 1 ∷ 0x50 ∷ 3 ∷ 0x50 ∷ 0x55 ∷ 0x52 ∷ [])
        ≡ Ok counter_name }
    ensures long_tag { name_of (0x61 ∷ 0xc ∷ 0x5f ∷ 0x81 ∷ 0x2a ∷ 1 ∷ 0x4f ∷ 0x4f ∷ 5 ∷ 0xa0 ∷ 0 ∷ 0 ∷ 0 ∷ 1 ∷ [])
        ≡ Ok counter_name }
    ensures two_byte_lengths { name_of (0x61 ∷ 0x81 ∷ 8 ∷ 0x4f ∷ 0x81 ∷ 5 ∷ 0xa0 ∷ 0 ∷ 0 ∷ 0 ∷ 1 ∷ [])
        ≡ Ok counter_name }
    ensures object_before { name_of (0x61 ∷ 0xa ∷ 0x50 ∷ 1 ∷ 0x4f ∷ 0x4f ∷ 5 ∷ 0xa0 ∷ 0 ∷ 0 ∷ 0 ∷ 1 ∷ [])
        ≡ Ok counter_name }
    ensures bytes_behind { name_of (0x61 ∷ 7 ∷ 0x4f ∷ 5 ∷ 0xa0 ∷ 0 ∷ 0 ∷ 0 ∷ 1 ∷ 9 ∷ []) ≡ Ok counter_name }
    ensures template_ends_before { name_of (0x61 ∷ 3 ∷ 0x50 ∷ 1 ∷ 0 ∷ 0x4f ∷ 5 ∷ 0xa0 ∷ 0 ∷ 0 ∷ 0 ∷ 1 ∷ [])
        ≡ Err AidFault.NoAid }
    ensures template_ends_within { name_of (0x61 ∷ 6 ∷ 0x4f ∷ 5 ∷ 0xa0 ∷ 0 ∷ 0 ∷ 0 ∷ 1 ∷ []) ≡ Err AidFault.NoAid }
    ensures template_cut { name_of (0x61 ∷ 8 ∷ 0x4f ∷ 5 ∷ 0xa0 ∷ 0 ∷ 0 ∷ 0 ∷ 1 ∷ []) ≡ Err AidFault.NoAid }
    ensures other_template { name_of (0x6f ∷ 7 ∷ 0x4f ∷ 5 ∷ 0xa0 ∷ 0 ∷ 0 ∷ 0 ∷ 1 ∷ []) ≡ Err AidFault.NoAid }
    ensures length_80 { name_of (0x61 ∷ 7 ∷ 0x4f ∷ 0x80 ∷ 0xa0 ∷ 0 ∷ 0 ∷ 0 ∷ 1 ∷ []) ≡ Err AidFault.NoAid }
    ensures length_82 { name_of (0x61 ∷ 8 ∷ 0x4f ∷ 0x82 ∷ 0 ∷ 5 ∷ 0xa0 ∷ 0 ∷ 0 ∷ 0 ∷ 1 ∷ []) ≡ Err AidFault.NoAid }
    ensures endless_tag { name_of (0x61 ∷ 3 ∷ 0x5f ∷ 0x81 ∷ 0x82 ∷ []) ≡ Err AidFault.NoAid }
    ensures first_name_counts { name_of (0x61 ∷ 0xa ∷ 0x4f ∷ 1 ∷ 9 ∷ 0x4f ∷ 5 ∷ 0xa0 ∷ 0 ∷ 0 ∷ 0 ∷ 1 ∷ [])
        ≡ Err AidFault.AidLength }
    ensures nothing { name_of [] ≡ Err AidFault.NoAid }
    ensures longest { name_of (made_dir (zeros 16)) ≡ Ok (zeros 16) }
    ensures too_long { name_of (made_dir (zeros 17)) ≡ Err AidFault.AidLength }
{}
