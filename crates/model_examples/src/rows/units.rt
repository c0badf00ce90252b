#![tactic(auto, unfolding(model_card::specs::Units::unit_read, model_card::specs::Units::name_of))]

ghost use Rattle.std.specs.Prelude.{◌≡◌, ◌++◌, [], codes, map, replicate, Ok, Err};
ghost use Rattle.model_machine.specs.model_device.specs.Bytes.{zeros};
ghost use Rattle.model_card.specs.Units.{made_dir, made_fci, name_of, unit_bytes, unit_read};
ghost use Rattle.model_card.specs.declared.unit.AidFault.TheVariants.{AidLength, NoAid};
ghost use Rattle.model_card.specs.declared.unit.UnitRefusal.TheVariants.{Short};
ghost use Rattle.model_examples.specs.Written.{fronts, hex};

/// The counter's unit, as it is written and as it is read.
pub fn counter()
    ensures written { unit_bytes (hex (codes "B9020000 39020000 46020000 060002")) []
        (made_dir (hex (codes "A000000001"))) (made_fci (hex (codes "A000000001")))
        ≡ hex (codes "0000000000000000 000F B902000039020000460200000 60002 0000 0009 61074F05A000000001 0009 6F078405A000000001 0000 0000") }
    ensures read { unit_read (hex
        (codes "0000000000000000 000F B9020000390200004602000006 0002 0000 0009 61074F05A000000001 0009 6F078405A000000001 0000 0000"))
        ≡ Ok (record {
          number = zeros 8;
          code = hex (codes "B9020000 39020000 46020000 060002");
          init = [];
          dir = hex (codes "61074F05A000000001");
          fci = hex (codes "6F078405A000000001");
          aid = hex (codes "A000000001");
        }) }
{}

/// Each shorter front of a unit is short.
pub fn fronts_of_a_unit()
    ensures { map unit_read (fronts 53 (hex
        (codes "0000000000000000 000F B9020000390200004602000006 0002 0000 0009 61074F05A000000001 0009 6F078405A000000001 0000 0000")))
        ≡ replicate 53 (Err Short) }
{}

/// The name in a DIR record.
pub fn names()
    ensures behind_other_objects { name_of (hex (codes "610E 5000 5F8101 01AA 4F05A000000001"))
        ≡ Ok (hex (codes "A000000001")) }
    ensures long_lengths { name_of (hex (codes "61 8108 4F 8105 A000000001 FF")) ≡ Ok (hex (codes "A000000001")) }
    ensures empty { name_of [] ≡ Err NoAid }
    ensures other_template { name_of (hex (codes "62074F05A000000001")) ≡ Err NoAid }
    ensures template_cut_short { name_of (hex (codes "61084F05A000000001")) ≡ Err NoAid }
    ensures name_cut_short { name_of (hex (codes "61064F05A0000000")) ≡ Err NoAid }
    ensures length_of_another_form { name_of (hex (codes "61094F820005A000000001")) ≡ Err NoAid }
    ensures four_bytes { name_of (hex (codes "61064F04A0000000")) ≡ Err AidLength }
    ensures seventeen_bytes { name_of (hex (codes "61134F11A000000000000000000000000000000000")) ≡ Err AidLength }
{}
