use crate::{read_unit, write_unit};
use model_card::UnitRefusal;
use std::test::Fail;

const COUNTER: [u8; 53] = [
    0, 0, 0, 0, 0, 0, 0, 0, 0, 0x0F, 0xB9, 2, 0, 0, 0x39, 2, 0, 0, 0x46, 2, 0, 0, 6, 0, 2, 0, 0, 0,
    9, 0x61, 7, 0x4F, 5, 0xA0, 0, 0, 0, 1, 0, 9, 0x6F, 7, 0x84, 5, 0xA0, 0, 0, 0, 1, 0, 0, 0, 0,
];

const CODE: [u8; 15] = [0xB9, 2, 0, 0, 0x39, 2, 0, 0, 0x46, 2, 0, 0, 6, 0, 2];

const DIR: [u8; 9] = [0x61, 7, 0x4F, 5, 0xA0, 0, 0, 0, 1];

const FCI: [u8; 9] = [0x6F, 7, 0x84, 5, 0xA0, 0, 0, 0, 1];

// The unit of the counter is written from its fields and read with them, and each of its proper prefixes is
// too short.
#[test]
#[tactic(auto, unfolding(model_card::specs::Units::name_of))]
fn counter_unit(rt: HostRuntime) -> Result<(), Fail> {
    let unit = write_unit(rt.alloc(), &CODE, &[], &DIR, &FCI)?;
    assert_eq!(rt; unit.as_slice(), COUNTER.as_slice());
    assert!(rt; is_read(&COUNTER));
    for count in 0..53 {
        assert!(rt; is_short(&COUNTER[..count]));
    }
    Ok(())
}

fn is_read(bytes: &[u8]) -> bool {
    match read_unit(bytes) {
        Ok(unit) => unit.code == CODE.as_slice() && unit.aid.bytes() == &DIR[4..],
        Err(_) => false,
    }
}

fn is_short(bytes: &[u8]) -> bool {
    matches!(read_unit(bytes), Err(UnitRefusal::Short))
}
