use crate::*;
use std::test::Fail;

// Each call once. The expected results were computed independently, on whole numbers.
#[test]
fn blocks_at_the_borders(rt: HostRuntime) -> Result<(), Fail> {
    let mut a = [0xFF, 0xFF];
    assert_eq!(rt; add(&mut a, &[0x00, 0x01]), Flags { c: true, z: true });
    assert_eq!(rt; a, [0x00, 0x00]);
    assert_eq!(rt; sub(&mut a, &[0x00, 0x01]), Flags { c: true, z: false });
    assert_eq!(rt; a, [0xFF, 0xFF]);
    assert_eq!(rt; inc(&mut a), Flags { c: true, z: true });
    assert_eq!(rt; a, [0x00, 0x00]);
    assert_eq!(rt; dec(&mut a), Flags { c: true, z: false });
    assert_eq!(rt; a, [0xFF, 0xFF]);
    assert_eq!(rt; shift_left(&mut a, 9), Flags { c: true, z: false });
    assert_eq!(rt; a, [0xFE, 0x00]);
    assert_eq!(rt; shift_right(&mut a, 10), Flags { c: true, z: false });
    assert_eq!(rt; a, [0x00, 0x3F]);
    assert_eq!(rt;
        compare(&[0x00, 0x3F], &[0x01, 0x00]),
        Flags { c: true, z: false }
    );
    assert_eq!(rt;
        compare(&[0x01, 0x00], &[0x01, 0x00]),
        Flags { c: false, z: true }
    );
    assert_eq!(rt; or(&mut a, &[0x01, 0x40]), false);
    assert_eq!(rt; a, [0x01, 0x7F]);
    assert_eq!(rt; xor(&mut a, &[0x01, 0xFF]), false);
    assert_eq!(rt; a, [0x00, 0x80]);
    assert_eq!(rt; not(&mut a), false);
    assert_eq!(rt; a, [0xFF, 0x7F]);
    assert_eq!(rt; and(&mut a, &[0x00, 0x80]), true);
    assert_eq!(rt; a, [0x00, 0x00]);
    Ok(())
}
