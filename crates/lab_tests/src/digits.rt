// Ways through one byte, two bytes and none.
use prove_digits::{Digit, ways};
use prove_facts::Values;
use std::test::Fail;

#[test]
fn a_byte_borrows(rt: HostRuntime) -> Result<(), Fail> {
    let found = ways(
        rt.alloc(),
        Digit::Sub,
        &[Values::range(0, 3)],
        &[Values::one(1)],
    )?;
    assert_eq!(rt; found.len(), 3);
    Ok(())
}

#[test]
fn a_byte_carries_into_the_next(rt: HostRuntime) -> Result<(), Fail> {
    let found = ways(
        rt.alloc(),
        Digit::Add,
        &[Values::one(0), Values::range(254, 255)],
        &[Values::one(0), Values::one(1)],
    )?;
    let is_carried = match found.as_slice() {
        [way] => match way.r.as_slice() {
            [high, low] => high.has(0) && high.has(1) && low.has(255) && low.has(0),
            _ => false,
        },
        _ => false,
    };
    assert_eq!(rt; is_carried, true);
    Ok(())
}

#[test]
fn a_copy_keeps_the_first(rt: HostRuntime) -> Result<(), Fail> {
    let found = ways(
        rt.alloc(),
        Digit::First,
        &[Values::range(1, 9)],
        &[Values::one(0)],
    )?;
    let is_kept = match found.as_slice() {
        [way] => match way.r.as_slice() {
            [only] => only.count() == 9 && !way.c && !way.z,
            _ => false,
        },
        _ => false,
    };
    assert_eq!(rt; is_kept, true);
    Ok(())
}

#[test]
fn no_bytes_are_zero(rt: HostRuntime) -> Result<(), Fail> {
    let found = ways(rt.alloc(), Digit::Add, &[], &[])?;
    let is_zero = match found.as_slice() {
        [way] => way.z && !way.c && way.r.is_empty(),
        _ => false,
    };
    assert_eq!(rt; is_zero, true);
    Ok(())
}

#[test]
fn a_byte_without_values_leads_nowhere(rt: HostRuntime) -> Result<(), Fail> {
    let found = ways(rt.alloc(), Digit::Xor, &[Values::NONE], &[Values::ALL])?;
    assert_eq!(rt; found.len(), 0);
    Ok(())
}
