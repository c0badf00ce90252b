// No clause says that a comparison returns `true`.
use lab_app_rules::Balance;
use mc_arith::model_machine::Ins;
use model_device::NoMemory;
use prove_forms::{Form, Origin};
use prove_scenes::{Act, Next, Shape, Work};
use prove_sums::{Before, Sums, moved};
use std::alloc::Global;
use std::test::Fail;

// A block of two static bytes.
fn block(alloc: Global) -> Balance {
    Balance {
        line: 1,
        at: 4,
        n: 2,
        constant: 0,
        sums: Vec::new(alloc),
    }
}

// What is known after 1 was added to the block.
fn raised(alloc: Global, balances: &[Balance]) -> Result<Sums, NoMemory> {
    let first = Sums::first(alloc, balances)?;
    let bytes = [Origin::Unknown, Origin::Unknown];
    first.written(
        alloc,
        balances,
        4,
        bytes.as_slice(),
        &Some(Form::number(alloc, 1)),
    )
}

#[test]
fn a_block_is_off_after_a_write(rt: HostRuntime) -> Result<(), Fail> {
    let balances = vec![in rt.alloc(); block(rt.alloc())]?;
    let first = Sums::first(rt.alloc(), balances.as_slice())?;
    let after = raised(rt.alloc(), balances.as_slice())?;
    assert!(rt; first.are_even(balances.as_slice()));
    assert!(rt; !after.are_even(balances.as_slice()));
    assert!(rt; after.follows(rt.alloc(), balances.as_slice(), &after)?);
    assert!(rt; !after.follows(rt.alloc(), balances.as_slice(), &first)?);
    Ok(())
}

#[test]
fn a_loaded_block_moves_its_own(rt: HostRuntime) -> Result<(), Fail> {
    let alloc = rt.alloc();
    let balances = vec![in alloc; block(alloc)]?;
    let first = Sums::first(alloc, balances.as_slice())?;
    let known = first.loaded(alloc, true, 0x8000, 4, 2)?;
    let before = Before {
        dt: 0x8002,
        lb: 0x8000,
        protected: false,
    };
    let shape = Shape {
        dt: 0x8002,
        act: Act::Stays,
        flags: None,
        next: Next::Goes,
    };
    let after = moved(
        alloc,
        balances.as_slice(),
        &before,
        &Ins::Popb,
        &shape,
        &Work::AnyZ,
        &known,
    )?;
    match after {
        Some(after) => assert_eq!(rt; after.mores.len(), 1),
        None => assert!(rt; false),
    }
    Ok(())
}
