// No clause says that a comparison returns `true`, nor that a call has room.
use prove_forms::{Form, Origin, Origins, form_of};
use std::alloc::Global;
use std::test::Fail;

// The number that three bytes are, of which the middle one is public.
fn three_bytes(alloc: Global, low: u8) -> Result<Option<Form>, model_device::NoMemory> {
    let bytes = [
        Origin::Constant(1),
        Origin::Public(3),
        Origin::Constant(low),
    ];
    form_of(alloc, bytes.as_slice())
}

#[test]
fn form_has_each_byte(rt: HostRuntime) -> Result<(), Fail> {
    let form = three_bytes(rt.alloc(), 2)?;
    match form {
        Some(form) => {
            assert_eq!(rt; form.constant, 0x10002);
            assert_eq!(rt; form.terms.len(), 1);
            assert_eq!(rt; form.terms[0].at, 3);
            assert_eq!(rt; form.terms[0].factor, 256);
        }
        None => assert!(rt; false),
    }
    Ok(())
}

#[test]
fn forms_are_compared_modulo_a_power(rt: HostRuntime) -> Result<(), Fail> {
    let byte = Form::public_byte(rt.alloc(), 7)?;
    let less = byte.negative(rt.alloc(), 2)?;
    let more = Form::number(rt.alloc(), 5).plus(rt.alloc(), &less)?;
    let all = more.plus(rt.alloc(), &byte)?;
    assert!(rt; all.same(rt.alloc(), 2, &Form::number(rt.alloc(), 5))?);
    assert!(rt; !all.same(rt.alloc(), 3, &Form::number(rt.alloc(), 5))?);
    assert!(rt; !all.same(rt.alloc(), 2, &Form::number(rt.alloc(), 6))?);
    let zero = Form::number(rt.alloc(), 0).negative(rt.alloc(), 40)?;
    assert!(rt; zero.same(rt.alloc(), 40, &Form::number(rt.alloc(), 0))?);
    Ok(())
}

#[test]
fn origins_follow_what_says_more(rt: HostRuntime) -> Result<(), Fail> {
    let own = Origins::own(rt.alloc());
    let lost = own.without_public(rt.alloc())?;
    assert!(rt; own.follows(&lost));
    assert!(rt; !lost.follows(&own));
    let pushed = lost.with(rt.alloc(), 0x8000, [Origin::Constant(9)].as_slice())?;
    assert!(rt; pushed.follows(&lost));
    assert!(rt; !lost.follows(&pushed));
    assert!(rt; lost.follows(&pushed.below(rt.alloc(), 0x8000)?));
    Ok(())
}
