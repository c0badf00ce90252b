// Code whose verdict is known.
use mc_base::{MOST_CODE, NoMemory};
use mc_check::{CheckCause, Verdict, check};
use std::alloc::Global;
use std::test::Fail;

// Adds to a word of its static segment, and replies it.
const COUNTER: [u8; 15] = [0xB9, 2, 0, 0, 0x39, 2, 0, 0, 0x46, 2, 0, 0, 6, 0, 2];

// Keeps a balance: credits it, debits it, and replies it.
const PURSE: [u8; 77] = [
    0x77, 0x30, 0xFF, 0xF4, 0x11, 0x00, 0x23, 0x77, 0x40, 0xFF, 0xF4, 0x11, 0x00, 0x2C, 0x77, 0x50,
    0xFF, 0xF4, 0x11, 0x00, 0x18, 0x05, 0x6D, 0x00, 0x39, 0x04, 0x00, 0x00, 0x46, 0x04, 0x00, 0x00,
    0x06, 0x00, 0x04, 0x3E, 0x04, 0x00, 0x00, 0xD9, 0x04, 0x00, 0x00, 0x04, 0x39, 0x04, 0x00, 0x00,
    0x3E, 0x04, 0x00, 0x00, 0xE0, 0x04, 0x12, 0x00, 0x4A, 0x24, 0x04, 0x29, 0x03, 0x02, 0x41, 0x04,
    0x00, 0x00, 0xB9, 0x02, 0x00, 0x08, 0x29, 0x03, 0x01, 0x04, 0x05, 0x69, 0x85,
];

// Calls a routine that takes a byte and returns one.
const CALL_AND_RETURN: [u8; 21] = [
    0x21, 0x05, 0x1F, 0x00, 0x0C, 0x46, 0x01, 0x00, 0x00, 0x06, 0x00, 0x01, 0x3C, 0x01, 0xFF, 0xFB,
    0x78, 0x03, 0x2F, 0x01, 0x01,
];

// Calls a routine that takes a byte, when there is none.
const TAKES_TOO_MUCH: [u8; 6] = [0x1F, 0x00, 0x04, 0x04, 0x2D, 0x01];

// PUSHB 1, EXIT.
const ONE_BYTE: [u8; 3] = [0x21, 0x01, 0x04];

// Accepted code, and the bytes of stack that it takes.
const ACCEPTED: [(&[u8], u16); 4] = [
    (&COUNTER, 2),
    (&PURSE, 8),
    (&CALL_AND_RETURN, 6),
    (&[0x0F, 0xFE], 0),
];

// Refused code, the place, and the cause.
const REFUSED: [(&[u8], u16, CheckCause); 7] = [
    (&[0x30], 0, CheckCause::Undefined),
    (&[0x25], 0, CheckCause::Under),
    (&[0x2C], 0, CheckCause::Returns),
    (&[0x10], 0, CheckCause::Indirect),
    (&[0x00], 0, CheckCause::Target),
    (&[0x21, 0x01, 0x40, 0x01, 0x04], 2, CheckCause::Under),
    (&TAKES_TOO_MUCH, 0, CheckCause::Under),
];

// Returns the verdict on code, or `None` if its length cannot be checked.
fn verdict(alloc: Global, code: &[u8], session: u16) -> Result<Option<Verdict>, NoMemory> {
    if code.is_empty() || code.len() > MOST_CODE {
        return Ok(None);
    }
    Ok(Some(check(alloc, code, session)?))
}

#[test]
fn known_verdicts(rt: HostRuntime) -> Result<(), Fail> {
    for (code, deepest) in ACCEPTED {
        assert_eq!(rt;
            verdict(rt.alloc(), code, 0)?,
            Some(Verdict::Accept { deepest })
        );
    }
    for (code, place, cause) in REFUSED {
        assert_eq!(rt;
            verdict(rt.alloc(), code, 0)?,
            Some(Verdict::Refuse { place, cause })
        );
    }
    let full = verdict(rt.alloc(), &ONE_BYTE, 511)?;
    assert_eq!(rt; full, Some(Verdict::Accept { deepest: 1 }));
    let over = verdict(rt.alloc(), &ONE_BYTE, 512)?;
    assert!(rt;
        matches!(
            over,
            Some(Verdict::Refuse {
                cause: CheckCause::Deep,
                ..
            })
        )
    );
    Ok(())
}
