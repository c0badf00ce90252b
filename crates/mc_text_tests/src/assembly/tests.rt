use mc_asm::{AsmCause, AsmRefusal, assemble, list};
use std::alloc::{AllocError, Global};
use std::test::Fail;

// The code of a counter: it adds to a word of its static segment, and replies with it.
const COUNTER: [u8; 15] = [0xB9, 2, 0, 0, 0x39, 2, 0, 0, 0x46, 2, 0, 0, 6, 0, 2];

// A branch over `lines` lines `NOP`, to a line `far: EXIT`.
fn branch_over(alloc: Global, lines: usize) -> Result<Vec<u8>, AllocError> {
    let mut text = Vec::new(alloc);
    text.extend_from_slice(b"BRANCH ALL,far\n")?;
    for _ in 0..lines {
        text.extend_from_slice(b"NOP\n")?;
    }
    text.extend_from_slice(b"far: EXIT\n")?;
    Ok(text)
}

// Whether this is the code of the longest branch.
fn is_longest(code: &[u8]) -> bool {
    match code {
        [0x0F, 0x7F, nops @ .., 0x04] => nops.len() == 127 && nops.iter().all(|byte| *byte == 0),
        _ => false,
    }
}

// A branch reaches over 127 bytes but not over 128, and a counter is listed.
#[test]
fn branches(rt: HostRuntime) -> Result<(), Fail> {
    let alloc = rt.alloc();
    let near = branch_over(alloc, 127)?;
    let code = assemble(alloc, near.as_slice())?;
    assert!(rt; is_longest(code.as_slice()));
    let far = branch_over(alloc, 128)?;
    let refused = assemble(alloc, far.as_slice());
    assert!(rt; matches!(refused, Err(AsmRefusal::At(1, AsmCause::FarBranch))));
    let listing = list(alloc, &COUNTER)?;
    assert_eq!(rt;
        listing.as_slice(),
        b"INCN SB[0],2\nLOAD SB[0],2\nSTORE PB[0],2\nEXITLA 0x0002\n".as_slice()
    );
    Ok(())
}
