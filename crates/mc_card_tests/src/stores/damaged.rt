// Words that are not a card, and words that are.
use crate::stores::bench::{Power, format, power_up, set_number};
use mc_blocks::Cause;
use mc_nvm::{DEVICE_WORDS, SimNvm};
use mc_words::NoMemory;
use std::alloc::Global;
use std::test::Fail;

/// The words that open the journals of layout 1 and of layout 2.
const OPEN_1: u64 = 0x4F50454E2D312D2D;

const OPEN_2: u64 = 0x4F50454E2D322D2D;

/// Words that are set on an empty card of 8,192 words, and the result of the power-up.
type Row = (&'static [(u16, u64)], Power);

const JOURNALS: &[Row] = &[
    (
        &[(130, OPEN_2), (1, OPEN_1)],
        Power::Unusable(Cause::BadJournal, 1),
    ),
    (&[(130, OPEN_2)], Power::Unusable(Cause::BadJournal, 2)),
    (
        &[(130, OPEN_2), (2, 65)],
        Power::Unusable(Cause::BadJournal, 2),
    ),
    (
        &[(130, OPEN_2), (2, 1), (3, 0x0082000000000000)],
        Power::Unusable(Cause::BadJournal, 3),
    ),
    (
        &[
            (130, OPEN_2),
            (2, 5),
            (3, 0x0000008300840085),
            (4, 0x0085000000000000),
        ],
        Power::Unusable(Cause::BadJournal, 4),
    ),
    (
        &[
            (130, OPEN_2),
            (2, 1),
            (3, 0x0083000000000000),
            (19, 0x48001F7D00000000),
        ],
        Power::Ready(2),
    ),
    (
        &[
            (130, OPEN_2),
            (2, 1),
            (3, 0x0083000000000000),
            (19, 0x48001F7E00000000),
        ],
        Power::Unusable(Cause::BadBlock, 131),
    ),
    (
        &[(1, OPEN_1), (2, 65)],
        Power::Unusable(Cause::BadJournal, 2),
    ),
    (
        &[(1, OPEN_1), (2, 1), (3, 0x0001000000000083)],
        Power::Unusable(Cause::BadJournal, 3),
    ),
    (
        &[
            (1, OPEN_1),
            (2, 2),
            (3, 0x83),
            (4, 0x48001F7D00000000),
            (5, 0x2000),
        ],
        Power::Unusable(Cause::BadJournal, 5),
    ),
    (
        &[(1, OPEN_1), (2, 1), (3, 0x83), (4, 0x48001F7D00000000)],
        Power::Ready(2),
    ),
];

const BLOCKS: &[Row] = &[
    (
        &[(0, 0x4D454C0220010083)],
        Power::Unusable(Cause::NoRoot, 0),
    ),
    (
        &[(0, 0x4D454C0320000083)],
        Power::Unusable(Cause::NoRoot, 0),
    ),
    (
        &[(131, 0x48001F7E00000000)],
        Power::Unusable(Cause::BadBlock, 131),
    ),
    (
        &[(131, 0x4800000000000000)],
        Power::Unusable(Cause::BadBlock, 131),
    ),
    (
        &[(131, 0x48001F7D00000001)],
        Power::Unusable(Cause::BadBlock, 131),
    ),
    (
        &[(131, 0x48011F7D00000000)],
        Power::Unusable(Cause::BadBlock, 131),
    ),
    (
        &[(131, 0x49001F7D00000000)],
        Power::Unusable(Cause::BadBlock, 131),
    ),
    (
        &[(131, 0x4800000100840000), (132, 0x48001F7C00000000)],
        Power::Unusable(Cause::BadBlock, 132),
    ),
    (
        &[
            (0, 0x4D454C0220000088),
            (131, 0x5500000500000000),
            (136, 0x48001F7800000000),
        ],
        Power::Unusable(Cause::BadRecord, 131),
    ),
    (
        &[(131, 0x48001F7D00830000)],
        Power::Unusable(Cause::BadChain, 131),
    ),
    (
        &[(0, 0x4D454C0220000000)],
        Power::Unusable(Cause::BadChain, 0),
    ),
    (&[(16383, 0)], Power::Ready(0)),
];

/// Two applications with a code of one byte, five bytes of name and nothing else, of six words each.
const HELD: &[(u16, u64)] = &[
    (0, 0x4D454C022000008F),
    (131, 0x5500000600000000),
    (132, 0xA000000001000000),
    (133, 0),
    (134, 0x0500000000010000),
    (135, 0),
    (137, 0x5500000600000000),
    (138, 0xA000000002000000),
    (139, 0),
    (140, 0x0500000000010000),
    (141, 0),
    (143, 0x48001F7100000000),
];

const RECORDS: &[Row] = &[
    (&[], Power::Ready(0)),
    (
        &[(138, 0xA000000001000000)],
        Power::Unusable(Cause::BadRecord, 137),
    ),
    (
        &[(134, 0x0400000000010000)],
        Power::Unusable(Cause::BadRecord, 131),
    ),
    (&[(133, 1)], Power::Unusable(Cause::BadRecord, 131)),
    (
        &[(140, 0x0500000000090000)],
        Power::Unusable(Cause::BadRecord, 137),
    ),
    (
        &[(140, 0x0500000000000000)],
        Power::Unusable(Cause::BadRecord, 137),
    ),
    (
        &[(140, 0x0500000100010000)],
        Power::Unusable(Cause::BadRecord, 137),
    ),
    (
        &[(141, 0x0000001000000000)],
        Power::Unusable(Cause::BadRecord, 137),
    ),
    (&[(141, 0x0100000F00000000)], Power::Ready(0)),
    (
        &[(141, 0x0101000F00000000)],
        Power::Unusable(Cause::BadRecord, 137),
    ),
    (
        &[(137, 0x55000006008F0000)],
        Power::Unusable(Cause::BadChain, 137),
    ),
    (
        &[(137, 0x55000006008F0000), (131, 0x5500000600890000)],
        Power::Unusable(Cause::BadChain, 131),
    ),
    (
        &[(143, 0x48001F71008F0000)],
        Power::Unusable(Cause::BadChain, 143),
    ),
];

// The result of the power-up of an empty card with words set.
fn came(alloc: Global, base: &[(u16, u64)], words: &[(u16, u64)]) -> Result<Power, NoMemory> {
    let mut device = SimNvm::new(alloc, DEVICE_WORDS)?;
    format(&mut device);
    set_all(&mut device, base);
    set_all(&mut device, words);
    Ok(power_up(&mut device))
}

fn set_all(device: &mut SimNvm, words: &[(u16, u64)]) {
    for (at, number) in words {
        set_number(device, *at, *number);
    }
}

// The first row with another result.
fn first_other(
    alloc: Global,
    base: &[(u16, u64)],
    rows: &[Row],
) -> Result<Option<usize>, NoMemory> {
    for (i, (words, due)) in rows.iter().enumerate() {
        if came(alloc, base, words)? != *due {
            return Ok(Some(i));
        }
    }
    Ok(None)
}

// The first cause in their order, and its place.
#[test]
fn damaged_words(rt: HostRuntime) -> Result<(), Fail> {
    assert_eq!(rt; first_other(rt.alloc(), &[], JOURNALS)?, None);
    assert_eq!(rt; first_other(rt.alloc(), &[], BLOCKS)?, None);
    assert_eq!(rt; first_other(rt.alloc(), HELD, RECORDS)?, None);
    Ok(())
}
