// Drafts that are refused.
use crate::drafts::{first_unmade, first_unrefused};
use mc_deck::model_play::DeckCause;

const BAD_LINES: &[(&[u8], u32, DeckCause)] = &[
    (b"app a A000000100\nSTATIC\nend\n", 2, DeckCause::BadLine),
    (b"app a A000000100\nSTATIC x\nend\n", 2, DeckCause::BadLine),
    (
        b"app a A000000100\nSTATIC x 1 00 00\nend\n",
        2,
        DeckCause::BadLine,
    ),
    (
        b"app a A000000100\nNOP\nSESSION x 1 00\nend\n",
        3,
        DeckCause::BadLine,
    ),
    (
        b"app a A000000100\nPUBLIC x 1\nend\n",
        2,
        DeckCause::BadLine,
    ),
    (
        b"app a A000000100\nCONST x 1 2\nend\n",
        2,
        DeckCause::BadLine,
    ),
    (
        b"app a A000000100\nCONST x ;1\nend\n",
        2,
        DeckCause::BadLine,
    ),
    (b"app a A000000100\nSTATIC x", 2, DeckCause::BadLine),
];

#[test]
fn bad_lines(rt: HostRuntime) {
    assert_eq!(rt; first_unrefused(rt.alloc(), BAD_LINES), None);
}

const BOTH_KINDS_OF_DATA_MADE: &[(&[u8], &[u8])] = &[
    (
        b"app a A000000100\nDATA 00\nSESSION x 1\nend\n",
        b"app a A000000100\nDATA 00\n\nend\n",
    ),
    (
        b"app a A000000100\nDATA 00\nend\napp b A000000101\nSTATIC x 1\nend\n",
        b"app a A000000100\nDATA 00\nend\napp b A000000101\n\nend\n",
    ),
];

const BOTH_KINDS_OF_DATA_REFUSED: &[(&[u8], u32, DeckCause)] = &[
    (
        b"app a A000000100\nDATA 00\nSTATIC x 1\nend\n",
        3,
        DeckCause::BadLine,
    ),
    (
        b"app a A000000100\nSTATIC x 1\nNOP\nDATA 00\nend\n",
        4,
        DeckCause::BadLine,
    ),
    (
        b"app a A000000100\nDATA\nSTATIC x 1\nend\n",
        3,
        DeckCause::BadLine,
    ),
];

#[test]
fn both_kinds_of_data(rt: HostRuntime) {
    assert_eq!(rt; first_unmade(rt.alloc(), BOTH_KINDS_OF_DATA_MADE), None);
    assert_eq!(rt;
        first_unrefused(rt.alloc(), BOTH_KINDS_OF_DATA_REFUSED),
        None
    );
}

const BAD_NAMES_MADE: &[(&[u8], &[u8])] = &[
    (
        b"app a A000000100\nCONST sb 1\nCONST all 2\nend\n",
        b"app a A000000100\n\n\nend\n",
    ),
    (
        b"app a A000000100\nCONST xxxxxxxxxxxxxxxxxxxxxxxxxxxxxxxx 1\nend\n",
        b"app a A000000100\n\nend\n",
    ),
];

const BAD_NAMES_REFUSED: &[(&[u8], u32, DeckCause)] = &[
    (
        b"app a A000000100\nSTATIC 1x 1\nend\n",
        2,
        DeckCause::BadName,
    ),
    (
        b"app a A000000100\nSESSION x.size 1\nend\n",
        2,
        DeckCause::BadName,
    ),
    (
        b"app a A000000100\nPUBLIC x: 0 1\nend\n",
        2,
        DeckCause::BadName,
    ),
    (
        b"app a A000000100\nCONST SB 1\nend\n",
        2,
        DeckCause::BadName,
    ),
    (
        b"app a A000000100\nCONST ALL 1\nend\n",
        2,
        DeckCause::BadName,
    ),
    (
        b"app a A000000100\nCONST xxxxxxxxxxxxxxxxxxxxxxxxxxxxxxxxx 1\nend\n",
        2,
        DeckCause::BadName,
    ),
];

#[test]
fn bad_names(rt: HostRuntime) {
    assert_eq!(rt; first_unmade(rt.alloc(), BAD_NAMES_MADE), None);
    assert_eq!(rt; first_unrefused(rt.alloc(), BAD_NAMES_REFUSED), None);
}

const BAD_BYTES_AND_NUMBERS: &[(&[u8], u32, DeckCause)] = &[
    (
        b"app a A000000100\nSTATIC x 1 000\nend\n",
        2,
        DeckCause::BadHex,
    ),
    (
        b"app a A000000100\nSTATIC x 1 0G\nend\n",
        2,
        DeckCause::BadHex,
    ),
    (
        b"app a A000000100\nSTATIC x 0x1\nend\n",
        2,
        DeckCause::BadNumber,
    ),
    (
        b"app a A000000100\nSESSION x -1\nend\n",
        2,
        DeckCause::BadNumber,
    ),
    (
        b"app a A000000100\nPUBLIC x -1 1\nend\n",
        2,
        DeckCause::BadNumber,
    ),
    (
        b"app a A000000100\nCONST x +1\nend\n",
        2,
        DeckCause::BadNumber,
    ),
    (
        b"app a A000000100\nCONST x 0x00001\nend\n",
        2,
        DeckCause::BadNumber,
    ),
    (
        b"app a A000000100\nCONST x -0x1\nend\n",
        2,
        DeckCause::BadNumber,
    ),
    (
        b"app a A000000100\nCONST y 1\nCONST x y\nend\n",
        3,
        DeckCause::BadNumber,
    ),
];

#[test]
fn bad_bytes_and_numbers(rt: HostRuntime) {
    assert_eq!(rt; first_unrefused(rt.alloc(), BAD_BYTES_AND_NUMBERS), None);
}

const OUT_OF_RANGE_MADE: &[(&[u8], &[u8])] = &[
    (
        b"app a A000000100\nSTATIC x 4095\nSTATIC y 1\nend\nload a",
        b"app a A000000100\n\n\nend\nload a 4096 0",
    ),
    (
        b"app a A000000100\nSESSION x 255\nSESSION y 1\nend\nload a",
        b"app a A000000100\n\n\nend\nload a 0 256",
    ),
    (
        b"app a A000000100\nSTATIC x 4096\nSESSION y 256\nend\nload a",
        b"app a A000000100\n\n\nend\nload a 4096 256",
    ),
    (
        b"app a A000000100\nPUBLIC x 1040 1\nPUBLIC y 0 1041\nend\n",
        b"app a A000000100\n\n\nend\n",
    ),
];

const OUT_OF_RANGE_REFUSED: &[(&[u8], u32, DeckCause)] = &[
    (
        b"app a A000000100\nSTATIC x 0\nend\n",
        2,
        DeckCause::OutOfRange,
    ),
    (
        b"app a A000000100\nSTATIC x 4095\nSTATIC y 2\nend\n",
        3,
        DeckCause::OutOfRange,
    ),
    (
        b"app a A000000100\nSTATIC x 4096\nSTATIC y 1\nend\n",
        3,
        DeckCause::OutOfRange,
    ),
    (
        b"app a A000000100\nSESSION x 0\nend\n",
        2,
        DeckCause::OutOfRange,
    ),
    (
        b"app a A000000100\nSESSION x 255\nSESSION y 2\nend\n",
        3,
        DeckCause::OutOfRange,
    ),
    (
        b"app a A000000100\nPUBLIC x 0 0\nend\n",
        2,
        DeckCause::OutOfRange,
    ),
    (
        b"app a A000000100\nPUBLIC x 1040 2\nend\n",
        2,
        DeckCause::OutOfRange,
    ),
    (
        b"app a A000000100\nSTATIC x 2 00\nend\n",
        2,
        DeckCause::OutOfRange,
    ),
    (
        b"app a A000000100\nSTATIC x 2 000000\nend\n",
        2,
        DeckCause::OutOfRange,
    ),
    (
        b"app a A000000100\nCONST x -32769\nend\n",
        2,
        DeckCause::OutOfRange,
    ),
    (
        b"app a A000000100\nCONST x 65536\nend\n",
        2,
        DeckCause::OutOfRange,
    ),
    (
        b"app a A000000100\nSTATIC x 99999999999999999999\nend\n",
        2,
        DeckCause::OutOfRange,
    ),
];

#[test]
fn out_of_range(rt: HostRuntime) {
    assert_eq!(rt; first_unmade(rt.alloc(), OUT_OF_RANGE_MADE), None);
    assert_eq!(rt; first_unrefused(rt.alloc(), OUT_OF_RANGE_REFUSED), None);
}

const NAMES_TWICE_MADE: &[(&[u8], &[u8])] = &[(
    b"app a A000000100\nSTATIC x 1\nx: LOAD x\nend\n",
    b"app a A000000100\n\nx: LOAD SB[0],1\nend\n",
)];

const NAMES_TWICE_REFUSED: &[(&[u8], u32, DeckCause)] = &[
    (
        b"app a A000000100\nSTATIC x 1\nSESSION x 1\nend\n",
        3,
        DeckCause::NameTwice,
    ),
    (
        b"app a A000000100\nCONST x 1\nPUBLIC x 0 1\nend\n",
        3,
        DeckCause::NameTwice,
    ),
    (
        b"app a A000000100\nCONST Lc 1\nend\n",
        2,
        DeckCause::NameTwice,
    ),
];

#[test]
fn names_twice(rt: HostRuntime) {
    assert_eq!(rt; first_unmade(rt.alloc(), NAMES_TWICE_MADE), None);
    assert_eq!(rt; first_unrefused(rt.alloc(), NAMES_TWICE_REFUSED), None);
}

const ORDER_OF_CAUSES: &[(&[u8], u32, DeckCause)] = &[
    (
        b"app a A000000100\nDATA 00\nSTATIC 1x y 0G\nend\n",
        3,
        DeckCause::BadLine,
    ),
    (
        b"app a A000000100\nSTATIC SB y 0G\nend\n",
        2,
        DeckCause::BadName,
    ),
    (
        b"app a A000000100\nSTATIC CLA y 0G\nend\n",
        2,
        DeckCause::BadHex,
    ),
    (
        b"app a A000000100\nPUBLIC CLA 2000 y\nend\n",
        2,
        DeckCause::BadNumber,
    ),
    (
        b"app a A000000100\nSTATIC CLA 0\nend\n",
        2,
        DeckCause::OutOfRange,
    ),
    (
        b"app a A000000100\nSTATIC CLA 1 00\nend\n",
        2,
        DeckCause::NameTwice,
    ),
    (
        b"app a A000000100\nCONST x 65536\nSTATIC 1x 1\nend\nload b\n",
        2,
        DeckCause::OutOfRange,
    ),
];

#[test]
fn order_of_causes(rt: HostRuntime) {
    assert_eq!(rt; first_unrefused(rt.alloc(), ORDER_OF_CAUSES), None);
}

const BEYOND_THE_SIZE_MADE: &[(&[u8], &[u8])] = &[
    (
        b"app a A000000100\nPUBLIC x 3 2\n LOAD x+1\nend\n",
        b"app a A000000100\n\n LOAD PB[4],1\nend\n",
    ),
    (
        b"app a A000000100\nPUBLIC x 3 2\n JUMP EQ,x+2\nend\n",
        b"app a A000000100\n\n JUMP EQ,x+2\nend\n",
    ),
    (
        b"app a A000000100\nPUBLIC x 3 2\n NOP ; x+2\nend\n",
        b"app a A000000100\n\n NOP ; x+2\nend\n",
    ),
];

const BEYOND_THE_SIZE_REFUSED: &[(&[u8], u32, DeckCause)] = &[
    (
        b"app a A000000100\nPUBLIC x 3 2\n LOAD x+2\nend\n",
        3,
        DeckCause::OutOfRange,
    ),
    (
        b"app a A000000100\nPUBLIC x 3 2\n NOP\n SETB 1,x+9\nend\n",
        4,
        DeckCause::OutOfRange,
    ),
    (
        b"app a A000000100\n LOAD CLA+1\nend\n",
        2,
        DeckCause::OutOfRange,
    ),
];

#[test]
fn beyond_the_size(rt: HostRuntime) {
    assert_eq!(rt; first_unmade(rt.alloc(), BEYOND_THE_SIZE_MADE), None);
    assert_eq!(rt; first_unrefused(rt.alloc(), BEYOND_THE_SIZE_REFUSED), None);
}

const UNKNOWN_NAMES_MADE: &[(&[u8], &[u8])] = &[(b"load a 1 2\n", b"load a 1 2\n")];

const UNKNOWN_NAMES_REFUSED: &[(&[u8], u32, DeckCause)] = &[
    (b"load a\n", 1, DeckCause::UnknownName),
    (
        b"load a\napp a A000000100\nend\n",
        1,
        DeckCause::UnknownName,
    ),
    (b"unit a 00\nload a\n", 2, DeckCause::UnknownName),
];

#[test]
fn unknown_names(rt: HostRuntime) {
    assert_eq!(rt; first_unmade(rt.alloc(), UNKNOWN_NAMES_MADE), None);
    assert_eq!(rt; first_unrefused(rt.alloc(), UNKNOWN_NAMES_REFUSED), None);
}

const BAD_COMMANDS_MADE: &[(&[u8], &[u8])] = &[(
    b"apdu 80400000 (000000000000000000000000000000000000000000000000000000000000000000000000000000000000000000000000000000000000000000000000000000000000000000000000000000000000000000000000000000000000000000000000000000000000000000000000000000000000000000000000000000000000000000000000000000000000000000000000000000000000000000000000000000000000000000000000000000000000000000000000000000000000000000000000000000000000000000000000000000000000000000000000000000000000000000000000000000000000000000000000000000000000000000000000000000)\n",
    b"apdu 80400000FF000000000000000000000000000000000000000000000000000000000000000000000000000000000000000000000000000000000000000000000000000000000000000000000000000000000000000000000000000000000000000000000000000000000000000000000000000000000000000000000000000000000000000000000000000000000000000000000000000000000000000000000000000000000000000000000000000000000000000000000000000000000000000000000000000000000000000000000000000000000000000000000000000000000000000000000000000000000000000000000000000000000000000000000000000000\n",
)];

const BAD_COMMANDS_REFUSED: &[(&[u8], u32, DeckCause)] = &[
    (b"apdu 80 4\n", 1, DeckCause::BadHex),
    (b"apdu 8\n", 1, DeckCause::BadHex),
    (b"apdu 80400000 ()\n", 1, DeckCause::BadHex),
    (b"apdu 80400000 (0)\n", 1, DeckCause::BadHex),
    (b"apdu 80400000 (00\n", 1, DeckCause::BadHex),
    (b"apdu 80400000 00)\n", 1, DeckCause::BadHex),
    (b"apdu 80400000 ((00))\n", 1, DeckCause::BadHex),
    (
        b"apdu 80400000 (00000000000000000000000000000000000000000000000000000000000000000000000000000000000000000000000000000000000000000000000000000000000000000000000000000000000000000000000000000000000000000000000000000000000000000000000000000000000000000000000000000000000000000000000000000000000000000000000000000000000000000000000000000000000000000000000000000000000000000000000000000000000000000000000000000000000000000000000000000000000000000000000000000000000000000000000000000000000000000000000000000000000000000000000000000000)\n",
        1,
        DeckCause::OutOfRange,
    ),
    (
        b"apdu (00000000000000000000000000000000000000000000000000000000000000000000000000000000000000000000000000000000000000000000000000000000000000000000000000000000000000000000000000000000000000000000000000000000000000000000000000000000000000000000000000000000000000000000000000000000000000000000000000000000000000000000000000000000000000000000000000000000000000000000000000000000000000000000000000000000000000000000000000000000000000000000000000000000000000000000000000000000000000000000000000000000000000000000000000000000) 0\n",
        1,
        DeckCause::OutOfRange,
    ),
];

#[test]
fn bad_commands(rt: HostRuntime) {
    assert_eq!(rt; first_unmade(rt.alloc(), BAD_COMMANDS_MADE), None);
    assert_eq!(rt; first_unrefused(rt.alloc(), BAD_COMMANDS_REFUSED), None);
}
