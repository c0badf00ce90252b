// What ends lines.
use crate::drafts::{first_unmade, first_unrefused};
use mc_deck::model_play::DeckCause;

const LINE_ENDS: &[(&[u8], &[u8])] = &[
    (b"", b""),
    (b"\n\n\r\n", b"\n\n\r\n"),
    (
        b"app a A000000100\r\nSTATIC x 1 00\r\nSESSION y 1\r\n LOAD x\r\nend\r\nload a\r\nselect a\r\napdu 80 00\r\n",
        b"app a A000000100\r\nDATA 00\r\n\r\n LOAD SB[0],1\r\nend\r\nload a 1 1\r\nselect A000000100\r\napdu 8000\r\n",
    ),
    (
        b"app a A000000100\r\nSTATIC x 1\n LOAD x\r\nend\nload a",
        b"app a A000000100\r\n\n LOAD SB[0],1\r\nend\nload a 1 0",
    ),
    (
        b"app a A000000100\nSTATIC x 1\n LOAD x",
        b"app a A000000100\n\n LOAD SB[0],1",
    ),
];

#[test]
fn line_ends(rt: HostRuntime) {
    assert_eq!(rt; first_unmade(rt.alloc(), LINE_ENDS), None);
}

const OTHER_RETURNS_MADE: &[(&[u8], &[u8])] = &[(
    b"app a A000000100\nSTATIC x 1\n LOAD x\r\r\n LOAD \rx\nend\r\r\n",
    b"app a A000000100\n\n LOAD x\r\r\n LOAD \rx\nend\r\r\n",
)];

const OTHER_RETURNS_REFUSED: &[(&[u8], u32, DeckCause)] = &[
    (
        b"app a A000000100\nend\nload a\r",
        3,
        DeckCause::UnknownName,
    ),
    (
        b"app a A000000100\nSTATIC x 1\r\r\nend\n",
        2,
        DeckCause::BadNumber,
    ),
];

#[test]
fn other_returns(rt: HostRuntime) {
    assert_eq!(rt; first_unmade(rt.alloc(), OTHER_RETURNS_MADE), None);
    assert_eq!(rt; first_unrefused(rt.alloc(), OTHER_RETURNS_REFUSED), None);
}
