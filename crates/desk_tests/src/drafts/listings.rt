// Listings.
use crate::drafts::{lists, refuses_desk};
use mc_deck::model_play::DeckCause;

#[test]
fn sections(rt: HostRuntime) {
    assert!(rt;
        lists(
            rt.alloc(),
            b"app a A000000100\nDATA 0102\n\nl:\n BYTE 255 ; raw\n\tl2: NOP \t; c\nend\napp b a000000101\nSESSION s 2\n EXIT\nend\n",
            b"app a A000000100 code 2 static 2 session 0\n0000 FF 5 BYTE 255\n0001 00 6 l2: NOP\napp b a000000101 code 1 static 0 session 2\n0000 04 10 EXIT\n"
        )
    );
    assert!(rt; lists(rt.alloc(), b"format\n", b""));
}

#[test]
fn refused(rt: HostRuntime) {
    assert!(rt;
        refuses_desk(
            rt.alloc(),
            b"app a A000000100\n FOO\nCONST 1x 1\nend\n",
            3,
            DeckCause::BadName
        )
    );
    assert!(rt; refuses_desk(rt.alloc(), b"app a A000000100\n NOP\n", 1, DeckCause::NoEnd));
}
