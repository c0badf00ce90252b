// The source lines of places.
use crate::drafts::has_part;

#[test]
fn source_lines(rt: HostRuntime) {
    let draft =
        b"app a A000000100\n NOP\n POPB   ; nothing there\nend\nload a\nload a 0 0\nunit b 00000000000000000001250000000961074F05A00000000100096F078405A00000000100000000\nload b 0 0\n\n";
    assert!(rt; has_part(rt.alloc(), draft, 5, 0, b" ; 2 NOP"));
    assert!(rt; has_part(rt.alloc(), draft, 5, 1, b" ; 3 POPB"));
    assert!(rt; has_part(rt.alloc(), draft, 6, 1, b" ; 3 POPB"));
    assert!(rt; has_part(rt.alloc(), draft, 6, 2, b""));
    assert!(rt; has_part(rt.alloc(), draft, 8, 0, b""));
    assert!(rt; has_part(rt.alloc(), draft, 9, 0, b""));
}
