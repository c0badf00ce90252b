use mc_deck::{DeckCause, DeckRefusal, Line, generate, read_deck};
use std::test::Fail;

const COUNTER: &[u8] =
    b"format\npower\nunit counter 0000000000000000000FB902000039020000460200000600020000000961074F05A00000000100096F078405A00000000100000000\nload counter 2 0\nselect A000000001\n\n# twice\napdu 8001000002\napdu 8001000002\n";

// Seven statements with the numbers of their lines, between which two lines are skipped.
#[test]
fn counter(rt: HostRuntime) -> Result<(), Fail> {
    let deck = read_deck(rt.alloc(), COUNTER)?;
    assert_eq!(rt; deck.len(), 7);
    if deck.len() == 7 {
        assert!(rt; matches!(deck.line(0), (1, Line::Format)));
        assert!(rt; matches!(deck.line(1), (2, Line::Power)));
        assert!(rt; matches!(deck.line(2), (3, Line::Named)));
        assert!(rt;
            matches!(
                deck.line(3),
                (
                    4,
                    Line::Load {
                        fixed: 2,
                        session: 0,
                        ..
                    }
                )
            )
        );
        assert!(rt; matches!(deck.line(4), (5, Line::Select(_))));
        assert!(rt;
            matches!(
                deck.line(5),
                (8, Line::Apdu([0x80, 0x01, 0x00, 0x00, 0x02]))
            )
        );
        assert!(rt;
            matches!(
                deck.line(6),
                (9, Line::Apdu([0x80, 0x01, 0x00, 0x00, 0x02]))
            )
        );
    }
    Ok(())
}

// The first refused line, and its cause.
#[test]
fn refused(rt: HostRuntime) {
    let deck = read_deck(rt.alloc(), b"format\npower\nload counter 2 0\n");
    assert!(rt; matches!(deck, Err(DeckRefusal::At(3, DeckCause::UnknownName))));
}

// A generated deck has 4,012 lines: it formats and powers a card first, and shows three applications last.
#[test]
fn generated(rt: HostRuntime) -> Result<(), Fail> {
    let deck = generate(rt.alloc(), 1)?;
    assert_eq!(rt; deck.len(), 4012);
    if deck.len() == 4012 {
        assert!(rt; matches!(deck.line(0), (1, Line::Format)));
        assert!(rt; matches!(deck.line(1), (2, Line::Power)));
        for i in 4009..4012 {
            assert!(rt; matches!(deck.line(i), (_, Line::Dump(_))));
        }
    }
    Ok(())
}
