use lab_deck::{ApplicationRefusal, read_application};
use mc_deck::{DeckCause, read_deck};
use prove_rules::RuleCause;
use std::alloc::Global;
use std::test::Fail;

// Why the rules and the moves of a text's deck are refused, or `None` if they are read or the text is no deck.
fn refusal_of(alloc: Global, text: &[u8]) -> Option<ApplicationRefusal> {
    match read_deck(alloc, text) {
        Ok(deck) => {
            match read_application(alloc, &deck, text) {
                Ok(_) => None,
                Err(refusal) => Some(refusal),
            }
        }
        Err(_) => None,
    }
}

// A deck with a move, a range and an application of two static bytes.
#[test]
fn application_is_read(rt: HostRuntime) -> Result<(), Fail> {
    let text =
        b"power\napp a A000000001\nEXIT\nend\nload a 2 1\n#@ app a\n#@ always SB[1] 0 9\n#@ move power\n";
    let deck = read_deck(rt.alloc(), text)?;
    match read_application(rt.alloc(), &deck, text) {
        Ok(application) => {
            assert_eq!(rt; application.aid.bytes(), [0xA0, 0, 0, 0, 1].as_slice());
            assert_eq!(rt; application.moves.rules.moves.len(), 1);
            assert_eq!(rt; application.rules.always.len(), 1);
            assert_eq!(rt; application.rules.load.fixed, 2);
        }
        Err(_) => assert!(rt; false),
    }
    Ok(())
}

// Of a move and a rule that are refused, the first line counts; no application at all counts after the moves.
#[test]
fn first_refused_line_counts(rt: HostRuntime) -> Result<(), Fail> {
    let bad = RuleCause::Deck(DeckCause::BadLine);
    let early_move = refusal_of(rt.alloc(), b"#@ move\n#@ allow\n");
    assert_eq!(rt; early_move, Some(ApplicationRefusal::Line(1, bad)));
    let early_rule = refusal_of(rt.alloc(), b"#@ move power\n#@ allow\n#@ move\n");
    assert_eq!(rt; early_rule, Some(ApplicationRefusal::Line(2, bad)));
    let unnamed = refusal_of(rt.alloc(), b"#@ move power\n#@ allow n 1\n");
    assert_eq!(rt;
        unnamed,
        Some(ApplicationRefusal::Line(0, RuleCause::NoApplication))
    );
    let unnamed_move = refusal_of(rt.alloc(), b"#@ allow n 1\n#@ move\n");
    assert_eq!(rt; unnamed_move, Some(ApplicationRefusal::Line(2, bad)));
    Ok(())
}

// A deck without a move, and one without a rule that can be broken.
#[test]
fn deck_needs_a_move_and_a_rule(rt: HostRuntime) -> Result<(), Fail> {
    let still = b"power\napp a A000000001\nEXIT\nend\nload a 2 1\n#@ app a\n#@ never abend\n";
    assert_eq!(rt;
        refusal_of(rt.alloc(), still),
        Some(ApplicationRefusal::NoMove)
    );
    let free =
        b"power\napp a A000000001\nEXIT\nend\nload a 2 1\n#@ app a\n#@ allow n 1\n#@ move power\n";
    assert_eq!(rt;
        refusal_of(rt.alloc(), free),
        Some(ApplicationRefusal::NoRule)
    );
    Ok(())
}
