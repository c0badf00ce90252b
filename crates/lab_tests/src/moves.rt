use lab_deck::{names_application, read_moves};
use mc_deck::{DeckCause, DeckRefusal, Line};
use std::test::Fail;

// The lines of a section are assembly, and its own first word is no rule.
#[test]
fn rules_name_an_application_outside_of_sections(rt: HostRuntime) -> Result<(), Fail> {
    assert!(rt; names_application(b"power\n#@ app purse\n"));
    assert!(rt; !names_application(b"app purse A000000001 0 0\n#@ app purse\nend\n"));
    assert!(rt; !names_application(b"#@ move power\n#@ allow app 1\n"));
    Ok(())
}

// Moves are read among other rules, each as the line of a deck that it is.
#[test]
fn moves_are_read_in_order(rt: HostRuntime) -> Result<(), Fail> {
    let moves = read_moves(
        rt.alloc(),
        b"#@ move apdu 8001000000\n#@ app purse\n#@ move power\n",
    )?;
    assert_eq!(rt; moves.len(), 2);
    assert_eq!(rt; moves[0].text, b"apdu 8001000000".as_slice());
    assert_eq!(rt; moves[0].line(), Line::Apdu(&[0x80, 1, 0, 0, 0]));
    assert_eq!(rt; moves[1].line(), Line::Power);
    Ok(())
}

// Of two statements that are no moves, the first is refused with the number of its line.
#[test]
fn first_line_that_is_no_move_is_refused(rt: HostRuntime) -> Result<(), Fail> {
    let text = b"#@ move power\n#@ move\n#@ move cut 1\n";
    match read_moves(rt.alloc(), text) {
        Ok(_) => assert!(rt; false),
        Err(refusal) => assert_eq!(rt; refusal, DeckRefusal::At(2, DeckCause::BadLine)),
    }
    Ok(())
}
