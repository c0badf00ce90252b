ghost use Rattle.std.specs.Prelude.{◌≡◌, ◌<◌};

use crate::managers::loads::{is_full, loads};
use crate::managers::rig::{deny_of, first_wrong, fixed_of, has_code};
use crate::managers::rows::ROWS;
use mc_bank::{Bank, MemBank};
use mc_manager::Manager;
use mc_words::{NoMemory, Steps};
use std::alloc::Global;
use std::marker::Brand;
use std::sync::ledger::{Blank, Ledger};
use std::test::Fail;

// The result of a session: its first wrong row, the number of applications, an access list, and static bytes.
#[derive(Debug, PartialEq, Drop)]
struct Session {
    wrong: Option<usize>,
    count: u16,
    deny: Option<u16>,
    empty: Option<[u8; 8]>,
    begun: Option<[u8; 8]>,
}

fn played<L: Ledger>(alloc: Global, blank: Blank) -> Result<Session, NoMemory>
    requires name { blank.name ≡ L.name }
    requires parts { blank.parts ≡ L.parts }
    requires some { 0 < blank.parts }
{
    let mut bank = MemBank::new(alloc)?;
    let mut manager = Manager::new();
    let mut steps = Steps::<L>::new(blank);
    let wrong = first_wrong(alloc, &mut manager, &mut bank, &mut steps, ROWS);
    Ok(Session {
        wrong,
        count: bank.count(),
        deny: deny_of(&bank, b"\xA0\x00\x00\x00\x03"),
        empty: fixed_of(&bank, b"\xA0\x00\x00\x00\x07"),
        begun: fixed_of(&bank, b"\xA0\x00\x00\x00\x08"),
    })
}

// Each row of the table, and the card after it.
#[test]
fn table(rt: HostRuntime) -> Result<(), Fail> {
    assert_eq!(rt;
        played::<Brand>(rt.alloc(), Blank::new(1))?,
        Session {
            wrong: None,
            count: 3,
            deny: Some(2),
            empty: Some([0; 8]),
            begun: Some([0x11, 0x22, 0, 0, 0, 0, 0, 0]),
        }
    );
    Ok(())
}

// The name of the first application of 32 that is not loaded as it was sent, or 33 if all are and one more
// has no room until one is deleted.
fn first_missing<L: Ledger>(alloc: Global, blank: Blank) -> Result<u8, NoMemory>
    requires name { blank.name ≡ L.name }
    requires parts { blank.parts ≡ L.parts }
    requires some { 0 < blank.parts }
{
    let mut bank = MemBank::new(alloc)?;
    let mut manager = Manager::new();
    let mut steps = Steps::<L>::new(blank);
    let mut code = [0; 1024];
    for at in 0..1024 {
        code[at] = (at % 251) as u8;
    }
    for (name, piece) in [(1, 1024), (2, 1), (3, 7)] {
        let data = [name, 2, 3];
        if !loads(
            &mut manager,
            &mut bank,
            &mut steps,
            name,
            &code,
            &data,
            piece,
        ) {
            return Ok(name);
        }
        let aid = [0xA0, 0, 0, 0, name];
        let fixed = [name, 2, 3, 0, 0, 0, 0, 0];
        if !has_code(&bank, &aid, &code) || fixed_of(&bank, &aid) != Some(fixed) {
            return Ok(name);
        }
    }
    for name in 4..33 {
        if !loads(&mut manager, &mut bank, &mut steps, name, &[4], &[], 1) {
            return Ok(name);
        }
    }
    let full = is_full(&mut manager, &mut bank, &mut steps);
    Ok(if full { 33 } else { 34 })
}

// Sections in one piece, in bytes and in pieces of seven; 32 applications, and no more.
#[test]
fn pieces_and_room(rt: HostRuntime) -> Result<(), Fail> {
    assert_eq!(rt; first_missing::<Brand>(rt.alloc(), Blank::new(1))?, 33);
    Ok(())
}
