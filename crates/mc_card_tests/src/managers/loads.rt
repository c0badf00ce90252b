ghost use Rattle.std.specs.Prelude.{◌≡◌, ◌<◌, ◌≤◌, false, true, length};
ghost use Rattle.model_device.specs.Limits.{most_code};
ghost use Rattle.mc_manager.specs.ManagerState.{view_of, ManagerFits};

use crate::managers::rig::{Want, comes_to};
use arrayvec::ArrayVec;
use mc_bank::Bank;
use mc_manager::Manager;
use mc_words::Steps;
use std::sync::ledger::Ledger;

const DONE: Want = Want::Status(0x9000);

// A command of class BE, with its data in the extended case.
fn command(ins: u8, at: u16, data: &[u8]) -> ArrayVec<u8, 1031> {
    let [high, low] = at.to_be_bytes();
    let mut bytes = ArrayVec::new();
    let _header = bytes.try_extend_from_slice(&[0xBE, ins, high, low]);
    if !data.is_empty() && data.len() <= 1024 {
        let [high, low] = (data.len() as u16).to_be_bytes();
        let _len = bytes.try_extend_from_slice(&[0, high, low]);
        let _data = bytes.try_extend_from_slice(data);
    }
    bytes
}

// The OPEN of an application with eight static bytes, and DIR and FCI of nine.
fn open(code: u16, init: u8) -> ArrayVec<u8, 1031> {
    let [high, low] = code.to_be_bytes();
    command(0x12, 0, &[high, low, 0, 8, 0, init, 0, 0, 0, 9, 0, 9])
}

/// Returns whether an application whose name is A0000000 and one byte is loaded, each section in pieces of
/// this length.
pub fn loads<B: Bank, L: Ledger>(
    manager: &mut Manager,
    bank: &mut B,
    steps: &mut Steps<L>,
    name: u8,
    code: &[u8],
    init: &[u8],
    piece: usize,
) -> bool
    requires going { (B.state bank.old).stopped ≡ false }
    requires fits { ManagerFits (view_of B.Bank bank.old) manager.old }
    requires code { length code.now ≤ most_code }
    requires init { length init.now ≤ 8 }
    requires piece { 0 < piece }
    ensures going { result ≡ true → (B.state bank.new).stopped ≡ false }
    ensures fits { result ≡ true → ManagerFits (view_of B.Bank bank.new) manager.new }
{
    let open = open(code.len() as u16, init.len() as u8);
    let dir = [0x61, 7, 0x4F, 5, 0xA0, 0, 0, 0, name];
    let fci = [0x6F, 7, 0x84, 5, 0xA0, 0, 0, 0, name];
    comes_to(manager, bank, steps, open.as_slice(), DONE)
        && fills(manager, bank, steps, 0x24, code, piece)
        && fills(manager, bank, steps, 0x26, init, piece)
        && fills(manager, bank, steps, 0x20, &dir, piece)
        && fills(manager, bank, steps, 0x22, &fci, piece)
        && comes_to(manager, bank, steps, command(0x16, 0, &[]).as_slice(), DONE)
}

// Whether a section is loaded by the commands with this INS, in pieces of this length.
fn fills<B: Bank, L: Ledger>(
    manager: &mut Manager,
    bank: &mut B,
    steps: &mut Steps<L>,
    ins: u8,
    section: &[u8],
    piece: usize,
) -> bool
    requires going { (B.state bank.old).stopped ≡ false }
    requires fits { ManagerFits (view_of B.Bank bank.old) manager.old }
    requires section { length section.now ≤ most_code }
    requires piece { 0 < piece }
    ensures going { result ≡ true → (B.state bank.new).stopped ≡ false }
    ensures fits { result ≡ true → ManagerFits (view_of B.Bank bank.new) manager.new }
{
    let mut at = 0;
    for bytes in section.chunks(piece) {
        if !comes_to(
            manager,
            bank,
            steps,
            command(ins, at, bytes).as_slice(),
            DONE,
        ) {
            return false;
        }
        at = at.saturating_add(bytes.len() as u16);
    }
    true
}

/// Returns whether a card of 32 applications has no room for one more until one of them, A000000009, is
/// deleted.
pub fn is_full<B: Bank, L: Ledger>(
    manager: &mut Manager,
    bank: &mut B,
    steps: &mut Steps<L>,
) -> bool
    requires going { (B.state bank.old).stopped ≡ false }
    requires fits { ManagerFits (view_of B.Bank bank.old) manager.old }
{
    let delete = command(0x18, 0, &[0xA0, 0, 0, 0, 9]);
    comes_to(
        manager,
        bank,
        steps,
        open(0, 0).as_slice(),
        Want::Status(0x6A80),
    ) && comes_to(
        manager,
        bank,
        steps,
        open(1, 0).as_slice(),
        Want::Status(0x6A84),
    ) && comes_to(manager, bank, steps, delete.as_slice(), DONE)
        && comes_to(manager, bank, steps, open(1, 0).as_slice(), DONE)
}
