ghost use Rattle.std.specs.Prelude.{◌≡◌, false, true, None, IsSome, IfSome};
ghost use Rattle.mc_manager.specs.ManagerState.{view_of, ManagerFits};

use hex::decode;
use mc_apdu::{Reply, parse};
use mc_bank::{Bank, Slot};
use mc_manager::{Manager, Routed};
use mc_words::{Aid, Steps};
use std::alloc::Global;
use std::sync::ledger::Ledger;

/// The result that a command is to have.
#[derive(Clone, Copy, Debug, PartialEq, Eq)]
pub enum Want {
    /// It is not a command.
    WrongLength,
    /// A status word without data.
    Status(u16),
    /// A new selection, and 9000 after these data.
    Fresh(&'static [u8]),
    /// It is passed to the selected application.
    Pass,
}

/// Returns whether a command has the result that it is to have.
pub fn comes_to<B: Bank, L: Ledger>(
    manager: &mut Manager,
    bank: &mut B,
    steps: &mut Steps<L>,
    command: &[u8],
    want: Want,
) -> bool
    requires going { (B.state bank.old).stopped ≡ false }
    requires fits { ManagerFits (view_of B.Bank bank.old) manager.old }
    ensures going { result ≡ true → (B.state bank.new).stopped ≡ false }
    ensures fits { result ≡ true → ManagerFits (view_of B.Bank bank.new) manager.new }
{
    let Ok(apdu) = parse(command) else {
        return want == Want::WrongLength;
    };
    match manager.command(bank, &apdu, steps) {
        Ok(Routed::Answer(reply)) => is_answer(&reply, want),
        Ok(Routed::Fresh(_, reply)) => is_fresh(&reply, want),
        Ok(Routed::Pass(_)) => want == Want::Pass,
        Err(_) => false,
    }
}

fn is_answer(reply: &Reply, want: Want) -> bool {
    match want {
        Want::Status(sw) => reply.sw == sw && reply.body.is_empty(),
        _ => false,
    }
}

fn is_fresh(reply: &Reply, want: Want) -> bool {
    match want {
        Want::Fresh(bytes) => reply.sw == 0x9000 && reply.body.as_slice() == bytes,
        _ => false,
    }
}

/// Returns the number of the first row whose command, in hexadecimal, does not have the result that it is to
/// have, or `None` if there is none.
pub fn first_wrong<B: Bank, L: Ledger>(
    alloc: Global,
    manager: &mut Manager,
    bank: &mut B,
    steps: &mut Steps<L>,
    rows: &[(&'static str, Want)],
) -> Option<usize>
    requires going { (B.state bank.old).stopped ≡ false }
    requires fits { ManagerFits (view_of B.Bank bank.old) manager.old }
    ensures going { result ≡ None → (B.state bank.new).stopped ≡ false }
    ensures fits { result ≡ None → ManagerFits (view_of B.Bank bank.new) manager.new }
{
    for (i, (text, want)) in rows.iter().enumerate() {
        let Ok(command) = decode(alloc, *text) else {
            return Some(i);
        };
        if !comes_to(manager, bank, steps, command.as_slice(), *want) {
            return Some(i);
        }
    }
    None
}

/// Returns the static bytes of an application that has eight, or `None`.
pub fn fixed_of<B: Bank>(bank: &B, name: &[u8]) -> Option<[u8; 8]>
    requires { (B.state bank.now).stopped ≡ false }
{
    let slot = slot_of(bank, name)?;
    if bank.facts(slot).sizes.fixed != 8 {
        return None;
    }
    let mut fixed = [0xFF; 8];
    bank.fixed(slot, 0, &mut fixed);
    Some(fixed)
}

/// Returns the access list of an application, or `None` if it is not on the card.
pub fn deny_of<B: Bank>(bank: &B, name: &[u8]) -> Option<u16>
    requires { (B.state bank.now).stopped ≡ false }
{
    Some(bank.facts(slot_of(bank, name)?).sizes.deny)
}

/// Returns whether an application has this code.
pub fn has_code<B: Bank>(bank: &B, name: &[u8], code: &[u8; 1024]) -> bool
    requires { (B.state bank.now).stopped ≡ false }
{
    let Some(slot) = slot_of(bank, name) else {
        return false;
    };
    if bank.facts(slot).sizes.code != 1024 {
        return false;
    }
    let mut found = [0; 1024];
    bank.code(slot, 0, &mut found);
    found == *code
}

fn slot_of<B: Bank>(bank: &B, name: &[u8]) -> Option<Slot>
    requires { (B.state bank.now).stopped ≡ false }
    ensures { IfSome result (λ slot. IsSome (B.named bank.now slot)) }
{
    bank.find(&Aid::new(name)?)
}
