ghost use Rattle.std.specs.Prelude.{◌≡◌, false, take, Some, IsSome, IfOk, IfErr, []};
ghost use Rattle.model_card.specs.Manager.{first_status, select_refusals, select_body};
ghost use Rattle.mc_apdu.specs.Command.{parts_of};
ghost use Rattle.mc_bank.specs.Bank.{app_of};
ghost use Rattle.mc_manager.specs.CommandDue.{RepliesWith};
ghost use Rattle.mc_manager.specs.Calls.{CanSelect};
ghost use Rattle.mc_manager.specs.Status.{word_of};

use crate::names::named;
use crate::selection::Selection;
use crate::status::Status;
use arrayvec::ArrayVec;
use mc_apdu::{Apdu, Reply};
use mc_bank::{Bank, Slot};

/// Returns the application that SELECT selects.
///
/// # Errors
///
/// Returns the status of its first refusal.
pub fn selection<B: Bank>(bank: &B, apdu: &Apdu) -> Result<Selection, Status>
    requires going { (B.state bank.now).stopped ≡ false }
    ensures selected { IfOk result (λ s. CanSelect (B.state bank.now).apps (B.named bank.now) (parts_of apdu.now) s) }
    ensures refused { IfErr result (λ e. first_status (select_refusals (B.state bank.now).apps (parts_of apdu.now))
        ≡ Some (word_of e)) }
{
    if apdu.p2 != 0x00 && apdu.p2 != 0x0C {
        return Err(Status::WrongParameters);
    }
    if apdu.body.is_empty() {
        return Err(Status::WrongLength);
    }
    match named(bank, apdu.body) {
        Some(selection) => Ok(selection),
        None => Err(Status::NotFound),
    }
}

/// Writes to `reply` the reply to the SELECT of an application: with P2 00 the first bytes of its FCI.
pub fn say_selected<B: Bank>(bank: &B, slot: Slot, apdu: &Apdu, reply: &mut Reply)
    requires going { (B.state bank.now).stopped ≡ false }
    requires there { IsSome (B.named bank.now slot) }
    ensures { RepliesWith (select_body (parts_of apdu.now)
        (app_of (B.state bank.now).apps (B.named bank.now slot))) 0x9000
        reply.new }
{
    put_data(bank, slot, apdu, &mut reply.body);
    reply.sw = Status::Done.word();
}

// Writes the data of the reply: with P2 00 the first bytes of the FCI.
fn put_data<B: Bank>(bank: &B, slot: Slot, apdu: &Apdu, body: &mut ArrayVec<u8, 1024>)
    requires going { (B.state bank.now).stopped ≡ false }
    requires there { IsSome (B.named bank.now slot) }
    ensures { body.new.items ≡ select_body (parts_of apdu.now)
        (app_of (B.state bank.now).apps (B.named bank.now slot)) }
{
    body.clear();
    if apdu.p2 != 0x00 {
        return;
    }
    put_fci(bank, slot, apdu.le.unwrap_or(0), body);
}

// Appends the first bytes of the FCI, at most `most` of them.
#[tactic(auto, using(crate::proofs::SelectLemmas::take_least))]
fn put_fci<B: Bank>(bank: &B, slot: Slot, most: u16, body: &mut ArrayVec<u8, 1024>)
    requires going { (B.state bank.now).stopped ≡ false }
    requires there { IsSome (B.named bank.now slot) }
    requires empty { body.old.items ≡ [] }
    ensures { body.new.items ≡ take most (app_of (B.state bank.now).apps (B.named bank.now slot)).fci }
{
    let facts = bank.facts(slot);
    let len = most.min(facts.sizes.fci) as usize;
    let mut fci = [0; 128];
    bank.fci(slot, 0, &mut fci[..len]);
    let _room = body.try_extend_from_slice(&fci[..len]);
}
