ghost use Rattle.std.specs.Prelude.{◌≡◌, ◌+◌, ◌≤◌, false, Some, IfOk, IfErr};
ghost use Rattle.model_card.specs.Manager.{first_status, open_refusals};
ghost use Rattle.mc_apdu.specs.Command.{parts_of};
ghost use Rattle.mc_manager.specs.ManagerState.{view_of};
ghost use Rattle.mc_manager.specs.Calls.{CanOpen};
ghost use Rattle.mc_manager.specs.Status.{word_of};

use crate::header::{fits_limits, parameters, sizes_in};
use crate::load::Load;
use crate::status::Status;
use mc_apdu::Apdu;
use mc_bank::Bank;
use mc_words::Steps;
use std::sync::ledger::Ledger;

/// The bits of an access list.
const ACCESS_LIST: u16 = 0x000F;

/// Returns the load that OPEN opens.
///
/// # Errors
///
/// Returns the status of its first refusal.
pub fn open<B: Bank, L: Ledger>(bank: &B, apdu: &Apdu, steps: &mut Steps<L>) -> Result<Load, Status>
    requires going { (B.state bank.now).stopped ≡ false }
    ensures opened { IfOk result (λ load. CanOpen (view_of B.Bank bank.now)
        (parts_of apdu.now) load) }
    ensures refused { IfErr result (λ e. first_status
        (open_refusals (B.room bank.now) (B.state bank.now).apps (parts_of apdu.now)) ≡ Some (word_of e)) }
    ensures rises { steps.old ≤ steps.new }
    ensures ticks { steps.new ≤ steps.old + (B.state bank.now).ticks }
{
    if parameters(apdu) > ACCESS_LIST {
        return Err(Status::WrongParameters);
    }
    let Some(sizes) = sizes_in(apdu) else {
        return Err(Status::WrongLength);
    };
    if !fits_limits(&sizes) {
        return Err(Status::WrongData);
    }
    match bank.open(&sizes, steps) {
        Ok(site) => Ok(Load::new(site)),
        Err(_) => Err(Status::NoRoom),
    }
}
