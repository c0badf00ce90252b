ghost use Rattle.std.specs.Prelude.{◌≡◌, false, Some, IfOk, IfErr};
ghost use Rattle.model_card.specs.Manager.{first_status};
ghost use Rattle.mc_apdu.specs.Command.{parts_of};
ghost use Rattle.mc_manager.specs.Calls.{CanDelete, delete_causes, has_selected};
ghost use Rattle.mc_manager.specs.Status.{word_of};

use crate::header::parameters;
use crate::names::named;
use crate::selection::Selection;
use crate::status::Status;
use mc_apdu::Apdu;
use mc_bank::{Bank, Slot};

/// Returns the slot of the application that DELETE removes.
///
/// # Errors
///
/// Returns the status of its first refusal.
pub fn deletion<B: Bank>(
    selected: &Option<Selection>,
    bank: &B,
    apdu: &Apdu,
) -> Result<Slot, Status>
    requires going { (B.state bank.now).stopped ≡ false }
    ensures deleted { IfOk result (λ slot. CanDelete (B.state bank.now).apps (B.named bank.now) selected.now
        (parts_of apdu.now) slot) }
    ensures refused { IfErr result (λ e. first_status
        (delete_causes (B.state bank.now).apps selected.now (parts_of apdu.now)) ≡ Some (word_of e)) }
{
    if parameters(apdu) != 0 {
        return Err(Status::WrongParameters);
    }
    if apdu.body.is_empty() {
        return Err(Status::WrongLength);
    }
    let Some(found) = named(bank, apdu.body) else {
        return Err(Status::NotFound);
    };
    if is_selected(selected, apdu.body) {
        return Err(Status::Conditions);
    }
    Ok(found.slot)
}

// Whether the application of this name is selected.
fn is_selected(selected: &Option<Selection>, name: &[u8]) -> bool
    ensures { result ≡ has_selected selected.now name.now }
{
    match selected {
        Some(selection) => selection.aid.bytes() == name,
        None => false,
    }
}
