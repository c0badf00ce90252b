ghost use Rattle.std.specs.Prelude.{◌≡◌, ◌==◌, ◌&&◌, false, option_map, Some, Ok, IfOk, IfErr};
ghost use Rattle.std.specs.Option.{ForSome};
ghost use Rattle.model_card.specs.Manager.{create_refusals, first_status};
ghost use Rattle.mc_apdu.specs.Command.{parts_of};
ghost use Rattle.mc_bank.specs.Bank.{part_len};
ghost use Rattle.mc_manager.specs.ManagerState.{view_of, got_len, open_of, FitsLoad};
ghost use Rattle.mc_manager.specs.Load.{is_full};
ghost use Rattle.mc_manager.specs.Calls.{CanCreate};
ghost use Rattle.mc_manager.specs.Status.{word_of};

use crate::header::parameters;
use crate::load::Load;
use crate::status::Status;
use mc_apdu::Apdu;
use mc_bank::{Bank, Part};
use mc_unit::aid_of;
use mc_words::Aid;

/// Returns the name in the DIR record of the open load, which CREATE registers.
///
/// # Errors
///
/// Returns the status of its first refusal.
#[tactic(auto, using(crate::proofs::LoadLemmas::complete_full))]
pub fn creation<B: Bank>(load: &Option<Load>, bank: &B, apdu: &Apdu) -> Result<Aid, Status>
    requires going { (B.state bank.now).stopped ≡ false }
    requires fits { ForSome load.now (FitsLoad (view_of B.Bank bank.now)) }
    ensures created { IfOk result (λ aid. CanCreate (view_of B.Bank bank.now) load.now
        (parts_of apdu.now) aid) }
    ensures refused { IfErr result (λ e. first_status
        (create_refusals (B.state bank.now).apps (option_map (open_of (B.site_bytes bank.now)) load.now)
        (parts_of apdu.now)) ≡ Some (word_of e)) }
{
    if parameters(apdu) != 0 {
        return Err(Status::WrongParameters);
    }
    if !apdu.body.is_empty() {
        return Err(Status::WrongLength);
    }
    let Some(load) = load else {
        return Err(Status::Conditions);
    };
    if !is_full(load) {
        return Err(Status::Conditions);
    }
    let Ok(aid) = aid_of(load.dir()) else {
        return Err(Status::WrongData);
    };
    if bank.find(&aid).is_some() {
        return Err(Status::Exists);
    }
    Ok(aid)
}

// Whether each section has received all its bytes.
fn is_full(load: &Load) -> bool
    ensures { result ≡ is_full load.now }
{
    is_filled(load, Part::Code)
        && is_filled(load, Part::Data)
        && is_filled(load, Part::Dir)
        && is_filled(load, Part::Fci)
}

// Whether a section has received all its bytes.
fn is_filled(load: &Load, part: Part) -> bool
    ensures { result ≡ (got_len part load.now == part_len part load.now.site.sizes) }
{
    load.got(part) == load.size(part)
}
