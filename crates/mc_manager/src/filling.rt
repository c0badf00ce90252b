ghost use Rattle.std.specs.Prelude.{◌≡◌, ◌+◌, ◌≤◌, ℕ, false, length, map, option_map, Some, OnOk};
ghost use Rattle.std.specs.Option.{ForSome};
ghost use Rattle.model_card.specs.model_device.specs.Orders.{answer_of, InOrder};
ghost use Rattle.model_card.specs.Items.{Piece};
ghost use Rattle.model_card.specs.Manager.{first_status, load_refusals, with_got, word_parts};
ghost use Rattle.mc_apdu.specs.Command.{parts_of};
ghost use Rattle.mc_bank.specs.Bank.{Changes, part_len};
ghost use Rattle.mc_manager.specs.ManagerState.{BankView, view_of, got_len, open_of, FitsLoad};
ghost use Rattle.mc_manager.specs.Status.{word_of};

use crate::header::parameters;
use crate::load::Load;
use crate::status::Status;
use mc_apdu::Apdu;
use mc_bank::{Bank, Part};
use mc_words::Stop;

/// Returns the status of the first refusal of a LOAD command for a section, or `None` if there is none.
#[tactic(auto, using(crate::proofs::LoadLemmas::length_got, crate::proofs::LoadLemmas::same_size))]
pub fn load_refusal(load: &Option<Load>, part: Part, apdu: &Apdu) -> Option<Status>
    ensures { (v : BankView) → ForSome load.now (FitsLoad v)
        → first_status (load_refusals (option_map (open_of v.site_bytes) load.now) part (parts_of apdu.now))
        ≡ option_map word_of result }
{
    if apdu.body.is_empty() {
        return Some(Status::WrongLength);
    }
    let Some(load) = load else {
        return Some(Status::Conditions);
    };
    let got = load.got(part);
    if parameters(apdu) != got {
        return Some(Status::Conditions);
    }
    if got as usize + apdu.body.len() > load.size(part) as usize {
        return Some(Status::WrongData);
    }
    None
}

/// Writes a piece after the bytes that a section has received.
///
/// # Errors
///
/// Returns the `Stop` of the bank.
#[tactic(auto, using(crate::proofs::LoadLemmas::fits_filled, crate::proofs::LoadLemmas::open_filled))]
pub fn fill<B: Bank>(load: &mut Load, bank: &mut B, part: Part, piece: &[u8]) -> Result<(), Stop>
    requires going { (B.state bank.old).stopped ≡ false }
    requires fits { FitsLoad (view_of B.Bank bank.old) load.old }
    requires room { got_len part load.old + length piece.now ≤ part_len part load.old.site.sizes }
    ensures items { InOrder B.did bank.old (map
        (λ c. Piece load.old.site part c.0 c.1) (word_parts (got_len part load.old) piece.now))
        (answer_of result) bank.new }
    ensures apps { Changes (B.state bank.old) (B.state bank.old).apps (answer_of result) (B.state bank.new) }
    ensures slots { (k : ℕ) → B.named bank.new k ≡ B.named bank.old k }
    ensures open { OnOk result (open_of (B.site_bytes bank.new) load.new
        ≡ record (open_of (B.site_bytes bank.old) load.old) {
          got = with_got part piece.now
              (open_of (B.site_bytes bank.old) load.old).got;
        }) }
    ensures fits { OnOk result (FitsLoad (view_of B.Bank bank.new) load.new) }
{
    bank.fill(load.site(), part, load.got(part), piece)?;
    load.add(part, piece);
    Ok(())
}
