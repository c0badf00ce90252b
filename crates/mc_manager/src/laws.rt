ghost use Rattle.std.specs.Prelude.{◌≡◌, ℕ, List};
ghost use Rattle.model_card.specs.model_device.specs.Orders.{Answer, InOrder};
ghost use Rattle.mc_bank.proofs.Commits.{Words, commits};
ghost use Rattle.mc_manager.specs.ManagerState.{view_of, ManagerState, ManagerFits, session_state_of};

use mc_bank::Bank;

/// Whatever an application commits, and wherever a commit stops: a manager that fits the bank fits it
/// afterwards, and has the same selection and the same load.
pub fn fits_through_commits<B: Bank>()
    ensures fits { (m : ManagerState) → (cs : List Words) → (b : B) → (a : Answer) → (e : B)
        → InOrder B.did b (commits cs) a e → ManagerFits (view_of B.Bank b) m
        → ManagerFits (view_of B.Bank e) m }
    ensures session_state { (m : ManagerState) → (cs : List Words) → (b : B) → (a : Answer) → (e : B)
        → InOrder B.did b (commits cs) a e → ManagerFits (view_of B.Bank b) m → (s : List ℕ)
        → session_state_of (B.site_bytes e) s m ≡ session_state_of (B.site_bytes b) s m }
{}
