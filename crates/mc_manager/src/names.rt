ghost use Rattle.std.specs.Prelude.{◌≡◌, false, IfSome, IfNone, Some, None};
ghost use Rattle.model_card.specs.model_device.specs.Bytes.{lookup};
ghost use Rattle.mc_manager.specs.ManagerState.{NamedBy};

use crate::selection::Selection;
use mc_bank::Bank;
use mc_words::Aid;

/// Returns the application whose name is `name`, or `None` if it is not on the card.
#[tactic(auto, using(crate::proofs::NameLemmas::no_other_names))]
pub fn named<B: Bank>(bank: &B, name: &[u8]) -> Option<Selection>
    requires going { (B.state bank.now).stopped ≡ false }
    ensures none { IfNone result (lookup (B.state bank.now).apps name.now ≡ None) }
    ensures some { IfSome result (λ s. NamedBy (B.state bank.now).apps (B.named bank.now) name.now s) }
{
    let Some(aid) = Aid::new(name) else {
        // All applications on the card have names of 5 to 16 bytes.
        let _count = bank.count();
        return None;
    };
    let slot = bank.find(&aid)?;
    Some(Selection { slot, aid })
}
