ghost use Rattle.std.specs.Prelude.{ℕ};
ghost use Rattle.law_promise.specs.Kept.{IsKept};
ghost use Rattle.law_promise.proofs.CounterOutline.{counter_outline, counter_shown};

use law_promise::{Promise, keeps};

/// The counter, under the rule.
pub struct Counter;

impl Promise for Counter {
    ghost Event = { ℕ };

    ghost outline = { counter_outline };

    ghost shown = { counter_shown };
}

/// What the outline of the counter says holds along every play.
pub fn counter_keeps()
    ensures { IsKept counter_outline }
{
    keeps::<Counter>();
}
