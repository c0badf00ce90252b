// Which `answer` lines the replies match that bytes known in part allow.
ghost use Rattle.std.specs.Prelude.{◌≡◌, ◌≤◌, ℕ, map, List, IfOk, IfSome, [], ◌∷◌};
ghost use Rattle.std.specs.List.{flat_map};
ghost use Rattle.prove_facts.specs.model_prove.specs.Texts.{after_bytes, matches_of};
ghost use Rattle.prove_facts.specs.model_prove.specs.Texts as known;
ghost use Rattle.prove_facts.specs.model_prove.specs.Arrivals.{Setting, distinct, replies};
ghost use Rattle.prove_facts.specs.model_prove.specs.Keys.{Known};
ghost use Rattle.prove_facts.specs.model_rules.specs.Rules.{AppRules};
ghost use Rattle.lab_app_rules.specs.Rules.{AreLines};
ghost use Rattle.prove_facts.specs.Sets.{set_of};
ghost use Rattle.prove_patterns.specs.Opens.{opens_of, many_of};
ghost use Rattle.prove_patterns.specs.Replies.{ArePrepared, IsPrepared, HaveValues, combinations_of, bodies_in};

use crate::combining::combinations;
use crate::lengths::lengths_of;
use crate::lines::opened_results;
use crate::opens::Opens;
use crate::reaching::{Many, after_any, each_after_bytes};
use lab_app_rules::On;
use model_device::NoMemory;
use prove_facts::{Values, push};
use std::alloc::Global;

/// What is left of the patterns of results before any byte of a reply, and after any bytes of it.
#[derive(Drop)]
pub struct Replies<'a> {
    pub none: Many<'a>,
    pub any: Many<'a>,
}

// A list of one possibility.
fn only<'a>(alloc: Global, opens: Opens<'a>) -> Result<Many<'a>, NoMemory>
    ensures { IfOk result (λ many. many.items ≡ opens.entry ∷ []) }
{
    let mut many = Vec::new(alloc);
    push(&mut many, opens)?;
    Ok(many)
}

// What is prepared of patterns, which are given twice.
fn prepared<'a>(
    alloc: Global,
    none: Opens<'a>,
    any: Opens<'a>,
) -> Result<Option<Replies<'a>>, NoMemory>
    ensures { opens_of none.entry.items ≡ opens_of any.entry.items
        → IfOk result (λ r. IfSome r (λ p. ArePrepared (opens_of none.entry.items) p)) }
{
    let Some(any) = after_any(alloc, only(alloc, any)?)? else {
        return Ok(None);
    };
    let none = only(alloc, none)?;
    Ok(Some(Replies { none, any }))
}

impl<'a> Replies<'a> {
    /// Returns what is prepared of the patterns of results, or `None` if the search for it gives up.
    ///
    /// # Errors
    ///
    /// Returns `NoMemory` if it is out of memory.
    pub fn new(alloc: Global, ons: &'a [On]) -> Result<Option<Replies<'a>>, NoMemory>
        ensures { (names : List (List ℕ)) (a : AppRules) → AreLines names a.ons ons.now
            → IfOk result (λ r. IfSome r (λ p. IsPrepared a p)) }
    {
        let none = opened_results(alloc, ons)?;
        let any = opened_results(alloc, ons)?;
        prepared(alloc, none, any)
    }

    // The possibilities before SW: of no bytes, or of any.
    fn bodies(&self, some: bool) -> &[Opens<'a>]
        ensures { (o : known.Opens) → ArePrepared o self.now → (n : ℕ) → 10000 ≤ n
            → many_of result.now ≡ bodies_in n some o }
    {
        if some {
            self.any.as_slice()
        } else {
            self.none.as_slice()
        }
    }

    // The combinations of lines that match, of replies of these lengths and values of SW.
    fn matched(
        &self,
        alloc: Global,
        some: bool,
        sw_high: &Values,
        sw_low: &Values,
    ) -> Result<Vec<Vec<bool>>, NoMemory>
        ensures { (o : known.Opens) → ArePrepared o self.now → (n : ℕ) → 10000 ≤ n
            → IfOk result (λ c. combinations_of c.items ≡ distinct (map matches_of
            (flat_map (after_bytes (set_of sw_low.now))
            (flat_map (after_bytes (set_of sw_high.now)) (bodies_in n some o))))) }
    {
        let half = each_after_bytes(alloc, sw_high, self.bodies(some))?;
        let whole = each_after_bytes(alloc, sw_low, half.as_slice())?;
        combinations(alloc, whole.as_slice())
    }

    /// Returns each combination of `answer` lines that match and that do not, of some reply whose La and SW have these
    /// values.
    ///
    /// # Errors
    ///
    /// Returns `NoMemory` if it is out of memory.
    pub fn replies(
        &self,
        alloc: Global,
        la_high: &Values,
        la_low: &Values,
        sw_high: &Values,
        sw_low: &Values,
    ) -> Result<Vec<Vec<bool>>, NoMemory>
        ensures { (s : Setting) (k : Known) → IsPrepared s.rules self.now
            → HaveValues k.bytes (set_of la_high.now) (set_of la_low.now) (set_of sw_high.now) (set_of sw_low.now)
            → IfOk result (λ c. combinations_of c.items ≡ replies s k) }
    {
        let lengths = lengths_of(la_high, la_low);
        self.matched(alloc, lengths.some, sw_high, sw_low)
    }
}
