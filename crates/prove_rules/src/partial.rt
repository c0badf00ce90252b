// The rules of the lines so far.
ghost use Rattle.std.specs.Prelude.{◌≡◌, ℕ, List, map, IfErr, IfOk, None, Some};
ghost use Rattle.lab_app_rules.specs.Rules.{allowance_of};
ghost use Rattle.prove_rules.specs.declared.fault.Fault.TheVariants.{Cause};
ghost use Rattle.prove_rules.specs.declared.fault.RuleCause.TheVariants.{NoApplication};
ghost use Rattle.prove_rules.specs.Partials.{place_of};

use crate::fault::{Fault, RuleCause};
use crate::load::Found;
use lab_app_rules::{Always, Balance, CodeLine, Load, Named, On};

/// The rules so far, before and after the application is named.
#[derive(Drop)]
pub struct Partial<'a> {
    pub load: Option<Found<'a>>,
    pub code_lines: Vec<CodeLine>,
    pub allowances: Vec<Named<'a>>,
    pub sums: Vec<Named<'a>>,
    pub ons: Vec<On>,
    pub always: Vec<Always>,
    pub balances: Vec<Balance>,
    pub never: Option<u32>,
}

/// Returns the number of the allowance or the sum of a name, or `None` if none has it.
pub fn place_of(list: &[Named<'_>], name: &[u8]) -> Option<usize>
    ensures { result ≡ place_of (map allowance_of list.now) name.now }
{
    for (place, one) in list.iter().enumerate() {
        if one.name == name {
            return Some(place);
        }
    }
    None
}

/// Returns the application that the lines above name.
///
/// # Errors
///
/// Returns `NoApplication` if they name none.
pub fn named_load<'a>(rules: &Partial<'a>) -> Result<Load<'a>, Fault>
    ensures load { IfOk result (λ load. (aid : List ℕ)
        × (rules.now.load ≡ Some (record { aid = aid; load = load }))) }
    ensures refused { IfErr result (λ e. (e ≡ Cause NoApplication) × (rules.now.load ≡ None)) }
{
    match &rules.load {
        Some(found) => Ok(found.load),
        None => Err(Fault::Cause(RuleCause::NoApplication)),
    }
}
