// The amounts of allowances.
ghost use Rattle.std.specs.Prelude.{◌≡◌, is_some, map, unwrap_or, IfOk};
ghost use Rattle.lab_history.specs.Amounts.{amount_after, amounts_after};

use lab_app_rules::{Effect, On, Rules};
use model_device::NoMemory;
use std::alloc::Global;

/// Returns the amounts of the allowances as the application is created.
///
/// # Errors
///
/// Returns `NoMemory` if it is out of memory.
pub fn first_amounts(alloc: Global, rules: &Rules<'_>) -> Result<Vec<u32>, NoMemory>
    ensures { IfOk result (λ amounts. amounts.items ≡ map (λ a. a.amount) rules.now.allowances.items) }
{
    let amounts = rules.allowances.iter().map(|a| a.amount).collect(alloc)?;
    Ok(amounts)
}

// An amount after an effect, or `None` if it breaks the rule. An effect on a sum leaves it.
fn amount_after(effect: &Effect, amount: u32) -> Option<u32>
    ensures { result ≡ amount_after effect.now amount }
{
    match effect {
        Effect::Allow(k) => Some(*k),
        Effect::Spend(k) => amount.checked_sub(*k),
        Effect::Need(k) => if amount < *k { None } else { Some(amount) },
        Effect::Add(_) => Some(amount),
        Effect::Take(_) => Some(amount),
    }
}

/// Does what an `on` line says of an allowance, and returns whether its rule is kept; else the amounts stay.
pub fn is_kept(amounts: &mut [u32], on: &On) -> bool
    ensures kept { result ≡ is_some (amounts_after on.now.effect on.now.name amounts.old) }
    ensures amounts { amounts.new ≡ unwrap_or (amounts_after on.now.effect on.now.name amounts.old) amounts.old }
{
    if on.name >= amounts.len() {
        return true;
    }
    match amount_after(&on.effect, amounts[on.name]) {
        Some(after) => {
            amounts[on.name] = after;
            true
        }
        None => false,
    }
}
