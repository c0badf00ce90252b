// The totals of an application as it is created.
ghost use Rattle.std.specs.Prelude.{◌≡◌, ◌+◌, ◌-◌, ◌++◌, ◌&&◌, ℕ, true, List, length, map, nat_le, IfOk};
ghost use Rattle.model_device.specs.Bytes.{zeros};
ghost use Rattle.prove_facts.specs.model_rules.specs.Keeping.{are_totals, first_sums, is_total};
ghost use Rattle.prove_facts.specs.model_rules.specs.Rules.{AppRules, Target, Total};
ghost use Rattle.prove_sums.specs.model_sums.specs.Closed.{all_pass};
ghost use Rattle.lab_app_rules.specs.Rules.{AreDistinct, AreRules, allowance_of, is_named, name_of};
ghost use Rattle.lab_app_rules.specs.Sums.{AreSums, AreTotals, IsTotal};

use lab_app_rules::{Balance, Load, Named, Rules};
use lab_history::{first_block, is_block};
use model_device::NoMemory;
use std::alloc::Global;

// Whether a name is among some.
fn is_named(name: &[u8], sums: &[Named<'_>]) -> bool
    ensures { result ≡ is_named name.now (map name_of sums.now) }
{
    match sums {
        [] => false,
        [first, rest @ ..] => first.name == name || is_named(name, rest),
    }
}

// Whether each sum has a name of its own.
fn are_distinct(sums: &[Named<'_>]) -> bool
    ensures { result ≡ true → AreDistinct (map name_of sums.now) }
{
    match sums {
        [] => true,
        [first, rest @ ..] => !is_named(first.name, rest) && are_distinct(rest),
    }
}

// The static bytes of an application as it is created.
fn first_bytes(alloc: Global, load: &Load<'_>) -> Result<Vec<u8>, NoMemory>
    ensures { IfOk result (λ bytes. bytes.items ≡ load.now.data.now
        ++ zeros (load.now.fixed - length load.now.data.now)) }
{
    let rest = (load.fixed as usize).saturating_sub(load.data.len());
    let mut bytes = Vec::from_slice(alloc, load.data)?;
    let more = vec![in alloc; 0; rest]?;
    bytes.extend_from_slice(more.as_slice())?;
    Ok(bytes)
}

// Whether a block lies in n static bytes.
fn is_within(balance: &Balance, fixed: u16) -> bool
    ensures { result ≡ nat_le (balance.now.at + balance.now.n) fixed }
{
    balance.at as u32 + balance.n as u32 <= fixed as u32
}

// Whether each block does.
fn are_within(balances: &[Balance], fixed: u16) -> bool
    ensures { result ≡ true → (names : List (List ℕ)) (ts : List Total) → AreTotals names ts balances.now
        → all_pass (λ t. nat_le (t.at + t.n) fixed) ts ≡ true }
{
    for balance in balances {
        if !is_within(balance, fixed) {
            return false;
        }
    }
    true
}

// Whether a block of static bytes is what it is to be as the application is created.
fn is_total(
    alloc: Global,
    balance: &Balance,
    sums: &[Named<'_>],
    bytes: &[u8],
) -> Result<bool, NoMemory>
    ensures { IfOk result (λ holds. holds ≡ true → AreDistinct (map name_of sums.now) → (t : Total)
        → IsTotal (map name_of sums.now) t balance.now
        → is_total bytes.now (first_sums (map allowance_of sums.now)) t ≡ true) }
{
    let block = first_block(alloc, balance, sums)?;
    Ok(is_block(bytes, balance, block.as_slice()))
}

// Whether each block is.
fn are_totals(
    alloc: Global,
    balances: &[Balance],
    sums: &[Named<'_>],
    bytes: &[u8],
) -> Result<bool, NoMemory>
    ensures { IfOk result (λ holds. holds ≡ true → AreDistinct (map name_of sums.now) → (ts : List Total)
        → AreTotals (map name_of sums.now) ts balances.now
        → are_totals bytes.now (first_sums (map allowance_of sums.now)) ts ≡ true) }
{
    for balance in balances {
        if !is_total(alloc, balance, sums, bytes)? {
            return Ok(false);
        }
    }
    Ok(true)
}

/// Returns whether the blocks of all totals are static bytes, and are what they are to be as the application is
/// created.
///
/// # Errors
///
/// Returns `NoMemory` if it is out of memory.
pub fn totals_hold(alloc: Global, rules: &Rules<'_>) -> Result<bool, NoMemory>
    ensures { IfOk result (λ holds. holds ≡ true → (a : AppRules) (g : Target) → AreRules a g rules.now
        → AreSums a rules.now → (all_pass (λ t. nat_le (t.at + t.n) (length g.app.fixed)) a.totals
        && are_totals g.app.fixed (first_sums a.sums) a.totals) ≡ true) }
{
    let balances = rules.balances.as_slice();
    let sums = rules.sums.as_slice();
    if !are_distinct(sums) || !are_within(balances, rules.load.fixed) {
        return Ok(false);
    }
    let bytes = first_bytes(alloc, &rules.load)?;
    let holds = are_totals(alloc, balances, sums, bytes.as_slice())?;
    Ok(holds)
}
