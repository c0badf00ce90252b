// Searches of a table for a byte: at which indices it may be found first, and whether it may not be found.
ghost use Rattle.std.specs.Prelude.{◌≡◌, ℕ, ◌<◌, ◌≤◌, ◌&&◌, ◌||◌, ◌==◌, length};
ghost use Rattle.prove_facts.specs.model_prove.specs.Arrivals.{some_value};
ghost use Rattle.prove_facts.specs.model_prove.specs.Steps as steps;
ghost use Rattle.prove_facts.specs.Sets.{set_of, has_value};
ghost use Rattle.prove_works.specs.Searches.{sets_of};

use crate::lists::{has, none};
use prove_facts::Values;

/// Returns whether a value is the only one of a set.
pub fn is_only(value: u8, values: &Values) -> bool
    ensures { result ≡ steps.is_only value (set_of values.now) }
{
    values.count() <= 1 && has(values, value)
}

/// Returns whether a value may be none of a table's bytes.
pub fn may_pass(value: u8, table: &[Values]) -> bool
    ensures { result ≡ steps.may_pass value (sets_of table.now) }
{
    for values in table {
        if is_only(value, values) {
            return false;
        }
    }
    true
}

/// Returns whether one of some values may be none of a table's bytes.
pub fn some_pass(list: &[u8], table: &[Values]) -> bool
    ensures { result ≡ some_value (λ v. steps.may_pass v (sets_of table.now)) list.now }
{
    for value in list {
        if may_pass(*value, table) {
            return true;
        }
    }
    false
}

/// Returns the indices at which a value may be found first in a table of at most 255 bytes.
pub fn found_at(value: u8, table: &[Values]) -> Values
    requires { length table.now ≤ 255 }
    ensures { set_of result ≡ steps.found_at value 0 (sets_of table.now) }
{
    let mut found = none();
    for (index, values) in table.iter().enumerate() {
        found = with_if(&found, index as u8, has(values, value));
        if is_only(value, values) {
            return found;
        }
    }
    found
}

// A set with one more value, if something holds.
fn with_if(values: &Values, value: u8, holds: bool) -> Values
    ensures { (w : ℕ) → w < 256 → has_value result w ≡ (has_value values.now w || (holds && (value == w))) }
{
    if holds {
        return values.with(value);
    }
    *values
}

/// Returns the indices at which one of some values may be found first.
pub fn each_index(list: &[u8], table: &[Values]) -> Values
    requires { length table.now ≤ 255 }
    ensures { set_of result ≡ steps.each_index list.now (sets_of table.now) }
{
    let mut found = none();
    for passed in 0..list.len() {
        let value = list[list.len() - 1 - passed];
        found = found_at(value, table).or(&found);
    }
    found
}
