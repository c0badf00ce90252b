// The ranges that static bytes keep between commands.
ghost use Rattle.std.specs.Prelude.{◌≡◌, true, map};
ghost use Rattle.prove_facts.specs.model_prove.specs.Between as between;
ghost use Rattle.prove_facts.specs.model_prove.specs.Tables.{keeps_ranges};
ghost use Rattle.lab_app_rules.specs.Rules.{range_of};
ghost use Rattle.prove_facts.specs.Sets.{set_of};

use lab_app_rules::Always;
use prove_facts::{Facts, Values};

// The values from one to another.
fn values_between(low: u8, high: u8) -> Values
    ensures { set_of result ≡ between.values_between low high }
{
    Values::range(low, high)
}

// Whether the byte of a line has only values that it allows.
fn keeps_range(facts: &Facts, line: &Always) -> bool
    ensures { result ≡ between.keeps_range facts.now (range_of line.now) }
{
    facts
        .at(line.at)
        .is_within(&values_between(line.low, line.high))
}

/// Returns whether facts keep all ranges.
pub fn keeps_ranges(lines: &[Always], facts: &Facts) -> bool
    ensures { result ≡ true → keeps_ranges (map range_of lines.now) facts.now ≡ true }
{
    for line in lines {
        if !keeps_range(facts, line) {
            return false;
        }
    }
    true
}
