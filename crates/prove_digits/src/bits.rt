// Bits of two sets of digits, value by value.
ghost use Rattle.std.specs.Prelude.{◌≡◌, ◌<◌, ◌&&◌, ◌==◌, ◌∷◌, [], cond, not, Bool, true, ℕ, Some};
ghost use Rattle.prove_facts.specs.model_prove.specs.Digits.{Operation, digit, digits_from};
ghost use Rattle.prove_facts.specs.model_prove.specs.Sets.{is_in, union};
ghost use Rattle.prove_facts.specs.Sets.{set_of};
ghost use Rattle.prove_digits.specs.Trios.{trio_in, trio_value, IsGrown, IsTurn};
ghost use Rattle.prove_digits.specs.Ways.{bitwise_of};
ghost use Rattle.prove_digits.specs.Bits.{AreParts};

use crate::digits::Digit;
use crate::trios::grow;
use crate::turns::{Split, Turn};
use prove_facts::Values;

// The values of the first byte that make no zero with a value of the second, those that do, and the other results.
#[derive(Clone, Copy)]
struct Parts {
    other: Values,
    zero: Values,
    results: Values,
}

const NO_PARTS: Parts = Parts {
    other: Values::NONE,
    zero: Values::NONE,
    results: Values::NONE,
};

fn bits(how: Digit, x: u8, y: u8) -> u8
    ensures { (op : Operation) (c : Bool) → bitwise_of how ≡ Some op → result ≡ (digit op x y c).0 }
{
    match how {
        Digit::And => x & y,
        Digit::Or => x | y,
        Digit::Xor => x ^ y,
        Digit::Not => !x,
        Digit::Zero => 0,
        _ => x,
    }
}

// Adds one value of the first byte.
fn add_result(parts: &mut Parts, x: u8, r: u8)
    ensures other { set_of parts.new.other
        ≡ cond (r == 0) (set_of parts.old.other) (union (set_of parts.old.other) (x ∷ [])) }
    ensures zero { set_of parts.new.zero
        ≡ cond (r == 0) (union (set_of parts.old.zero) (x ∷ [])) (set_of parts.old.zero) }
    ensures results { set_of parts.new.results
        ≡ cond (r == 0) (set_of parts.old.results) (union (set_of parts.old.results) (r ∷ [])) }
{
    if r == 0 {
        parts.zero = parts.zero.or(&Values::one(x));
        return;
    }
    parts.other = parts.other.or(&Values::one(x));
    parts.results = parts.results.or(&Values::one(r));
}

// The parts for one value of the second byte.
fn parts_of(how: Digit, xs: &Values, y: u8) -> Parts
    ensures { (op : Operation) (c : Bool) → bitwise_of how ≡ Some op
        → AreParts 256 (λ x. (digit op x y c).0) (set_of xs.now) result }
{
    let mut parts = NO_PARTS;
    for value in 0..256u16 {
        let x = value as u8;
        if xs.has(x) {
            add_result(&mut parts, x, bits(how, x, y));
        }
    }
    parts
}

// Adds what one value of the second byte does.
fn add_bits(split: &mut Split, how: Digit, xs: &Values, y: u8)
    ensures other { (op : Operation) (c : Bool) → bitwise_of how ≡ Some op
        → IsGrown (trio_value split.old.other) (trio_value split.new.other)
        (λ x. is_in x (set_of xs.now) && not ((digit op x y c).0 == 0)) y (λ x. (digit op x y c).0) }
    ensures zero { (op : Operation) (c : Bool) → bitwise_of how ≡ Some op
        → IsGrown (trio_value split.old.zero) (trio_value split.new.zero)
        (λ x. is_in x (set_of xs.now) && ((digit op x y c).0 == 0)) y (λ x. (digit op x y c).0) }
{
    let parts = parts_of(how, xs, y);
    grow(&mut split.zero, &parts.zero, y, &Values::one(0));
    grow(&mut split.other, &parts.other, y, &parts.results);
}

fn split_of(how: Digit, xs: &Values, ys: &Values) -> Split
    ensures { (op : Operation) (c z : Bool) → bitwise_of how ≡ Some op → trio_value (trio_in result z)
        ≡ digits_from op (set_of xs.now) (set_of ys.now) (record { c = c; z = true }) (record { c = c; z = z }) }
{
    let mut split = Split::NONE;
    for value in 0..256u16 {
        let y = value as u8;
        if ys.has(y) {
            add_bits(&mut split, how, xs, y);
        }
    }
    split
}

/// Returns what a byte does bit by bit. It keeps the carry.
pub fn logical(how: Digit, xs: &Values, ys: &Values, carry: bool) -> Turn
    ensures { (op : Operation) → bitwise_of how ≡ Some op → IsTurn op (set_of xs.now) (set_of ys.now) carry result }
{
    let split = split_of(how, xs, ys);
    if carry {
        Turn {
            clear: Split::NONE,
            set: split,
        }
    } else {
        Turn {
            clear: split,
            set: Split::NONE,
        }
    }
}
