// Sums and differences of two sets of digits.
ghost use Rattle.std.specs.Prelude.{◌≡◌, ◌<◌, ◌+◌, ◌-◌, ◌%◌, ◌&&◌, ◌==◌, not, cond, Bool, true, false};
ghost use Rattle.prove_facts.specs.model_prove.specs.Digits.{digit, carried};
ghost use Rattle.prove_facts.specs.model_prove.specs.Sets.{is_in};
ghost use Rattle.prove_facts.specs.Sets.{set_of, has_value};
ghost use Rattle.prove_digits.specs.Trios.{trio_at, trio_value, IsGrown, IsTurn, sum_of, leads_on};

use crate::trios::grow;
use crate::turns::{Split, Turn};
use prove_facts::Values;

/// What a value of the second byte does to the first: those below `split` make one carry, the others the other one, and
/// each moves by `by`.
#[derive(Clone, Copy)]
struct Moves {
    split: u16,
    by: u8,
}

fn low_byte(number: u16) -> u8
    ensures { result ≡ number % 256 }
{
    (number & 255) as u8
}

fn moves_of(subtracts: bool, y: u8, carry: bool) -> Moves
    ensures split { result.split ≡ cond subtracts (y + carried carry) (256 - (y + carried carry)) }
    ensures by { result.by ≡ cond subtracts ((256 - (y + carried carry)) % 256) ((y + carried carry) % 256) }
{
    let k = if carry { y as u16 + 1 } else { y as u16 };
    let rest = 256u16.saturating_sub(k);
    if subtracts {
        return Moves {
            split: k,
            by: low_byte(rest),
        };
    }
    Moves {
        split: rest,
        by: low_byte(k),
    }
}

// Adds the values of the first byte that make one carry with one value of the second; the first moves by `by`.
fn add_part(split: &mut Split, part: &Values, y: u8, by: u8)
    ensures other { IsGrown (trio_value split.old.other) (trio_value split.new.other)
        (λ x. is_in x (set_of part.now) && not ((x + by) % 256 == 0)) y (λ x. (x + by) % 256) }
    ensures zero { IsGrown (trio_value split.old.zero) (trio_value split.new.zero)
        (λ x. is_in x (set_of part.now) && ((x + by) % 256 == 0)) y (λ x. (x + by) % 256) }
{
    let end = Values::one(by.wrapping_neg());
    let rest = part.and(&end.not());
    grow(&mut split.zero, &part.and(&end), y, &Values::one(0));
    grow(&mut split.other, &rest, y, &rest.moved(by));
}

// Adds what one value of the second byte does.
fn add_moves(turn: &mut Turn, subtracts: bool, xs: &Values, y: u8, carry: bool)
    ensures { (c z : Bool) → IsGrown (trio_value (trio_at turn.old c z)) (trio_value (trio_at turn.new c z))
        (λ x. is_in x (set_of xs.now) && leads_on (sum_of subtracts) carry c z x y) y (λ x. (digit
        (sum_of subtracts) x y carry).0) }
{
    let moves = moves_of(subtracts, y, carry);
    let low = Values::below(moves.split);
    let below = xs.and(&low);
    let above = xs.and(&low.not());
    if subtracts {
        add_part(&mut turn.clear, &above, y, moves.by);
        add_part(&mut turn.set, &below, y, moves.by);
        return;
    }
    add_part(&mut turn.clear, &below, y, moves.by);
    add_part(&mut turn.set, &above, y, moves.by);
}

/// Returns what a byte does in a sum or a difference.
pub fn arithmetic(subtracts: bool, xs: &Values, ys: &Values, carry: bool) -> Turn
    ensures { IsTurn (sum_of subtracts) (set_of xs.now) (set_of ys.now) carry result }
{
    let mut turn = Turn::NONE;
    for value in 0..256u16 {
        let y = value as u8;
        if ys.has(y) {
            add_moves(&mut turn, subtracts, xs, y, carry);
        }
    }
    turn
}
