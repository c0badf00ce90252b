// One byte of a walk: which flags lead to which, forward and backward.
ghost use Rattle.std.specs.Prelude.{◌≡◌, ◌||◌, ◌&&◌, Some, true};
ghost use Rattle.prove_facts.specs.model_prove.specs.Digits.{Operation};
ghost use Rattle.prove_facts.specs.Sets.{set_of};
ghost use Rattle.prove_digits.specs.Trios.{IsTurn, trio_value, edge_of};
ghost use Rattle.prove_digits.specs.States.{has_state, turn_under, leads_from, leads_to, states_after, goes_from, states_before, with_edge, with_edges, found_digits, IsStep};
ghost use Rattle.prove_digits.specs.Ways.{operation_of};

use crate::arithmetic::arithmetic;
use crate::bits::logical;
use crate::digits::Digit;
use crate::states::States;
use crate::trios::Trio;
use crate::turns::Turn;
use prove_facts::Values;

/// A byte of a walk: the flags before it, and what it does without a carry and with one.
#[derive(Clone, Copy)]
pub struct Step {
    pub before: States,
    pub plain: Turn,
    pub carried: Turn,
}

// Whether one is true.
fn or(a: bool, b: bool) -> bool
    ensures { result ≡ (a || b) }
{
    a || b
}

// Whether one of four is true.
fn any(a: bool, b: bool, c: bool, d: bool) -> bool
    ensures { result ≡ (((a || b) || c) || d) }
{
    or(or(or(a, b), c), d)
}

// What a byte does under a carry.
fn turn_of(digit: Digit, xs: &Values, ys: &Values, carry: bool) -> Turn
    ensures { (op : Operation) → operation_of digit ≡ Some op → IsTurn op (set_of xs.now) (set_of ys.now) carry result }
{
    match digit {
        Digit::Add => arithmetic(false, xs, ys, carry),
        Digit::Sub => arithmetic(true, xs, ys, carry),
        _ => logical(digit, xs, ys, carry),
    }
}

// What a byte does under a carry, if some flags before it have this one.
fn turn_if(some: bool, digit: Digit, xs: &Values, ys: &Values, carry: bool) -> Turn
    ensures { (op : Operation) → operation_of digit ≡ Some op → some ≡ true
        → IsTurn op (set_of xs.now) (set_of ys.now) carry result }
{
    if some {
        turn_of(digit, xs, ys, carry)
    } else {
        Turn::NONE
    }
}

/// Returns the step of a byte with these flags before it.
pub fn step_of(digit: Digit, before: States, xs: &Values, ys: &Values) -> Step
    ensures before { result.before ≡ before }
    ensures turns { (op : Operation) → operation_of digit ≡ Some op → IsStep op (set_of xs.now) (set_of ys.now) result }
{
    Step {
        before,
        plain: turn_if(or(before.other, before.zero), digit, xs, ys, false),
        carried: turn_if(or(before.carry, before.both), digit, xs, ys, true),
    }
}

impl Step {
    // What leads from flags to flags.
    fn edge(&self, c: bool, z: bool, carry: bool, zero: bool) -> Trio
        ensures { trio_value result ≡ edge_of (turn_under self.now c) z carry zero }
    {
        if c {
            self.carried.edge(z, carry, zero)
        } else {
            self.plain.edge(z, carry, zero)
        }
    }

    // Whether some values lead from flags, if they are there, to flags.
    #[tactic(auto, unfolding(crate::specs::States::leads_from))]
    fn leads_from(&self, c: bool, z: bool, carry: bool, zero: bool) -> bool
        ensures { result ≡ leads_from self.now c z carry zero }
    {
        if !self.before.has(c, z) {
            return false;
        }
        !self.edge(c, z, carry, zero).x.is_empty()
    }

    // Whether some values lead to flags.
    #[tactic(auto, unfolding(crate::specs::States::leads_to))]
    fn leads_to(&self, carry: bool, zero: bool) -> bool
        ensures { result ≡ leads_to self.now carry zero }
    {
        any(
            self.leads_from(false, false, carry, zero),
            self.leads_from(false, true, carry, zero),
            self.leads_from(true, false, carry, zero),
            self.leads_from(true, true, carry, zero),
        )
    }

    /// Returns the flags after the byte.
    pub fn after(&self) -> States
        ensures { result ≡ states_after self.now }
    {
        States {
            other: self.leads_to(false, false),
            zero: self.leads_to(false, true),
            carry: self.leads_to(true, false),
            both: self.leads_to(true, true),
        }
    }

    // Whether some values lead from flags, if they are there, to flags among some.
    fn goes(&self, c: bool, z: bool, after: &States, carry: bool, zero: bool) -> bool
        ensures { result ≡ (has_state after.now carry zero && leads_from self.now c z carry zero) }
    {
        if !after.has(carry, zero) {
            return false;
        }
        self.leads_from(c, z, carry, zero)
    }

    // Whether some values lead from flags, if they are there, to some of these.
    #[tactic(auto, unfolding(crate::specs::States::goes_from))]
    fn goes_from(&self, c: bool, z: bool, after: &States) -> bool
        ensures { result ≡ goes_from self.now after.now c z }
    {
        any(
            self.goes(c, z, after, false, false),
            self.goes(c, z, after, false, true),
            self.goes(c, z, after, true, false),
            self.goes(c, z, after, true, true),
        )
    }

    /// Returns the flags before the byte that lead to these after it.
    pub fn before(&self, after: &States) -> States
        ensures { result ≡ states_before self.now after.now }
    {
        States {
            other: self.goes_from(false, false, after),
            zero: self.goes_from(false, true, after),
            carry: self.goes_from(true, false, after),
            both: self.goes_from(true, true, after),
        }
    }

    // Joins what leads from flags to flags, if these are there.
    #[tactic(auto, unfolding(crate::specs::States::with_edge))]
    fn join(&self, found: &mut Trio, c: bool, z: bool, after: &States, carry: bool, zero: bool)
        ensures { trio_value found.new ≡ with_edge self.now after.now c z carry zero (trio_value found.old) }
    {
        if self.goes(c, z, after, carry, zero) {
            *found = found.or(&self.edge(c, z, carry, zero));
        }
    }

    // Joins what leads from flags to some of these.
    #[tactic(auto, unfolding(crate::specs::States::with_edges))]
    fn join_from(&self, found: &mut Trio, c: bool, z: bool, after: &States)
        ensures { trio_value found.new ≡ with_edges self.now after.now c z (trio_value found.old) }
    {
        self.join(found, c, z, after, false, false);
        self.join(found, c, z, after, false, true);
        self.join(found, c, z, after, true, false);
        self.join(found, c, z, after, true, true);
    }

    /// Returns the values of the byte that lead to these flags after it.
    #[tactic(auto, unfolding(crate::specs::States::found_digits))]
    pub fn found(&self, after: &States) -> Trio
        ensures { trio_value result ≡ found_digits self.now after.now }
    {
        let mut found = Trio::NONE;
        self.join_from(&mut found, false, false, after);
        self.join_from(&mut found, false, true, after);
        self.join_from(&mut found, true, false, after);
        self.join_from(&mut found, true, true, after);
        found
    }
}
