// What a line is about.
ghost use Rattle.std.specs.Prelude.{◌≡◌, ◌&&◌, ◌||◌};
ghost use Rattle.prove_occasions.specs.Amounts.{is_answer, is_command, is_of_allowance, is_session, is_turn};
ghost use Rattle.prove_occasions.specs.Picks.{has_mark, has_result};

use lab_app_rules::{Effect, Event, On};

/// Returns whether an effect is one on an allowance, and not on a sum.
pub fn is_of_allowance(effect: &Effect) -> bool
    ensures { result ≡ is_of_allowance effect.now }
{
    match effect {
        Effect::Allow(_) => true,
        Effect::Spend(_) => true,
        Effect::Need(_) => true,
        Effect::Add(_) => false,
        Effect::Take(_) => false,
    }
}

/// Returns whether an event is an instruction.
pub fn is_turn(event: Event) -> bool
    ensures { result ≡ is_turn event }
{
    match event {
        Event::Turn => true,
        _ => false,
    }
}

/// Returns whether an event is a command.
pub fn is_command(event: Event) -> bool
    ensures { result ≡ is_command event }
{
    match event {
        Event::Command => true,
        _ => false,
    }
}

/// Returns whether an event is an answer.
pub fn is_answer(event: Event) -> bool
    ensures { result ≡ is_answer event }
{
    match event {
        Event::Answer => true,
        _ => false,
    }
}

/// Returns whether an event is the begin or the end of a session.
pub fn is_session(event: Event) -> bool
    ensures { result ≡ is_session event }
{
    match event {
        Event::Session => true,
        _ => false,
    }
}

/// Returns whether a line is a `command` or an `answer` line about an allowance, for which a class has a mark.
pub fn has_mark(on: &On) -> bool
    ensures { result ≡ has_mark on.now }
{
    is_of_allowance(&on.effect) && (is_command(on.event) || is_answer(on.event))
}

/// Returns whether a line is an `answer` line about an allowance.
pub fn has_result(on: &On) -> bool
    ensures { result ≡ has_result on.now }
{
    is_of_allowance(&on.effect) && is_answer(on.event)
}
