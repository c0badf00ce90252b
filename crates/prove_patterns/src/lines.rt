// The patterns of the lines that speak of commands and of their answers.
ghost use Rattle.std.specs.Prelude.{◌≡◌, map, IfOk};
ghost use Rattle.lab_app_rules.specs.Rules.{deed_of};
ghost use Rattle.prove_patterns.specs.Opens.{opens_of};
ghost use Rattle.prove_patterns.specs.Lines.{is_some, has_command, has_result, opened_plain, command_patterns, result_patterns};

use crate::opens::{Opens, opened};
use lab_app_rules::{Effect, Event, On};
use model_device::NoMemory;
use prove_facts::push;
use std::alloc::Global;

// Whether a line is about an allowance, and not about a sum.
fn is_of_allowance(on: &On) -> bool
    ensures { result ≡ is_some (deed_of on.now.effect) }
{
    match on.effect {
        Effect::Allow(_) => true,
        Effect::Spend(_) => true,
        Effect::Need(_) => true,
        Effect::Add(_) => false,
        Effect::Take(_) => false,
    }
}

// Whether an event has the pattern of a command.
fn is_of_command(event: Event) -> bool
    ensures { result ≡ has_command event }
{
    match event {
        Event::Turn => false,
        Event::Command => true,
        Event::Answer => true,
        Event::Session => false,
    }
}

// Whether an event has the pattern of a result.
fn is_of_answer(event: Event) -> bool
    ensures { result ≡ has_result event }
{
    match event {
        Event::Turn => false,
        Event::Command => false,
        Event::Answer => true,
        Event::Session => false,
    }
}

/// Returns what is left of the patterns of commands before any byte.
///
/// # Errors
///
/// Returns `NoMemory` if it is out of memory.
pub fn opened_commands<'a>(alloc: Global, ons: &'a [On]) -> Result<Opens<'a>, NoMemory>
    ensures { IfOk result (λ o. opens_of o.items ≡ map opened_plain (command_patterns ons.now)) }
{
    let mut opens = Vec::new(alloc);
    for on in ons {
        if is_of_allowance(on) && is_of_command(on.event) {
            push(&mut opens, opened(alloc, on.pattern.as_slice())?)?;
        }
    }
    Ok(opens)
}

/// Returns what is left of the patterns of results before any byte.
///
/// # Errors
///
/// Returns `NoMemory` if it is out of memory.
pub fn opened_results<'a>(alloc: Global, ons: &'a [On]) -> Result<Opens<'a>, NoMemory>
    ensures { IfOk result (λ o. opens_of o.items ≡ map opened_plain (result_patterns ons.now)) }
{
    let mut opens = Vec::new(alloc);
    for on in ons {
        if is_of_allowance(on) && is_of_answer(on.event) {
            push(&mut opens, opened(alloc, on.result.as_slice())?)?;
        }
    }
    Ok(opens)
}
