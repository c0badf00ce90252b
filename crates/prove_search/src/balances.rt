// The lines of sums at an event.
use crate::keys::{Break, Outcome, Rule};
use lab_app_rules::{Amount, Balance, Effect, On, Rules};
use model_device::NoMemory;
use prove_facts::{Form, Origin, Sums, form_of, push};
use std::alloc::Global;

// The origin of a public byte that is its own, and else none.
fn own_origin(before: &Sums, at: u16) -> Origin {
    let origin = before.origin(at);
    if origin == Origin::Public(at) {
        origin
    } else {
        Origin::Unknown
    }
}

// The number that an amount of a line is before an instruction, if that is known.
fn form_of_amount(alloc: Global, before: &Sums, amount: &Amount) -> Result<Option<Form>, NoMemory> {
    match amount {
        Amount::Number(k) => Ok(Some(Form::constant(alloc, *k as u128))),
        Amount::Public { at, n } => {
            let mut origins = Vec::new(alloc);
            for i in 0..*n {
                push(&mut origins, own_origin(before, at.saturating_add(i)))?;
            }
            form_of(alloc, origins.as_slice())
        }
    }
}

// How much a line is off after one sum of it became more by a form, or by what is not known: less by as much.
fn off_after(
    alloc: Global,
    balance: &Balance,
    off: &Option<Form>,
    form: &Option<Form>,
    grows: bool,
) -> Result<Option<Form>, NoMemory> {
    let times = if grows { u128::MAX } else { 1 };
    match (off, form) {
        (Some(off), Some(form)) => off.moved(alloc, form, times, balance.n),
        _ => Ok(None),
    }
}

// How much a line is off after a sum became more or less.
fn line_after(
    alloc: Global,
    balance: &Balance,
    off: &Option<Form>,
    name: usize,
    form: &Option<Form>,
    adds: bool,
) -> Result<Option<Form>, NoMemory> {
    let mut off = match off {
        Some(off) => Some(off.copied(alloc)?),
        None => None,
    };
    for signed in &balance.sums {
        if signed.sum == name {
            off = off_after(alloc, balance, &off, form, adds != signed.minus)?;
        }
    }
    Ok(off)
}

fn lines_after(
    alloc: Global,
    balances: &[Balance],
    sums: &mut Sums,
    name: usize,
    form: &Option<Form>,
    adds: bool,
) -> Result<(), NoMemory> {
    let mut forms = Vec::new(alloc);
    for (balance, off) in balances.iter().zip(sums.off.iter()) {
        push(
            &mut forms,
            line_after(alloc, balance, off, name, form, adds)?,
        )?;
    }
    sums.off = forms;
    Ok(())
}

fn on_after(
    alloc: Global,
    rules: &Rules<'_>,
    before: &Sums,
    on: &On,
    sums: &mut Sums,
) -> Result<(), NoMemory> {
    let (amount, adds) = match &on.effect {
        Effect::Add(amount) => (amount, true),
        Effect::Take(amount) => (amount, false),
        _ => return Ok(()),
    };
    let form = form_of_amount(alloc, before, amount)?;
    lines_after(alloc, rules.balances.as_slice(), sums, on.name, &form, adds)
}

/// The sums count an event, by the public bytes as they were before its instruction.
///
/// # Errors
///
/// Returns `NoMemory` if it is out of memory.
pub fn count_sums(
    alloc: Global,
    rules: &Rules<'_>,
    before: &Sums,
    matched: &[bool],
    sums: &mut Sums,
) -> Result<(), NoMemory> {
    for (on, is) in rules.ons.iter().zip(matched.iter()) {
        if *is {
            on_after(alloc, rules, before, on, sums)?;
        }
    }
    Ok(())
}

// Whether a line is even.
fn is_even(balance: &Balance, off: &Option<Form>) -> bool {
    match off {
        Some(form) => form.is_zero(balance.n),
        None => false,
    }
}

/// Each line of sums whose block is off is broken at a place, and is taken as if it were not.
///
/// # Errors
///
/// Returns `NoMemory` if it is out of memory.
pub fn ask_balances(
    alloc: Global,
    rules: &Rules<'_>,
    at: u16,
    sums: &mut Sums,
    out: &mut Vec<Outcome>,
) -> Result<(), NoMemory> {
    let mut forms = Vec::new(alloc);
    for (number, balance) in rules.balances.iter().enumerate() {
        if let Some(off) = sums.off.get(number) {
            if !is_even(balance, off) {
                let broken = Break {
                    line: balance.line,
                    at: Some(at),
                    rule: Rule::Balance(number),
                };
                push(out, Outcome::Broken(broken))?;
            }
        }
        push(&mut forms, Some(Form::constant(alloc, 0)))?;
    }
    sums.off = forms;
    Ok(())
}

/// Returns what a line says that its block is at the creation, modulo 256 to the 16th.
pub fn balance_at_creation(rules: &Rules<'_>, balance: &Balance) -> u128 {
    let mut value = balance.constant as u128;
    for signed in &balance.sums {
        if let Some(sum) = rules.sums.get(signed.sum) {
            let amount = sum.amount as u128;
            value = if signed.minus {
                value.wrapping_sub(amount)
            } else {
                value.wrapping_add(amount)
            };
        }
    }
    value
}
