// The allowances after events that are no turns.
use crate::keys::{Break, Outcome, Rule};
use crate::subject::Subject;
use lab_app_rules::Event;
use model_device::NoMemory;
use prove_events::{Firing, fire, lines_of};
use prove_facts::push;
use std::alloc::Global;

/// Returns the amounts after an event that these lines match, or `None` if it breaks a rule: that is an outcome then.
///
/// # Errors
///
/// Returns `NoMemory` if it is out of memory.
pub fn amounts_after(
    alloc: Global,
    subject: &Subject<'_>,
    at: Option<u16>,
    amounts: &[u32],
    matched: &[bool],
    out: &mut Vec<Outcome>,
) -> Result<Option<Vec<u32>>, NoMemory> {
    match fire(alloc, subject.rules.ons.as_slice(), amounts, matched)? {
        Firing::Amounts(after) => Ok(Some(after)),
        Firing::Broken { line, name } => {
            push(
                out,
                Outcome::Broken(Break {
                    line,
                    at,
                    rule: Rule::Allowance(name),
                }),
            )?;
            Ok(None)
        }
    }
}

/// Returns the amounts after a session that begins or ends, or `None` if that breaks a rule.
///
/// # Errors
///
/// Returns `NoMemory` if it is out of memory.
pub fn session(
    alloc: Global,
    subject: &Subject<'_>,
    amounts: &[u32],
    out: &mut Vec<Outcome>,
) -> Result<Option<Vec<u32>>, NoMemory> {
    let matched = lines_of(alloc, subject.rules.ons.as_slice(), Event::Session)?;
    amounts_after(alloc, subject, None, amounts, matched.as_slice(), out)
}
