// What is read of an instruction that was done.
ghost use Rattle.std.specs.Prelude.{◌≡◌, ◌≤◌, ◌==◌, ℕ, bytes_eq, drop, Option, option_map, IfOk, IfSome};
ghost use Rattle.mc_apdu.specs.model_machine.specs.Code.{Shaped};
ghost use Rattle.mc_isa.specs.model_text.specs.Text.{first_cut};
ghost use Rattle.lab_app_rules.specs.model_rules.specs.Keeping.{mode_of_primitive};
ghost use Rattle.law_events.specs.law_promise.specs.model_events.specs.Amounts.{turn_text};
ghost use Rattle.mc_bank.specs.Bank.{name_or};
ghost use Rattle.mc_machine.specs.declared.outcome.Outcome.{Outcome as ModelOutcome};
ghost use Rattle.mc_machine.specs.Turns.{full_turn, turn_value};
ghost use Rattle.mc_isa.specs.Primitives.{primitive_of};
ghost use Rattle.mc_segs.specs.HeldFrames.{CanRun};
ghost use Rattle.lab_record.specs.Fitting.{fitting_from};
ghost use Rattle.law_events.specs.Turns.{mode_in};
ghost use Rattle.lab_app_rules.specs.declared.rules.Event.TheVariants as event;

use crate::fitting::fitting;
use lab_app_rules::{Event, On};
use mc_bank::Bank;
use mc_card::BriefTurn;
use mc_isa::{Ins, Primitive};
use mc_segs::Frame;
use mc_text::cut;
use mc_trace::line_of_brief;
use mc_words::{Aid, NoMemory};
use std::alloc::Global;

/// Returns whether a frame is one of the application with a name.
pub fn is_named<B: Bank>(bank: &B, frame: &Frame, aid: &Aid) -> bool
    requires { CanRun B.Bank bank.now frame.now }
    ensures { result ≡ bytes_eq (name_or (B.named bank.now frame.now.slot)) aid.now }
{
    bank.facts(frame.slot()).aid.bytes() == aid.bytes()
}

// The mode of a primitive that sets the protection.
fn primitive_mode(primitive: Option<Primitive>, mode: u8) -> Option<u8>
    ensures { result ≡ mode_of_primitive (option_map primitive_of primitive) mode }
{
    match primitive {
        Some(Primitive::SetProtection) => Some(mode),
        _ => None,
    }
}

/// Returns the mode that an instruction gives the protection, if it sets it.
pub fn mode_of(ins: &Option<Ins>) -> Option<u8>
    ensures { result ≡ mode_in ins.now }
{
    match ins {
        Some(Ins::Prim { set, number, args }) => {
            primitive_mode(Primitive::of(*set, *number), args[0])
        }
        _ => None,
    }
}

// The line of a trace without its mark and its line feed.
fn text_of(line: &[u8]) -> &[u8]
    ensures { result.now ≡ drop 1 (first_cut (λ c. c == 10) line.now).0 }
{
    match cut(line, b'\n').0 {
        [_, text @ ..] => text,
        [] => &[],
    }
}

/// Returns the numbers of the `on` lines that fit an instruction that was done.
///
/// # Errors
///
/// Returns `NoMemory` if it is out of memory.
pub fn fitting_turn(alloc: Global, ons: &[On], turn: &BriefTurn) -> Result<Vec<usize>, NoMemory>
    requires shaped { IfSome turn.now.ins Shaped }
    requires low { 1 ≤ turn.now.depth }
    requires high { turn.now.depth ≤ 4 }
    ensures { (o : ModelOutcome) (wrote : Option ℕ) → IfOk result (λ lines. lines.items
        ≡ fitting_from 0 event.Turn (turn_text (turn_value (full_turn turn.now o) wrote)) ons.now) }
{
    let line = line_of_brief(turn);
    fitting(alloc, ons, Event::Turn, text_of(line.as_slice()))
}
