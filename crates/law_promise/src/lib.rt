#![tactic(auto)]

//! What an application itself promises, proved for every deck: histories of events, proof outlines, the rule that
//! carries them, and a counter as an example; abstract domains, of which outlines are one kind.

mod examples;
mod rule;

ghost use Rattle.std.specs.Prelude.{◌≡◌, ◌<◌, ◌≤◌, ℕ, List, length, Ok, Some};
ghost use Rattle.model_events.specs.model_device.specs.Bytes.{AreBytes};
ghost use Rattle.model_events.specs.model_machine.specs.Apdu.{ApduParts, apdu_read};
ghost use Rattle.model_events.specs.model_text.specs.Assembly.{assembly_of};
ghost use Rattle.law_promise.specs.Along.{FormattedLaw};
ghost use Rattle.law_promise.specs.Counter.{CounterFromLaw, CounterLaw, counter_code, counter_text};

pub use examples::{counter_goes_on, counter_play, set_back_falls};
pub use rule::{Analysis, Promise, covers, covers_from, keeps, keeps_from};

/// The card of a device that was formatted just before the first power line has none of any name, whatever stop hits
/// that line.
pub fn formatted_has_none()
    ensures { FormattedLaw }
{}

/// A command of bytes carries at most 1,024 bytes of data, and its INS is below 256; what an application promises of
/// commands asks for no more.
pub fn data_are_few()
    ensures { (bytes : List ℕ) (a : ApduParts) → AreBytes bytes → apdu_read bytes ≡ Some a
        → (length a.body ≤ 1024) × (a.ins < 256) }
{}

/// The text of the counter is assembled to its code.
#[tactic(auto, unfolding(model_text::specs::Assembly::assembly_of))]
pub fn counter_is_assembled()
    ensures { assembly_of counter_text ≡ Ok counter_code }
{}

/// In every play, whatever is cut, whichever writes fail and whatever else is on the card, the counter's static bytes
/// hold the newest count, which is one more than the one before it; a count that was answered with 9000 is durable, and
/// one that was answered with another status changed nothing.
pub fn counter()
    ensures { CounterLaw }
{}

/// So it is from a history that a counter which is already on the card begins with: it goes on from there.
pub fn counter_from()
    ensures { CounterFromLaw }
{}
