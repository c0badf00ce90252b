// The command of a line, and how it ended.
ghost use Rattle.std.specs.Prelude.{◌≡◌, option_map, Some};
ghost use Rattle.mc_bank.specs.model_card.specs.Manager.{route};
ghost use Rattle.mc_deck.specs.Lines.{line_of};
ghost use Rattle.mc_machine.specs.Turns.{outcome_value};
ghost use Rattle.law_events.specs.Events.{is_done, is_selection, is_to_application, is_to_select, passed_command};
ghost use Rattle.law_events.specs.law_promise.specs.model_play.specs.Given.{is_power};
ghost use Rattle.lab_record.specs.Courses.{ended_by, is_outcome, stop_in};

use mc_apdu::parse;
use mc_deck::Line;
use mc_machine::Outcome;
use mc_nvm::Bench;
use mc_script::{Answer, Player};

// Whether a command is passed to the selected application.
fn is_to_application(bytes: &[u8]) -> bool
    ensures { result ≡ is_to_application (route bytes.now) }
{
    match parse(bytes) {
        Ok(apdu) => {
            apdu.cla != 0xFF
                && !(apdu.cla == 0 && apdu.ins == 0xA4 && apdu.p1 == 4)
                && apdu.cla != 0xBE
        }
        Err(_) => false,
    }
}

// Whether a command is a SELECT by name.
fn is_to_select(bytes: &[u8]) -> bool
    ensures { result ≡ is_to_select (route bytes.now) }
{
    match parse(bytes) {
        Ok(apdu) => apdu.cla == 0 && apdu.ins == 0xA4 && apdu.p1 == 4,
        Err(_) => false,
    }
}

/// Returns the command of a line that is passed to the selected application, if there is one.
pub fn passed_command<'a>(line: &Line<'a>) -> Option<&'a [u8]>
    ensures { option_map (λ b. b.now) result ≡ passed_command (line_of line.now) }
{
    match line {
        Line::Apdu(bytes) => if is_to_application(bytes) {
            Some(bytes)
        } else {
            None
        },
        _ => None,
    }
}

/// Returns whether a line is a SELECT by name.
pub fn is_selection(line: &Line<'_>) -> bool
    ensures { result ≡ is_selection (line_of line.now) }
{
    match line {
        Line::Select(_) => true,
        Line::Apdu(bytes) => is_to_select(bytes),
        _ => false,
    }
}

/// Returns whether a line is a power line.
pub fn is_power(line: &Line<'_>) -> bool
    ensures { result ≡ is_power (line_of line.now) }
{
    match line {
        Line::Power => true,
        _ => false,
    }
}

/// Returns whether the command of a line ended, by what the line answered.
pub fn is_outcome(answer: &Option<Answer>) -> bool
    ensures { result ≡ is_outcome answer.now }
{
    match answer {
        Some(Answer::Outcome) => true,
        _ => false,
    }
}

/// Returns whether a stop hit a line, by what it answered.
pub fn is_stopped(answer: &Option<Answer>) -> bool
    ensures { result ≡ stop_in answer.now }
{
    match answer {
        Some(Answer::OffAt(_)) => true,
        Some(Answer::Worn) => true,
        _ => false,
    }
}

// Whether a command ended with status 9000.
fn is_accepted(outcome: &Outcome) -> bool
    ensures { result ≡ is_done (Some (outcome_value outcome.now)) }
{
    match outcome {
        Outcome::Reply(reply) => reply.sw == 0x9000,
        Outcome::Abend(_) => false,
    }
}

/// Returns whether the command of the line that a player played ended with status 9000, by whether it ended.
pub fn is_done<N: Bench>(player: &Player<N>, ended: bool) -> bool
    ensures { result ≡ is_done (ended_by ended player.now) }
{
    ended && is_accepted(player.outcome())
}
