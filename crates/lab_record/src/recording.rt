// A line that is played and recorded.
ghost use Rattle.std.specs.Prelude.{◌≡◌, ℕ, false, List, IfOk, Option, option_map, Some};
ghost use Rattle.law_events.specs.law_promise.specs.model_play.specs.Play as play;
ghost use Rattle.law_events.specs.law_promise.specs.model_play.specs.Play.{FailedWrite, State, step};
ghost use Rattle.law_events.specs.law_promise.specs.History.{is_selected_in, is_selected_on};
ghost use Rattle.mc_isa.specs.model_text.specs.Listing.{hex_text};
ghost use Rattle.mc_deck.specs.Lines.{line_of, GoodLine};
ghost use Rattle.mc_script.specs.Benches.{IsPlayerAt, IsPlaying};
ghost use Rattle.mc_script.specs.Lives.{LiveShows};
ghost use Rattle.mc_script.specs.Players.{device_of};
ghost use Rattle.mc_text.specs.model_text.specs.TurnText.{outcome_text};
ghost use Rattle.mc_machine.specs.Turns.{outcome_value};
ghost use Rattle.lab_record.specs.Courses.{answer_lines, answered_from, command_lines, ended_by, is_answered};
ghost use Rattle.law_events.specs.Events.{has_session, own_command};
ghost use Rattle.lab_record.specs.Benches.{IsSteadyAt};
ghost use Rattle.lab_record.specs.Logs.{values_of};
ghost use Rattle.lab_record.specs.Playing.{IsCourse, IsPlayed};
ghost use Rattle.lab_record.specs.Steady.{steady_step};

use crate::fitting::{fitting, hex_of, is_fitting};
use crate::recorder::Recorder;
use crate::sending::{is_done, is_outcome, is_power, is_selection, is_stopped, passed_command};
use crate::subject::Subject;
use lab_app_rules::{Event, On};
use lab_branch::push;
use lab_history::{Course, Happening};
use lab_match::fits;
use mc_deck::Line;
use mc_nvm::Bench;
use mc_script::{Answer, Live, Player, Text, add_result};
use mc_words::{Aid, NoMemory, Steps};
use std::alloc::Global;
use std::sync::ledger::Ledger;

/// A line that was played: what happened to the application as far as it came, whether a stop hit it, the turns that were
/// taken, and whether its command was passed to an application.
#[derive(Drop)]
pub struct Played {
    pub course: Course,
    pub is_stopped: bool,
    pub turns: u64,
    pub has_begun: bool,
}

// Whether the application with a name is selected on a card, if one runs.
fn selects(live: &Live, aid: &Aid) -> bool
    ensures { (words : List (List ℕ)) (l : play.Live) → LiveShows words live.now l
        → result ≡ is_selected_on aid.now l }
{
    match live {
        Live::Running(saved) => match saved.selected() {
            Some(selected) => selected.bytes() == aid.bytes(),
            None => false,
        },
        Live::Unpowered => false,
        Live::Muted => false,
    }
}

// Whether the application with a name is selected on the card of a player.
fn is_selected<N: Bench>(alloc: Global, player: &Player<N>, aid: &Aid) -> Result<bool, NoMemory>
    requires { IsPlaying N.Bench player.now }
    ensures { IfOk result (λ is. (s : State) → IsPlayerAt N.Bench player.now s → is ≡ is_selected_in aid.now s) }
{
    let live = player.live(alloc)?;
    Ok(selects(&live, aid))
}

// The numbers of the `on` lines that fit a command, if there is one.
fn command_lines(alloc: Global, ons: &[On], command: Option<&[u8]>) -> Result<Vec<usize>, NoMemory>
    ensures { IfOk result (λ lines. lines.items ≡ command_lines ons.now (option_map (λ b. b.now) command.entry)) }
{
    let Some(command) = command else {
        return Ok(Vec::new(alloc));
    };
    let text = hex_of(alloc, command)?;
    fitting(alloc, ons, Event::Command, text.as_slice())
}

// Whether an `on` line is about answers, and its patterns fit a command and its result.
fn is_answered(on: &On, command: &[u8], text: &[u8]) -> bool
    ensures { result ≡ is_answered command.now text.now on.now }
{
    is_fitting(on, Event::Answer, command) && fits(on.result.as_slice(), text)
}

// The numbers of these lines.
fn answered(alloc: Global, ons: &[On], command: &[u8], text: &[u8]) -> Result<Vec<usize>, NoMemory>
    ensures { IfOk result (λ lines. lines.items ≡ answered_from 0 command.now text.now ons.now) }
{
    let mut lines = Vec::new(alloc);
    for (i, on) in ons.iter().enumerate() {
        if is_answered(on, command, text) {
            push(&mut lines, i)?;
        }
    }
    Ok(lines)
}

// The numbers of the `on` lines that fit a command with its end.
fn ended_lines<N: Bench>(
    alloc: Global,
    ons: &[On],
    command: &[u8],
    player: &Player<N>,
) -> Result<Vec<usize>, NoMemory>
    requires { IsPlaying N.Bench player.now }
    ensures { IfOk result (λ lines. lines.items
        ≡ answered_from 0 (hex_text command.now) (outcome_text (outcome_value player.now.outcome)) ons.now) }
{
    let command = hex_of(alloc, command)?;
    let mut text = Text::new();
    add_result(&mut text, player, &Answer::Outcome);
    answered(alloc, ons, command.as_slice(), text.as_slice())
}

// The numbers of the `on` lines that fit a command with its end, if there is one, and by whether it ended.
fn answer_lines<N: Bench>(
    alloc: Global,
    ons: &[On],
    command: Option<&[u8]>,
    player: &Player<N>,
    ended: bool,
) -> Result<Vec<usize>, NoMemory>
    requires { IsPlaying N.Bench player.now }
    ensures { IfOk result (λ lines. lines.items
        ≡ answer_lines ons.now (option_map (λ b. b.now) command.entry) (ended_by ended player.now)) }
{
    let Some(command) = command else {
        return Ok(Vec::new(alloc));
    };
    if !ended {
        return Ok(Vec::new(alloc));
    }
    ended_lines(alloc, ons, command, player)
}

// The command of a line that reaches the application, by whether it is selected.
fn own_command<'a>(line: &Line<'a>, is_selected: bool) -> Option<&'a [u8]>
    ensures { option_map (λ b. b.now) result ≡ own_command is_selected (line_of line.now) }
{
    if is_selected {
        passed_command(line)
    } else {
        None
    }
}

// Whether a session of the application begins or ends with a line, by whether its command ended with status 9000, and
// by whether the application is selected before it and after it.
fn has_session(line: &Line<'_>, done: bool, was: bool, is: bool) -> bool
    ensures { result ≡ has_session (line_of line.now) done was is }
{
    (is_power(line) && was) || (is_selection(line) && done && (was || is))
}

// What happened to the application while a line was played on a player, by whether it was selected before, whether its
// command ended, and what its instructions do.
fn course_of<N: Bench>(
    alloc: Global,
    player: &Player<N>,
    line: &Line<'_>,
    subject: Subject<'_>,
    was_selected: bool,
    ended: bool,
    deeds: Vec<Happening>,
) -> Result<Course, NoMemory>
    requires { IsPlaying N.Bench player.now }
    ensures { IfOk result (λ course. (s : State) → IsPlayerAt N.Bench player.now s
        → IsCourse subject.entry.rules.now (line_of line.now) was_selected (is_selected_in subject.entry.aid.now s)
        (ended_by ended player.now) (values_of deeds.items) course) }
{
    let command = own_command(line, was_selected);
    let ons = subject.rules.ons.as_slice();
    let is_selected = is_selected(alloc, player, subject.aid)?;
    let done = is_done(player, ended);
    let lines = command_lines(alloc, ons, command)?;
    let answer = answer_lines(alloc, ons, command, player, ended)?;
    let has_session = has_session(line, done, was_selected, is_selected);
    Ok(Course {
        command: lines,
        deeds,
        answer,
        was_selected,
        has_session,
    })
}

/// Plays a line, and returns what happened to the application.
///
/// # Errors
///
/// Returns `NoMemory` if it is out of memory.
pub fn play_recorded<N: Bench, L: Ledger>(
    alloc: Global,
    player: &mut Player<N>,
    line: &Line<'_>,
    subject: Subject<'_>,
    steps: &mut Steps<L>,
) -> Result<Played, NoMemory>
    requires playing { IsPlaying N.Bench player.old }
    requires good { GoodLine (line_of line.now) }
    ensures playing { IsPlaying N.Bench player.new }
    ensures keeps_device { N.same (device_of player.old) (device_of player.new) }
    // What was recorded is what the line did to what is counted of the application, as it was played from each state
    // that the player was at.
    ensures played { IfOk result (λ p. (s : State) (n : ℕ) → IsPlayerAt N.Bench player.old s
        → (w : Option FailedWrite) × IsPlayerAt N.Bench player.new (step s (n, line_of line.now) w).after
        × IsPlayed subject.entry.rules.now subject.entry.aid.now (step s (n, line_of line.now) w) p) }
    // On a device that refuses just the writes of `fail` lines this is the step of the line.
    ensures recorded { IfOk result (λ p. (s : State) (n : ℕ) → IsSteadyAt N.Bench player.old s
        → IsSteadyAt N.Bench player.new (steady_step s (n, line_of line.now)).after
        × IsPlayed subject.entry.rules.now subject.entry.aid.now (steady_step s (n, line_of line.now)) p) }
{
    let was_selected = is_selected(alloc, player, subject.aid)?;
    let mut recorder = Recorder::new(alloc, subject);
    let answer = player.line(line, &mut recorder, steps);
    if recorder.is_short {
        return Err(NoMemory);
    }
    let ended = is_outcome(&answer);
    let turns = recorder.turns;
    let course = course_of(
        alloc,
        player,
        line,
        subject,
        was_selected,
        ended,
        recorder.deeds,
    )?;
    Ok(Played {
        is_stopped: is_stopped(&answer),
        turns,
        has_begun: passed_command(line).is_some(),
        course,
    })
}
