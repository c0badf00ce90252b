// The play of a deck as JSON Lines.
ghost use Rattle.std.specs.Prelude.{◌≡◌, ◌≤◌, ◌++◌, ℕ, List, [], codes, option_map, Some};
ghost use Rattle.std.specs.List.{AllByRecursion};
ghost use Rattle.arrayvec.specs.ArrayVec.{array_vec_len};
ghost use Rattle.mc_words.specs.model_device.specs.Device.{IsImage};
ghost use Rattle.mc_deck.specs.model_play.specs.Play.{start};
ghost use Rattle.mc_text.specs.Texts.{sunk};
ghost use Rattle.mc_deck.specs.model_play.specs.Transcript.{text_of_result};
ghost use Rattle.mc_deck.specs.model_play.specs.ReadyAgain.{IsLine};
ghost use Rattle.mc_script.specs.Players.{answer_value, IsUnfused};
ghost use Rattle.mc_script.specs.Benches.{bench_at, IsPlaying};
ghost use Rattle.desk_steps.specs.Json.{characters};
ghost use Rattle.desk_steps.specs.Sheets.{Adds, PutsOn};
ghost use Rattle.desk_steps.specs.Lines.{line_keys, line_text, result_key};
ghost use Rattle.desk_steps.specs.Recorded.{PutsText, RecordsPlay, StepsDeck, StoppedBy};

use crate::recording::Recorder;
use crate::statements::Statements;
use crate::{Sheet, written};
use arrayvec::ArrayVec;
use desk_cover::Sections;
use mc_deck::Deck;
use mc_nvm::Bench;
use mc_script::{Answer, Player, Text, add_result};
use mc_streams::{Sink, WriteFault};
use mc_words::Steps;
use std::sync::ledger::Ledger;

// The text of a result of a player.
fn result_of<N: Bench>(player: &Player<N>, answer: &Answer) -> Text
    requires { IsPlaying N.Bench player.now }
    ensures text { result.items ≡ text_of_result (answer_value N.state player.now answer.now) }
    ensures short { array_vec_len result ≤ 8210 }
{
    let mut text = ArrayVec::new();
    add_result(&mut text, player, answer);
    text
}

// Adds a result of a player.
fn add_given<N: Bench, T: Sink>(sheet: &mut Sheet<'_, T>, player: &Player<N>, answer: &Answer)
    requires { IsPlaying N.Bench player.now }
    ensures { Adds T.Sink sheet.old (result_key (Some (answer_value N.state player.now answer.now))) sheet.new }
{
    let text = result_of(player, answer);
    sheet.add(b",\"result\":\"");
    sheet.add(text.as_slice());
    sheet.add(b"\"");
}

// Adds the result of a line, if it has one.
fn add_answer<N: Bench, T: Sink>(
    sheet: &mut Sheet<'_, T>,
    player: &Player<N>,
    answer: &Option<Answer>,
)
    requires { IsPlaying N.Bench player.now }
    ensures { Adds T.Sink sheet.old (result_key (option_map (answer_value N.state player.now) answer.now)) sheet.new }
{
    if let Some(answer) = answer {
        add_given(sheet, player, answer);
    }
}

// Adds a statement.
fn add_statement<T: Sink>(sheet: &mut Sheet<'_, T>, statement: &[u8])
    ensures { Adds T.Sink sheet.old (codes ",\"text\":\"" ++ characters statement.now ++ codes "\"") sheet.new }
{
    sheet.add(b",\"text\":\"");
    sheet.add_characters(statement);
    sheet.add(b"\"");
}

// Adds the number of a line and its statement.
fn add_line<T: Sink>(sheet: &mut Sheet<'_, T>, number: u32, statement: &[u8])
    ensures { Adds T.Sink sheet.old (line_keys number statement.now) sheet.new }
{
    sheet.add_key(b"{\"line\":", number);
    sheet.add_key(b",\"source\":", number);
    add_statement(sheet, statement);
}

// Writes the line of a line of the deck, whose text is `statement`.
fn put_line<N: Bench, T: Sink>(
    sheet: &mut Sheet<'_, T>,
    number: u32,
    statement: &[u8],
    player: &Player<N>,
    answer: &Option<Answer>,
)
    requires { IsPlaying N.Bench player.now }
    ensures adds { Adds T.Sink sheet.old (line_text number statement.now
        (option_map (answer_value N.state player.now) answer.now)) sheet.new }
    ensures text { sheet.new.text.items ≡ [] }
{
    add_line(sheet, number, statement);
    add_answer(sheet, player, answer);
    sheet.end_line();
}

// Writes the line of a line of the deck, whose text is `statement`, and returns the fault of the sink.
fn write_line<N: Bench, T: Sink>(
    out: &mut T,
    fault: Option<WriteFault>,
    number: u32,
    statement: &[u8],
    player: &Player<N>,
    answer: &Option<Answer>,
) -> Option<WriteFault>
    requires { IsPlaying N.Bench player.now }
    ensures { PutsOn fault (sunk T.Sink out.old) (line_text number statement.now
        (option_map (answer_value N.state player.now) answer.now)) result (sunk T.Sink out.new) }
{
    let mut sheet = Sheet::new(&mut *out, fault);
    put_line(&mut sheet, number, statement, player, answer);
    sheet.fault()
}

// Records a line of the deck, whose text is `statement`, and before it the frame of its command if a stop hit its first
// turn.
fn record_line<N: Bench, T: Sink>(
    recorder: &mut Recorder<'_, '_, T>,
    number: u32,
    statement: &[u8],
    player: &Player<N>,
    answer: &Option<Answer>,
)
    requires { IsPlaying N.Bench player.now }
    ensures puts { (frame : List ℕ) × StoppedBy recorder.old frame × PutsText T.Sink recorder.old
        (frame ++ line_text number statement.now
        (option_map (answer_value N.state player.now) answer.now)) recorder.new }
    ensures sections { recorder.new.sections.now ≡ recorder.old.sections.now }
{
    recorder.end_turns();
    recorder.fault = write_line(
        recorder.out,
        recorder.fault,
        number,
        statement,
        player,
        answer,
    );
}

// Plays a deck, whose text is `text`, on a device before a recorder.
fn play_lines<N: Bench, T: Sink, L: Ledger>(
    deck: &Deck,
    text: &[u8],
    device: N,
    recorder: &mut Recorder<'_, '_, T>,
    steps: &mut Steps<L>,
) -> N
    requires { IsUnfused (N.bench device) }
    ensures records { RecordsPlay T.Sink text.now (start (N.state device).words) deck.now
        (bench_at N.Bench device)
        (bench_at N.Bench result) recorder.old recorder.new }
    ensures image { IsImage (N.state device).words }
    ensures lines { AllByRecursion (λ l. IsLine l.1) deck.now }
    ensures keeps_device { N.same device result }
{
    let _words = device.len();
    let _lines = deck.len();
    let mut statements = Statements::new(text);
    let mut player = Player::new(device);
    for i in 0..deck.len() {
        let (number, line) = deck.line(i);
        recorder.begin_line(&line);
        let answer = player.line(&line, recorder, steps);
        let statement = statements.statement(number);
        record_line(recorder, number, statement, &player, &answer);
    }
    player.into_dev()
}

/// Plays the deck of a draft, whose text is `text`, on a device, and writes the play as JSON Lines: each frame that
/// begins with its bytes, each turn with the bytes that it changed and its device writes, and each line with its result.
///
/// The device has no fuse at the start. All lines are played, also if the sink fails.
///
/// # Errors
///
/// Returns the fault of the sink.
pub fn put_steps<N: Bench, T: Sink, L: Ledger>(
    sections: &Sections<'_>,
    text: &[u8],
    deck: &Deck,
    dev: &mut N,
    out: &mut T,
    steps: &mut Steps<L>,
) -> Result<(), WriteFault>
    requires { IsUnfused (N.bench dev.old) }
    // All lines of the deck are played in order. The text has a line for each of them, in order, with its number, its
    // statement and its result, and before it one for each of its turns, in order: that of the definition. Before the
    // first turn is the line of the first frame, and after a turn that called a frame is its line.
    ensures { StepsDeck sections.now text.now deck.now
        (bench_at N.Bench dev.old) (sunk T.Sink out.old) result
        (bench_at N.Bench dev.new) (sunk T.Sink out.new) }
{
    let mut recorder = Recorder::new(&mut *out, sections);
    let _dev = play_lines(deck, text, &mut *dev, &mut recorder, steps);
    written(recorder.fault)
}
