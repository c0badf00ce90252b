// A deck that is played and counted, and the results of its dump lines.
ghost use Rattle.std.specs.Prelude.{◌≡◌, ◌++◌, List};
ghost use Rattle.std.specs.List.{AllByRecursion};
ghost use Rattle.model_play.specs.model_device.specs.Device.{IsImage};
ghost use Rattle.model_play.specs.Play.{start, State, LineResult};
ghost use Rattle.model_play.specs.ReadyAgain.{IsLine};
ghost use Rattle.model_play.specs.Generator.{count_line, summary};
ghost use Rattle.mc_deck.specs.Lines.{line_of};
ghost use Rattle.mc_text.specs.Texts.{sunk, Puts};
ghost use Rattle.mc_script.specs.Players.{device_of, IsUnfused};
ghost use Rattle.mc_script.specs.Benches.{bench_at, bench_of, IsPlayerAt, IsPlaying, Tallied};
ghost use Rattle.mc_script.specs.Writers.{write_result};
ghost use Rattle.mc_script.specs.Sums.{Counted, DumpsLast, dump_text, dumps_text, SumsFrom};

use crate::answer::Answer;
use crate::player::Player;
use crate::runner::Silent;
use crate::summary::{Counts, counted, put_counts};
use crate::text::{Text, add_result};
use crate::writer::Writer;
use mc_deck::{Deck, Line};
use mc_nvm::Bench;
use mc_streams::{Sink, WriteFault};
use mc_text::{add, put};
use mc_words::Steps;
use std::sync::ledger::Ledger;

// Plays all lines of a deck, and counts their results.
fn tally<N: Bench, L: Ledger>(player: &mut Player<N>, deck: &Deck, steps: &mut Steps<L>) -> Counts
    requires { IsPlaying N.Bench player.old }
    ensures tallied { (s : State) → IsPlayerAt N.Bench player.old s
        → Tallied N.Bench s deck.now (bench_of N.Bench player.old) player.new result
        steps.old steps.new }
    ensures keeps_device { N.same (device_of player.old) (device_of player.new) }
{
    let mut counts = Counts::new();
    let mut runner = Silent;
    for i in 0..deck.len() {
        let (_number, line) = deck.line(i);
        let answer = player.line(&line, &mut runner, steps);
        counts = counted(counts, player, &answer);
    }
    counts
}

// Writes the result of a line on a line of its own, if it is a dump line.
fn put_dump<N: Bench, T: Sink>(
    out: &mut T,
    text: &mut Text,
    player: &Player<N>,
    line: &Line<'_>,
) -> Result<(), WriteFault>
    requires { IsPlaying N.Bench player.now }
    ensures { (s : State) → IsPlayerAt N.Bench player.now s
        → Puts (sunk T.Sink out.old) (dump_text s (line_of line.now)) result
        (sunk T.Sink out.new) }
{
    let Line::Dump(aid) = line else {
        return Ok(());
    };
    text.clear();
    add_result(text, player, &Answer::Dump(*aid));
    add(text, b"\n");
    put(out, text.as_slice())
}

// Writes the results of the dump lines of a deck.
fn put_dumps<N: Bench, T: Sink>(
    out: &mut T,
    text: &mut Text,
    player: &Player<N>,
    deck: &Deck,
) -> Result<(), WriteFault>
    requires { IsPlaying N.Bench player.now }
    ensures { (s : State) → IsPlayerAt N.Bench player.now s
        → Puts (sunk T.Sink out.old) (dumps_text s deck.now) result (sunk T.Sink out.new) }
{
    for i in 0..deck.len() {
        let (_number, line) = deck.line(i);
        put_dump(out, text, player, &line)?;
    }
    Ok(())
}

// Writes the counts, and the results of the dump lines after them.
fn put_summary<N: Bench, T: Sink>(
    out: &mut T,
    text: &mut Text,
    counts: &Counts,
    player: &Player<N>,
    deck: &Deck,
) -> Result<(), WriteFault>
    requires { IsPlaying N.Bench player.now }
    ensures { (s : State) (rs : List LineResult) → IsPlayerAt N.Bench player.now s → Counted counts.now rs
        → Puts (sunk T.Sink out.old) (count_line rs
        ++ dumps_text s deck.now) result (sunk T.Sink out.new) }
{
    put_counts(out, counts)?;
    put_dumps(out, text, player, deck)
}

/// Plays all lines of a deck on a device, and writes the summary of the play.
pub fn sum_lines<N: Bench, T: Sink, L: Ledger>(
    deck: &Deck,
    device: N,
    writer: &mut Writer<'_, T>,
    steps: &mut Steps<L>,
) -> N
    requires fuses { IsUnfused (N.bench device) }
    requires dumps { DumpsLast deck.now }
    ensures sums { SumsFrom summary (start (N.state device).words) deck.now
        (bench_at N.Bench device) (sunk T.Sink writer.old.out.now)
        (write_result writer.new.fault) (bench_at N.Bench result)
        (sunk T.Sink writer.new.out.now) steps.old steps.new }
    ensures image { IsImage (N.state device).words }
    ensures lines { AllByRecursion (λ l. IsLine l.1) deck.now }
    ensures keeps_device { N.same device result }
    ensures same { writer.new.out.ghost_name ≡ writer.old.out.ghost_name }
{
    let _words = device.len();
    let _lines = deck.len();
    let mut player = Player::new(device);
    let counts = tally(&mut player, deck, steps);
    writer.fault = put_summary(writer.out, &mut writer.line, &counts, &player, deck).err();
    player.into_dev()
}
