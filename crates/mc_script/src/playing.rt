// Whole decks.
ghost use Rattle.std.specs.Prelude.{◌≡◌, None};
ghost use Rattle.std.specs.List.{AllByRecursion};
ghost use Rattle.model_play.specs.model_device.specs.Device.{IsImage};
ghost use Rattle.model_play.specs.Play.{start};
ghost use Rattle.model_play.specs.ReadyAgain.{IsLine};
ghost use Rattle.mc_script.specs.Players.{IsUnfused};
ghost use Rattle.mc_script.specs.Writers.{write_result};
ghost use Rattle.model_play.specs.Generator.{summary};
ghost use Rattle.mc_script.specs.Sums.{DumpsLast};
ghost use Rattle.mc_script.specs.Plays.{plain_text, traced_text, PlaysDeck, SumsDeck};
ghost use Rattle.mc_script.specs.StepCounts.{CountsFrom, CountsDeck, CountsSum};
ghost use Rattle.mc_script.specs.Benches.{bench_at};

use crate::player::Player;
use crate::reporter::Reporter;
use crate::summing::sum_lines;
use crate::writer::{Reporting, Writer};
use mc_deck::Deck;
use mc_nvm::Bench;
use mc_streams::{Sink, WriteFault};
use mc_words::Steps;
use std::sync::ledger::Ledger;

/// Plays a deck on a device before a reporter, up to the first line whose text is not wholly written. That line is
/// played whole.
pub fn play_lines<N: Bench, R: Reporter, L: Ledger>(
    deck: &Deck,
    device: N,
    reporter: &mut R,
    steps: &mut Steps<L>,
) -> N
    requires fuses { IsUnfused (N.bench device) }
    requires fault { (R.log reporter.old).fault ≡ None }
    // The lines are the steps of a play, and what is written is their text, as the reporter writes it.
    ensures plays { CountsFrom (R.text reporter.old) (start (N.state device).words) deck.now
        (bench_at N.Bench device) (R.log reporter.old).out (write_result (R.log reporter.new).fault)
        (bench_at N.Bench result) (R.log reporter.new).out steps.old steps.new }
    ensures image { IsImage (N.state device).words }
    ensures lines { AllByRecursion (λ l. IsLine l.1) deck.now }
    ensures keeps_device { N.same device result }
    ensures same { R.same reporter.old reporter.new }
{
    let _words = device.len();
    let _lines = deck.len();
    let mut player = Player::new(device);
    for i in 0..deck.len() {
        let (number, line) = deck.line(i);
        let answer = player.line(&line, reporter, steps);
        reporter.report(number, &player, &answer);
        if reporter.ended().is_err() {
            return player.into_dev();
        }
    }
    player.into_dev()
}

/// Plays a deck on a device and writes its transcript: for each line that answers its number, a blank, its result and a
/// line feed.
///
/// The device has no fuse at the start. If the sink fails, the line whose text it was is played whole, and no
/// later line is.
///
/// # Errors
///
/// Returns the fault of the sink.
pub fn play<N: Bench, T: Sink, L: Ledger>(
    deck: &Deck,
    dev: &mut N,
    out: &mut T,
    steps: &mut Steps<L>,
) -> Result<(), WriteFault>
    requires { IsUnfused (N.bench dev.old) }
    // The lines are played in order, up to the first whose text is not wholly written. The words, the power, the calls
    // and the tape of the device are those of the lines, one by one and in sum, and what is written is their text.
    ensures plays { PlaysDeck plain_text deck.now (bench_at N.Bench dev.old)
        (record { taken = T.taken out.old; faults = T.faults out.old }) result
        (bench_at N.Bench dev.new)
        (record { taken = T.taken out.new; faults = T.faults out.new }) }
    // Each executed instruction is one step, and the search of an OPEN for room takes at most two more than the card
    // has gaps. A line that a stop hits makes no more steps than the whole line.
    ensures steps { CountsDeck plain_text deck.now (bench_at N.Bench dev.old)
        (record { taken = T.taken out.old; faults = T.faults out.old }) result
        (bench_at N.Bench dev.new)
        (record { taken = T.taken out.new; faults = T.faults out.new }) steps.old steps.new }
{
    let mut writer = Writer::new(&mut *out, Reporting::Results);
    let _dev = play_lines(deck, &mut *dev, &mut writer, steps);
    writer.ended()
}

/// Plays a deck on a device and writes the transcript with a line before each result for each executed instruction.
///
/// The device has no fuse at the start. If the sink fails, the line whose text it was is played whole, and no
/// later line is.
///
/// # Errors
///
/// Returns the fault of the sink.
pub fn trace<N: Bench, T: Sink, L: Ledger>(
    deck: &Deck,
    dev: &mut N,
    out: &mut T,
    steps: &mut Steps<L>,
) -> Result<(), WriteFault>
    requires { IsUnfused (N.bench dev.old) }
    // The lines are played in order, up to the first whose text is not wholly written. The words, the power, the calls
    // and the tape of the device are those of the lines, one by one and in sum, and what is written is their text.
    ensures plays { PlaysDeck traced_text deck.now (bench_at N.Bench dev.old)
        (record { taken = T.taken out.old; faults = T.faults out.old }) result
        (bench_at N.Bench dev.new)
        (record { taken = T.taken out.new; faults = T.faults out.new }) }
    // Each executed instruction is one step, and the search of an OPEN for room takes at most two more than the card
    // has gaps. A line that a stop hits makes no more steps than the whole line.
    ensures steps { CountsDeck traced_text deck.now (bench_at N.Bench dev.old)
        (record { taken = T.taken out.old; faults = T.faults out.old }) result
        (bench_at N.Bench dev.new)
        (record { taken = T.taken out.new; faults = T.faults out.new }) steps.old steps.new }
{
    let mut writer = Writer::new(&mut *out, Reporting::Turns);
    let _dev = play_lines(deck, &mut *dev, &mut writer, steps);
    writer.ended()
}

/// Plays a deck on a device and writes its summary: the number of lines that answered, by how they did; then
/// the results of its `dump` lines.
///
/// The device has no fuse at the start, and only `dump` lines come after the deck's first `dump` line. All
/// lines are played before the first byte is written.
///
/// # Errors
///
/// Returns the fault of the sink.
pub fn summarise<N: Bench, T: Sink, L: Ledger>(
    deck: &Deck,
    dev: &mut N,
    out: &mut T,
    steps: &mut Steps<L>,
) -> Result<(), WriteFault>
    requires fuses { IsUnfused (N.bench dev.old) }
    requires dumps { DumpsLast deck.now }
    // All lines are played in order. The words, the power, the calls and the tape of the device are those of the lines,
    // one by one and in sum, and what is written is their summary.
    ensures sums { SumsDeck summary deck.now (bench_at N.Bench dev.old)
        (record { taken = T.taken out.old; faults = T.faults out.old }) result
        (bench_at N.Bench dev.new)
        (record { taken = T.taken out.new; faults = T.faults out.new }) }
    // Each executed instruction is one step, and the search of an OPEN for room takes at most two more than the card
    // has gaps. A line that a stop hits makes no more steps than the whole line.
    ensures steps { CountsSum summary deck.now (bench_at N.Bench dev.old)
        (record { taken = T.taken out.old; faults = T.faults out.old }) result
        (bench_at N.Bench dev.new)
        (record { taken = T.taken out.new; faults = T.faults out.new }) steps.old steps.new }
{
    let mut writer = Writer::new(&mut *out, Reporting::Results);
    let _dev = sum_lines(deck, &mut *dev, &mut writer, steps);
    writer.ended()
}
