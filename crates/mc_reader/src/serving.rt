// A session: a deck is played, and then the frames of a host are served.
ghost use Rattle.std.specs.Prelude.{◌≡◌, ◌≢◌, ℕ, length, Err};
ghost use Rattle.mc_words.specs.model_device.specs.Bytes.{AreBytes};
ghost use Rattle.mc_deck.specs.model_play.specs.Play.{State};
ghost use Rattle.mc_text.specs.Texts.{sunk};
ghost use Rattle.mc_script.specs.Players.{device_of, IsUnfused};
ghost use Rattle.mc_script.specs.Benches.{bench_of, IsPlayerAt, IsPlaying};
ghost use Rattle.mc_reader.specs.Benches.{PlaysLine, ServesFrame};
ghost use Rattle.mc_reader.specs.Meanings.{meaning, power_after};
ghost use Rattle.mc_reader.specs.Lines.{line_in};
ghost use Rattle.mc_reader.specs.Requests.{meaning_of, IsGoodRequest};
ghost use Rattle.mc_reader.specs.Serving.{ServedFrom};
ghost use Rattle.mc_reader.specs.Sessions.{around, IsUntouched, Served};

use crate::answering::put_answer;
use crate::host::Host;
use crate::reading::FrameFault;
use crate::request::Request;
use crate::serve_error::ServeError;
use mc_deck::Deck;
use mc_nvm::Bench;
use mc_script::{Answer, Player, Silent};
use mc_streams::{Sink, WriteFault};
use mc_words::Steps;
use std::alloc::Global;
use std::sync::ledger::Ledger;

/// The length of the longest frame in bytes.
const LONGEST_FRAME: usize = 65_535;

// Plays the line of a request, if it has one.
fn play_request<N: Bench, L: Ledger>(
    player: &mut Player<N>,
    request: &Request<'_>,
    steps: &mut Steps<L>,
) -> Option<Answer>
    requires playing { IsPlaying N.Bench player.old }
    requires good { IsGoodRequest request.now }
    ensures plays { PlaysLine N.Bench player.old (line_in (meaning_of request.now)) result player.new }
    ensures keeps_device { N.same (device_of player.old) (device_of player.new) }
{
    match request.line() {
        Some(line) => player.line(&line, &mut Silent, steps),
        None => None,
    }
}

// Serves one frame: plays its line and writes its answer. It may switch power on or off.
fn serve_frame<N: Bench, T: Sink, L: Ledger>(
    player: &mut Player<N>,
    powered: &mut bool,
    frame: &[u8],
    out: &mut T,
    steps: &mut Steps<L>,
) -> Result<(), WriteFault>
    requires { IsPlaying N.Bench player.old }
    ensures serves { (s : State) (n : ℕ) → IsPlayerAt N.Bench player.old s
        → ServesFrame N.Bench player.old s n (meaning powered.old frame.now)
        (sunk T.Sink out.old) result player.new (sunk T.Sink out.new) }
    ensures power { powered.new ≡ power_after powered.old (meaning powered.old frame.now) }
    ensures bytes { AreBytes frame.now }
    ensures keeps_device { N.same (device_of player.old) (device_of player.new) }
{
    let request = Request::of(frame, *powered);
    let answer = play_request(player, &request, steps);
    *powered = request.power(*powered);
    put_answer(out, &request, &answer, player.outcome())
}

// Serves frames up to the end of the input, or up to a fault. The card has no power before them.
fn serve_frames<H: Host, T: Sink, N: Bench, L: Ledger>(
    player: &mut Player<N>,
    input: &mut H,
    out: &mut T,
    room: &mut [u8],
    steps: &mut Steps<L>,
) -> Result<(), ServeError>
    requires playing { IsPlaying N.Bench player.old }
    requires room { length room.old ≡ 65535 }
    ensures served { (s : State) (n : ℕ) → IsPlayerAt N.Bench player.old s
        → ServedFrom s n result
        (record {
          left_old = H.left input.old;
          left = H.left input.new;
          reads_old = H.faults input.old;
          reads = H.faults input.new;
          out_old = sunk T.Sink out.old;
          out = sunk T.Sink out.new;
          dev_old = bench_of N.Bench player.old;
          dev = bench_of N.Bench player.new;
          asked_old = H.moments input.old;
          asked = H.moments input.new;
        }) }
    ensures keeps_device { N.same (device_of player.old) (device_of player.new) }
{
    let mut powered = false;
    for before in 0..u64::MAX {
        let size = match input.frame(room, player, out) {
            Ok(Some(size)) => size,
            Ok(None) => return Ok(()),
            Err(FrameFault::Short) => return Err(ServeError::Short(before + 1)),
            Err(FrameFault::ReadFault) => return Err(ServeError::ReadFault),
        };
        serve_frame(player, &mut powered, &room[..size], out, steps)?;
    }
    Ok(())
}

/// Plays a deck on a device, and then serves the frames of a host, each of them before the next is read: its
/// line is played as a line of the deck would be, and its answer is written as a frame.
///
/// The device has no armed stop. The results of the deck are not written. If the sink fails, no later frame
/// is read.
///
/// # Errors
///
/// Returns why the session ended before the end of its input. If it is out of memory, nothing was read,
/// played or written.
pub fn serve<H: Host, T: Sink, N: Bench, L: Ledger>(
    alloc: Global,
    deck: &Deck,
    input: &mut H,
    out: &mut T,
    dev: &mut N,
    steps: &mut Steps<L>,
) -> Result<(), ServeError>
    requires { IsUnfused (N.bench dev.old) }
    // Out of memory, nothing was read, played or written.
    ensures memory { result ≡ Err ServeError.NoMemory → IsUntouched
        (around H.Host T.Sink N.Bench input.old input.new out.old out.new dev.old dev.new) }
    // Else the deck and the frames that were taken were one play on the device, each frame was served before the next was
    // taken, and the answers of the play were written up to the end that the result states.
    ensures session { result ≢ Err ServeError.NoMemory → Served deck.now result
        (around H.Host T.Sink N.Bench input.old input.new out.old out.new dev.old dev.new) }
{
    let mut room = vec![in alloc; 0; LONGEST_FRAME]?;
    let _words = dev.len();
    let _lines = deck.len();
    let mut player = Player::new(&mut *dev);
    player.deck(deck, steps);
    let result = serve_frames(&mut player, input, out, room.as_mut_slice(), steps);
    let _dev = player.into_dev();
    result
}
