// The top call: a deck is played, and the frames of a host are served.
ghost use Rattle.std.specs.Prelude.{Err, Option};
ghost use Rattle.mc_script.specs.Players.{IsUnfused};
ghost use Rattle.mc_text.specs.Texts.{sunk};
ghost use Rattle.mc_filter.specs.Statuses.{IsNumberOf};
ghost use Rattle.mc_filter.specs.Inputs.{Stream};
ghost use Rattle.melreader.specs.Decks.{stream_of_source, stream_left, HasDeck};
ghost use Rattle.melreader.specs.Sessions.{outside, AreKept, ReaderEnds, MelreaderSays};

use crate::deck::{blank_deck, deck_from};
use crate::lines::put_short;
use mc_deck::Deck;
use mc_filter::{Rejection, Status, ended, number, reject};
use mc_nvm::Bench;
use mc_reader::{ServeError, serve};
use mc_streams::{Sink, Source};
use mc_words::Steps;
use std::alloc::Global;
use std::sync::ledger::Ledger;

// Writes why a session ended before the end of its input, and returns its status.
fn fail<E: Sink>(err: &mut E, error: ServeError) -> Status
    ensures { ReaderEnds (Err error) result (sunk E.Sink err.old) (sunk E.Sink err.new) }
{
    match error {
        ServeError::Short(number) => ended(Status::Failed, put_short(err, number)),
        ServeError::ReadFault => Status::ReadFault,
        ServeError::WriteFault => Status::WriteFault,
        ServeError::NoMemory => Status::NoMemory,
    }
}

// Writes the end of a session, and returns its status.
fn end<E: Sink>(err: &mut E, served: Result<(), ServeError>) -> Status
    ensures { ReaderEnds served result (sunk E.Sink err.old) (sunk E.Sink err.new) }
{
    match served {
        Ok(()) => Status::Done,
        Err(error) => fail(err, error),
    }
}

// Plays the deck that was found and serves the frames of a host, or writes why there is no deck.
fn session<S: Source, T: Sink, E: Sink, N: Bench, L: Ledger>(
    alloc: Global,
    found: Result<Deck, Rejection>,
    input: &mut S,
    out: &mut T,
    err: &mut E,
    dev: &mut N,
    steps: &mut Steps<L>,
) -> Status
    requires { IsUnfused (N.bench dev.old) }
    ensures { (a b : Option Stream) → HasDeck a b found
        → MelreaderSays (AreKept input.old input.new out.old out.new dev.old dev.new) result
        (outside S.Source T.Sink E.Sink N.Bench a b input.old input.new out.old out.new err.old err.new
        dev.old dev.new) }
{
    match found {
        Ok(deck) => end(err, serve(alloc, &deck, input, out, dev, steps)),
        Err(rejection) => reject(err, &rejection),
    }
}

/// Plays the deck of a source on a device without an armed stop, or the one line `format` if there is no
/// source, and then serves the frames of a host on that card, and returns its status.
///
/// Only answers are written to `out`, and to `err` the line of a refused deck, or `frame N Short`. The
/// results of the deck are not written. A deck that is refused leaves `input`, `out` and the device
/// unchanged.
pub fn melreader<D: Source, S: Source, T: Sink, E: Sink, N: Bench, L: Ledger>(
    alloc: Global,
    deck: Option<&mut D>,
    input: &mut S,
    out: &mut T,
    err: &mut E,
    dev: &mut N,
    steps: &mut Steps<L>,
) -> u8
    requires { IsUnfused (N.bench dev.old) }
    // 0: the deck was played, each frame was served, and the input ended between two frames. 1: the deck is refused, its
    // line was written, and no frame was read; or the input ended inside a frame, whose number was written, after each
    // frame before it was served. 3: a call of the deck's source failed, and nothing was played or served; or one of the
    // input, after each frame before it was served. 4: a call of a sink failed, and a front of what is due was written.
    // 5: out of memory before a frame was read or a line was played.
    ensures says { IsNumberOf
        (λ s. MelreaderSays (AreKept input.old input.new out.old out.new dev.old dev.new) s
        (outside S.Source T.Sink E.Sink N.Bench (stream_of_source D.Source deck.entry)
        (stream_left D.Source deck.exit) input.old input.new out.old out.new err.old err.new dev.old dev.new)) result }
{
    match deck {
        Some(source) => {
            let found = deck_from(alloc, source);
            number(session(alloc, found, input, out, err, dev, steps))
        }
        None => {
            let found = blank_deck(alloc);
            number(session(alloc, found, input, out, err, dev, steps))
        }
    }
}
