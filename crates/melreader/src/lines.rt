// The output lines for a frame that is not complete, and for a deck that cannot be opened.
ghost use Rattle.std.specs.Prelude.{decimal};
ghost use Rattle.mc_text.specs.Texts.{sunk, Puts};
ghost use Rattle.melreader.specs.Sessions.{short_frame, unopened};

use itoa::Buffer;
use mc_streams::{Sink, WriteFault};
use mc_text::put;

// Writes a number in decimal.
fn put_count<E: Sink>(err: &mut E, number: u64) -> Result<(), WriteFault>
    ensures { Puts (sunk E.Sink err.old) (decimal number) result (sunk E.Sink err.new) }
{
    let mut buffer = Buffer::new();
    put(err, buffer.format(number).as_bytes())
}

/// Writes that the input ended inside a frame: `frame N Short`.
///
/// # Errors
///
/// Returns `WriteFault` if the sink fails.
pub fn put_short<E: Sink>(err: &mut E, number: u64) -> Result<(), WriteFault>
    ensures { Puts (sunk E.Sink err.old) (short_frame number) result (sunk E.Sink err.new) }
{
    put(err, b"frame ")?;
    put_count(err, number)?;
    put(err, b" Short\n")
}

// Writes a text.
fn put_str<E: Sink>(err: &mut E, text: &str) -> Result<(), WriteFault>
    ensures { Puts (sunk E.Sink err.old) text.now result (sunk E.Sink err.new) }
{
    put(err, text.as_bytes())
}

/// Writes that the deck of a path cannot be opened: `melreader: PATH: cannot be opened`.
///
/// # Errors
///
/// Returns `WriteFault` if the sink fails.
pub fn put_unopened<E: Sink>(err: &mut E, path: &str) -> Result<(), WriteFault>
    ensures { Puts (sunk E.Sink err.old) (unopened path.now) result (sunk E.Sink err.new) }
{
    put(err, b"melreader: ")?;
    put_str(err, path)?;
    put(err, b": cannot be opened\n")
}
