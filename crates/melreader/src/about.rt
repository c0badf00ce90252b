// What the program says of itself.
ghost use Rattle.std.specs.Prelude.{◌≡◌, option_map};
ghost use Rattle.mc_filter.specs.Statuses.{IsNumberOf};
ghost use Rattle.melreader.specs.Program.{about_named, IsDescribed};

use mc_filter::{Status, ended, number};
use mc_streams::{Sink, Source, put_all};

// What the program reads and writes, an example, and its page.
const HELP: &[u8] = b"usage: melreader [DECK]\n\
\n\
melreader is a card in a reader: it reads the frames of a host from standard input and writes its answers to standard output.\n\
A frame is a length of two bytes, big endian, and that number of bytes, as the virtual reader vpcd has them. The deck of the path DECK is\n\
played first; without it the card is blank. What refuses a deck is written to standard error.\n\
\n\
Example: tools/vpcd.py purse.deck, which runs it behind pcscd\n\
The page is docs/READER.md.\n\
";

// The version.
const VERSION: &[u8] = b"melreader 3\n";

/// Returns what the program says of itself if a word asks for it.
pub fn about_of(word: &str) -> Option<&'static [u8]>
    ensures { option_map (λ text. text.now) result ≡ about_named word.now }
{
    match word {
        "--help" => Some(HELP),
        "--version" => Some(VERSION),
        _ => None,
    }
}

/// Writes what the program says of itself, and returns the status of that.
pub fn describe<S: Source, T: Sink, E: Sink>(text: &[u8], input: &S, out: &mut T, err: &E) -> u8
    ensures { IsNumberOf (IsDescribed S.Source T.Sink E.Sink text.now (record {
      in_old = input.now;
      in_new = input.now;
      out_old = out.old;
      out_new = out.new;
      err_old = err.now;
      err_new = err.now;
    })) result }
{
    number(ended(Status::Done, put_all(out, text)))
}
