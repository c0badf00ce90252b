// What the program says of itself.
ghost use Rattle.std.specs.Prelude.{◌≡◌};
ghost use Rattle.mc_text.specs.Texts.{sunk};
ghost use Rattle.mc_filter.specs.declared.status.Status.TheVariants.{Done};
ghost use Rattle.mc_filter.specs.Statuses.{IsWritten};
ghost use Rattle.mellab.specs.Jobs.{about_text};

use crate::job::About;
use mc_filter::{Status, ended};
use mc_streams::{Sink, put_all};

// What the program reads and writes, its jobs, an example, and its page.
const HELP: &[u8] = b"usage: mellab expect | sweep | explore N | prove\n\
\n\
mellab reads a deck of melcard from standard input, plays it on cards of its own, and writes to standard output.\n\
\n\
\x20 expect     each expectation of the deck that failed, and how many did; status 1 if one did\n\
\x20 sweep      cuts power in each device write of each line: what the card was then; status 1 if a line marked whole is not, or is not swept\n\
\x20 explore N  tries every sequence of at most N moves of the deck, each whole and cut in each write: the shortest that breaks a rule\n\
\x20            of the deck, with status 1, or status 6 if not all was explored; N --states M keeps at most M states, in place of 1000000\n\
\x20 prove      decides whether an application keeps the rules of the deck, whatever a terminal sends; status 1 if that is not proved\n\
\n\
Example: mellab sweep < purse.deck\n\
The page is docs/LABORATORY.md.\n\
";

// The version.
const VERSION: &[u8] = b"mellab 3\n";

// The text of what the program says of itself.
fn about_text(about: About) -> &'static [u8]
    ensures { result.now ≡ about_text about }
{
    match about {
        About::Help => HELP,
        About::Version => VERSION,
    }
}

/// Writes what the program says of itself, and returns its status.
pub fn describe<T: Sink>(about: About, out: &mut T) -> Status
    ensures { IsWritten Done (about_text about) result (sunk T.Sink out.old) (sunk T.Sink out.new) }
{
    ended(Status::Done, put_all(out, about_text(about)))
}
