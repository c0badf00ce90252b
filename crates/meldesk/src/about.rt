// What the program says of itself.
ghost use Rattle.std.specs.Prelude.{◌≡◌};
ghost use Rattle.mc_text.specs.Texts.{sunk};
ghost use Rattle.mc_filter.specs.declared.status.Status.TheVariants.{Done};
ghost use Rattle.mc_filter.specs.Statuses.{IsWritten};
ghost use Rattle.meldesk.specs.Jobs.{about_text};

use crate::job::About;
use mc_filter::{Status, ended};
use mc_streams::{Sink, put_all};

// What the program reads and writes, its jobs, an example, and its page.
const HELP: &[u8] =
    b"usage: meldesk deck | list | check | trace | steps | names | explain NAME | cover NAME\n\
\n\
meldesk reads a draft from standard input, a deck in whose app sections bytes and numbers have names, and writes to standard output.\n\
\n\
\x20 deck        the deck of the draft\n\
\x20 list        the code of each section line by line\n\
\x20 check       the stack checker's verdicts, with source lines; status 1 if code is refused\n\
\x20 trace       plays the deck: its trace, with source lines, operands and stack\n\
\x20 steps       plays the deck: each line and each turn as a line of JSON, with what it changed\n\
\x20 names       the names and labels of the sections as lines of JSON\n\
\x20 explain NAME  all that is wrong with the draft, as editors read it, for the file NAME\n\
\x20 cover NAME  plays the deck: how often each line ran, as an LCOV record for the file NAME\n\
\n\
Example: meldesk deck < purse.draft | melcard play\n\
The page is docs/DESK.md.\n\
";

// The version.
const VERSION: &[u8] = b"meldesk 3\n";

// The text of what the program says of itself.
fn about_text(about: About) -> &'static [u8]
    ensures { result.now ≡ about_text about }
{
    match about {
        About::Help => HELP,
        About::Version => VERSION,
    }
}

/// Writes what the program says of itself, and returns its status.
pub fn describe<T: Sink>(about: About, out: &mut T) -> Status
    ensures { IsWritten Done (about_text about) result (sunk T.Sink out.old) (sunk T.Sink out.new) }
{
    ended(Status::Done, put_all(out, about_text(about)))
}
