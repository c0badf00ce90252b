// The jobs of the program, and the words that name them.
ghost use Rattle.std.specs.Prelude.{◌≡◌, option_map};
ghost use Rattle.meldesk.specs.Jobs.{is_file_name, job_for, job_named, job_of, job_value, job_with};

use mc_text::cut;

/// A text that is made from a draft.
#[derive(Clone, Copy, Debug, PartialEq, Eq)]
pub enum Text<'a> {
    /// The deck of the draft.
    Deck,
    /// The code of each section line by line.
    Listing,
    /// The stack checker's verdict on the code of each load line, with the source line of a place that is refused.
    Verdicts,
    /// The names and labels of each section as JSON Lines.
    Names,
    /// All that is wrong with the draft, for a file of this name.
    Explained(&'a [u8]),
}

/// What the program says of itself.
#[derive(Clone, Copy, Debug, PartialEq, Eq)]
pub enum About {
    /// What it reads and writes, its jobs, an example, and its page.
    Help,
    /// Its version.
    Version,
}

/// What is shown of a play of the draft's deck.
#[derive(Clone, Copy, Debug, PartialEq, Eq)]
pub enum Play<'a> {
    /// Its trace, with the source line of each turn.
    Trace,
    /// Each line and each turn as a line of JSON, with what it changed.
    Steps,
    /// The number of times that each line ran and each branch went each way, for a file of this name.
    Cover(&'a [u8]),
}

/// The job that the words of the command line select.
#[derive(Clone, Copy, Debug, PartialEq, Eq)]
pub enum Job<'a> {
    /// Writes a text made from the draft.
    Write(Text<'a>),
    /// Plays the deck of the draft and writes what is shown of the play.
    Play(Play<'a>),
    /// Says something of the program.
    Describe(About),
}

// The job that one word names.
fn job_named<'a>(word: &str) -> Option<Job<'a>>
    ensures { option_map job_value result ≡ job_named word.now }
{
    match word {
        "deck" => Some(Job::Write(Text::Deck)),
        "list" => Some(Job::Write(Text::Listing)),
        "check" => Some(Job::Write(Text::Verdicts)),
        "names" => Some(Job::Write(Text::Names)),
        "trace" => Some(Job::Play(Play::Trace)),
        "steps" => Some(Job::Play(Play::Steps)),
        "--help" => Some(Job::Describe(About::Help)),
        "--version" => Some(Job::Describe(About::Version)),
        _ => None,
    }
}

// Whether a file may have this name in what is written: 1 to 255 bytes, none of them a line feed.
fn is_file_name(name: &[u8]) -> bool
    ensures { result ≡ is_file_name name.now }
{
    !name.is_empty() && name.len() <= 255 && cut(name, b'\n').1.is_none()
}

// The job that a word selects with the name of a file.
fn job_for<'a>(word: &str, name: &'a [u8]) -> Option<Job<'a>>
    ensures { option_map job_value result ≡ job_for word.now name.now }
{
    match word {
        "cover" => Some(Job::Play(Play::Cover(name))),
        "explain" => Some(Job::Write(Text::Explained(name))),
        _ => None,
    }
}

// The job that a word and a name select.
fn job_with<'a>(word: &str, name: &'a [u8]) -> Option<Job<'a>>
    ensures { option_map job_value result ≡ job_with word.now name.now }
{
    if is_file_name(name) {
        return job_for(word, name);
    }
    None
}

/// Returns the job that the words of the command line, without the name of the program, select, or `None` if
/// they select none.
pub fn job_of(words: &[String]) -> Option<Job<'_>>
    ensures { option_map job_value result ≡ job_of words.now }
{
    match words {
        [word] => job_named(word.as_str()),
        [word, name] => job_with(word.as_str(), name.as_bytes()),
        _ => None,
    }
}
