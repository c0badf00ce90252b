// What the words of the command line select: a job, or what the program says of itself.
ghost use Rattle.std.specs.Prelude.{◌≡◌, ◌≤◌, length, IfSome};
ghost use Rattle.mc_text.specs.model_text.specs.Text.{decimal_number};
ghost use Rattle.mellab.specs.Jobs.{exploration_named, exploration_of, most_named, number_of, request_named, request_of};

use mc_text::decimal_number;

/// A job of the laboratory.
#[derive(Clone, Copy, Debug, PartialEq, Eq)]
pub enum Job {
    /// Plays a deck and compares its results with its expectations.
    Expect,
    /// Cuts power in each write of a deck's lines, and writes the observed states of the card.
    Sweep,
    /// Tries every sequence of at most `depth` moves of a deck, each move whole and cut in each of its device writes, and
    /// finds the first that breaks a rule of the deck. It ends if there are more than `most` states.
    Explore { depth: u32, most: u32 },
    /// Decides whether an application keeps the rules of its deck in every play of every deck.
    Prove,
}

/// What the program says of itself.
#[derive(Clone, Copy, Debug, PartialEq, Eq)]
pub enum About {
    /// What it reads and writes, its jobs, an example, and its page.
    Help,
    /// Its version.
    Version,
}

/// What the words of the command line select.
#[derive(Clone, Copy, Debug, PartialEq, Eq)]
pub enum Request {
    /// Does a job.
    Do(Job),
    /// Says something of the program.
    Describe(About),
}

// What one word selects.
fn request_named(word: &str) -> Option<Request>
    ensures { result ≡ request_named word.now }
{
    match word {
        "expect" => Some(Request::Do(Job::Expect)),
        "sweep" => Some(Request::Do(Job::Sweep)),
        "prove" => Some(Request::Do(Job::Prove)),
        "--help" => Some(Request::Describe(About::Help)),
        "--version" => Some(Request::Describe(About::Version)),
        _ => None,
    }
}

/// The most states of an exploration whose words name no other number.
const MOST_STATES: u32 = 1_000_000;

// The number that at most 8 decimal digits spell.
fn few_digits(digits: &[u8]) -> Option<u64>
    requires { length digits.now ≤ 8 }
    ensures value { result ≡ decimal_number digits.now }
    ensures bound { IfSome result (λ n. n ≤ 99999999) }
{
    decimal_number(digits)
}

// The number that a word spells, of at most some digits, which is at least 1.
fn number_of(digits: usize, word: &str) -> Option<u32>
    requires { digits ≤ 8 }
    ensures { result ≡ number_of digits word.now }
{
    if word.len() > digits {
        return None;
    }
    match few_digits(word.as_bytes()) {
        Some(number) if number >= 1 => Some(number as u32),
        _ => None,
    }
}

// The most states that two words name.
fn most_named(option: &str, most: &str) -> Option<u32>
    ensures { result ≡ most_named option.now most.now }
{
    if option != "--states" {
        return None;
    }
    number_of(8, most)
}

// The exploration of a depth with the most states.
fn exploration_of(depth: Option<u32>, most: Option<u32>) -> Option<Request>
    ensures { result ≡ exploration_of depth most }
{
    match (depth, most) {
        (Some(depth), Some(most)) => Some(Request::Do(Job::Explore { depth, most })),
        _ => None,
    }
}

// The exploration that a word and the word of a depth name.
fn exploration_named(word: &str, depth: &str, most: Option<u32>) -> Option<Request>
    ensures { result ≡ exploration_named word.now depth.now most }
{
    if word != "explore" {
        return None;
    }
    exploration_of(number_of(6, depth), most)
}

/// Returns what the words of the command line, without the name of the program, select, or `None` if they select
/// nothing.
pub fn request_of(words: &[String]) -> Option<Request>
    ensures { result ≡ request_of words.now }
{
    match words {
        [word] => request_named(word.as_str()),
        [word, depth] => exploration_named(word.as_str(), depth.as_str(), Some(MOST_STATES)),
        [word, depth, option, most] => exploration_named(
            word.as_str(),
            depth.as_str(),
            most_named(option.as_str(), most.as_str()),
        ),
        _ => None,
    }
}
