// The jobs of the program, and the words that name them.
ghost use Rattle.std.specs.Prelude.{◌≡◌, ◌≤◌, IfSome};
ghost use Rattle.melcard.specs.Jobs.{generated_number, job_named, job_of, JobFits};

use mc_text::decimal_number;

/// The output of a play.
#[derive(Clone, Copy, Debug, PartialEq, Eq)]
pub enum Reporting {
    /// The results of its lines.
    Transcript,
    /// The results of its lines, and a line for each executed instruction.
    Trace,
}

/// A text that is made from an input.
#[derive(Clone, Copy, Debug, PartialEq, Eq)]
pub enum Form {
    /// The code of an assembly text, in hexadecimal.
    Code,
    /// The listing of code given in hexadecimal.
    Listing,
    /// The stack checker's verdict on the code of each load line of a deck.
    Verdicts,
}

/// The job that the words of the command line select.
#[derive(Clone, Copy, Debug, PartialEq, Eq)]
pub enum Job {
    /// Plays a deck and writes the output of the play.
    Play(Reporting),
    /// Plays the deck that a number up to 2,147,483,647 generates, and writes a summary of the play.
    Generate(u32),
    /// Writes a text made from the input.
    Write(Form),
}

// The number of a generated deck: 1 to 10 decimal digits, up to 2,147,483,647.
fn generated_number(word: &str) -> Option<u32>
    ensures value { result ≡ generated_number word.now }
    ensures most { IfSome result (λ n. n ≤ 2147483647) }
{
    let digits = word.as_bytes();
    if digits.len() > 10 {
        return None;
    }
    let number = decimal_number(digits)?;
    if number > 2147483647 {
        return None;
    }
    Some(number as u32)
}

// The job that one word names.
fn job_named(word: &str) -> Option<Job>
    ensures job { result ≡ job_named word.now }
    ensures fits { IfSome result JobFits }
{
    match word {
        "play" => Some(Job::Play(Reporting::Transcript)),
        "trace" => Some(Job::Play(Reporting::Trace)),
        "asm" => Some(Job::Write(Form::Code)),
        "list" => Some(Job::Write(Form::Listing)),
        "check" => Some(Job::Write(Form::Verdicts)),
        _ => None,
    }
}

/// Returns the job that the words of the command line, without the name of the program, select, or `None` if
/// they select none.
pub fn job_of(words: &[String]) -> Option<Job>
    ensures job { result ≡ job_of words.now }
    ensures fits { IfSome result JobFits }
{
    match words {
        [word] => job_named(word.as_str()),
        [word, number] => {
            if word.as_str() != "gen" {
                return None;
            }
            let number = generated_number(number.as_str())?;
            Some(Job::Generate(number))
        }
        _ => None,
    }
}
