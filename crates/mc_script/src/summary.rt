// The counts of a summary, and its text.
ghost use Rattle.std.specs.Prelude.{◌≡◌, ◌+◌, ◌<◌, ◌≤◌, ◌++◌, [], List, length, decimal, cond, option_map};
ghost use Rattle.arrayvec.specs.ArrayVec.{array_vec_len};
ghost use Rattle.model_play.specs.Play.{LineResult};
ghost use Rattle.model_play.specs.Generator.{count_line, is_reply, is_abend, is_cut, is_off, is_ready};
ghost use Rattle.mc_text.specs.Texts.{sunk, Puts};
ghost use Rattle.mc_script.specs.Players.{answer_value};
ghost use Rattle.mc_script.specs.Sums.{Counted, result_list};

use crate::answer::Answer;
use crate::player::{Player, Power};
use arrayvec::ArrayVec;
use itoa::Buffer;
use mc_machine::Outcome;
use mc_nvm::Bench;
use mc_streams::{Sink, WriteFault};
use mc_text::put;

/// The number of lines of a play that answered, and the numbers of those that did so by a reply or a failed
/// write, by an abend, by a cut, without a card, and by a power-up that was ready.
#[derive(Clone, Copy, Debug, PartialEq, Eq)]
pub struct Counts {
    pub lines: u64,
    pub replies: u64,
    pub abends: u64,
    pub cuts: u64,
    pub offs: u64,
    pub readies: u64,
}

type Line = ArrayVec<u8, 192>;

impl Counts {
    /// Returns the counts of no line.
    pub fn new() -> Counts
        ensures { Counted result [] }
    {
        Counts {
            lines: 0,
            replies: 0,
            abends: 0,
            cuts: 0,
            offs: 0,
            readies: 0,
        }
    }

    /// Returns the counts of a play with one more answer of its player. No count is at its last value.
    pub fn with<N: Bench>(self, player: &Player<N>, answer: &Answer) -> Counts
        requires lines { self.lines < 18446744073709551615 }
        requires replies { self.replies < 18446744073709551615 }
        requires abends { self.abends < 18446744073709551615 }
        requires cuts { self.cuts < 18446744073709551615 }
        requires offs { self.offs < 18446744073709551615 }
        requires readies { self.readies < 18446744073709551615 }
        ensures lines { result.lines ≡ self.lines + 1 }
        ensures replies { result.replies ≡ self.replies
            + cond (is_reply (answer_value N.state player.now answer.now)) 1 0 }
        ensures abends { result.abends ≡ self.abends
            + cond (is_abend (answer_value N.state player.now answer.now)) 1 0 }
        ensures cuts { result.cuts ≡ self.cuts + cond (is_cut (answer_value N.state player.now answer.now)) 1 0 }
        ensures offs { result.offs ≡ self.offs + cond (is_off (answer_value N.state player.now answer.now)) 1 0 }
        ensures readies { result.readies ≡ self.readies
            + cond (is_ready (answer_value N.state player.now answer.now)) 1 0 }
    {
        Counts {
            lines: self.lines + 1,
            replies: self.replies + one_if(is_reply(player, answer)),
            abends: self.abends + one_if(is_abend(player, answer)),
            cuts: self.cuts + one_if(is_cut(player, answer)),
            offs: self.offs + one_if(is_off(player, answer)),
            readies: self.readies + one_if(is_ready(player, answer)),
        }
    }
}

// Returns 1 for a line that counts, and 0 for one that does not.
fn one_if(counts: bool) -> u64
    ensures { result ≡ cond counts 1 0 }
{
    if counts { 1 } else { 0 }
}

// Returns whether a line was answered by a reply, or by a failed write, whose status it is.
fn is_reply<N: Bench>(player: &Player<N>, answer: &Answer) -> bool
    ensures { result ≡ is_reply (answer_value N.state player.now answer.now) }
{
    match answer {
        Answer::Worn => true,
        Answer::Outcome => matches!(player.outcome, Outcome::Reply(_)),
        _ => false,
    }
}

// Returns whether the application of a line abended.
fn is_abend<N: Bench>(player: &Player<N>, answer: &Answer) -> bool
    ensures { result ≡ is_abend (answer_value N.state player.now answer.now) }
{
    matches!(answer, Answer::Outcome) && matches!(player.outcome, Outcome::Abend(_))
}

// Returns whether a cut hit a line.
fn is_cut<N: Bench>(player: &Player<N>, answer: &Answer) -> bool
    ensures { result ≡ is_cut (answer_value N.state player.now answer.now) }
{
    matches!(answer, Answer::OffAt(_))
}

// Returns whether a line needed a card while the power was off.
fn is_off<N: Bench>(player: &Player<N>, answer: &Answer) -> bool
    ensures { result ≡ is_off (answer_value N.state player.now answer.now) }
{
    match answer {
        Answer::NoCard => true,
        Answer::Dump(_) => matches!(player.power, Power::BeforePower | Power::Off),
        _ => false,
    }
}

// Returns whether a power line found a card.
fn is_ready<N: Bench>(player: &Player<N>, answer: &Answer) -> bool
    ensures { result ≡ is_ready (answer_value N.state player.now answer.now) }
{
    matches!(answer, Answer::Ready(_))
}

/// Returns the counts with one more line, if it answers.
pub fn counted<N: Bench>(counts: Counts, player: &Player<N>, answer: &Option<Answer>) -> Counts
    requires { (rs : List LineResult) × Counted counts rs × (length rs < 18446744073709551615) }
    ensures { (rs : List LineResult) → Counted counts rs
        → Counted result (rs ++ result_list (option_map (answer_value N.state player.now) answer.now)) }
{
    match answer {
        Some(answer) => counts.with(player, answer),
        None => counts,
    }
}

// Appends a text to a line.
fn add(line: &mut Line, text: &[u8])
    requires { array_vec_len line.old + length text.now ≤ 192 }
    ensures { line.new.items ≡ line.old.items ++ text.now }
{
    line.try_extend_from_slice(text).unwrap()
}

// Appends a word and its count to a line.
fn add_count(line: &mut Line, word: &[u8], count: u64)
    requires { array_vec_len line.old + length word.now + 20 ≤ 192 }
    ensures text { line.new.items ≡ line.old.items ++ word.now ++ decimal count }
    ensures short { array_vec_len line.new ≤ array_vec_len line.old + length word.now + 20 }
{
    let mut buffer = Buffer::new();
    add(line, word);
    add(line, buffer.format(count).as_bytes());
}

/// Writes the line of the counts.
pub fn put_counts<T: Sink>(out: &mut T, counts: &Counts) -> Result<(), WriteFault>
    ensures { (rs : List LineResult) → Counted counts.now rs
        → Puts (sunk T.Sink out.old) (count_line rs) result (sunk T.Sink out.new) }
{
    let mut line = ArrayVec::new();
    add_count(&mut line, b"lines ", counts.lines);
    add_count(&mut line, b" replies ", counts.replies);
    add_count(&mut line, b" abends ", counts.abends);
    add_count(&mut line, b" cuts ", counts.cuts);
    add_count(&mut line, b" offs ", counts.offs);
    add_count(&mut line, b" readies ", counts.readies);
    add(&mut line, b"\n");
    put(out, line.as_slice())
}
