// The answers to frames.
ghost use Rattle.std.specs.Prelude.{◌≤◌, ◌++◌, length};
ghost use Rattle.mc_words.specs.model_device.specs.Bytes.{bytes2};
ghost use Rattle.mc_text.specs.Texts.{sunk, Puts};
ghost use Rattle.mc_reader.specs.Frames.{frame_bytes};
ghost use Rattle.mc_reader.specs.Requests.{meaning_of};
ghost use Rattle.mc_machine.specs.Turns.{outcome_value};
ghost use Rattle.mc_reader.specs.Answers.{outcome_bytes};
ghost use Rattle.mc_reader.specs.Results.{answer_bytes, reply_to_frame, answer_frame};

use crate::request::Request;
use arrayvec::ArrayVec;
use mc_apdu::Reply;
use mc_machine::Outcome;
use mc_script::Answer;
use mc_streams::{Sink, WriteFault};
use mc_text::put;

/// The answer to reset (ISO/IEC 7816-3): T=0 and T=1, the historical bytes MELCARD, and the check byte.
const ATR: [u8; 12] = [
    0x3B, 0x87, 0x80, 0x01, 0x4D, 0x45, 0x4C, 0x43, 0x41, 0x52, 0x44, 0x56,
];

/// The length of the longest frame: its own length, the data of a reply and its two status bytes.
const LONGEST: usize = 1028;

// Writes an answer that is not the reply of an application as one frame.
fn put_frame<T: Sink>(out: &mut T, bytes: &[u8]) -> Result<(), WriteFault>
    requires { length bytes.now ≤ 12 }
    ensures { Puts (sunk T.Sink out.old) (frame_bytes bytes.now) result
        (sunk T.Sink out.new) }
{
    let mut frame = ArrayVec::<u8, 14>::new();
    frame.push((bytes.len() / 256) as u8);
    frame.push((bytes.len() % 256) as u8);
    frame.try_extend_from_slice(bytes).unwrap();
    put(out, frame.as_slice())
}

// Writes a reply as one frame: its data and its status word.
fn put_reply<T: Sink>(out: &mut T, reply: &Reply) -> Result<(), WriteFault>
    ensures { Puts (sunk T.Sink out.old) (frame_bytes (reply.now.body.items ++ bytes2 reply.now.sw)) result
        (sunk T.Sink out.new) }
{
    let size = reply.body.len() + 2;
    let mut frame = ArrayVec::<u8, LONGEST>::new();
    frame.push((size / 256) as u8);
    frame.push((size % 256) as u8);
    frame.try_extend_from_slice(reply.body.as_slice()).unwrap();
    frame.push((reply.sw / 256) as u8);
    frame.push((reply.sw % 256) as u8);
    put(out, frame.as_slice())
}

// Writes the outcome of a command.
fn put_outcome<T: Sink>(out: &mut T, outcome: &Outcome) -> Result<(), WriteFault>
    ensures { Puts (sunk T.Sink out.old) (frame_bytes (outcome_bytes (outcome_value outcome.now))) result
        (sunk T.Sink out.new) }
{
    match outcome {
        Outcome::Reply(reply) => put_reply(out, reply),
        Outcome::Abend(abend) => put_frame(out, &[0x6F, abend.code()]),
    }
}

// Writes the result of a command, by the outcome of the last command. A command that a stop hit has no
// answer, nor has one if no card runs or the card is mute.
fn put_result<T: Sink>(
    out: &mut T,
    answer: &Option<Answer>,
    outcome: &Outcome,
) -> Result<(), WriteFault>
    ensures { Puts (sunk T.Sink out.old) (frame_bytes (answer_bytes outcome.now answer.now)) result
        (sunk T.Sink out.new) }
{
    match answer {
        Some(Answer::Outcome) => put_outcome(out, outcome),
        Some(Answer::Worn) => put_frame(out, &[0x65, 0x81]),
        _ => put_frame(out, &[]),
    }
}

/// Writes the answer to a request if it is answered, by the result of its line and the outcome of the last
/// command.
///
/// # Errors
///
/// Returns `WriteFault` if the sink fails.
pub fn put_answer<T: Sink>(
    out: &mut T,
    request: &Request<'_>,
    answer: &Option<Answer>,
    outcome: &Outcome,
) -> Result<(), WriteFault>
    ensures { Puts (sunk T.Sink out.old)
        (answer_frame (reply_to_frame (meaning_of request.now) outcome.now answer.now)) result
        (sunk T.Sink out.new) }
{
    match request {
        Request::Atr => put_frame(out, &ATR),
        Request::Order(_) => put_frame(out, &[0x90, 0x00]),
        Request::Refused(refusal) => put_frame(out, &refusal.status()),
        Request::ToCard(_) => put_result(out, answer, outcome),
        Request::Unheard => put_frame(out, &[]),
        _ => Ok(()),
    }
}
