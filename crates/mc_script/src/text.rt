// The texts of results.
ghost use Rattle.std.specs.Prelude.{◌≡◌, ◌+◌, ◌*◌, ◌<◌, ◌≤◌, ◌++◌, [], ◌∷◌, length, take, drop, option_map, Some, IsSome, codes, decimal};
ghost use Rattle.arrayvec.specs.ArrayVec.{array_vec_len};
ghost use Rattle.model_play.specs.model_device.specs.Bytes.{bytes2, lookup};
ghost use Rattle.model_play.specs.Play.{static_of};
ghost use Rattle.model_play.specs.model_machine.specs.Words.{abend_code};
ghost use Rattle.model_play.specs.model_device.specs.Words.{cause_text};
ghost use Rattle.model_play.specs.model_text.specs.Listing.{hex_digit, hex_text};
ghost use Rattle.model_play.specs.Transcript.{line_text, text_of_result};
ghost use Rattle.model_play.specs.model_text.specs.TurnText.{outcome_text};
ghost use Rattle.mc_machine.specs.Turns.{outcome_value};
ghost use Rattle.mc_bank.specs.Bank.{app_of};
ghost use Rattle.mc_card.specs.Parts.{card_in, IsUp};
ghost use Rattle.mc_script.specs.Players.{answer_value, dump_value};
ghost use Rattle.mc_script.specs.Benches.{IsPlaying};
ghost use Rattle.mc_text.specs.Texts.{sunk, Puts};

use crate::answer::Answer;
use crate::player::{Player, Power};
use arrayvec::ArrayVec;
use mc_apdu::Reply;
use mc_blocks::Unusable;
use mc_card::Card;
use mc_machine::Outcome;
use mc_nvm::{Bench, Nvm};
use mc_streams::{Sink, WriteFault};
use mc_text::{add, add_decimal, add_hex, put};
use mc_words::Aid;
use model_play::model_machine::Abend;

/// The number of static bytes that are read at a time.
const PIECE: usize = 256;

/// The number of their digits.
const DIGITS: usize = 512;

/// The text of a line, which is gathered before it is written. It has room for a number of ten digits, a blank,
/// `static`, a blank and 4,096 bytes in hexadecimal, and a line feed.
pub type Text = ArrayVec<u8, 8211>;

// Adds why an image is no card.
fn add_unusable(text: &mut Text, unusable: &Unusable)
    requires { array_vec_len text.old ≤ 11 }
    ensures text { text.new.items ≡ text.old.items ++ codes "unusable " ++ cause_text unusable.now.cause ++ codes " "
        ++ decimal unusable.now.place }
    ensures short { array_vec_len text.new ≤ 8210 }
{
    add(text, b"unusable ");
    add(text, unusable.cause.word().as_bytes());
    add(text, b" ");
    add_decimal(text, unusable.place as u32);
}

// Adds a reply in hexadecimal.
fn add_reply(text: &mut Text, reply: &Reply)
    requires { array_vec_len text.old ≤ 11 }
    ensures text { text.new.items ≡ text.old.items ++ hex_text (reply.now.body.items ++ bytes2 reply.now.sw) }
    ensures short { array_vec_len text.new ≤ 8210 }
{
    add_hex(text, reply.body.as_slice());
    add_hex(
        text,
        &[(reply.sw / 256 % 256) as u8, (reply.sw % 256) as u8],
    );
}

// Adds the number of an abend.
fn add_abend(text: &mut Text, abend: Abend)
    requires { array_vec_len text.old ≤ 11 }
    ensures text { text.new.items ≡ text.old.items ++ codes "abend " ++ hex_text (abend_code abend ∷ []) }
    ensures short { array_vec_len text.new ≤ 8210 }
{
    add(text, b"abend ");
    add_hex(text, &[abend.code()]);
}

// Adds how a command ended.
fn add_outcome(text: &mut Text, outcome: &Outcome)
    requires { array_vec_len text.old ≤ 11 }
    ensures text { text.new.items ≡ text.old.items ++ outcome_text (outcome_value outcome.now) }
    ensures short { array_vec_len text.new ≤ 8210 }
{
    match outcome {
        Outcome::Reply(reply) => add_reply(text, reply),
        Outcome::Abend(abend) => add_abend(text, *abend),
    }
}

// Returns the upper case hexadecimal digit of a number below 16, by arithmetic: a loop over a table is not done several
// bytes at once.
fn digit(value: u8) -> u8
    requires { value < 16 }
    ensures { result ≡ hex_digit value }
{
    if value < 10 { 48 + value } else { 55 + value }
}

// Replaces `into` by the upper case hexadecimal digits of bytes. A text tests its room for each digit that is added, a
// slice does not.
fn write_digits(bytes: &[u8], into: &mut [u8])
    requires { length into.old ≡ 2 * length bytes.now }
    ensures { into.new ≡ hex_text bytes.now }
{
    for (at, byte) in bytes.iter().enumerate() {
        into[2 * at] = digit(*byte / 16 % 16);
        into[2 * at + 1] = digit(*byte % 16);
    }
}

// Adds `count` static bytes of an application in hexadecimal, from place `at` on.
fn add_piece<N: Nvm>(text: &mut Text, card: &Card<N>, aid: &Aid, at: u16, count: usize)
    requires up { IsUp N.state card.now }
    requires there { IsSome (lookup (card_in N.state card.now).apps aid.now) }
    requires range { at + count ≤ length (app_of (card_in N.state card.now).apps (Some aid.now)).fixed }
    requires small { count ≤ 256 }
    requires room { array_vec_len text.old + 2 * count ≤ 8211 }
    ensures text { text.new.items ≡ text.old.items
        ++ hex_text (take count (drop at (app_of (card_in N.state card.now).apps (Some aid.now)).fixed)) }
    ensures length { array_vec_len text.new ≡ array_vec_len text.old + 2 * count }
{
    let mut bytes = [0; PIECE];
    let piece = &mut bytes[..count];
    card.static_of(aid, at, piece);
    let mut digits = [0; DIGITS];
    let digits = &mut digits[..2 * count];
    write_digits(piece, digits);
    add(text, digits);
}

// Adds the static bytes of an application in hexadecimal.
fn add_bytes<N: Nvm>(text: &mut Text, card: &Card<N>, aid: &Aid, len: u16)
    requires up { IsUp N.state card.now }
    requires there { IsSome (lookup (card_in N.state card.now).apps aid.now) }
    requires len { len ≡ length (app_of (card_in N.state card.now).apps (Some aid.now)).fixed }
    requires most { len ≤ 4096 }
    requires room { array_vec_len text.old ≤ 18 }
    ensures text { text.new.items ≡ text.old.items
        ++ hex_text (app_of (card_in N.state card.now).apps (Some aid.now)).fixed }
    ensures short { array_vec_len text.new ≤ 8210 }
{
    let mut at = 0;
    while at < len {
        let count = ((len - at) as usize).min(PIECE);
        add_piece(text, card, aid, at, count);
        at += count as u16;
    }
}

// Adds the result of a `dump` line for a name on a card that runs.
fn add_static<N: Nvm>(text: &mut Text, card: &Card<N>, aid: &Aid)
    requires up { IsUp N.state card.now }
    requires room { array_vec_len text.old ≤ 11 }
    ensures text { text.new.items ≡ text.old.items
        ++ text_of_result (static_of (lookup (card_in N.state card.now).apps aid.now)) }
    ensures short { array_vec_len text.new ≤ 8210 }
{
    match card.static_len(aid) {
        None => add(text, b"absent"),
        Some(0) => add(text, b"static"),
        Some(len) => {
            add(text, b"static ");
            add_bytes(text, card, aid, len);
        }
    }
}

// Adds the result of a `dump` line for a name.
fn add_dump<N: Bench>(text: &mut Text, player: &Player<N>, aid: &Aid)
    requires playing { IsPlaying N.Bench player.now }
    requires room { array_vec_len text.old ≤ 11 }
    ensures text { text.new.items ≡ text.old.items
        ++ text_of_result (dump_value N.state player.now.power player.now.card aid.now) }
    ensures short { array_vec_len text.new ≤ 8210 }
{
    match player.power {
        Power::BeforePower => add(text, b"off"),
        Power::Off => add(text, b"off"),
        Power::Mute => add(text, b"mute"),
        Power::On => add_static(text, &player.card, aid),
    }
}

/// Adds a result of a player, as a transcript has it after its number and a blank.
pub fn add_result<N: Bench>(text: &mut Text, player: &Player<N>, answer: &Answer)
    requires playing { IsPlaying N.Bench player.now }
    requires room { array_vec_len text.old ≤ 11 }
    ensures text { text.new.items ≡ text.old.items ++ text_of_result (answer_value N.state player.now answer.now) }
    ensures short { array_vec_len text.new ≤ 8210 }
{
    match answer {
        Answer::Formatted => add(text, b"formatted"),
        Answer::Ready(writes) => add_number(text, b"ready ", *writes as u32),
        Answer::Unusable(unusable) => add_unusable(text, unusable),
        Answer::OffAt(k) => add_number(text, b"off at write ", *k),
        Answer::Worn => add(text, b"6581"),
        Answer::NoCard => add(text, b"off"),
        Answer::Mute => add(text, b"mute"),
        Answer::Outcome => add_outcome(text, &player.outcome),
        Answer::Dump(aid) => add_dump(text, player, aid),
    }
}

// Adds a word and a number.
fn add_number(text: &mut Text, word: &[u8], number: u32)
    requires room { array_vec_len text.old ≤ 11 }
    requires small { length word.now ≤ 20 }
    ensures text { text.new.items ≡ text.old.items ++ word.now ++ decimal number }
    ensures short { array_vec_len text.new ≤ 8210 }
{
    add(text, word);
    add_decimal(text, number);
}

/// Gathers the line of a result: its number, a blank, the result and a line feed.
pub fn gather_result<N: Bench>(text: &mut Text, number: u32, player: &Player<N>, answer: &Answer)
    requires playing { IsPlaying N.Bench player.now }
    ensures { text.new.items ≡ line_text number (Some (answer_value N.state player.now answer.now)) }
{
    text.clear();
    add_decimal(text, number);
    add(text, b" ");
    add_result(text, player, answer);
    add(text, b"\n");
}

/// Writes the line of a result, if there is one, by one `put`.
pub fn put_answer<N: Bench, T: Sink>(
    out: &mut T,
    text: &mut Text,
    number: u32,
    player: &Player<N>,
    answer: &Option<Answer>,
) -> Result<(), WriteFault>
    requires playing { IsPlaying N.Bench player.now }
    ensures { Puts (sunk T.Sink out.old)
        (line_text number (option_map (answer_value N.state player.now) answer.now)) result
        (sunk T.Sink out.new) }
{
    match answer {
        Some(answer) => {
            gather_result(text, number, player, answer);
            put(out, text.as_slice())
        }
        None => Ok(()),
    }
}
