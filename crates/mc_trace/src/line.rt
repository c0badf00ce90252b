// The line of one turn: an executed instruction, or a fetch that found none.
ghost use Rattle.std.specs.Prelude.{◌≡◌, ◌+◌, ◌≤◌, ◌++◌, ◌∷◌, [], ℕ, length, codes, Option, IfSome};
ghost use Rattle.arrayvec.specs.ArrayVec.{array_vec_len};
ghost use Rattle.model_text.specs.model_device.specs.Bytes.{bytes2};
ghost use Rattle.model_text.specs.model_machine.specs.Code.{Shaped};
ghost use Rattle.model_text.specs.Listing.{hex_text};
ghost use Rattle.model_text.specs.TurnText.{bit_text, ins_text, turn_line};
ghost use Rattle.mc_machine.specs.declared.outcome.Outcome.{Outcome};
ghost use Rattle.mc_machine.specs.Turns.{full_turn, turn_value};

use arrayvec::ArrayVec;
use mc_isa::{Ins, text_of};
use mc_machine::{BriefTurn, Turn};
use mc_text::digit;

type Line = ArrayVec<u8, 96>;

// Appends text to the line.
fn put(line: &mut Line, text: &[u8])
    requires { array_vec_len line.old + length text.now ≤ 96 }
    ensures { line.new.items ≡ line.old.items ++ text.now }
{
    line.try_extend_from_slice(text).unwrap()
}

// Appends a blank and a field.
fn put_field(line: &mut Line, text: &[u8])
    requires { array_vec_len line.old + length text.now ≤ 95 }
    ensures { line.new.items ≡ line.old.items ++ codes " " ++ text.now }
{
    put(line, b" ");
    put(line, text);
}

// A word in four hexadecimal digits.
fn hexadecimal(word: u16) -> [u8; 4]
    ensures { result ≡ hex_text (bytes2 word) }
{
    [
        digit((word / 4096 % 16) as u8),
        digit((word / 256 % 16) as u8),
        digit((word / 16 % 16) as u8),
        digit((word % 16) as u8),
    ]
}

// Appends the field of an instruction: its line of a listing, or `?` if there is none.
fn put_instruction(line: &mut Line, ins: &Option<Ins>)
    requires room { array_vec_len line.old ≤ 50 }
    requires shaped { IfSome ins.now Shaped }
    ensures text { line.new.items ≡ line.old.items ++ codes " " ++ ins_text ins.now }
    ensures short { array_vec_len line.new ≤ array_vec_len line.old + 41 }
{
    match ins {
        Some(ins) => put_field(line, text_of(ins).as_slice()),
        None => put_field(line, b"?"),
    }
}

// A flag as a digit.
fn bit(flag: bool) -> u8
    ensures { result ∷ [] ≡ bit_text flag }
{
    if flag { b'1' } else { b'0' }
}

/// Returns the line of a turn in a trace, with its line feed: the depth of its frame from 1 to 4, the place,
/// the instruction as in a listing or `?` if there is none, DT, and the flags C and Z. Place and DT have four
/// hexadecimal digits.
#[tactic(auto, unfolding(model_text::specs::TurnText::turn_line))]
pub fn line_of(turn: &Turn) -> ArrayVec<u8, 96>
    requires shaped { IfSome turn.now.ins Shaped }
    requires low { 1 ≤ turn.now.depth }
    requires high { turn.now.depth ≤ 4 }
    ensures { (wrote : Option ℕ) → result.items ≡ turn_line (turn_value turn.now wrote) }
{
    line_of_brief(&BriefTurn {
        depth: turn.depth,
        at: turn.at,
        ins: turn.ins,
        dt: turn.dt,
        flags: turn.flags,
        end: None,
    })
}

/// Returns the line of a turn as `line_of` does, of a turn without its reply: no line has the end of its turn.
#[tactic(auto, unfolding(model_text::specs::TurnText::turn_line))]
pub fn line_of_brief(turn: &BriefTurn) -> ArrayVec<u8, 96>
    requires shaped { IfSome turn.now.ins Shaped }
    requires low { 1 ≤ turn.now.depth }
    requires high { turn.now.depth ≤ 4 }
    ensures { (outcome : Outcome) (wrote : Option ℕ)
        → result.items ≡ turn_line (turn_value (full_turn turn.now outcome) wrote) }
{
    let mut line = ArrayVec::new();
    put(&mut line, &[b'>', b' ', b'0' + turn.depth]);
    put_field(&mut line, &hexadecimal(turn.at));
    put_instruction(&mut line, &turn.ins);
    put_field(&mut line, &hexadecimal(turn.dt));
    put_field(&mut line, &[bit(turn.flags.c), bit(turn.flags.z)]);
    put(&mut line, b"\n");
    line
}
