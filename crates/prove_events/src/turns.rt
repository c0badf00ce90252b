// The lines that an instruction matches that was done.
use lab_app_rules::{Event, On};
use lab_match::fits;
use mc_text::digit;
use model_device::{NoMemory, bytes_of};
use prove_facts::push;
use std::alloc::Global;

/// An instruction that was done: the depth of its frame, its place and its text, and DT and the flags after it.
#[derive(Clone, Copy)]
pub struct TurnEvent<'a> {
    pub depth: u8,
    pub at: u16,
    pub ins: &'a [u8],
    pub dt: u16,
    pub c: bool,
    pub z: bool,
}

// A flag as a digit.
fn bit(flag: bool) -> u8 {
    if flag { b'1' } else { b'0' }
}

// Appends a word in four hexadecimal digits.
fn add_word(text: &mut Vec<u8>, word: u16) -> Result<(), NoMemory> {
    let [high, low] = bytes_of(word);
    text.extend_from_slice(&[
        digit(high / 16),
        digit(high % 16),
        digit(low / 16),
        digit(low % 16),
    ])?;
    Ok(())
}

// The line of a turn, as a trace has it, without the blanks between its fields.
fn text_of_turn(alloc: Global, turn: &TurnEvent<'_>) -> Result<Vec<u8>, NoMemory> {
    let mut text = Vec::new(alloc);
    push(&mut text, digit(turn.depth % 16))?;
    add_word(&mut text, turn.at)?;
    text.extend_from_slice(turn.ins)?;
    add_word(&mut text, turn.dt)?;
    text.extend_from_slice(&[bit(turn.c), bit(turn.z)])?;
    Ok(text)
}

/// Returns for each line whether it is a `turn` line that matches an instruction that was done.
///
/// # Errors
///
/// Returns `NoMemory` if it is out of memory.
pub fn turn_lines(alloc: Global, ons: &[On], turn: &TurnEvent<'_>) -> Result<Vec<bool>, NoMemory> {
    let text = text_of_turn(alloc, turn)?;
    let mut lines = Vec::new(alloc);
    for on in ons {
        push(
            &mut lines,
            on.event == Event::Turn && fits(on.pattern.as_slice(), text.as_slice()),
        )?;
    }
    Ok(lines)
}
