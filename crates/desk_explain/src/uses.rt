// The names and labels that the lines of a draft use.

use crate::kind::Kind;
use crate::part::{field_at, last_operand, operands_of, word_part};
use std::alloc::{AllocError, Global};
use std::collections::BTreeSet;

/// The words that stand for names, and those that stand for labels.
#[derive(Drop)]
pub struct Uses<'a> {
    names: BTreeSet<&'a [u8]>,
    labels: BTreeSet<&'a [u8]>,
}

// Whether a byte is part of a name.
fn is_in_name(byte: u8) -> bool {
    byte.is_ascii_alphanumeric() || byte == b'_'
}

// The rest of a text from its first name on.
fn from_name(text: &[u8]) -> &[u8] {
    let mut rest = text;
    while let [first, behind @ ..] = rest {
        if is_in_name(*first) {
            return rest;
        }
        rest = behind;
    }
    rest
}

// The number of bytes of the name with which a text begins.
fn name_size(text: &[u8]) -> usize {
    let mut count = 0;
    for (index, byte) in text.iter().enumerate() {
        if !is_in_name(*byte) {
            return index;
        }
        count = index;
    }
    count.saturating_add(1)
}

// Adds the names in a text.
fn add_names<'a>(names: &mut BTreeSet<&'a [u8]>, text: &'a [u8]) -> Result<(), AllocError> {
    let mut rest = from_name(text);
    for _ in 0..text.len() {
        if rest.is_empty() {
            return Ok(());
        }
        let (name, behind) = rest.split_at(name_size(rest).min(rest.len()));
        names.insert(name)?;
        rest = from_name(behind);
    }
    Ok(())
}

/// Whether a word goes to a label.
pub fn goes_to_label(word: &[u8]) -> bool {
    matches!(word, b"BRANCH" | b"JUMP" | b"CALL")
}

// Whether a line is a comment with a rule.
fn has_rule(line: &[u8]) -> bool {
    match field_at(line, 0) {
        Some(part) => part.text == b"#@".as_slice(),
        None => false,
    }
}

impl<'a> Uses<'a> {
    /// Returns no uses.
    pub fn none(alloc: Global) -> Self {
        Uses {
            names: BTreeSet::new(alloc),
            labels: BTreeSet::new(alloc),
        }
    }

    // Takes the uses of an instruction.
    fn take_instruction(&mut self, line: &'a [u8]) -> Result<(), AllocError> {
        if goes_to_label(word_part(line).text) {
            self.labels.insert(last_operand(line).text)?;
            return Ok(());
        }
        add_names(&mut self.names, operands_of(line))
    }

    /// Takes the uses of a line of a section: the names of an instruction, or the label of one that goes there.
    pub fn take_line(&mut self, kind: Kind, line: &'a [u8]) -> Result<(), AllocError> {
        match kind {
            Kind::Instruction => self.take_instruction(line),
            _ => Ok(()),
        }
    }

    /// Takes the names of a line if it is a rule.
    pub fn take_rule(&mut self, line: &'a [u8]) -> Result<(), AllocError> {
        if !has_rule(line) {
            return Ok(());
        }
        add_names(&mut self.names, line)
    }

    /// Whether a name is used.
    pub fn has_name(&self, name: &'a [u8]) -> bool {
        self.names.contains(&name)
    }

    /// Whether a label is used.
    pub fn has_label(&self, label: &'a [u8]) -> bool {
        self.labels.contains(&label)
    }
}
