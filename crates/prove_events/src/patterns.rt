// Patterns walked along all texts of hexadecimal digits at once.
use indexmap::IndexSet;
use model_device::NoMemory;
use prove_facts::{Values, push};
use std::alloc::Global;

/// A pattern without blanks and capital letters, and the place of its first bit.
#[derive(Drop)]
pub struct Pattern {
    pub signs: Vec<u8>,
    pub start: usize,
}

/// Patterns, and the number of words that their bits take.
#[derive(Drop)]
pub struct Patterns {
    pub list: Vec<Pattern>,
    pub words: usize,
}

/// For each pattern the places in it that a text can have reached, a bit each.
pub type Reached = Vec<u64>;

// Whether a bit is set.
fn has_bit(state: &[u64], bit: usize) -> bool {
    match state.get(bit / 64) {
        Some(word) => *word >> (bit % 64) & 1 == 1,
        None => false,
    }
}

fn set_bit(state: &mut Reached, bit: usize) {
    if let Some(word) = state.get_mut(bit / 64) {
        *word |= 1u64 << (bit % 64);
    }
}

// A place in a pattern is reached, and those that follow it over any number of `*`.
fn reach(state: &mut Reached, pattern: &Pattern, place: usize) {
    set_bit(state, pattern.start.saturating_add(place));
    for (i, sign) in pattern.signs.iter().enumerate() {
        if i >= place {
            if *sign != b'*' {
                return;
            }
            set_bit(state, pattern.start.saturating_add(i).saturating_add(1));
        }
    }
}

fn step_one(from: &[u64], to: &mut Reached, pattern: &Pattern, character: u8) {
    for (i, sign) in pattern.signs.iter().enumerate() {
        if has_bit(from, pattern.start.saturating_add(i)) {
            if *sign == b'*' {
                reach(to, pattern, i);
            } else if *sign == b'?' || *sign == character {
                reach(to, pattern, i.saturating_add(1));
            }
        }
    }
}

// A digit, letters as small ones.
fn small_digit(digit: u8) -> u8 {
    let low = digit % 16;
    if low < 10 {
        b'0' + low
    } else {
        b'a' + (low - 10)
    }
}

impl Patterns {
    /// Returns no patterns.
    pub fn new(alloc: Global) -> Patterns {
        Patterns {
            list: Vec::new(alloc),
            words: 0,
        }
    }

    /// Adds a pattern.
    ///
    /// # Errors
    ///
    /// Returns `NoMemory` if it is out of memory.
    pub fn add(&mut self, alloc: Global, signs: &[u8]) -> Result<(), NoMemory> {
        let start = self.words.saturating_mul(64);
        let signs = Vec::from_slice(alloc, signs)?;
        self.words = self
            .words
            .saturating_add(signs.len() / 64)
            .saturating_add(1);
        push(&mut self.list, Pattern { signs, start })
    }

    fn none(&self, alloc: Global) -> Result<Reached, NoMemory> {
        let mut state = Vec::new(alloc);
        for _ in 0..self.words {
            push(&mut state, 0)?;
        }
        Ok(state)
    }

    /// Returns what the empty text has reached.
    ///
    /// # Errors
    ///
    /// Returns `NoMemory` if it is out of memory.
    pub fn start(&self, alloc: Global) -> Result<Reached, NoMemory> {
        let mut state = self.none(alloc)?;
        for pattern in &self.list {
            reach(&mut state, pattern, 0);
        }
        Ok(state)
    }

    // What is reached after one more character.
    fn step(&self, alloc: Global, from: &[u64], character: u8) -> Result<Reached, NoMemory> {
        let mut to = self.none(alloc)?;
        for pattern in &self.list {
            step_one(from, &mut to, pattern, character);
        }
        Ok(to)
    }

    /// Returns what is reached after the two digits of one more byte.
    ///
    /// # Errors
    ///
    /// Returns `NoMemory` if it is out of memory.
    pub fn step_byte(&self, alloc: Global, from: &[u64], byte: u8) -> Result<Reached, NoMemory> {
        let half = self.step(alloc, from, small_digit(byte / 16))?;
        self.step(alloc, half.as_slice(), small_digit(byte % 16))
    }

    /// Returns for each pattern whether the text has reached its end.
    ///
    /// # Errors
    ///
    /// Returns `NoMemory` if it is out of memory.
    pub fn matched(&self, alloc: Global, state: &[u64]) -> Result<Vec<bool>, NoMemory> {
        let mut matched = Vec::new(alloc);
        for pattern in &self.list {
            push(
                &mut matched,
                has_bit(state, pattern.start.saturating_add(pattern.signs.len())),
            )?;
        }
        Ok(matched)
    }
}

/// Adds a value to a set, and returns its number there.
///
/// # Errors
///
/// Returns `NoMemory` if it is out of memory.
pub fn number_in<T: Eq + std::hash::Hash + Drop>(
    set: &mut IndexSet<T>,
    value: T,
) -> Result<usize, NoMemory> {
    match set.insert_full(value) {
        Ok((number, _)) => Ok(number),
        Err(_) => Err(NoMemory),
    }
}

// What one more digit leads to.
fn digit_states(
    alloc: Global,
    patterns: &Patterns,
    from: &[u64],
    all: &mut IndexSet<Reached>,
) -> Result<(), NoMemory> {
    for digit in 0..16u8 {
        number_in(all, patterns.step(alloc, from, small_digit(digit))?)?;
    }
    Ok(())
}

// What one more byte leads to.
fn byte_states(
    alloc: Global,
    patterns: &Patterns,
    from: &[u64],
) -> Result<IndexSet<Reached>, NoMemory> {
    let mut halves: IndexSet<Reached> = IndexSet::new(alloc);
    digit_states(alloc, patterns, from, &mut halves)?;
    let mut all = IndexSet::new(alloc);
    for half in halves.as_slice() {
        digit_states(alloc, patterns, half.as_slice(), &mut all)?;
    }
    Ok(all)
}

fn add_states(
    alloc: Global,
    more: &IndexSet<Reached>,
    all: &mut IndexSet<Reached>,
) -> Result<(), NoMemory> {
    for state in more.as_slice() {
        number_in(all, Vec::from_slice(alloc, state.as_slice())?)?;
    }
    Ok(())
}

fn add_bytes(
    alloc: Global,
    patterns: &Patterns,
    number: usize,
    all: &mut IndexSet<Reached>,
) -> Result<bool, NoMemory> {
    let more = match all.get_index(number) {
        Some(state) => byte_states(alloc, patterns, state.as_slice())?,
        None => return Ok(false),
    };
    add_states(alloc, &more, all)?;
    Ok(true)
}

/// Returns a copy of some states.
///
/// # Errors
///
/// Returns `NoMemory` if it is out of memory.
pub fn listed(alloc: Global, states: &IndexSet<Reached>) -> Result<Vec<Reached>, NoMemory> {
    let mut list = Vec::new(alloc);
    for state in states.as_slice() {
        push(&mut list, Vec::from_slice(alloc, state.as_slice())?)?;
    }
    Ok(list)
}

/// Returns what any number of any bytes leads to.
///
/// # Errors
///
/// Returns `NoMemory` if it is out of memory, or if there are more states than any deck needs.
pub fn any_bytes(
    alloc: Global,
    patterns: &Patterns,
    from: Reached,
) -> Result<Vec<Reached>, NoMemory> {
    let mut all = IndexSet::new(alloc);
    number_in(&mut all, from)?;
    for number in 0..1_000_000 {
        if !add_bytes(alloc, patterns, number, &mut all)? {
            return listed(alloc, &all);
        }
    }
    Err(NoMemory)
}

fn add_set(
    alloc: Global,
    patterns: &Patterns,
    from: &[u64],
    set: &Values,
    all: &mut IndexSet<Reached>,
) -> Result<(), NoMemory> {
    for byte in 0..=255u8 {
        if set.has(byte) {
            number_in(all, patterns.step_byte(alloc, from, byte)?)?;
        }
    }
    Ok(())
}

/// Returns what a byte of a set leads to from some states.
///
/// # Errors
///
/// Returns `NoMemory` if it is out of memory.
pub fn set_states(
    alloc: Global,
    patterns: &Patterns,
    from: &[Reached],
    set: &Values,
) -> Result<Vec<Reached>, NoMemory> {
    let mut all = IndexSet::new(alloc);
    for state in from {
        add_set(alloc, patterns, state.as_slice(), set, &mut all)?;
    }
    listed(alloc, &all)
}
