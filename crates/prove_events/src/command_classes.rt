// The classes of commands that the `command` and `answer` lines tell apart.
use crate::patterns::{Patterns, Reached, any_bytes, number_in};
use indexmap::IndexSet;
use lab_app_rules::{Event, On};
use model_device::NoMemory;
use prove_facts::{Values, push};
use std::alloc::Global;

/// A class of commands: for each `on` line whether its APDU matches, the values of the header's bytes, the patterns of the
/// results of its `answer` lines with the numbers of these lines, and what no bytes and any bytes of a result lead to.
#[derive(Drop)]
pub struct Class {
    pub matches: Vec<bool>,
    pub cla: Values,
    pub ins: Values,
    pub p1: Values,
    pub p2: Values,
    pub results: Patterns,
    pub answers: Vec<usize>,
    pub none: Vec<Reached>,
    pub any: Vec<Reached>,
}

/// A header up to some byte: what is reached, and how much of a SELECT it is.
#[derive(PartialEq, Eq, Hash, Drop)]
struct Walked {
    reached: Reached,
    selects: u8,
}

/// The values of a byte that lead from one state to another, by their numbers.
#[derive(Clone, Copy)]
struct Edge {
    from: usize,
    to: usize,
    values: Values,
}

/// The states after one more byte of the header, and what leads to them.
#[derive(Drop)]
struct Level {
    states: IndexSet<Walked>,
    edges: Vec<Edge>,
}

/// For each class the values of one byte of its headers.
type Column = Vec<Values>;

// How much of 00 A4 04 a header is after one more byte, or `None` if no application gets it.
fn selects_after(place: u8, selects: u8, byte: u8) -> Option<u8> {
    match (place, selects, byte) {
        (0, _, 0xFF) => None,
        (0, _, 0xBE) => None,
        (0, _, 0x00) => Some(1),
        (1, 1, 0xA4) => Some(2),
        (2, 2, 0x04) => None,
        _ => Some(0),
    }
}

// Adds a value to the edge between two states.
fn add_edge(edges: &mut Vec<Edge>, from: usize, to: usize, byte: u8) -> Result<(), NoMemory> {
    let mut found = None;
    for (i, edge) in edges.iter().enumerate() {
        if edge.from == from && edge.to == to {
            found = Some(i);
        }
    }
    let Some(place) = found else {
        return push(
            edges,
            Edge {
                from,
                to,
                values: Values::one(byte),
            },
        );
    };
    if let Some(edge) = edges.get_mut(place) {
        edge.values = edge.values.with(byte);
    }
    Ok(())
}

// Adds what follows a state.
fn add_level(
    alloc: Global,
    patterns: &Patterns,
    place: u8,
    from: usize,
    walked: &Walked,
    level: &mut Level,
) -> Result<(), NoMemory> {
    for byte in 0..=255u8 {
        if let Some(selects) = selects_after(place, walked.selects, byte) {
            let reached = patterns.step_byte(alloc, walked.reached.as_slice(), byte)?;
            let to = number_in(&mut level.states, Walked { reached, selects })?;
            add_edge(&mut level.edges, from, to, byte)?;
        }
    }
    Ok(())
}

fn level_after(
    alloc: Global,
    patterns: &Patterns,
    place: u8,
    from: &IndexSet<Walked>,
) -> Result<Level, NoMemory> {
    let mut level = Level {
        states: IndexSet::new(alloc),
        edges: Vec::new(alloc),
    };
    for (number, walked) in from.as_slice().iter().enumerate() {
        add_level(alloc, patterns, place, number, walked, &mut level)?;
    }
    Ok(level)
}

// Adds a number to a list that has each once.
fn add_number(numbers: &mut Vec<usize>, number: usize) -> Result<(), NoMemory> {
    if numbers.as_slice().contains(&number) {
        return Ok(());
    }
    push(numbers, number)
}

// The numbers of the classes that a header leads to with any bytes after it.
fn classes_after(
    alloc: Global,
    patterns: &Patterns,
    walked: &Walked,
    found: &mut IndexSet<Vec<bool>>,
) -> Result<Vec<usize>, NoMemory> {
    let mut numbers = Vec::new(alloc);
    let start = Vec::from_slice(alloc, walked.reached.as_slice())?;
    let states = any_bytes(alloc, patterns, start)?;
    for state in &states {
        let number = number_in(found, patterns.matched(alloc, state.as_slice())?)?;
        add_number(&mut numbers, number)?;
    }
    Ok(numbers)
}

fn last_classes(
    alloc: Global,
    patterns: &Patterns,
    last: &Level,
    found: &mut IndexSet<Vec<bool>>,
) -> Result<Vec<Vec<usize>>, NoMemory> {
    let mut after = Vec::new(alloc);
    for walked in last.states.as_slice() {
        push(&mut after, classes_after(alloc, patterns, walked, found)?)?;
    }
    Ok(after)
}

fn add_values(column: &mut Column, class: usize, values: &Values) {
    if let Some(there) = column.get_mut(class) {
        *there = there.or(values);
    }
}

// The values of an edge belong to the headers of each class that it leads to, and so do its first state's.
fn add_classes(
    column: &mut Column,
    before: &mut Vec<Vec<usize>>,
    edge: &Edge,
    classes: &[usize],
) -> Result<(), NoMemory> {
    for class in classes {
        add_values(column, *class, &edge.values);
        if let Some(numbers) = before.get_mut(edge.from) {
            add_number(numbers, *class)?;
        }
    }
    Ok(())
}

/// A column, and the classes that each state before it leads to.
#[derive(Drop)]
struct Back {
    column: Column,
    before: Vec<Vec<usize>>,
}

// A column of as many classes, without values, and as many states without classes.
fn blank(alloc: Global, classes: usize, states: usize) -> Result<Back, NoMemory> {
    let mut column = Vec::new(alloc);
    for _ in 0..classes {
        push(&mut column, Values::NONE)?;
    }
    Ok(Back {
        column,
        before: no_numbers(alloc, states)?,
    })
}

fn no_numbers(alloc: Global, states: usize) -> Result<Vec<Vec<usize>>, NoMemory> {
    let mut lists = Vec::new(alloc);
    for _ in 0..states {
        push(&mut lists, Vec::new(alloc))?;
    }
    Ok(lists)
}

fn back_over(
    alloc: Global,
    level: &Level,
    states: usize,
    classes: usize,
    after: &[Vec<usize>],
) -> Result<Back, NoMemory> {
    let mut back = blank(alloc, classes, states)?;
    for edge in &level.edges {
        if let Some(numbers) = after.get(edge.to) {
            add_classes(&mut back.column, &mut back.before, edge, numbers.as_slice())?;
        }
    }
    Ok(back)
}

/// Returns whether a line speaks of commands.
pub fn is_of_command(on: &On) -> bool {
    on.event == Event::Command || on.event == Event::Answer
}

fn value_in(column: &Column, class: usize) -> Values {
    match column.get(class) {
        Some(values) => *values,
        None => Values::NONE,
    }
}

// For each `on` line whether it matches, by whether each line that speaks of commands does.
fn spread_over(alloc: Global, ons: &[On], matched: &[bool]) -> Result<Vec<bool>, NoMemory> {
    let mut spread = Vec::new(alloc);
    let mut rest = matched;
    for on in ons {
        let mut is = false;
        if is_of_command(on) {
            if let [first, after @ ..] = rest {
                is = *first;
                rest = after;
            }
        }
        push(&mut spread, is)?;
    }
    Ok(spread)
}

// The patterns of the results of the `answer` lines that match, with the numbers of these lines.
fn results_of(
    alloc: Global,
    ons: &[On],
    matches: &[bool],
) -> Result<(Patterns, Vec<usize>), NoMemory> {
    let mut results = Patterns::new(alloc);
    let mut answers = Vec::new(alloc);
    for (number, on) in ons.iter().enumerate() {
        if on.event == Event::Answer && matches.get(number) == Some(&true) {
            results.add(alloc, on.result.as_slice())?;
            push(&mut answers, number)?;
        }
    }
    Ok((results, answers))
}

/// The four columns of the headers of all classes.
#[derive(Drop)]
struct Headers {
    cla: Column,
    ins: Column,
    p1: Column,
    p2: Column,
}

fn class_of(
    alloc: Global,
    ons: &[On],
    matched: &[bool],
    number: usize,
    headers: &Headers,
) -> Result<Class, NoMemory> {
    let matches = spread_over(alloc, ons, matched)?;
    let (results, answers) = results_of(alloc, ons, matches.as_slice())?;
    let mut none = Vec::new(alloc);
    push(&mut none, results.start(alloc)?)?;
    let any = any_bytes(alloc, &results, results.start(alloc)?)?;
    Ok(Class {
        matches,
        cla: value_in(&headers.cla, number),
        ins: value_in(&headers.ins, number),
        p1: value_in(&headers.p1, number),
        p2: value_in(&headers.p2, number),
        results,
        answers,
        none,
        any,
    })
}

fn command_patterns(alloc: Global, ons: &[On]) -> Result<Patterns, NoMemory> {
    let mut patterns = Patterns::new(alloc);
    for on in ons {
        if is_of_command(on) {
            patterns.add(alloc, on.pattern.as_slice())?;
        }
    }
    Ok(patterns)
}

fn first_state(alloc: Global, patterns: &Patterns) -> Result<IndexSet<Walked>, NoMemory> {
    let mut first = IndexSet::new(alloc);
    number_in(
        &mut first,
        Walked {
            reached: patterns.start(alloc)?,
            selects: 0,
        },
    )?;
    Ok(first)
}

fn listed_classes(
    alloc: Global,
    ons: &[On],
    found: &IndexSet<Vec<bool>>,
    headers: &Headers,
) -> Result<Vec<Class>, NoMemory> {
    let mut classes = Vec::new(alloc);
    for (number, matched) in found.as_slice().iter().enumerate() {
        push(
            &mut classes,
            class_of(alloc, ons, matched.as_slice(), number, headers)?,
        )?;
    }
    Ok(classes)
}

/// The states after each byte of the header, and the number of states before the first.
#[derive(Drop)]
struct Levels {
    starts: usize,
    cla: Level,
    ins: Level,
    p1: Level,
    p2: Level,
}

// The states after the class and the instruction.
fn first_levels(alloc: Global, patterns: &Patterns) -> Result<(usize, Level, Level), NoMemory> {
    let first = first_state(alloc, patterns)?;
    let cla = level_after(alloc, patterns, 0, &first)?;
    let ins = level_after(alloc, patterns, 1, &cla.states)?;
    Ok((first.len(), cla, ins))
}

fn levels_of(alloc: Global, patterns: &Patterns) -> Result<Levels, NoMemory> {
    let (starts, cla, ins) = first_levels(alloc, patterns)?;
    let p1 = level_after(alloc, patterns, 2, &ins.states)?;
    let p2 = level_after(alloc, patterns, 3, &p1.states)?;
    Ok(Levels {
        starts,
        cla,
        ins,
        p1,
        p2,
    })
}

// The columns of P1 and P2, and the classes that each state before P1 leads to.
fn last_columns(
    alloc: Global,
    levels: &Levels,
    count: usize,
    after: &[Vec<usize>],
) -> Result<(Back, Column), NoMemory> {
    let p2 = back_over(alloc, &levels.p2, levels.p1.states.len(), count, after)?;
    let p1 = back_over(
        alloc,
        &levels.p1,
        levels.ins.states.len(),
        count,
        p2.before.as_slice(),
    )?;
    Ok((p1, p2.column))
}

fn headers_of(
    alloc: Global,
    levels: &Levels,
    count: usize,
    after: &[Vec<usize>],
) -> Result<Headers, NoMemory> {
    let (p1, p2) = last_columns(alloc, levels, count, after)?;
    let ins = back_over(
        alloc,
        &levels.ins,
        levels.cla.states.len(),
        count,
        p1.before.as_slice(),
    )?;
    let cla = back_over(
        alloc,
        &levels.cla,
        levels.starts,
        count,
        ins.before.as_slice(),
    )?;
    Ok(Headers {
        cla: cla.column,
        ins: ins.column,
        p1: p1.column,
        p2,
    })
}

/// Returns the classes of commands that some header, with some bytes after it, is in.
///
/// # Errors
///
/// Returns `NoMemory` if it is out of memory.
pub fn classes(alloc: Global, ons: &[On]) -> Result<Vec<Class>, NoMemory> {
    let patterns = command_patterns(alloc, ons)?;
    let levels = levels_of(alloc, &patterns)?;
    let mut found = IndexSet::new(alloc);
    let after = last_classes(alloc, &patterns, &levels.p2, &mut found)?;
    let headers = headers_of(alloc, &levels, found.len(), after.as_slice())?;
    listed_classes(alloc, ons, &found, &headers)
}
