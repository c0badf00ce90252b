#![tactic(auto)]

//! The card, its assembler and its checker, over the standard streams.

mod checking;
mod code;
#[cfg(test)]
mod decks;
mod form;
mod job;
mod listing;
mod program;
mod room;
mod rows;
mod running;
#[cfg(test)]
mod samples;
#[cfg(test)]
mod stops;
#[cfg(test)]
mod summaries;
#[cfg(test)]
mod tests;
mod text;
#[cfg(test)]
mod worked_rows;

use crate::program::program;
use mc_base::{StdSink, StdSource};
use mc_filter::command_words;
use std::env;
use std::io::{Stdin, Stdout};
use std::marker::Brand;
use std::process::ExitCode;
use std::sync::ledger::Blank;

fn main(rt: HostRuntime) -> ExitCode {
    let words = command_words(rt.alloc(), env::args(&rt));
    let mut input = StdSource::new(rt.stdin());
    let mut out = StdSink::new(rt.stdout());
    let status = program::<StdSource<Stdin>, StdSink<Stdout>, Brand>(
        rt.alloc(),
        words,
        &mut input,
        &mut out,
        Blank::new(1),
    );
    ExitCode::from(status)
}
