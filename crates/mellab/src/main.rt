#![tactic(auto)]

//! The laboratory, over the standard streams.

mod about;
mod applying;
#[cfg(test)]
mod examples;
mod exploring;
mod job;
mod program;
mod proving;
#[cfg(test)]
mod reports;
#[cfg(test)]
mod ruled;
mod running;
#[cfg(test)]
mod tests;

use crate::program::program;
use mc_filter::command_words;
use mc_streams::{StdSink, StdSource};
use std::env;
use std::io::{Stdin, Stdout};
use std::marker::Brand;
use std::process::ExitCode;
use std::sync::ledger::Blank;

fn main(rt: HostRuntime) -> ExitCode {
    let words = command_words(rt.alloc(), env::args(&rt));
    let mut input = StdSource::new(rt.stdin());
    let mut out = StdSink::new(rt.stdout());
    let status = program::<StdSource<Stdin>, StdSink<Stdout>, Brand>(
        rt.alloc(),
        words,
        &mut input,
        &mut out,
        Blank::new(1),
    );
    ExitCode::from(status)
}
