#![tactic(auto)]

//! Drafts, over the standard streams.

mod about;
mod checking;
mod draft_text;
mod job;
mod playing;
mod program;
#[cfg(test)]
mod purse;
mod running;
#[cfg(test)]
mod tests;

use crate::program::program;
use mc_filter::command_words;
use mc_streams::{StdSink, StdSource};
use std::env;
use std::io::{Stderr, Stdin, Stdout};
use std::marker::Brand;
use std::process::ExitCode;
use std::sync::ledger::Blank;

fn main(rt: HostRuntime) -> ExitCode {
    let words = command_words(rt.alloc(), env::args(&rt));
    let mut input = StdSource::new(rt.stdin());
    let mut out = StdSink::new(rt.stdout());
    let mut err = StdSink::new(rt.stderr());
    let status = program::<StdSource<Stdin>, StdSink<Stdout>, StdSink<Stderr>, Brand>(
        rt.alloc(),
        words,
        &mut input,
        &mut out,
        &mut err,
        Blank::new(1),
    );
    ExitCode::from(status)
}
