#![tactic(auto)]

//! A card in a reader, over the standard streams.

mod about;
mod deck;
mod lines;
mod running;
mod selecting;
#[cfg(test)]
mod tests;

use crate::selecting::{deck_path, program};
use mc_filter::command_words;
use mc_streams::{StdSink, StdSource};
use std::env;
use std::fs::File;
use std::io::{Stderr, Stdin, Stdout};
use std::marker::Brand;
use std::process::ExitCode;
use std::sync::ledger::Blank;

fn main(rt: HostRuntime) -> ExitCode {
    let words = command_words(rt.alloc(), env::args(&rt));
    let file = match deck_path(&words) {
        Some(path) => File::open(&rt, path).ok().map(StdSource::new),
        None => None,
    };
    let mut input = StdSource::new(rt.stdin());
    let mut out = StdSink::new(rt.stdout());
    let mut err = StdSink::new(rt.stderr());
    let status = program::<
        StdSource<File>,
        StdSource<Stdin>,
        StdSink<Stdout>,
        StdSink<Stderr>,
        Brand,
    >(
        rt.alloc(),
        words,
        file,
        &mut input,
        &mut out,
        &mut err,
        Blank::new(1),
    );
    ExitCode::from(status)
}
