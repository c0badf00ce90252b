#![tactic(auto)]

//! Decks played on a device: their transcripts, their summaries and their traces.

mod answer;
mod armed;
mod commands;
mod decks;
mod examples;
mod job;
mod line;
mod live;
mod loading;
mod player;
mod playing;
mod power;
mod quiet;
mod reporter;
mod runner;
mod session;
mod statics;
mod summary;
mod summing;
mod text;
mod watching;
mod writer;

pub use answer::{Answer, was_cut};
pub use examples::{power_after_lines, steps_of_commands, words_after_lines};
pub use job::JobFault;
pub use live::Live;
pub use player::Player;
pub use playing::{play, play_lines, summarise, trace};
pub use reporter::Reporter;
pub use runner::{Runner, Silent};
pub use text::{Text, add_result, gather_result};
pub use watching::{Watcher, run_watched};
pub use writer::{Reporting, Writer, write_result};
