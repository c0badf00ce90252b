#![tactic(auto)]

//! Names, words, numbers and steps, and bytes in and out: what users of the card's calls need beside the calls themselves.

pub use mc_streams::{
    Failed, MemSink, MemSource, ReadAll, Sink, Source, StdSink, StdSource, WriteFault, put_all,
    read_all,
};
pub use mc_words::{Aid, MOST_CODE, NoMemory, Steps, Stop, Word, bytes_of, number_of};
