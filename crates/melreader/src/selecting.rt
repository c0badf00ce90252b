// The program: its words select a deck, which is played on a blank device before the frames of a host are served, or what
// it says of itself.
ghost use Rattle.std.specs.Prelude.{◌≡◌, ◌<◌, option_map, None, Some};
ghost use Rattle.mc_filter.specs.Statuses.{IsNumberOf};
ghost use Rattle.mc_filter.specs.Inputs.{stream};
ghost use Rattle.melreader.specs.Program.{about_named, selected_path, selection, selection_by, selection_of, IsRefused, PathSays, ProgramSays, SessionSays};
ghost use Rattle.melreader.specs.Sessions.{unopened, usage};

use crate::about::{about_of, describe};
use crate::lines::put_unopened;
use crate::running::melreader;
use mc_filter::{Status, blank_device, number};
use mc_nvm::SimNvm;
use mc_streams::{Sink, Source, StdSource};
use mc_text::put;
use mc_words::{NoMemory, Steps};
use std::alloc::Global;
use std::fs::File;
use std::sync::ledger::{Blank, Ledger};

// Writes the usage line, and returns its status, also if the sink fails.
fn usage<S: Source, T: Sink, E: Sink>(input: &S, out: &T, err: &mut E) -> u8
    ensures { IsNumberOf (IsRefused S.Source T.Sink E.Sink usage (record {
      in_old = input.now;
      in_new = input.now;
      out_old = out.now;
      out_new = out.now;
      err_old = err.old;
      err_new = err.new;
    })) result }
{
    let _written = put(err, b"usage: melreader [DECK]\n");
    number(Status::NoForm)
}

// Writes that the deck of a path cannot be opened, and returns the status of that, also if the sink fails.
fn refuse_path<S: Source, T: Sink, E: Sink>(input: &S, out: &T, err: &mut E, path: &str) -> u8
    ensures { IsNumberOf (IsRefused S.Source T.Sink E.Sink (unopened path.now) (record {
      in_old = input.now;
      in_new = input.now;
      out_old = out.now;
      out_new = out.now;
      err_old = err.old;
      err_new = err.new;
    })) result }
{
    let _written = put_unopened(err, path);
    number(Status::NoForm)
}

// Runs a session on a blank card.
fn blank_card<S: Source, T: Sink, E: Sink, L: Ledger>(
    alloc: Global,
    input: &mut S,
    out: &mut T,
    err: &mut E,
    steps: &mut Steps<L>,
) -> u8
    ensures { IsNumberOf (SessionSays S.Source T.Sink E.Sink None None (record {
      in_old = input.old;
      in_new = input.new;
      out_old = out.old;
      out_new = out.new;
      err_old = err.old;
      err_new = err.new;
    })) result }
{
    match blank_device(alloc) {
        Ok(mut device) => melreader::<StdSource<File>, S, T, E, SimNvm, L>(
            alloc,
            None,
            input,
            out,
            err,
            &mut device,
            steps,
        ),
        Err(_) => number(Status::NoMemory),
    }
}

// Runs a session after the deck of a source on a blank device.
fn with_deck<D: Source, S: Source, T: Sink, E: Sink, L: Ledger>(
    alloc: Global,
    deck: &mut D,
    input: &mut S,
    out: &mut T,
    err: &mut E,
    steps: &mut Steps<L>,
) -> u8
    ensures { IsNumberOf (SessionSays S.Source T.Sink E.Sink (Some (stream D.Source deck.old))
        (Some (stream D.Source deck.new)) (record {
          in_old = input.old;
          in_new = input.new;
          out_old = out.old;
          out_new = out.new;
          err_old = err.old;
          err_new = err.new;
        })) result }
{
    match blank_device(alloc) {
        Ok(mut device) => melreader(alloc, Some(deck), input, out, err, &mut device, steps),
        Err(_) => number(Status::NoMemory),
    }
}

// Runs a session after the deck of a path, or writes that the path cannot be opened.
fn after_deck<D: Source + Drop, S: Source, T: Sink, E: Sink, L: Ledger>(
    alloc: Global,
    path: &str,
    file: Option<D>,
    input: &mut S,
    out: &mut T,
    err: &mut E,
    steps: &mut Steps<L>,
) -> u8
    ensures { PathSays S.Source T.Sink E.Sink D.Source path.now file (record {
      in_old = input.old;
      in_new = input.new;
      out_old = out.old;
      out_new = out.new;
      err_old = err.old;
      err_new = err.new;
    }) result }
{
    match file {
        Some(mut file) => with_deck(alloc, &mut file, input, out, err, steps),
        None => refuse_path(input, out, err, path),
    }
}

// Runs the session that one word selects, or writes what the program says of itself.
fn by_word<D: Source + Drop, S: Source, T: Sink, E: Sink, L: Ledger>(
    alloc: Global,
    word: &str,
    file: Option<D>,
    input: &mut S,
    out: &mut T,
    err: &mut E,
    steps: &mut Steps<L>,
) -> u8
    ensures { ProgramSays S.Source T.Sink E.Sink D.Source file (selection_by word.now (about_named word.now)) (record {
      in_old = input.old;
      in_new = input.new;
      out_old = out.old;
      out_new = out.new;
      err_old = err.old;
      err_new = err.new;
    }) result }
{
    match about_of(word) {
        Some(text) => describe(text, input, out, err),
        None => after_deck(alloc, word, file, input, out, err, steps),
    }
}

// Runs the session that words of text select.
fn by_words<D: Source + Drop, S: Source, T: Sink, E: Sink, L: Ledger>(
    alloc: Global,
    words: &[String],
    file: Option<D>,
    input: &mut S,
    out: &mut T,
    err: &mut E,
    steps: &mut Steps<L>,
) -> u8
    ensures { ProgramSays S.Source T.Sink E.Sink D.Source file (selection_of words.now) (record {
      in_old = input.old;
      in_new = input.new;
      out_old = out.old;
      out_new = out.new;
      err_old = err.old;
      err_new = err.new;
    }) result }
{
    match words {
        [] => blank_card(alloc, input, out, err, steps),
        [word] => by_word(alloc, word.as_str(), file, input, out, err, steps),
        _ => usage(input, out, err),
    }
}

// The path of the deck that one word selects.
fn path_of(word: &str) -> Option<&str>
    ensures { option_map (λ path. path.now) result ≡ selected_path (selection_by word.now (about_named word.now)) }
{
    match about_of(word) {
        Some(_) => None,
        None => Some(word),
    }
}

/// Returns the path of the deck that the words of a command line select, or `None` if they select none.
pub fn deck_path(words: &Result<Option<Vec<String>>, NoMemory>) -> Option<&str>
    ensures { option_map (λ path. path.now) result ≡ selected_path (selection words.now) }
{
    let Ok(Some(words)) = words else {
        return None;
    };
    match words.as_slice() {
        [word] => path_of(word.as_str()),
        _ => None,
    }
}

/// Runs the program: a session on a blank device of 8,192 words, after the deck of `file` if the words select a deck,
/// whose path ([`deck_path`]) was opened there; or writes what the program says of itself, which is all that the word
/// `--help` or `--version` selects. Its status is that of the session, or 0 or 4 after such a text; 2 if the path could not be opened,
/// which is written to `err`, or if the words are more or are no text, and then the usage line is; and 5 if it was out
/// of memory for the words or the device, and then nothing is written.
pub fn program<D: Source + Drop, S: Source, T: Sink, E: Sink, L: Ledger>(
    alloc: Global,
    words: Result<Option<Vec<String>>, NoMemory>,
    file: Option<D>,
    input: &mut S,
    out: &mut T,
    err: &mut E,
    blank: Blank,
) -> u8
    requires name { blank.name ≡ L.name }
    requires parts { blank.parts ≡ L.parts }
    requires some { 0 < blank.parts }
    ensures { ProgramSays S.Source T.Sink E.Sink D.Source file (selection words) (record {
      in_old = input.old;
      in_new = input.new;
      out_old = out.old;
      out_new = out.new;
      err_old = err.old;
      err_new = err.new;
    }) result }
{
    let mut steps = Steps::<L>::new(blank);
    match words {
        Ok(Some(words)) => by_words(alloc, words.as_slice(), file, input, out, err, &mut steps),
        // Arguments that are not UTF-8 select no deck.
        Ok(None) => usage(input, out, err),
        Err(NoMemory) => number(Status::NoMemory),
    }
}
