// The words of a command line.
ghost use Rattle.std.specs.Prelude.{◌≡◌, ◌≢◌, drop, Ok, None, IfOk, IsErr};
ghost use Rattle.std.specs.IoError.{error_kind};
ghost use Rattle.std.specs.Vec.Iter.{into_iter_items};
ghost use Rattle.mc_filter.specs.Words.{readable_words, ArgumentsGive};

use model_device::NoMemory;
use std::alloc::{AllocError, Global};
use std::env::Args;
use std::io;
use std::io::{Error, ErrorKind};

/// Returns the words of the command line after the program's name, from the arguments of the process, or `None` if one
/// of them cannot be read, as one that is not UTF-8.
///
/// # Errors
///
/// Returns `NoMemory` if out of memory.
pub fn command_words(alloc: Global, args: io::Result<Args>) -> Result<Option<Vec<String>>, NoMemory>
    ensures { ArgumentsGive args result }
{
    match args {
        Ok(args) => Ok(Some(without_name(alloc, args)?)),
        Err(error) => unread(&error),
    }
}

// Returns all arguments but the first, which is the program's name.
fn without_name(alloc: Global, args: Args) -> Result<Vec<String>, AllocError>
    ensures { IfOk result (λ words. words.items ≡ drop 1 (into_iter_items args)) }
{
    let mut args = args;
    let _name = args.next();
    let mut words = Vec::new(alloc);
    while let Some(word) = args.next() {
        words.push(word)?;
    }
    Ok(words)
}

// Returns what arguments that cannot be read stand for: out of memory, or no words.
fn unread(error: &Error) -> Result<Option<Vec<String>>, NoMemory>
    ensures memory { error_kind error.now ≡ ErrorKind.OutOfMemory → IsErr result }
    ensures other { error_kind error.now ≢ ErrorKind.OutOfMemory → result ≡ Ok None }
{
    if error.kind() == ErrorKind::OutOfMemory {
        return Err(NoMemory);
    }
    Ok(None)
}

/// Returns the words that select a job: those of the command line, or none if one of them cannot be read.
pub fn job_words(alloc: Global, words: Option<Vec<String>>) -> Vec<String>
    ensures { result.items ≡ readable_words words }
{
    match words {
        Some(words) => words,
        None => Vec::new(alloc),
    }
}
