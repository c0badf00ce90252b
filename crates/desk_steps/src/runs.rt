// The runs of addresses whose bytes differ.
ghost use Rattle.std.specs.Prelude.{◌≡◌, ◌≤◌, ◌+◌, ◌==◌, true, false, not, length};
ghost use Rattle.desk_steps.specs.Json.{any_run, runs_more};
ghost use Rattle.law_steps.specs.Runs.{changes};
ghost use Rattle.desk_steps.specs.Runs.{any_after, begin_text, byte_text, close_text, open_text};
ghost use Rattle.desk_steps.specs.Sheets.{Adds};

use crate::sheet::Sheet;
use mc_streams::Sink;

/// What was written of runs so far: whether one was, and whether the last one is open.
#[derive(Clone, Copy)]
struct Runs {
    any: bool,
    is_open: bool,
}

// Adds an opening bracket, after a comma if a run stands before it, and an address.
fn add_begin<T: Sink>(sheet: &mut Sheet<'_, T>, any: bool, address: u32)
    ensures { Adds T.Sink sheet.old (begin_text any address) sheet.new }
{
    if any {
        sheet.add_key(b",[", address);
    } else {
        sheet.add_key(b"[", address);
    }
    sheet.add(b",\"");
}

// Begins a run at an address, unless one is open.
fn begin<T: Sink>(sheet: &mut Sheet<'_, T>, runs: Runs, address: u32)
    ensures { Adds T.Sink sheet.old (open_text runs.any runs.is_open address) sheet.new }
{
    if !runs.is_open {
        add_begin(sheet, runs.any, address);
    }
}

// Ends the run that is open, if one is.
fn end<T: Sink>(sheet: &mut Sheet<'_, T>, is_open: bool)
    ensures { Adds T.Sink sheet.old (close_text is_open) sheet.new }
{
    if is_open {
        sheet.add(b"\"]");
    }
}

// Adds a byte that differs from an old one.
fn add_new<T: Sink>(sheet: &mut Sheet<'_, T>, runs: Runs, address: u32, byte: u8)
    ensures { Adds T.Sink sheet.old (byte_text false runs.any runs.is_open address byte) sheet.new }
{
    begin(sheet, runs, address);
    sheet.add_hex(&[byte]);
}

// Adds a byte at an address, if it differs from an old one; else the run before it ends.
fn add_byte<T: Sink>(sheet: &mut Sheet<'_, T>, runs: Runs, address: u32, old: u8, new: u8)
    ensures { Adds T.Sink sheet.old (byte_text (new == old) runs.any runs.is_open address new) sheet.new }
{
    if new == old {
        end(sheet, runs.is_open);
    } else {
        add_new(sheet, runs, address, new);
    }
}

// What was written of runs after a byte, by whether it differs from an old one.
fn runs_after(runs: Runs, old: u8, new: u8) -> Runs
    ensures any { result.any ≡ any_after (new == old) runs.any }
    ensures is_open { result.is_open ≡ not (new == old) }
{
    if new == old {
        Runs {
            any: runs.any,
            is_open: false,
        }
    } else {
        Runs {
            any: true,
            is_open: true,
        }
    }
}

/// Adds the runs of addresses, from `base` on, whose bytes differ from old ones, or from zero after the last old one, after
/// other runs if `any` is true. Returns whether a run was written or stood before.
pub fn add_runs<T: Sink>(
    sheet: &mut Sheet<'_, T>,
    any: bool,
    base: u16,
    old: &[u8],
    new: &[u8],
) -> bool
    requires { length new.now ≤ 65535 }
    ensures adds { Adds T.Sink sheet.old (runs_more any (changes base old.now new.now)) sheet.new }
    ensures any { result ≡ any_run any (changes base old.now new.now) }
{
    let mut runs = Runs {
        any,
        is_open: false,
    };
    let both = old.len().min(new.len());
    for i in 0..both {
        add_byte(sheet, runs, base as u32 + i as u32, old[i], new[i]);
        runs = runs_after(runs, old[i], new[i]);
    }
    for k in both..new.len() {
        add_byte(sheet, runs, base as u32 + k as u32, 0, new[k]);
        runs = runs_after(runs, 0, new[k]);
    }
    end(sheet, runs.is_open);
    runs.any
}
