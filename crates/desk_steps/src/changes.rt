// The bytes that differ between two shots of a frame, as runs of addresses.
ghost use Rattle.std.specs.Prelude.{◌≡◌, [], false};
ghost use Rattle.desk_steps.specs.Sheets.{Adds};
ghost use Rattle.desk_steps.specs.Json.{any_run, runs_more, runs_text};
ghost use Rattle.law_steps.specs.Runs.{changes};
ghost use Rattle.mc_text.specs.model_machine.specs.Frame.{dynamic_base, public_base};
ghost use Rattle.desk_steps.specs.Shots.{dynamic_changes, dynamics, frame_changes, public_changes, shot_changes, shown_public, static_changes, statics};

use crate::shot::{DYNAMIC, PUBLIC, Shot};
use crate::{Sheet, add_runs};
use mc_streams::Sink;

// Adds the runs of the static bytes.
fn add_static<T: Sink>(sheet: &mut Sheet<'_, T>, old: &Shot, new: &Shot) -> bool
    ensures adds { Adds T.Sink sheet.old (runs_more false (static_changes old.now new.now)) sheet.new }
    ensures any { result ≡ any_run false (static_changes old.now new.now) }
{
    add_runs(sheet, false, 0, old.statics(), new.statics())
}

// Adds the runs of the dynamic bytes, after others if `any` is true.
fn add_dynamic<T: Sink>(sheet: &mut Sheet<'_, T>, any: bool, old: &Shot, new: &Shot) -> bool
    ensures adds { Adds T.Sink sheet.old (runs_more any (dynamic_changes old.now new.now)) sheet.new }
    ensures any { result ≡ any_run any (dynamic_changes old.now new.now) }
{
    add_runs(sheet, any, DYNAMIC, old.dynamics(), new.dynamics())
}

// Adds the runs of the public bytes, after others if `any` is true.
fn add_public<T: Sink>(sheet: &mut Sheet<'_, T>, any: bool, old: &Shot, new: &Shot)
    ensures { Adds T.Sink sheet.old (runs_more any (public_changes old.now new.now)) sheet.new }
{
    add_runs(sheet, any, PUBLIC, &old.public, &new.public);
}

/// Adds what differs in a shot from one before it, in brackets: each longest run of addresses whose bytes differ, with
/// its bytes.
pub fn add_changes<T: Sink>(sheet: &mut Sheet<'_, T>, old: &Shot, new: &Shot)
    ensures { Adds T.Sink sheet.old (runs_text (shot_changes old.now new.now)) sheet.new }
{
    sheet.add(b"[");
    let any = add_static(sheet, old, new);
    let any = add_dynamic(sheet, any, old, new);
    add_public(sheet, any, old, new);
    sheet.add(b"]");
}

// Adds the runs of the static bytes that are not zero.
fn add_first_static<T: Sink>(sheet: &mut Sheet<'_, T>, shot: &Shot) -> bool
    ensures adds { Adds T.Sink sheet.old (runs_more false (changes 0 [] (statics shot.now))) sheet.new }
    ensures any { result ≡ any_run false (changes 0 [] (statics shot.now)) }
{
    add_runs(sheet, false, 0, b"", shot.statics())
}

// Adds the runs of the dynamic bytes that are not zero, after others if `any` is true.
fn add_first_dynamic<T: Sink>(sheet: &mut Sheet<'_, T>, any: bool, shot: &Shot) -> bool
    ensures adds { Adds T.Sink sheet.old (runs_more any (changes dynamic_base [] (dynamics shot.now))) sheet.new }
    ensures any { result ≡ any_run any (changes dynamic_base [] (dynamics shot.now)) }
{
    add_runs(sheet, any, DYNAMIC, b"", shot.dynamics())
}

// Adds the runs of the public bytes that are not zero, unless they are left out, after others if `any` is true.
fn add_first_public<T: Sink>(sheet: &mut Sheet<'_, T>, any: bool, shot: &Shot, with_public: bool)
    ensures { Adds T.Sink sheet.old
        (runs_more any (changes public_base [] (shown_public with_public shot.now))) sheet.new }
{
    if with_public {
        add_runs(sheet, any, PUBLIC, b"", &shot.public);
    }
}

/// Adds the bytes of the shot of a frame that begins which are not zero, in brackets, as runs of addresses. The public
/// bytes are left out of that of a frame that another one called.
pub fn add_frame<T: Sink>(sheet: &mut Sheet<'_, T>, shot: &Shot, with_public: bool)
    ensures { Adds T.Sink sheet.old (runs_text (frame_changes with_public shot.now)) sheet.new }
{
    sheet.add(b"[");
    let any = add_first_static(sheet, shot);
    let any = add_first_dynamic(sheet, any, shot);
    add_first_public(sheet, any, shot, with_public);
    sheet.add(b"]");
}
