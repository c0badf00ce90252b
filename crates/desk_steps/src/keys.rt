// The keys of frames and turns.
ghost use Rattle.std.specs.Prelude.{ℕ, ◌≤◌, length, Option, Some, IfSome};
ghost use Rattle.mc_text.specs.model_machine.specs.Code.{Shaped};
ghost use Rattle.mc_text.specs.model_machine.specs.Chain.{Abended};
ghost use Rattle.mc_text.specs.model_text.specs.TurnText.{bit_text, ins_text};
ghost use Rattle.desk_steps.specs.Sheets.{Adds};
ghost use Rattle.desk_steps.specs.Lines.{abend_key, aid_key, command_key, flag_key, ins_key, open_key, place_keys, range_text, register_keys, source_key, writes_key};
ghost use Rattle.desk_steps.specs.Turning.{bare_value, end_of};

use crate::Sheet;
use law_steps::model_machine::Abend;
use mc_isa::{Ins, text_of};
use mc_machine::{BriefTurn, End};
use mc_streams::Sink;
use mc_words::Aid;

// Adds a flag.
fn add_bit<T: Sink>(sheet: &mut Sheet<'_, T>, flag: bool)
    ensures { Adds T.Sink sheet.old (bit_text flag) sheet.new }
{
    if flag {
        sheet.add(b"1");
    } else {
        sheet.add(b"0");
    }
}

// Adds a key with a flag.
fn add_flag<T: Sink>(sheet: &mut Sheet<'_, T>, key: &[u8], flag: bool)
    requires { length key.now ≤ 8211 }
    ensures { Adds T.Sink sheet.old (flag_key key.now flag) sheet.new }
{
    sheet.add(key);
    add_bit(sheet, flag);
}

/// Adds the name of an application.
pub fn add_aid<T: Sink>(sheet: &mut Sheet<'_, T>, aid: &Aid)
    ensures { Adds T.Sink sheet.old (aid_key aid.now) sheet.new }
{
    sheet.add(b",\"aid\":\"");
    sheet.add_hex(aid.bytes());
    sheet.add(b"\"");
}

/// Adds the command of a first frame.
pub fn add_command<T: Sink>(sheet: &mut Sheet<'_, T>, command: &[u8])
    ensures { Adds T.Sink sheet.old (command_key (Some command.now)) sheet.new }
{
    sheet.add(b",\"command\":\"");
    sheet.add_hex(command);
    sheet.add(b"\"");
}

// Adds the number of a source line, or `null`.
fn add_source<T: Sink>(sheet: &mut Sheet<'_, T>, source: Option<u32>)
    ensures { Adds T.Sink sheet.old (source_key source) sheet.new }
{
    match source {
        Some(number) => sheet.add_key(b",\"source\":", number),
        None => sheet.add(b",\"source\":null"),
    }
}

// Adds the text of an instruction, or `?`.
fn add_text<T: Sink>(sheet: &mut Sheet<'_, T>, ins: &Option<Ins>)
    requires { IfSome ins.now Shaped }
    ensures { Adds T.Sink sheet.old (ins_text ins.now) sheet.new }
{
    match ins {
        Some(ins) => sheet.add(text_of(ins).as_slice()),
        None => sheet.add(b"?"),
    }
}

// Adds an instruction, or `?`.
fn add_ins<T: Sink>(sheet: &mut Sheet<'_, T>, ins: &Option<Ins>)
    requires { IfSome ins.now Shaped }
    ensures { Adds T.Sink sheet.old (ins_key ins.now) sheet.new }
{
    sheet.add(b",\"ins\":\"");
    add_text(sheet, ins);
    sheet.add(b"\"");
}

/// Adds the place, the source line and the instruction of a turn.
pub fn add_place<T: Sink>(sheet: &mut Sheet<'_, T>, turn: &BriefTurn, source: Option<u32>)
    requires { IfSome turn.now.ins Shaped }
    ensures { Adds T.Sink sheet.old (place_keys turn.now.at source turn.now.ins) sheet.new }
{
    sheet.add_key(b",\"place\":", turn.at as u32);
    add_source(sheet, source);
    add_ins(sheet, &turn.ins);
}

// Adds whether protection is on.
fn add_open<T: Sink>(sheet: &mut Sheet<'_, T>, is_on: bool)
    ensures { Adds T.Sink sheet.old (open_key is_on) sheet.new }
{
    if is_on {
        sheet.add(b",\"open\":true");
    } else {
        sheet.add(b",\"open\":false");
    }
}

// Adds the number of an abend.
fn add_cause<T: Sink>(sheet: &mut Sheet<'_, T>, abend: Abend)
    ensures { Adds T.Sink sheet.old (abend_key (Some (Abended abend))) sheet.new }
{
    sheet.add(b",\"abend\":\"");
    sheet.add_hex(&[abend.code()]);
    sheet.add(b"\"");
}

// Adds the abend of an end, if it is one.
fn add_abend<T: Sink>(sheet: &mut Sheet<'_, T>, end: Option<End>)
    ensures { Adds T.Sink sheet.old (abend_key (end_of end)) sheet.new }
{
    match end {
        Some(End::Abend(abend)) => add_cause(sheet, abend),
        Some(End::Reply) => {}
        None => {}
    }
}

/// Adds the registers, the flags, the protection and the abend of a turn.
pub fn add_registers<T: Sink>(sheet: &mut Sheet<'_, T>, turn: &BriefTurn, lb: u16, is_on: bool)
    ensures { (wrote : Option ℕ) →
        Adds T.Sink sheet.old (register_keys (bare_value turn.now wrote) lb is_on) sheet.new }
{
    sheet.add_key(b",\"dt\":", turn.dt as u32);
    sheet.add_key(b",\"lb\":", lb as u32);
    add_flag(sheet, b",\"c\":", turn.flags.c);
    add_flag(sheet, b",\"z\":", turn.flags.z);
    add_open(sheet, is_on);
    add_abend(sheet, turn.end);
}

// Adds the numbers of a first and a last device write, if there are some.
fn add_range<T: Sink>(sheet: &mut Sheet<'_, T>, writes: Option<(u32, u32)>)
    ensures { Adds T.Sink sheet.old (range_text writes) sheet.new }
{
    if let Some((first, last)) = writes {
        sheet.add_number(first);
        sheet.add_key(b",", last);
    }
}

/// Adds the device writes of a turn.
pub fn add_writes<T: Sink>(sheet: &mut Sheet<'_, T>, writes: Option<(u32, u32)>)
    ensures { Adds T.Sink sheet.old (writes_key writes) sheet.new }
{
    sheet.add(b",\"writes\":[");
    add_range(sheet, writes);
    sheet.add(b"]");
}
