// The lines of a deck.
ghost use Rattle.std.specs.Prelude.{◌≡◌, ◌<◌, length};
ghost use Rattle.mc_unit.specs.Parts.{parts_of};
ghost use Rattle.mc_deck.specs.Lines.{line_of, grammar_line, unit_at, UnitWithin};

use crate::bytes::{Bytes, ShortBytes};
use crate::unit::{OwnedUnit, keeps_device};
use mc_unit::Unit;
use mc_words::{Aid, Word};

/// A line of a deck. `Named` is a statement that names a unit; a `Load` has the unit, and the sizes in bytes
/// of its static segment and of its session; the other lines have their fields.
#[derive(Clone, Copy, Debug, PartialEq, Eq)]
pub enum Line<'a> {
    Format,
    Power,
    Named,
    Load {
        unit: Unit<'a>,
        fixed: u16,
        session: u16,
    },
    Select(Aid),
    Delete(Aid),
    Dump(Aid),
    Apdu(&'a [u8]),
    Budget(u32),
    Cut {
        k: u32,
        fill: Word,
    },
    Fail(u32),
    Poke {
        at: u16,
        fill: Word,
    },
}

/// A line as a deck owns it: a `Load` has the place of its unit among the named units. A command is `Short`
/// if it has at most 16 bytes, as nearly all have: it takes no memory but its line's.
#[derive(Drop)]
pub enum OwnedLine {
    Format,
    Power,
    Named,
    Load {
        unit: usize,
        fixed: u16,
        session: u16,
    },
    Select(Aid),
    Delete(Aid),
    Dump(Aid),
    Short(ShortBytes),
    Apdu(Bytes),
    Budget(u32),
    Cut {
        k: u32,
        fill: Word,
    },
    Fail(u32),
    Poke {
        at: u16,
        fill: Word,
    },
}

// Borrows the unit at a place.
fn borrowed_unit(units: &[OwnedUnit], place: usize) -> Unit<'_>
    requires { place < length units.now }
    ensures { parts_of result ≡ unit_at units.now place }
{
    keeps_device(&units[place])
}

/// Borrows the line.
#[inline(always)]
pub fn borrowed_line<'a>(units: &'a [OwnedUnit], line: &'a OwnedLine) -> Line<'a>
    requires { UnitWithin (length units.now) line.now }
    ensures { line_of result ≡ grammar_line units.now line.now }
{
    match line {
        OwnedLine::Format => Line::Format,
        OwnedLine::Power => Line::Power,
        OwnedLine::Named => Line::Named,
        OwnedLine::Load {
            unit,
            fixed,
            session,
        } => Line::Load {
            unit: borrowed_unit(units, *unit),
            fixed: *fixed,
            session: *session,
        },
        OwnedLine::Select(aid) => Line::Select(*aid),
        OwnedLine::Delete(aid) => Line::Delete(*aid),
        OwnedLine::Dump(aid) => Line::Dump(*aid),
        OwnedLine::Short(bytes) => Line::Apdu(bytes.as_slice()),
        OwnedLine::Apdu(bytes) => Line::Apdu(bytes.as_slice()),
        OwnedLine::Budget(count) => Line::Budget(*count),
        OwnedLine::Cut { k, fill } => Line::Cut { k: *k, fill: *fill },
        OwnedLine::Fail(k) => Line::Fail(*k),
        OwnedLine::Poke { at, fill } => Line::Poke {
            at: *at,
            fill: *fill,
        },
    }
}
