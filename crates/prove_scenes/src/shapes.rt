// The shape of a row: what it does to its frame.
use crate::working::Bytes;

/// What a row does: nothing more; status and length of the reply are set; a jump or a call if its condition holds; a
/// return; bytes are pushed, or take the place of the top; bytes are written at an address where an access of `count`
/// bytes was tested; the protection changes.
#[derive(Drop)]
pub enum Act {
    Stays,
    Answers { sw: Option<u16>, la: Option<u16> },
    Jumps { taken: bool, to: u16 },
    Calls { taken: bool, to: u16 },
    Returns { less: u8, more: u8 },
    Pushes { bytes: Bytes },
    Replaces { bytes: Bytes },
    Writes { at: u16, count: u16, bytes: Bytes },
    Protects { mode: u8 },
}

/// What comes after a row.
#[derive(Clone, Copy, Debug, PartialEq, Eq)]
pub enum Next {
    Goes,
    Exits,
    Delegates,
}

/// The shape of a row: DT before its act, the act, the flags C and Z if it sets them, and what comes next.
#[derive(Drop)]
pub struct Shape {
    pub dt: u16,
    pub act: Act,
    pub flags: Option<(bool, bool)>,
    pub next: Next,
}
