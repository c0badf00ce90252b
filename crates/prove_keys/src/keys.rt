// The keys of the tables: moments between commands, and places of the code.

/// The address of the first dynamic byte.
pub const DYNAMIC: u16 = 0x8000;

/// The greatest address at which the dynamic segment ends.
pub const DYNAMIC_END: u16 = 0x8200;

/// The address of the first public byte.
pub const PUBLIC: u16 = 0xC000;

/// The address after the last public byte.
pub const PUBLIC_END: u16 = 0xC411;

/// An open call: DT right after its four saved bytes, the saved LB and the saved place.
#[derive(Clone, Copy, PartialEq, Eq, Hash, Debug)]
pub struct Call {
    pub end: u16,
    pub lb: u16,
    pub place: u16,
}

/// The registers of a place of the code.
#[derive(Clone, Copy, PartialEq, Eq, Hash, Debug)]
pub struct Registers {
    pub at: u16,
    pub c: bool,
    pub z: bool,
    pub dt: u16,
    pub lb: u16,
    pub protected: bool,
}

/// How a frame began: by a delegation, or by a command of a class, which is named by its number.
#[derive(Clone, Copy, PartialEq, Eq, Hash, Debug)]
pub enum Begun {
    Delegated,
    Class(usize),
}

/// A moment between commands at which power may go: whether the application is selected, and the amounts of the
/// allowances in the order of their lines.
#[derive(PartialEq, Eq, PartialOrd, Ord, Hash, Drop)]
pub struct MomentKey {
    pub selected: bool,
    pub amounts: Vec<u32>,
}

/// A place of the application's code: how the frame began, the amounts of the allowances, the registers, and the open
/// calls, the oldest first.
#[derive(PartialEq, Eq, Hash, Drop)]
pub struct PlaceKey {
    pub begun: Begun,
    pub amounts: Vec<u32>,
    pub registers: Registers,
    pub calls: Vec<Call>,
}
