/// A section of an application that a load fills.
#[derive(Clone, Copy, Debug, PartialEq, Eq)]
pub enum Part {
    Code,
    Data,
    Dir,
    Fci,
}

/// Why no load can be opened: 32 applications are there, or no room is left for the sizes.
#[derive(Clone, Copy, Debug, PartialEq, Eq)]
pub enum OpenRefusal {
    Apps,
    NoRoom,
}

/// The lengths in bytes of the sections of an application, its session bytes, and its access list, whose set bits deny
/// primitives. `init` is the length of the data that its static segment begins with.
#[derive(Clone, Copy, Debug, PartialEq, Eq)]
pub struct Sizes {
    pub code: u16,
    pub fixed: u16,
    pub init: u16,
    pub session: u16,
    pub dir: u16,
    pub fci: u16,
    pub deny: u16,
}
