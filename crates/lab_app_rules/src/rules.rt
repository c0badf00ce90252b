// The rules of one application.

/// What can happen to an application.
#[derive(Clone, Copy, PartialEq, Eq, Debug)]
pub enum Event {
    /// An instruction was done in one of its frames.
    Turn,
    /// A command reached it.
    Command,
    /// A command was answered.
    Answer,
    /// A session of it ends or begins.
    Session,
}

/// An amount of a sum: a number, or the number in n public bytes at an address.
#[derive(Clone, Copy, PartialEq, Eq, Debug)]
pub enum Amount {
    Number(u32),
    Public { at: u16, n: u16 },
}

/// What an event does to an allowance or to a sum.
#[derive(Clone, Copy, PartialEq, Eq, Debug)]
pub enum Effect {
    Allow(u32),
    Spend(u32),
    Need(u32),
    Add(Amount),
    Take(Amount),
}

/// An `on` line: its number, its event, the plain pattern of its turn or its command, the plain pattern of its result, what
/// happens, and the number of the allowance or the sum.
#[derive(Drop)]
pub struct On {
    pub line: u32,
    pub event: Event,
    pub pattern: Vec<u8>,
    pub result: Vec<u8>,
    pub effect: Effect,
    pub name: usize,
}

/// An allowance or a sum: its name, and its amount as the application is created.
#[derive(Clone, Copy, Debug)]
pub struct Named<'a> {
    pub name: &'a [u8],
    pub amount: u32,
}

/// A line that a static byte is from one value to another whenever power may go.
#[derive(Clone, Copy, Debug)]
pub struct Always {
    pub line: u32,
    pub at: u16,
    pub low: u8,
    pub high: u8,
}

/// A sum in a line of sums, by its number, and whether it is taken away.
#[derive(Clone, Copy, Debug)]
pub struct SignedSum {
    pub minus: bool,
    pub sum: usize,
}

/// A line that a block of static bytes is a constant and some sums whenever power may go.
#[derive(Drop)]
pub struct Balance {
    pub line: u32,
    pub at: u16,
    pub n: u16,
    pub constant: u32,
    pub sums: Vec<SignedSum>,
}

/// The application as it is created: its code, its first static bytes, and its sizes.
#[derive(Clone, Copy, Debug)]
pub struct Load<'a> {
    pub code: &'a [u8],
    pub data: &'a [u8],
    pub fixed: u16,
    pub session: u16,
}

/// A line of a section whose code begins at a place.
#[derive(Clone, Copy, Debug)]
pub struct CodeLine {
    pub place: u16,
    pub line: u32,
}

/// The rules of a deck for its application, each kind in the order of its lines.
#[derive(Drop)]
pub struct Rules<'a> {
    pub load: Load<'a>,
    /// The lines of its code in the order of their places, none if it is a unit.
    pub code_lines: Vec<CodeLine>,
    pub allowances: Vec<Named<'a>>,
    pub sums: Vec<Named<'a>>,
    pub ons: Vec<On>,
    pub always: Vec<Always>,
    pub balances: Vec<Balance>,
    /// The number of the first line that no instruction abends.
    pub never: Option<u32>,
}
