ghost use Rattle.std.specs.Prelude.{◌≡◌};
ghost use Rattle.model_machine.specs.Words.{abend_code};

/// How a chain of applications ends without a reply.
#[derive(Clone, Copy, Debug, PartialEq, Eq)]
pub enum Abend {
    /// The instruction byte is undefined.
    A01,
    /// The place is not in the code, or the instruction runs past its end.
    A02,
    /// A data access is not whole in a segment, or an address is outside 0000 to FFFF.
    A03,
    /// The stack would pass below its floor, or a return finds no frame.
    A04,
    /// The stack would pass 512 dynamic bytes.
    A05,
    /// A length, primitive or argument is out of its range.
    A06,
    /// The budget is spent.
    A07,
    /// More than 64 distinct words would be pending.
    A08,
    /// The first frame exits with a reply above 1,024 bytes.
    A09,
    /// The access list denies the primitive.
    A0A,
}

impl Abend {
    /// Returns the number of the abend, 1 to 10, as a transcript prints it.
    pub fn code(&self) -> u8
        ensures { result ≡ abend_code self.now }
    {
        match self {
            Abend::A01 => 1,
            Abend::A02 => 2,
            Abend::A03 => 3,
            Abend::A04 => 4,
            Abend::A05 => 5,
            Abend::A06 => 6,
            Abend::A07 => 7,
            Abend::A08 => 8,
            Abend::A09 => 9,
            Abend::A0A => 10,
        }
    }
}
