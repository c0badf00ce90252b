ghost use Rattle.std.specs.Prelude.{◌≡◌};
ghost use Rattle.model_machine.specs.Words.{decode_word};

/// Why there is no instruction at a place of code.
#[derive(Clone, Copy, Debug, PartialEq, Eq)]
pub enum DecodeFault {
    /// The byte there begins no instruction.
    Undefined,
    /// The place is not in the code, or the instruction ends past the code's end.
    Past,
}

/// One instruction. A tag of an address is 0 for the top of the stack, then 1 to 7 for SB, ST, DB, LB, DT, PB, PT;
/// an offset is 0 if the tag is 0. A condition is 1 to 7 for EQ, LT, LE, GT, GE, NE, ALL, and 0 for an address
/// from the stack.
#[derive(Clone, Copy, Debug)]
pub enum Ins {
    Nop,
    Setsw { sw: u16 },
    Setla { la: u16 },
    Setswla { sw: u16, la: u16 },
    Exit,
    Exitsw { sw: u16 },
    Exitla { la: u16 },
    Exitswla { sw: u16, la: u16 },
    Branch { cond: u8, d: i8 },
    Jump { cond: u8, to: u16 },
    Call { cond: u8, to: u16 },
    Pushz { n: u8 },
    Pushb { b: u8 },
    Pushw { w: u16 },
    Popn { n: u8 },
    Popb,
    Popw,
    Prim { set: u8, number: u8, args: [u8; 3] },
    Ret,
    Reti { i: u8 },
    Reto { o: u8 },
    Retio { i: u8, o: u8 },
    Load { tag: u8, off: i16, n: u8 },
    Store { tag: u8, off: i16, n: u8 },
    Loadi { tag: u8, off: i16, n: u8 },
    Storei { tag: u8, off: i16, n: u8 },
    Loada { tag: u8, off: i16 },
    Index { tag: u8, off: i16, size: u8 },
    Setb { tag: u8, off: i16, b: u8 },
    Cmpb { tag: u8, off: i16, b: u8 },
    Addb { tag: u8, off: i16, b: u8 },
    Subb { tag: u8, off: i16, b: u8 },
    Setw { tag: u8, off: i16, w: u16 },
    Cmpw { tag: u8, off: i16, w: u16 },
    Addw { tag: u8, off: i16, w: u16 },
    Subw { tag: u8, off: i16, w: u16 },
    Clearn { tag: u8, off: i16, n: u8 },
    Testn { tag: u8, off: i16, n: u8 },
    Incn { tag: u8, off: i16, n: u8 },
    Decn { tag: u8, off: i16, n: u8 },
    Notn { tag: u8, off: i16, n: u8 },
    Cmpn { tag: u8, off: i16, n: u8 },
    Addn { tag: u8, off: i16, n: u8 },
    Subn { tag: u8, off: i16, n: u8 },
    Andn { tag: u8, off: i16, n: u8 },
    Orn { tag: u8, off: i16, n: u8 },
    Xorn { tag: u8, off: i16, n: u8 },
}

impl DecodeFault {
    /// Returns the word that a refusal prints.
    pub fn word(&self) -> &'static str
        ensures { result.now ≡ decode_word self.now }
    {
        match self {
            DecodeFault::Undefined => "Undefined",
            DecodeFault::Past => "Past",
        }
    }
}
