// From instructions to their rows: the table again, in the order of `Ins`.
ghost use Rattle.std.specs.Prelude.{◌≡◌, ◌≤◌, ◌∷◌, length};
ghost use Rattle.model_text.specs.model_machine.specs.Code.{Shaped, spell};
ghost use Rattle.model_text.specs.Listing.{text_of};
ghost use Rattle.mc_isa.specs.Rows.{operand_bytes, line_of, OperandsInRange};

use Operands::{
    Address, Byte, Bytes, Near, Plain, Primitive, Target, WithByte, WithWord, Word, Words,
};
use model_text::model_machine::Ins;

/// The operands of an instruction by their shape. A tag of 0 has no offset, and a condition of 0 no address.
#[derive(Clone, Copy)]
pub enum Operands {
    Plain,
    Byte(u8),
    Bytes(u8, u8),
    Word(u16),
    Words(u16, u16),
    Near { cond: u8, d: i8 },
    Target { cond: u8, to: u16 },
    Primitive { set: u8, number: u8, args: [u8; 3] },
    Address { tag: u8, off: i16 },
    /// A tag, an offset and a byte.
    WithByte(u8, i16, u8),
    /// A tag, an offset and a word.
    WithWord(u8, i16, u16),
}

/// An instruction's row of the table: its name, its byte, and its operands in their order.
#[derive(Clone, Copy)]
pub struct Row {
    pub name: &'static str,
    pub byte: u8,
    pub operands: Operands,
}

// A row on one line.
macro_rules! row {
    ($name:literal, $byte:expr, $operands:expr) => {
        Row {
            name: $name,
            byte: $byte,
            operands: $operands,
        }
    };
}

/// Returns the row of an instruction whose fields are in their ranges.
pub fn row_of(ins: &Ins) -> Row
    requires { Shaped ins.now }
    ensures spelling { result.byte ∷ operand_bytes result.operands ≡ spell ins.now }
    ensures text { line_of result.name.now result.operands ≡ text_of ins.now }
    ensures short { length result.name.now ≤ 8 }
    ensures range { OperandsInRange result.operands }
{
    match *ins {
        Ins::Nop => row!("NOP", 0x00, Plain),
        Ins::Setsw { sw } => row!("SETSW", 0x01, Word(sw)),
        Ins::Setla { la } => row!("SETLA", 0x02, Word(la)),
        Ins::Setswla { sw, la } => row!("SETSWLA", 0x03, Words(sw, la)),
        Ins::Exit => row!("EXIT", 0x04, Plain),
        Ins::Exitsw { sw } => row!("EXITSW", 0x05, Word(sw)),
        Ins::Exitla { la } => row!("EXITLA", 0x06, Word(la)),
        Ins::Exitswla { sw, la } => row!("EXITSWLA", 0x07, Words(sw, la)),
        Ins::Branch { cond, d } => row!("BRANCH", 0x01 * 8 + cond, Near { cond, d }),
        Ins::Jump { cond, to } => row!("JUMP", 0x02 * 8 + cond, Target { cond, to }),
        Ins::Call { cond, to } => row!("CALL", 0x03 * 8 + cond, Target { cond, to }),
        Ins::Pushz { n } => row!("PUSHZ", 0x20, Byte(n)),
        Ins::Pushb { b } => row!("PUSHB", 0x21, Byte(b)),
        Ins::Pushw { w } => row!("PUSHW", 0x22, Word(w)),
        Ins::Popn { n } => row!("POPN", 0x24, Byte(n)),
        Ins::Popb => row!("POPB", 0x25, Plain),
        Ins::Popw => row!("POPW", 0x26, Plain),
        Ins::Prim { set, number, args } => row!(
            "PRIM",
            0x05 * 8 + set,
            Primitive { set, number, args }
        ),
        Ins::Ret => row!("RET", 0x2C, Plain),
        Ins::Reti { i } => row!("RETI", 0x2D, Byte(i)),
        Ins::Reto { o } => row!("RETO", 0x2E, Byte(o)),
        Ins::Retio { i, o } => row!("RETIO", 0x2F, Bytes(i, o)),
        Ins::Load { tag, off, n } => row!("LOAD", 0x07 * 8 + tag, WithByte(tag, off, n)),
        Ins::Store { tag, off, n } => row!("STORE", 0x08 * 8 + tag, WithByte(tag, off, n)),
        Ins::Loadi { tag, off, n } => row!("LOADI", 0x09 * 8 + tag, WithByte(tag, off, n)),
        Ins::Storei { tag, off, n } => row!("STOREI", 0x0A * 8 + tag, WithByte(tag, off, n)),
        Ins::Loada { tag, off } => row!("LOADA", 0x0B * 8 + tag, Address { tag, off }),
        Ins::Index { tag, off, size } => row!("INDEX", 0x0C * 8 + tag, WithByte(tag, off, size)),
        Ins::Setb { tag, off, b } => row!("SETB", 0x0D * 8 + tag, WithByte(tag, off, b)),
        Ins::Cmpb { tag, off, b } => row!("CMPB", 0x0E * 8 + tag, WithByte(tag, off, b)),
        Ins::Addb { tag, off, b } => row!("ADDB", 0x0F * 8 + tag, WithByte(tag, off, b)),
        Ins::Subb { tag, off, b } => row!("SUBB", 0x10 * 8 + tag, WithByte(tag, off, b)),
        Ins::Setw { tag, off, w } => row!("SETW", 0x11 * 8 + tag, WithWord(tag, off, w)),
        Ins::Cmpw { tag, off, w } => row!("CMPW", 0x12 * 8 + tag, WithWord(tag, off, w)),
        Ins::Addw { tag, off, w } => row!("ADDW", 0x13 * 8 + tag, WithWord(tag, off, w)),
        Ins::Subw { tag, off, w } => row!("SUBW", 0x14 * 8 + tag, WithWord(tag, off, w)),
        Ins::Clearn { tag, off, n } => row!("CLEARN", 0x15 * 8 + tag, WithByte(tag, off, n)),
        Ins::Testn { tag, off, n } => row!("TESTN", 0x16 * 8 + tag, WithByte(tag, off, n)),
        Ins::Incn { tag, off, n } => row!("INCN", 0x17 * 8 + tag, WithByte(tag, off, n)),
        Ins::Decn { tag, off, n } => row!("DECN", 0x18 * 8 + tag, WithByte(tag, off, n)),
        Ins::Notn { tag, off, n } => row!("NOTN", 0x19 * 8 + tag, WithByte(tag, off, n)),
        Ins::Cmpn { tag, off, n } => row!("CMPN", 0x1A * 8 + tag, WithByte(tag, off, n)),
        Ins::Addn { tag, off, n } => row!("ADDN", 0x1B * 8 + tag, WithByte(tag, off, n)),
        Ins::Subn { tag, off, n } => row!("SUBN", 0x1C * 8 + tag, WithByte(tag, off, n)),
        Ins::Andn { tag, off, n } => row!("ANDN", 0x1D * 8 + tag, WithByte(tag, off, n)),
        Ins::Orn { tag, off, n } => row!("ORN", 0x1E * 8 + tag, WithByte(tag, off, n)),
        Ins::Xorn { tag, off, n } => row!("XORN", 0x1F * 8 + tag, WithByte(tag, off, n)),
    }
}
