// The addresses at which instructions write, and those that are plain: they touch no byte of an open call.
ghost use Rattle.std.specs.Prelude.{◌≡◌, ◌<◌};
ghost use Rattle.model_stack.specs.StackRows as shape;
ghost use Rattle.mc_check.specs.Seen.{writing_of};

use crate::primitives::primitive_writing;
use crate::uses::always_abends;
use law_family::model_machine::Ins;

// The write of an instruction: at no address, at n bytes of an address by tag and offset, or at an address
// that comes from the stack or from memory.
#[derive(Clone, Copy)]
pub enum Writing {
    Nothing,
    At { tag: u8, off: i16, n: u8 },
    Anywhere,
}

// Returns the write of an instruction if it does not abend.
fn row_writing(ins: Ins) -> Writing
    ensures { writing_of result ≡ shape.row_writing ins }
{
    match ins {
        Ins::Prim { set, number, .. } => primitive_writing(set, number),
        Ins::Storei { .. } => Writing::Anywhere,
        Ins::Setb { tag, off, .. } | Ins::Addb { tag, off, .. } | Ins::Subb { tag, off, .. } => {
            Writing::At { tag, off, n: 1 }
        }
        Ins::Setw { tag, off, .. } | Ins::Addw { tag, off, .. } | Ins::Subw { tag, off, .. } => {
            Writing::At { tag, off, n: 2 }
        }
        Ins::Store { tag, off, n }
        | Ins::Clearn { tag, off, n }
        | Ins::Incn { tag, off, n }
        | Ins::Decn { tag, off, n }
        | Ins::Notn { tag, off, n }
        | Ins::Addn { tag, off, n }
        | Ins::Subn { tag, off, n }
        | Ins::Andn { tag, off, n }
        | Ins::Orn { tag, off, n }
        | Ins::Xorn { tag, off, n } => Writing::At { tag, off, n },
        _ => Writing::Nothing,
    }
}

// Returns the write of an instruction; one that always abends writes nowhere.
fn written_by(ins: Ins) -> Writing
    ensures { writing_of result ≡ shape.writing ins }
{
    if always_abends(ins) {
        Writing::Nothing
    } else {
        row_writing(ins)
    }
}

// Returns whether n bytes from k bytes above a register on are plain. Tags are 0 for the top of the stack,
// then SB, ST, DB, LB, DT, PB, PT.
fn is_plain_above(session: u16, height: u16, tag: u8, k: u16, n: u8) -> bool
    requires { k < 32768 }
    ensures { result ≡ shape.is_plain_above session height tag k n }
{
    let end = k + u16::from(n);
    match tag {
        2 => false,
        3 => end <= session,
        4 => end <= height,
        5 => end == 0,
        _ => true,
    }
}

// Returns whether n bytes from k bytes below a register on are plain.
fn is_plain_below(height: u16, tag: u8, k: u16, n: u8) -> bool
    ensures { result ≡ shape.is_plain_below height tag k n }
{
    match tag {
        0 | 2 => true,
        5 => k <= height && u16::from(n) <= k,
        6 | 7 => k <= 4096,
        _ => false,
    }
}

/// Returns whether an instruction that runs `height` bytes above LB writes at no address, or at one that
/// touches no byte of an open call.
pub fn is_plain(session: u16, height: u16, ins: Ins) -> bool
    ensures { result ≡ shape.is_plain session height (shape.writing ins) }
{
    match written_by(ins) {
        Writing::Nothing => true,
        Writing::At { tag, off, n } => {
            if off < 0 {
                is_plain_below(height, tag, off.unsigned_abs(), n)
            } else {
                is_plain_above(session, height, tag, off.unsigned_abs(), n)
            }
        }
        Writing::Anywhere => false,
    }
}
