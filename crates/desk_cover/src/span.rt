// The operand of an instruction.
ghost use Rattle.std.specs.Prelude.{◌≡◌, ◌≤◌, option_map, IfSome};
ghost use Rattle.desk_draft.specs.FullTurns.{span, span_of};
ghost use Rattle.desk_cover.specs.Looking.{span_value};

use mc_isa::Ins;

/// A register's tag from 1 on, an offset, and the number of bytes there.
#[derive(Clone, Copy, Debug, PartialEq, Eq)]
pub struct Span {
    pub tag: u8,
    pub off: i16,
    pub size: u8,
}

// The span of an operand, `None` with tag 0, which is the top of the stack.
fn reached(tag: u8, off: i16, size: u8) -> Option<Span>
    ensures value { option_map span_value result ≡ span tag off size }
    ensures tag { IfSome result (λ s. 1 ≤ s.tag) }
{
    if tag == 0 {
        None
    } else {
        Some(Span { tag, off, size })
    }
}

/// Returns the bytes that an instruction's operand `REG[offset]` names: the 2 of a pointer, the 1 or 2 of a word
/// with an immediate, else its length; or `None` if it names none, or only their address.
pub fn span_of(ins: &Ins) -> Option<Span>
    ensures value { option_map span_value result ≡ span_of ins.now }
    ensures tag { IfSome result (λ s. 1 ≤ s.tag) }
{
    match *ins {
        Ins::Load { tag, off, n } => reached(tag, off, n),
        Ins::Store { tag, off, n } => reached(tag, off, n),
        Ins::Loadi { tag, off, .. } => reached(tag, off, 2),
        Ins::Storei { tag, off, .. } => reached(tag, off, 2),
        Ins::Setb { tag, off, .. } => reached(tag, off, 1),
        Ins::Cmpb { tag, off, .. } => reached(tag, off, 1),
        Ins::Addb { tag, off, .. } => reached(tag, off, 1),
        Ins::Subb { tag, off, .. } => reached(tag, off, 1),
        Ins::Setw { tag, off, .. } => reached(tag, off, 2),
        Ins::Cmpw { tag, off, .. } => reached(tag, off, 2),
        Ins::Addw { tag, off, .. } => reached(tag, off, 2),
        Ins::Subw { tag, off, .. } => reached(tag, off, 2),
        Ins::Clearn { tag, off, n } => reached(tag, off, n),
        Ins::Testn { tag, off, n } => reached(tag, off, n),
        Ins::Incn { tag, off, n } => reached(tag, off, n),
        Ins::Decn { tag, off, n } => reached(tag, off, n),
        Ins::Notn { tag, off, n } => reached(tag, off, n),
        Ins::Cmpn { tag, off, n } => reached(tag, off, n),
        Ins::Addn { tag, off, n } => reached(tag, off, n),
        Ins::Subn { tag, off, n } => reached(tag, off, n),
        Ins::Andn { tag, off, n } => reached(tag, off, n),
        Ins::Orn { tag, off, n } => reached(tag, off, n),
        Ins::Xorn { tag, off, n } => reached(tag, off, n),
        _ => None,
    }
}
