// The effect of an instruction on the stack: the bytes that it needs, pops and pushes.
ghost use Rattle.std.specs.Prelude.{◌≡◌, ◌≤◌, ◌*◌};
ghost use Rattle.law_family.specs.model_machine.specs.Code.{Shaped};
ghost use Rattle.law_family.specs.model_machine.specs.Primitives as model;
ghost use Rattle.model_stack.specs.StackRows as shape;
ghost use Rattle.law_family.specs.model_machine.specs.Row as row;
ghost use Rattle.mc_check.specs.Seen.{uses_of};

use crate::primitives::{pair_abends, pair_uses};
use law_family::model_machine::Ins;

// The bytes of the stack that an instruction needs, those that it pops, and those that it pushes then.
#[derive(Clone, Copy)]
pub struct Uses {
    pub needs: u16,
    pub pops: u16,
    pub pushes: u16,
}

impl Uses {
    pub fn new(needs: u16, pops: u16, pushes: u16) -> Uses
        ensures { uses_of result ≡ shape.uses needs pops pushes }
    {
        Uses {
            needs,
            pops,
            pushes,
        }
    }
}

// Returns `top` for an operand on the stack, and `address` for an operand at an address.
fn on_stack(tag: u8, top: u16, address: u16) -> u16
    ensures { result ≡ row.on_stack tag top address }
{
    if tag == 0 { top } else { address }
}

// Returns whether numbers of `n` bytes are valid operands.
fn is_number_len(n: u8) -> bool
    ensures { result ≡ model.in_range 1 16 n }
{
    1 <= n && n <= 16
}

/// Returns whether an instruction abends with 06 by its own bytes, whatever the stack and the memory hold.
pub fn always_abends(ins: Ins) -> bool
    ensures { result ≡ shape.always_abends ins }
{
    match ins {
        Ins::Pushz { n }
        | Ins::Popn { n }
        | Ins::Load { n, .. }
        | Ins::Store { n, .. }
        | Ins::Loadi { n, .. }
        | Ins::Storei { n, .. }
        | Ins::Clearn { n, .. }
        | Ins::Testn { n, .. }
        | Ins::Notn { n, .. }
        | Ins::Cmpn { n, .. }
        | Ins::Andn { n, .. }
        | Ins::Orn { n, .. }
        | Ins::Xorn { n, .. } => n == 0,
        Ins::Incn { n, .. } | Ins::Decn { n, .. } | Ins::Addn { n, .. } | Ins::Subn { n, .. } => {
            !is_number_len(n)
        }
        Ins::Prim { set, number, args } => pair_abends(set, number, &args),
        _ => false,
    }
}

// Returns the uses of an instruction.
fn row_uses(ins: Ins) -> Uses
    ensures { uses_of result ≡ shape.row_uses ins }
{
    match ins {
        Ins::Jump { cond, .. } | Ins::Call { cond, .. } => Uses::new(on_stack(cond, 2, 0), 0, 0),
        Ins::Pushz { n } => Uses::new(0, 0, u16::from(n)),
        Ins::Pushb { .. } => Uses::new(0, 0, 1),
        Ins::Pushw { .. } | Ins::Loada { .. } => Uses::new(0, 0, 2),
        Ins::Popn { n } => Uses::new(u16::from(n), u16::from(n), 0),
        Ins::Popb => Uses::new(1, 1, 0),
        Ins::Popw => Uses::new(2, 2, 0),
        Ins::Prim { set, number, args } => pair_uses(set, number, &args),
        Ins::Reto { o } | Ins::Retio { o, .. } => Uses::new(u16::from(o), 0, 0),
        Ins::Load { tag, n, .. } => Uses::new(on_stack(tag, u16::from(n), 0), 0, u16::from(n)),
        Ins::Store { tag, n, .. } => Uses::new(pair_needs(tag, n), u16::from(n), 0),
        Ins::Loadi { tag, n, .. } => Uses::new(on_stack(tag, 2, 0), 0, u16::from(n)),
        Ins::Storei { tag, n, .. } => Uses::new(
            on_stack(tag, u16::from(n) + 2, u16::from(n)),
            u16::from(n),
            0,
        ),
        Ins::Index { tag, .. } => Uses::new(on_stack(tag, 3, 1), on_stack(tag, 3, 1), 2),
        Ins::Setb { tag, .. }
        | Ins::Cmpb { tag, .. }
        | Ins::Addb { tag, .. }
        | Ins::Subb { tag, .. } => Uses::new(on_stack(tag, 1, 0), 0, 0),
        Ins::Setw { tag, .. }
        | Ins::Cmpw { tag, .. }
        | Ins::Addw { tag, .. }
        | Ins::Subw { tag, .. } => Uses::new(on_stack(tag, 2, 0), 0, 0),
        Ins::Clearn { tag, n, .. }
        | Ins::Testn { tag, n, .. }
        | Ins::Incn { tag, n, .. }
        | Ins::Decn { tag, n, .. }
        | Ins::Notn { tag, n, .. } => Uses::new(on_stack(tag, u16::from(n), 0), 0, 0),
        Ins::Cmpn { tag, n, .. }
        | Ins::Addn { tag, n, .. }
        | Ins::Subn { tag, n, .. }
        | Ins::Andn { tag, n, .. }
        | Ins::Orn { tag, n, .. }
        | Ins::Xorn { tag, n, .. } => Uses::new(pair_needs(tag, n), 0, 0),
        _ => Uses::new(0, 0, 0),
    }
}

// Returns the bytes of two operands of a length, or of one if the other is at an address.
fn pair_needs(tag: u8, n: u8) -> u16
    ensures { result ≡ row.on_stack tag (2 * n) n }
{
    on_stack(tag, 2 * u16::from(n), u16::from(n))
}

/// Returns the bytes of the stack that an instruction needs: none if it always abends.
pub fn need(ins: Ins) -> u16
    ensures { result ≡ shape.need ins }
{
    if always_abends(ins) {
        0
    } else {
        row_uses(ins).needs
    }
}

/// Returns the height of the stack after an instruction.
pub fn height_after(ins: Ins, height: u16) -> u16
    requires low { height ≤ 512 }
    requires shaped { Shaped ins }
    ensures { result ≡ shape.height_after ins height }
{
    let uses = row_uses(ins);
    height.saturating_sub(uses.pops) + uses.pushes
}
