// The effect of a primitive on the stack, the address at which it writes, and whether it always abends.
ghost use Rattle.std.specs.Prelude.{◌≡◌};
ghost use Rattle.law_family.specs.model_machine.specs.Primitives as model;
ghost use Rattle.model_stack.specs.StackRows as shape;
ghost use Rattle.mc_isa.specs.Primitives.{primitive_of};
ghost use Rattle.mc_check.specs.Seen.{uses_of, writing_of};

use crate::uses::Uses;
use crate::writing::Writing;
use mc_isa::Primitive;

fn primitive_uses(primitive: Primitive, args: &[u8; 3]) -> Uses
    ensures { uses_of result ≡ shape.prim_uses (primitive_of primitive) args.now }
{
    match primitive {
        Primitive::LoadCcr => Uses::new(0, 0, 1),
        Primitive::CheckCase | Primitive::StoreCcr => Uses::new(1, 1, 0),
        Primitive::Delegate | Primitive::DelegatorAid => Uses::new(2, 2, 0),
        Primitive::Lookup => Uses::new(3, 3, 1),
        Primitive::CompareFixed | Primitive::CopyFixed => Uses::new(4, 4, 0),
        Primitive::MemoryCompare
        | Primitive::MemoryCopy
        | Primitive::Digest
        | Primitive::Encipher(_)
        | Primitive::Decipher(_) => Uses::new(6, 6, 0),
        Primitive::Sign(_) => Uses::new(8, 8, 0),
        Primitive::SetProtection => Uses::new(0, 0, 0),
        Primitive::BitByte => Uses::new(1, 0, 0),
        Primitive::BitWord => Uses::new(2, 0, 0),
        Primitive::ShiftLeft | Primitive::ShiftRight => Uses::new(u16::from(args[0]), 0, 0),
    }
}

/// Returns the uses of a primitive by its set and number; a pair that is no primitive uses nothing.
pub fn pair_uses(set: u8, number: u8, args: &[u8; 3]) -> Uses
    ensures { uses_of result ≡ shape.pair_uses (model.primitive set number) args.now }
{
    match Primitive::of(set, number) {
        Some(primitive) => primitive_uses(primitive, args),
        None => Uses::new(0, 0, 0),
    }
}

/// Returns whether a primitive abends with 06 by its own bytes, whatever the stack holds.
pub fn pair_abends(set: u8, number: u8, args: &[u8; 3]) -> bool
    ensures { result ≡ shape.prim_abends (model.primitive set number) args.now }
{
    match Primitive::of(set, number) {
        Some(primitive) => primitive.has_bad_argument(args),
        None => true,
    }
}

/// Returns the write of a primitive by its set and number if it does not abend: at an address from the stack, or none.
pub fn primitive_writing(set: u8, number: u8) -> Writing
    ensures { writing_of result ≡ shape.prim_writing (model.primitive set number) }
{
    match Primitive::of(set, number) {
        Some(
            Primitive::MemoryCopy
            | Primitive::CopyFixed
            | Primitive::DelegatorAid
            | Primitive::Digest
            | Primitive::Encipher(_)
            | Primitive::Decipher(_)
            | Primitive::Sign(_),
        ) => Writing::Anywhere,
        _ => Writing::Nothing,
    }
}
