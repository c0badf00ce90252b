// The bytes whose values decide an address, a length or an index of an instruction.
ghost use Rattle.std.specs.Prelude.{◌≡◌, ◌≤◌, ◌<◌, ◌+◌, ◌==◌, ◌++◌, [], ◌∷◌, Some, cond, option_map};
ghost use Rattle.arrayvec.specs.ArrayVec.{array_vec_len};
ghost use Rattle.mc_isa.specs.Primitives as table;
ghost use Rattle.model_prove.specs.Reach.{takes_target};
ghost use Rattle.model_prove.specs.Splits as splits;
ghost use Rattle.model_prove.specs.Steps as steps;
ghost use Rattle.prove_scenes.specs.Deciders.{places_value};

use crate::scene::Scene;
use arrayvec::ArrayVec;
use mc_isa::Primitive;
use model_machine::Ins;

/// Addresses, one after another from one on.
#[derive(Clone, Copy, Debug, PartialEq, Eq)]
pub struct Places {
    pub from: u16,
    pub count: u8,
}

/// Returns the primitive of an instruction, if it is one.
pub fn primitive_of(ins: &Ins) -> Option<Primitive>
    ensures { option_map table.primitive_of result ≡ steps.primitive_of ins.now }
{
    match *ins {
        Ins::Prim { set, number, .. } => Primitive::of(set, number),
        _ => None,
    }
}

/// Returns the places of the bytes whose values decide an address, a length, an index or a place of an instruction.
pub fn deciders(ins: &Ins, scene: &Scene) -> Places
    ensures { places_value result ≡ splits.deciders ins.now scene.now.frame }
{
    match *ins {
        Ins::Jump { cond, .. } => target_places(scene, cond),
        Ins::Call { cond, .. } => target_places(scene, cond),
        Ins::Loadi { tag, off, .. } => two_from(scene.operand(tag, off, 2)),
        Ins::Storei { tag, off, n } => two_from(scene.operand(tag, off, n as u16 + 2)),
        Ins::Index { tag, .. } => index_places(scene, tag),
        Ins::Prim { set, number, args } => match Primitive::of(set, number) {
            Some(primitive) => prim_deciders(primitive, &args, scene),
            None => no_places(),
        },
        _ => no_places(),
    }
}

/// Returns whether an instruction takes its target from the stack.
pub fn takes_target(ins: &Ins) -> bool
    ensures { result ≡ takes_target ins.now }
{
    match *ins {
        Ins::Jump { cond, .. } => cond == 0,
        Ins::Call { cond, .. } => cond == 0,
        _ => false,
    }
}

// No places.
fn no_places() -> Places
    ensures { places_value result ≡ [] }
{
    Places { from: 0, count: 0 }
}

// The top bytes of the stack.
fn top_places(scene: &Scene, count: u8) -> Places
    ensures { places_value result ≡ splits.top_places scene.now.frame count }
{
    Places {
        from: scene.dt() - count as u16,
        count,
    }
}

// The address that a jump or a call takes from the stack under condition 0.
fn target_places(scene: &Scene, kind: u8) -> Places
    ensures { places_value result ≡ cond (kind == 0) (splits.top_places scene.now.frame 2) [] }
{
    if kind == 0 {
        return top_places(scene, 2);
    }
    no_places()
}

// The index on the stack, and with tag 0 the base below it.
fn index_places(scene: &Scene, tag: u8) -> Places
    ensures { places_value result
        ≡ cond (tag == 0) (splits.top_places scene.now.frame 3) (splits.top_places scene.now.frame 1) }
{
    if tag == 0 {
        return top_places(scene, 3);
    }
    top_places(scene, 1)
}

// Two bytes from an address on, if there is one.
fn two_from(at: Option<u16>) -> Places
    ensures { places_value result ≡ splits.places_from at 2 }
{
    match at {
        Some(from) => Places { from, count: 2 },
        None => no_places(),
    }
}

// The bytes that decide a primitive.
fn prim_deciders(primitive: Primitive, args: &[u8; 3], scene: &Scene) -> Places
    ensures { places_value result ≡ splits.prim_deciders (table.primitive_of primitive) args.now scene.now.frame }
{
    match primitive {
        Primitive::CheckCase | Primitive::StoreCcr => top_places(scene, 1),
        Primitive::Lookup | Primitive::Delegate | Primitive::DelegatorAid => top_places(scene, 2),
        Primitive::CompareFixed | Primitive::CopyFixed => top_places(scene, 4),
        Primitive::MemoryCompare | Primitive::MemoryCopy | Primitive::Digest => {
            top_places(scene, 6)
        }
        Primitive::Encipher(_) | Primitive::Decipher(_) => top_places(scene, 6),
        Primitive::Sign(_) => top_places(scene, 8),
        Primitive::ShiftLeft | Primitive::ShiftRight => top_places(scene, args[0]),
        Primitive::LoadCcr | Primitive::SetProtection | Primitive::BitByte | Primitive::BitWord =>
            no_places(),
    }
}

/// Returns the places of the bytes that decide besides, once those are known: the length byte at the address of a
/// search or a delegation.
pub fn later_deciders(ins: &Ins, scene: &Scene) -> Places
    ensures { places_value result ≡ splits.later_deciders ins.now scene.now.frame }
{
    match *ins {
        Ins::Prim { set, number, .. } => match Primitive::of(set, number) {
            Some(primitive) => count_deciders(primitive, scene),
            None => no_places(),
        },
        _ => no_places(),
    }
}

// The length byte at the address on the stack of a search or a delegation.
fn count_deciders(primitive: Primitive, scene: &Scene) -> Places
    ensures { places_value result ≡ splits.count_deciders (Some (table.primitive_of primitive)) scene.now.frame }
{
    match primitive {
        Primitive::Lookup | Primitive::Delegate => Places {
            from: scene.number_below_top(2),
            count: 1,
        },
        _ => no_places(),
    }
}

/// Returns those of some places that lie in a segment, in their order.
pub fn inside(scene: &Scene, places: Places) -> ArrayVec<u16, 255>
    ensures { result.items ≡ steps.inside scene.now (places_value places) }
{
    let mut list = ArrayVec::new();
    for i in 0..places.count {
        put_inside(&mut list, scene, places.from as u32 + i as u32);
    }
    list
}

// Appends an address if it lies in a segment.
#[tactic(auto, using(crate::proofs::PlaceLemmas::inside_low))]
fn put_inside(list: &mut ArrayVec<u16, 255>, scene: &Scene, at: u32)
    requires { array_vec_len list.old < 255 }
    ensures items { list.new.items ≡ list.old.items ++ steps.inside scene.now (at ∷ []) }
    ensures size { array_vec_len list.new ≤ array_vec_len list.old + 1 }
{
    let _most = scene.fixed_len();
    if !scene.is_outside(scene.dt(), at, 1) {
        list.push(at as u16);
    }
}
