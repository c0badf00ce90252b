// Rows whose deciding bytes have too many combinations.
ghost use Rattle.std.specs.Prelude.{◌≡◌, ℕ, List, IfSome, option_map};
ghost use Rattle.model_machine.specs.Shapes as shapes;
ghost use Rattle.mc_isa.specs.Primitives as table;
ghost use Rattle.model_machine.specs.Primitives as model;
ghost use Rattle.model_prove.specs.Facts.{Facts};
ghost use Rattle.model_prove.specs.Reach as reach;
ghost use Rattle.prove_scenes.specs.Coarse.{coarse_value, coarse_outlined, lengths_value};
ghost use Rattle.prove_scenes.specs.Heads.{around_value};
ghost use Rattle.prove_scenes.specs.ShapeValues.{shape_value};

use crate::around::Around;
use crate::operands::on_stack;
use crate::prim_shaping::delegates;
use crate::scene::Scene;
use crate::shapes::{Act, Next, Shape};
use crate::shaping::goes;
use mc_isa::Primitive;
use model_machine::Ins;

/// Lengths of a write: one, those of a name after its length, or those from 1 to 255 that two bytes may be.
#[derive(Clone, Copy, Debug, PartialEq, Eq)]
pub enum Lengths {
    One(u8),
    Names,
    At(u16),
}

/// What a row of too many combinations does: it pushes bytes without a fact, shifts top bytes, compares, searches,
/// writes at an address that the two bytes at a place may be, or leads on.
#[derive(Clone, Copy, Debug, PartialEq, Eq)]
pub enum Coarse {
    PushesAny(u8),
    Shifts(u8),
    Compares,
    Searches,
    WritesWithin { at: u16, lengths: Lengths },
    Leads,
}

/// Returns what a row of too many combinations does.
pub fn coarse_of(ins: &Ins, scene: &Scene) -> Coarse
    ensures { (k : Facts) → coarse_value k result ≡ reach.coarse ins.now scene.now.frame k }
{
    match *ins {
        Ins::Loadi { n, .. } => Coarse::PushesAny(n),
        Ins::Index { .. } => Coarse::PushesAny(2),
        Ins::Storei { tag, off, n } => Coarse::WritesWithin {
            at: scene.place_of(tag, off, n as u16 + 2),
            lengths: Lengths::One(n),
        },
        Ins::Prim { set, number, args } => match Primitive::of(set, number) {
            Some(primitive) => prim_coarse(primitive, &args, scene),
            None => Coarse::Leads,
        },
        _ => Coarse::Leads,
    }
}

// What a primitive does.
fn prim_coarse(primitive: Primitive, args: &[u8; 3], scene: &Scene) -> Coarse
    ensures { (k : Facts) → coarse_value k result
        ≡ reach.prim_coarse (table.primitive_of primitive) args.now scene.now.frame k }
{
    let dt = scene.dt();
    match primitive {
        Primitive::Lookup => Coarse::Searches,
        Primitive::MemoryCompare | Primitive::CompareFixed => Coarse::Compares,
        Primitive::MemoryCopy => within(dt - 4, Lengths::At(dt - 6)),
        Primitive::CopyFixed => within(dt - 4, Lengths::One(args[0])),
        Primitive::DelegatorAid => within(dt - 2, Lengths::Names),
        Primitive::Digest => within(dt - 2, Lengths::One(20)),
        Primitive::Encipher(_) => within(dt - 4, Lengths::One(args[0])),
        Primitive::Decipher(_) => within(dt - 4, Lengths::One(args[0])),
        Primitive::Sign(cipher) => within(dt - 4, Lengths::One(cipher.block_len())),
        Primitive::ShiftLeft | Primitive::ShiftRight => Coarse::Shifts(args[0]),
        _ => Coarse::Leads,
    }
}

// A write at the address that the two bytes at a place may be.
fn within(at: u16, lengths: Lengths) -> Coarse
    ensures { (k : Facts) → coarse_value k result ≡ reach.WritesWithin (reach.reach_at k at (lengths_value k lengths)) }
{
    Coarse::WritesWithin { at, lengths }
}

/// Returns whether a length that a primitive reads may be out of its range.
pub fn may_have_bad_length(primitive: Option<Primitive>) -> bool
    ensures { result ≡ reach.may_have_bad_length (option_map table.primitive_of primitive) }
{
    match primitive {
        Some(Primitive::MemoryCompare) => true,
        Some(Primitive::MemoryCopy) => true,
        Some(Primitive::Digest) => true,
        Some(Primitive::Delegate) => true,
        _ => false,
    }
}

/// Returns whether a row can abend with 03.
pub fn may_miss(primitive: Option<Primitive>, coarse: Coarse) -> bool
    ensures { (k : Facts) → result ≡ reach.may_miss (option_map table.primitive_of primitive) (coarse_value k coarse) }
{
    match coarse {
        Coarse::Shifts(_) => false,
        Coarse::Leads => is_delegation(primitive),
        _ => true,
    }
}

// Whether a primitive delegates.
fn is_delegation(primitive: Option<Primitive>) -> bool
    ensures { result ≡ reach.is_delegation (option_map table.primitive_of primitive) }
{
    match primitive {
        Some(Primitive::Delegate) => true,
        _ => false,
    }
}

/// Returns the shape of a row of too many combinations, as far as it matters: DT, whether it stays, the flags if it
/// writes or leads on, and what comes next. `None` is returned for the rows that no byte decides.
#[tactic(auto, unfolding(model_machine::specs::Shapes::shape))]
pub fn coarse_shape(ins: &Ins, scene: &Scene, around: &Around) -> Option<Shape>
    ensures { (k : Facts) → IfSome result (λ h. shape_value h ≡ coarse_outlined (reach.coarse ins.now scene.now.frame k)
        (shapes.shape ins.now scene.now.frame scene.now.public (around_value around.now))) }
{
    let dt = scene.dt();
    match *ins {
        Ins::Loadi { .. } => Some(acts(dt)),
        Ins::Storei { n, .. } => Some(acts(dt - n as u16)),
        Ins::Index { tag, .. } => Some(acts(dt - on_stack(tag, 3, 1))),
        Ins::Prim { set, number, args } => pair_coarse_shape(scene, around, set, number, &args),
        _ => None,
    }
}

// The shape of the primitive of a set and a number, of too many combinations.
fn pair_coarse_shape(
    scene: &Scene,
    around: &Around,
    set: u8,
    number: u8,
    args: &[u8; 3],
) -> Option<Shape>
    ensures { (k : Facts) → IfSome result (λ h. shape_value h
        ≡ coarse_outlined (reach.pair_coarse (model.primitive set number) args.now scene.now.frame k)
        (shapes.pair_shape (model.primitive set number) args.now scene.now.frame scene.now.public
        (around_value around.now))) }
{
    match Primitive::of(set, number) {
        Some(primitive) => prim_coarse_shape(primitive, args, scene, around),
        None => None,
    }
}

// The shape of a primitive of too many combinations.
#[tactic(auto, unfolding(model_machine::specs::Shapes::prim_shape))]
fn prim_coarse_shape(
    primitive: Primitive,
    args: &[u8; 3],
    scene: &Scene,
    around: &Around,
) -> Option<Shape>
    ensures { (k : Facts) → IfSome result (λ h. shape_value h
        ≡ coarse_outlined (reach.prim_coarse (table.primitive_of primitive) args.now scene.now.frame k)
        (shapes.prim_shape (table.primitive_of primitive) args.now scene.now.frame scene.now.public
        (around_value around.now))) }
{
    let dt = scene.dt();
    match primitive {
        Primitive::Lookup => Some(acts(dt - 3)),
        Primitive::MemoryCompare => Some(goes(dt - 6, Act::Stays)),
        Primitive::CompareFixed => Some(goes(dt - 4, Act::Stays)),
        Primitive::MemoryCopy => Some(acts(dt - 6)),
        Primitive::CopyFixed => Some(acts(dt - 4)),
        Primitive::Digest => Some(acts(dt - 6)),
        Primitive::Encipher(_) => Some(acts(dt - 6)),
        Primitive::Decipher(_) => Some(acts(dt - 6)),
        Primitive::Sign(_) => Some(acts(dt - 8)),
        Primitive::ShiftLeft => Some(acts(dt)),
        Primitive::ShiftRight => Some(acts(dt)),
        Primitive::Delegate => Some(delegates(scene)),
        Primitive::DelegatorAid => Some(reports(scene, around)),
        _ => None,
    }
}

// The shape of a row that writes or pushes.
fn acts(dt: u16) -> Shape
    ensures { shape_value result ≡ shapes.goes dt (shapes.Protects 0) }
{
    goes(dt, Act::Protects { mode: 0 })
}

// The shape of the delegator's name, which may be none.
#[tactic(auto, unfolding(model_machine::specs::Shapes::prim_shape))]
fn reports(scene: &Scene, around: &Around) -> Shape
    ensures { (args : List ℕ) (k : Facts) → shape_value result
        ≡ coarse_outlined (reach.prim_coarse model.DelegatorAid args scene.now.frame k)
        (shapes.prim_shape model.DelegatorAid args scene.now.frame scene.now.public (around_value around.now)) }
{
    let dt = scene.dt() - 2;
    let c = scene.c();
    match around.delegator {
        Some(_) => Shape {
            dt,
            act: Act::Protects { mode: 0 },
            flags: Some((c, false)),
            next: Next::Goes,
        },
        None => Shape {
            dt,
            act: Act::Stays,
            flags: Some((c, true)),
            next: Next::Goes,
        },
    }
}
