// The shape of a primitive in a scene.
ghost use Rattle.std.specs.Prelude.{◌≡◌, ◌≤◌, ◌<◌, ◌*◌, ◌-◌, ◌+◌, [], ◌∷◌, true, false, List, ℕ, None, length, IfSome};
ghost use Rattle.model_machine.specs.model_device.specs.Bytes.{zeros};
ghost use Rattle.model_machine.specs.Shapes as shapes;
ghost use Rattle.model_machine.specs.Frame.{bytes_at, top};
ghost use Rattle.model_machine.specs.Primitives as model;
ghost use Rattle.model_prove.specs.Work as work;
ghost use Rattle.mc_isa.specs.Primitives.{cipher_of, primitive_of};
ghost use Rattle.prove_scenes.specs.Heads.{around_value};
ghost use Rattle.prove_scenes.specs.Outlines.{outlined};
ghost use Rattle.prove_scenes.specs.Scenes.{frame_to};
ghost use Rattle.prove_scenes.specs.ShapeValues.{shape_value};
ghost use Rattle.prove_scenes.specs.Shifts.{shift_block, shift_shape};

use crate::around::Around;
use crate::scene::Scene;
use crate::shapes::{Act, Next, Shape};
use crate::shaping::{goes, pushes, writes, zeros_of};
use crate::working::{Bytes, byte_alone, no_bytes, same_bytes};
use arrayvec::ArrayVec;
use mc_arith::{Flags, shift_left, shift_right};
use mc_isa::{Cipher, Primitive};

/// The direction of a shift.
#[derive(Clone, Copy, Debug, PartialEq, Eq)]
pub enum Side {
    Left,
    Right,
}

/// Returns the shape of the primitive of a set and a number in a scene, as far as it matters. `None` is returned only
/// if its row abends.
pub fn prim_shape(
    scene: &Scene,
    around: &Around,
    set: u8,
    number: u8,
    args: &[u8; 3],
) -> Option<Shape>
    ensures { IfSome result (λ h. shape_value h ≡ outlined
        (work.pair_work (model.primitive set number) args.now scene.now.frame scene.now.public)
        (shapes.pair_shape (model.primitive set number) args.now scene.now.frame scene.now.public
        (around_value around.now))) }
{
    match Primitive::of(set, number) {
        Some(primitive) => primitive_shape(primitive, scene, around, args),
        None => Some(goes(scene.dt(), Act::Stays)),
    }
}

// The shape of a primitive.
#[tactic(auto, unfolding(model_machine::specs::Shapes::prim_shape))]
fn primitive_shape(
    primitive: Primitive,
    scene: &Scene,
    around: &Around,
    args: &[u8; 3],
) -> Option<Shape>
    ensures { IfSome result (λ h. shape_value h ≡ outlined
        (work.prim_work (primitive_of primitive) args.now scene.now.frame scene.now.public)
        (shapes.prim_shape (primitive_of primitive) args.now scene.now.frame scene.now.public
        (around_value around.now))) }
{
    let dt = scene.dt();
    match primitive {
        Primitive::CheckCase => Some(goes(dt - 1, Act::Stays)),
        Primitive::LoadCcr => Some(pushes(dt, byte_alone(scene.flags_byte()))),
        Primitive::StoreCcr => Some(store_flags(scene)),
        Primitive::Lookup => Some(pushes(dt - 3, no_bytes())),
        Primitive::MemoryCompare => Some(goes(dt - 6, Act::Stays)),
        Primitive::MemoryCopy => copy(scene, 6, scene.number_below_top(6)),
        Primitive::Delegate => Some(delegates(scene)),
        Primitive::DelegatorAid => report_delegator(scene, around),
        Primitive::Digest => Some(digest(scene)),
        Primitive::CompareFixed => Some(goes(dt - 4, Act::Stays)),
        Primitive::CopyFixed => copy(scene, 4, args[0] as u16),
        Primitive::SetProtection => Some(goes(dt, Act::Protects { mode: args[0] })),
        Primitive::Encipher(cipher) => turn(scene, cipher, args[0]),
        Primitive::Decipher(cipher) => turn(scene, cipher, args[0]),
        Primitive::Sign(cipher) => sign(scene, cipher, args),
        Primitive::BitByte => Some(replaces(dt)),
        Primitive::ShiftLeft => shift(scene, Side::Left, args[0], args[1]),
        Primitive::ShiftRight => shift(scene, Side::Right, args[0], args[1]),
        Primitive::BitWord => Some(replaces(dt)),
    }
}

// A row that replaces bytes on top of the stack, which it works on.
fn replaces(dt: u16) -> Shape
    ensures { shape_value result ≡ shapes.goes dt (shapes.Replaces []) }
{
    goes(dt, Act::Replaces { bytes: no_bytes() })
}

// The flags from the stack.
#[tactic(auto, unfolding(model_machine::specs::Shapes::prim_shape))]
fn store_flags(scene: &Scene) -> Shape
    ensures { (args : List ℕ) (x : model.Around) → shape_value result
        ≡ shapes.prim_shape model.StoreCcr args scene.now.frame scene.now.public x }
{
    let byte = scene.top_byte();
    Shape {
        dt: scene.dt() - 1,
        act: Act::Stays,
        flags: Some((byte / 2 % 2 == 1, byte % 2 == 1)),
        next: Next::Goes,
    }
}

// A copy of n bytes, once the top `popped` bytes of the stack are popped; none if the stack has fewer.
fn copy(scene: &Scene, popped: u16, n: u16) -> Option<Shape>
    requires { popped ≤ 8 }
    ensures { IfSome result (λ h. shape_value h ≡ shapes.goes (scene.now.frame.dt - popped)
        (shapes.Writes (model.number_below_top scene.now.frame 4) n
        (zeros (length (bytes_at (frame_to scene.now (scene.now.frame.dt - popped)) scene.now.public
        (model.number_below_top scene.now.frame 2) n))))) }
{
    if n > 255 {
        return None;
    }
    let dt = scene.dt() - popped;
    let from = scene.number_below_top(2) as u32;
    let bytes = zeros_of(scene.bytes_at(dt, from, n as u32));
    Some(writes(dt, scene.number_below_top(4), n, bytes))
}

/// Returns the shape of a delegation.
pub fn delegates(scene: &Scene) -> Shape
    ensures { shape_value result ≡ record {
      dt = scene.now.frame.dt - 2;
      act = shapes.Stays;
      flags = None;
      next = model.Delegates [];
    } }
{
    Shape {
        dt: scene.dt() - 2,
        act: Act::Stays,
        flags: None,
        next: Next::Delegates,
    }
}

// The delegator's name written after its length, or nothing.
#[tactic(auto, using(crate::proofs::ByteLemmas::name_length))]
fn report_delegator(scene: &Scene, around: &Around) -> Option<Shape>
    ensures { IfSome result (λ h. shape_value h ≡ outlined work.Counted
        (shapes.delegator_shape scene.now.frame (around_value around.now).delegator)) }
{
    let dt = scene.dt() - 2;
    match around.delegator {
        None => Some(Shape {
            dt,
            act: Act::Stays,
            flags: Some((scene.c(), true)),
            next: Next::Goes,
        }),
        Some(len) => {
            if len == 255 {
                return None;
            }
            Some(Shape {
                dt,
                act: Act::Writes {
                    at: scene.number_below_top(2),
                    count: 1 + len as u16,
                    bytes: zeros_after(len),
                },
                flags: Some((scene.c(), false)),
                next: Next::Goes,
            })
        }
    }
}

// A number, and behind it as many zeros.
fn zeros_after(number: u8) -> Bytes
    requires { number < 255 }
    ensures { result.items ≡ number ∷ zeros number }
{
    let mut bytes = same_bytes(number, 0);
    bytes.insert(0, number);
    bytes
}

// A digest.
#[tactic(auto, using(law_machine::proofs::BlockSizes::digest_length), unfolding(model_machine::specs::Shapes::prim_shape))]
fn digest(scene: &Scene) -> Shape
    ensures { (args : List ℕ) (x : model.Around) → shape_value result ≡ outlined work.NoFact
        (shapes.prim_shape model.Digest args scene.now.frame scene.now.public x) }
{
    let to = scene.number_below_top(2);
    writes(scene.dt() - 6, to, 20, same_bytes(20, 0))
}

// A cipher over a message of n bytes; none if its row abends.
#[tactic(auto, using(law_machine::proofs::BlockSizes::enciphered_length, law_machine::proofs::BlockSizes::deciphered_length))]
fn turn(scene: &Scene, cipher: Cipher, n: u8) -> Option<Shape>
    ensures enciphered { IfSome result (λ h. shape_value h ≡ outlined work.NoFact
        (shapes.cipher_shape (model.encipherment (cipher_of cipher)) (cipher_of cipher) n scene.now.frame
        scene.now.public)) }
    ensures deciphered { IfSome result (λ h. shape_value h ≡ outlined work.NoFact
        (shapes.cipher_shape (model.decipherment (cipher_of cipher)) (cipher_of cipher) n scene.now.frame
        scene.now.public)) }
{
    let dt = scene.dt() - 6;
    let from = scene.number_below_top(6) as u32;
    let message = scene.bytes_at(dt, from, n as u32);
    if message.len() != n as usize || n % cipher.block_len() != 0 {
        return None;
    }
    Some(writes(dt, scene.number_below_top(4), n as u16, same_bytes(n, 0)))
}

// A signature over a message of n bytes; none if its row abends.
#[tactic(auto, using(law_machine::proofs::BlockSizes::signature_length), unfolding(model_machine::specs::Shapes::prim_shape))]
fn sign(scene: &Scene, cipher: Cipher, args: &[u8; 3]) -> Option<Shape>
    ensures { (x : model.Around) → IfSome result (λ h. shape_value h ≡ outlined work.NoFact
        (shapes.prim_shape (model.Sign (cipher_of cipher)) args.now scene.now.frame scene.now.public x)) }
{
    let dt = scene.dt() - 8;
    let block = cipher.block_len();
    let from = scene.number_below_top(8) as u32;
    let start = scene.bytes_at(dt, from, block as u32);
    if start.len() != block as usize {
        return None;
    }
    let to = scene.number_below_top(4);
    Some(writes(dt, to, block as u16, same_bytes(block, 0)))
}

// A shift of the top n bytes; none if its row abends.
#[tactic(auto, unfolding(model_machine::specs::Shapes::prim_shape))]
fn shift(scene: &Scene, side: Side, n: u8, by: u8) -> Option<Shape>
    ensures { IfSome result (λ h. shape_value h ≡ shift_shape scene.now.frame.dt
        (shift_block side (top scene.now.frame n) by)) }
{
    let n = n as u16;
    if n < 1 || n > 16 || by < 1 || by as u16 >= 8 * n {
        return None;
    }
    let value = scene.stack_bytes(n, n);
    if value.len() != n as usize {
        return None;
    }
    Some(shifted(scene.dt(), side, value, by))
}

// The shape of a shift of a value.
fn shifted(dt: u16, side: Side, value: &[u8], by: u8) -> Shape
    requires low { 1 ≤ length value.now }
    requires high { length value.now ≤ 16 }
    requires some { 1 ≤ by }
    requires inside { by < 8 * length value.now }
    ensures { shape_value result ≡ shift_shape dt (shift_block side value.now by) }
{
    let mut block = [0; 16];
    let part = &mut block[..value.len()];
    part.copy_from_slice(value);
    let flags = turned(side, part, by);
    Shape {
        dt,
        act: Act::Replaces {
            bytes: copied(part),
        },
        flags: Some((flags.c, flags.z)),
        next: Next::Goes,
    }
}

// A value shifted left or right.
fn turned(side: Side, value: &mut [u8], by: u8) -> Flags
    requires low { 1 ≤ length value.old }
    requires high { length value.old ≤ 16 }
    requires some { 1 ≤ by }
    requires inside { by < 8 * length value.old }
    ensures { record { value = value.new; c = result.c; z = result.z } ≡ shift_block side value.old by }
{
    match side {
        Side::Left => shift_left(value, by),
        Side::Right => shift_right(value, by),
    }
}

// At most 255 bytes as a list.
fn copied(bytes: &[u8]) -> Bytes
    requires { length bytes.now ≤ 255 }
    ensures { result.items ≡ bytes.now }
{
    let mut list = ArrayVec::new();
    list.try_extend_from_slice(bytes).unwrap();
    list
}
