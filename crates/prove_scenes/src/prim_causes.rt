// The first cause for which a primitive abends.
ghost use Rattle.std.specs.Prelude.{◌≡◌, ◌||◌, ℕ, List, [], ◌∷◌};
ghost use Rattle.model_machine.specs.declared.machine.Abend.TheVariants.{A04, A05};
ghost use Rattle.model_machine.specs.Frame.{is_outside, is_over, is_under};
ghost use Rattle.model_machine.specs.Primitives as model;
ghost use Rattle.model_machine.specs.Row.{first_cause};
ghost use Rattle.mc_isa.specs.Primitives.{cipher_of, primitive_of};
ghost use Rattle.prove_scenes.specs.Counting.{counted_causes};
ghost use Rattle.prove_scenes.specs.Heads.{around_value, first_causes};
ghost use Rattle.prove_scenes.specs.Scenes.{frame_to};

use crate::around::Around;
use crate::counting::{Counted, and, first_of, or};
use crate::operands::in_range;
use crate::scene::Scene;
use mc_isa::{Cipher, Primitive};
use model_machine::Abend;

/// Which causes count, and whether the two that come before all others of a primitive hold.
#[derive(Clone, Copy, Debug, PartialEq, Eq)]
pub struct Head {
    counted: Counted,
    bad: bool,
    denied: bool,
}

/// Returns the first cause for which the primitive of a set and a number abends, of those that count.
pub fn prim_cause(
    scene: &Scene,
    around: &Around,
    counted: Counted,
    set: u8,
    number: u8,
    args: &[u8; 3],
) -> Option<Abend>
    ensures { result ≡ first_cause (counted_causes counted (model.prim_causes (model.primitive set number) args.now
        scene.now.frame scene.now.public (around_value around.now))) }
{
    match Primitive::of(set, number) {
        Some(primitive) => {
            let head = Head {
                counted,
                bad: primitive.has_bad_argument(args),
                denied: primitive.is_denied(scene.deny()),
            };
            later_cause(scene, around, head, primitive, args)
        }
        None => first_of(counted, &[(Abend::A06, true)]),
    }
}

// The first cause of a primitive, after those of its own bytes and of the access list.
#[tactic(auto, unfolding(model_machine::specs::Primitives::later_causes))]
fn later_cause(
    scene: &Scene,
    around: &Around,
    head: Head,
    primitive: Primitive,
    args: &[u8; 3],
) -> Option<Abend>
    ensures { result ≡ first_cause (counted_causes head.counted (first_causes head
        (model.later_causes (primitive_of primitive) args.now scene.now.frame scene.now.public
        (around_value around.now)))) }
{
    match primitive {
        Primitive::CheckCase => check_case(scene, head),
        Primitive::LoadCcr => full(scene, head),
        Primitive::StoreCcr => under(scene, head, 1),
        Primitive::Lookup => look_up(scene, head),
        Primitive::MemoryCompare => compare_memory(scene, head),
        Primitive::MemoryCopy => copy_memory(scene, head),
        Primitive::Delegate => delegate(scene, head),
        Primitive::DelegatorAid => report_delegator(scene, head, around),
        Primitive::Digest => digest(scene, head),
        Primitive::CompareFixed => compare_fixed(scene, head, args),
        Primitive::CopyFixed => copy_fixed(scene, head, args),
        Primitive::SetProtection => first_of(
            head.counted,
            &[(Abend::A06, head.bad), (Abend::A0A, head.denied)],
        ),
        Primitive::Encipher(cipher) => turn(scene, head, cipher, args[0]),
        Primitive::Decipher(cipher) => turn(scene, head, cipher, args[0]),
        Primitive::Sign(cipher) => sign(scene, head, cipher, args),
        Primitive::BitByte => under(scene, head, 1),
        Primitive::ShiftLeft => under(scene, head, args[0] as u16),
        Primitive::ShiftRight => under(scene, head, args[0] as u16),
        Primitive::BitWord => under(scene, head, 2),
    }
}

// A primitive that takes n bytes from the stack.
fn under(scene: &Scene, head: Head, n: u16) -> Option<Abend>
    ensures { result ≡ first_cause (counted_causes head.counted (first_causes head
        ((A04, is_under scene.now.frame n) ∷ []))) }
{
    first_of(
        head.counted,
        &[
            (Abend::A06, head.bad),
            (Abend::A0A, head.denied),
            (Abend::A04, scene.is_under(n)),
        ],
    )
}

// A primitive that pushes a byte.
fn full(scene: &Scene, head: Head) -> Option<Abend>
    ensures { result ≡ first_cause (counted_causes head.counted (first_causes head
        ((A05, is_over scene.now.frame 1) ∷ []))) }
{
    first_of(
        head.counted,
        &[
            (Abend::A06, head.bad),
            (Abend::A0A, head.denied),
            (Abend::A05, scene.is_over(scene.dt(), 1)),
        ],
    )
}

#[tactic(auto, unfolding(model_machine::specs::Primitives::later_causes))]
fn check_case(scene: &Scene, head: Head) -> Option<Abend>
    ensures { (args : List ℕ) (x : model.Around) → result ≡ first_cause (counted_causes head.counted (first_causes head
        (model.later_causes model.CheckCase args scene.now.frame scene.now.public x))) }
{
    first_of(
        head.counted,
        &[
            (Abend::A06, head.bad),
            (Abend::A0A, head.denied),
            (Abend::A04, scene.is_under(1)),
            (Abend::A06, !in_range(1, 4, scene.top_byte() as u16)),
        ],
    )
}

#[tactic(auto, unfolding(model_machine::specs::Primitives::later_causes))]
fn look_up(scene: &Scene, head: Head) -> Option<Abend>
    ensures { (args : List ℕ) (x : model.Around) → result ≡ first_cause (counted_causes head.counted (first_causes head
        (model.later_causes model.Lookup args scene.now.frame scene.now.public x))) }
{
    let dt = scene.dt() - 3;
    let at = scene.number_below_top(2) as u32;
    let count = scene.count_at(dt, at) as u32;
    let missed = or(
        scene.is_outside(dt, at, 1),
        scene.is_outside(dt, at + 1, count),
    );
    first_of(
        head.counted,
        &[
            (Abend::A06, head.bad),
            (Abend::A0A, head.denied),
            (Abend::A04, scene.is_under(3)),
            (Abend::A03, missed),
        ],
    )
}

#[tactic(auto, unfolding(model_machine::specs::Primitives::later_causes))]
fn compare_memory(scene: &Scene, head: Head) -> Option<Abend>
    ensures { (args : List ℕ) (x : model.Around) → result ≡ first_cause (counted_causes head.counted (first_causes head
        (model.later_causes model.MemoryCompare args scene.now.frame scene.now.public x))) }
{
    let dt = scene.dt() - 6;
    let n = scene.number_below_top(6);
    let missed = both_outside(scene, dt, 4, 2, n);
    first_of(
        head.counted,
        &[
            (Abend::A06, head.bad),
            (Abend::A0A, head.denied),
            (Abend::A04, scene.is_under(6)),
            (Abend::A03, and(in_range(1, 255, n), missed)),
            (Abend::A06, !in_range(1, 255, n)),
        ],
    )
}

#[tactic(auto, unfolding(model_machine::specs::Primitives::later_causes))]
fn copy_memory(scene: &Scene, head: Head) -> Option<Abend>
    ensures { (args : List ℕ) (x : model.Around) → result ≡ first_cause (counted_causes head.counted (first_causes head
        (model.later_causes model.MemoryCopy args scene.now.frame scene.now.public x))) }
{
    let dt = scene.dt() - 6;
    let n = scene.number_below_top(6);
    let to = scene.number_below_top(4) as u32;
    let missed = both_outside(scene, dt, 4, 2, n);
    first_of(
        head.counted,
        &[
            (Abend::A06, head.bad),
            (Abend::A0A, head.denied),
            (Abend::A04, scene.is_under(6)),
            (Abend::A03, and(in_range(1, 255, n), missed)),
            (Abend::A06, !in_range(1, 255, n)),
            (Abend::A08, scene.too_many(dt, to, n as u32)),
        ],
    )
}

// Whether one of two blocks is not whole in a segment; their addresses lie `first` and `second` bytes below the top.
fn both_outside(scene: &Scene, dt: u16, first: u16, second: u16, n: u16) -> bool
    ensures { result ≡ (is_outside (frame_to scene.now dt) (model.number_below_top scene.now.frame first) n
        || is_outside (frame_to scene.now dt) (model.number_below_top scene.now.frame second) n) }
{
    let (a, b) = (
        scene.number_below_top(first) as u32,
        scene.number_below_top(second) as u32,
    );
    or(
        scene.is_outside(dt, a, n as u32),
        scene.is_outside(dt, b, n as u32),
    )
}

#[tactic(auto, unfolding(model_machine::specs::Primitives::later_causes))]
fn delegate(scene: &Scene, head: Head) -> Option<Abend>
    ensures { (args : List ℕ) (x : model.Around) → result ≡ first_cause (counted_causes head.counted (first_causes head
        (model.later_causes model.DelegateTo args scene.now.frame scene.now.public x))) }
{
    let dt = scene.dt() - 2;
    let at = scene.number_below_top(2) as u32;
    let n = scene.count_at(dt, at);
    let named = in_range(5, 16, n as u16);
    let missed = or(
        scene.is_outside(dt, at, 1),
        and(named, scene.is_outside(dt, at + 1, n as u32)),
    );
    first_of(
        head.counted,
        &[
            (Abend::A06, head.bad),
            (Abend::A0A, head.denied),
            (Abend::A04, scene.is_under(2)),
            (Abend::A03, missed),
            (Abend::A06, !named),
        ],
    )
}

#[tactic(auto, unfolding(model_machine::specs::Primitives::later_causes))]
fn report_delegator(scene: &Scene, head: Head, around: &Around) -> Option<Abend>
    ensures { (args : List ℕ) → result ≡ first_cause (counted_causes head.counted (first_causes head
        (model.later_causes model.DelegatorAid args scene.now.frame scene.now.public (around_value around.now)))) }
{
    match around.delegator {
        None => under(scene, head, 2),
        Some(len) => {
            let dt = scene.dt() - 2;
            let at = scene.number_below_top(2) as u32;
            let n = 1 + len as u32;
            first_of(
                head.counted,
                &[
                    (Abend::A06, head.bad),
                    (Abend::A0A, head.denied),
                    (Abend::A04, scene.is_under(2)),
                    (Abend::A03, scene.is_outside(dt, at, n)),
                    (Abend::A08, scene.too_many(dt, at, n)),
                ],
            )
        }
    }
}

#[tactic(auto, unfolding(model_machine::specs::Primitives::later_causes))]
fn digest(scene: &Scene, head: Head) -> Option<Abend>
    ensures { (args : List ℕ) (x : model.Around) → result ≡ first_cause (counted_causes head.counted (first_causes head
        (model.later_causes model.Digest args scene.now.frame scene.now.public x))) }
{
    let dt = scene.dt() - 6;
    let n = scene.number_below_top(6);
    let from = scene.number_below_top(4) as u32;
    let to = scene.number_below_top(2) as u32;
    let missed = or(
        and(in_range(1, 255, n), scene.is_outside(dt, from, n as u32)),
        scene.is_outside(dt, to, 20),
    );
    first_of(
        head.counted,
        &[
            (Abend::A06, head.bad),
            (Abend::A0A, head.denied),
            (Abend::A04, scene.is_under(6)),
            (Abend::A03, missed),
            (Abend::A06, !in_range(1, 255, n)),
            (Abend::A08, scene.too_many(dt, to, 20)),
        ],
    )
}

#[tactic(auto, unfolding(model_machine::specs::Primitives::later_causes))]
fn compare_fixed(scene: &Scene, head: Head, args: &[u8; 3]) -> Option<Abend>
    ensures { (x : model.Around) → result ≡ first_cause (counted_causes head.counted (first_causes head
        (model.later_causes model.CompareFixed args.now scene.now.frame scene.now.public x))) }
{
    let missed = both_outside(scene, scene.dt() - 4, 4, 2, args[0] as u16);
    first_of(
        head.counted,
        &[
            (Abend::A06, head.bad),
            (Abend::A0A, head.denied),
            (Abend::A04, scene.is_under(4)),
            (Abend::A03, missed),
        ],
    )
}

#[tactic(auto, unfolding(model_machine::specs::Primitives::later_causes))]
fn copy_fixed(scene: &Scene, head: Head, args: &[u8; 3]) -> Option<Abend>
    ensures { (x : model.Around) → result ≡ first_cause (counted_causes head.counted (first_causes head
        (model.later_causes model.CopyFixed args.now scene.now.frame scene.now.public x))) }
{
    let dt = scene.dt() - 4;
    let n = args[0] as u16;
    let to = scene.number_below_top(4) as u32;
    let missed = both_outside(scene, dt, 4, 2, n);
    first_of(
        head.counted,
        &[
            (Abend::A06, head.bad),
            (Abend::A0A, head.denied),
            (Abend::A04, scene.is_under(4)),
            (Abend::A03, missed),
            (Abend::A08, scene.too_many(dt, to, n as u32)),
        ],
    )
}

// A cipher over a message of n bytes.
fn turn(scene: &Scene, head: Head, cipher: Cipher, n: u8) -> Option<Abend>
    ensures { result ≡ first_cause (counted_causes head.counted (first_causes head
        (model.cipher_causes (cipher_of cipher) n scene.now.frame))) }
{
    let dt = scene.dt() - 6;
    let n = n as u16;
    let to = scene.number_below_top(4) as u32;
    let key = scene.number_below_top(2) as u32;
    let missed = or(
        both_outside(scene, dt, 6, 4, n),
        scene.is_outside(dt, key, cipher.key_len() as u32),
    );
    first_of(
        head.counted,
        &[
            (Abend::A06, head.bad),
            (Abend::A0A, head.denied),
            (Abend::A04, scene.is_under(6)),
            (Abend::A03, missed),
            (Abend::A08, scene.too_many(dt, to, n as u32)),
        ],
    )
}

#[tactic(auto, unfolding(model_machine::specs::Primitives::later_causes))]
fn sign(scene: &Scene, head: Head, cipher: Cipher, args: &[u8; 3]) -> Option<Abend>
    ensures { (x : model.Around) → result ≡ first_cause (counted_causes head.counted (first_causes head
        (model.later_causes (model.Sign (cipher_of cipher)) args.now scene.now.frame scene.now.public x))) }
{
    let dt = scene.dt() - 8;
    let block = cipher.block_len() as u32;
    let start = scene.number_below_top(8) as u32;
    let message = scene.number_below_top(6) as u32;
    let to = scene.number_below_top(4) as u32;
    let key = scene.number_below_top(2) as u32;
    let missed = or(
        or(
            or(
                scene.is_outside(dt, start, block),
                scene.is_outside(dt, message, args[0] as u32),
            ),
            scene.is_outside(dt, to, block),
        ),
        scene.is_outside(dt, key, cipher.key_len() as u32),
    );
    first_of(
        head.counted,
        &[
            (Abend::A06, head.bad),
            (Abend::A0A, head.denied),
            (Abend::A04, scene.is_under(8)),
            (Abend::A03, missed),
            (Abend::A08, scene.too_many(dt, to, block)),
        ],
    )
}
