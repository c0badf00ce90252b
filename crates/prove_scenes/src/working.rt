// What a row works on.
ghost use Rattle.std.specs.Prelude.{◌≡◌, ◌-◌, ◌*◌, [], ◌∷◌, true, false, replicate, List, ℕ};
ghost use Rattle.arrayvec.specs.ArrayVec.{array_vec_len};
ghost use Rattle.model_machine.specs.model_device.specs.Bytes.{bytes, bytes2};
ghost use Rattle.model_machine.specs.Blocks.{not_block};
ghost use Rattle.model_machine.specs.Primitives as model;
ghost use Rattle.model_machine.specs.Row as row;
ghost use Rattle.model_prove.specs.Digits.{Minus};
ghost use Rattle.model_prove.specs.Work as work;
ghost use Rattle.mc_isa.specs.Primitives.{primitive_of};
ghost use Rattle.prove_scenes.specs.Works.{operation_value, work_value};

use crate::scene::Scene;
use arrayvec::ArrayVec;
use mc_isa::Primitive;
use model_device::bytes_of;
use model_machine::Ins;

/// At most 255 bytes.
pub type Bytes = ArrayVec<u8, 255>;

/// An operation digit by digit.
#[derive(Clone, Copy, Debug, PartialEq, Eq)]
pub enum Operation {
    Plus,
    Minus,
    And,
    Or,
    Xor,
}

/// The second operand of an operation: as many bytes at an address, or these.
#[derive(Drop)]
pub enum Operand {
    AtAddress(u16),
    These(Bytes),
}

/// An operation on the `n` bytes at an address and an operand. Its result may be written there, and sets C besides Z if
/// it carries.
#[derive(Drop)]
pub struct Digitwise {
    pub op: Operation,
    pub at: u16,
    pub n: u16,
    pub operand: Operand,
    pub written: bool,
    pub carries: bool,
}

/// What a row works on.
#[derive(Drop)]
pub enum Work {
    AsShaped,
    Copies { from: u16 },
    Works(Digitwise),
    Searches { value: u16, table: u32, n: u8 },
    AnyZ,
    Counted,
    NoFact,
}

/// Returns what a row works on in a scene.
pub fn work_of(ins: &Ins, scene: &Scene) -> Work
    ensures { work_value result ≡ work.work ins.now scene.now.frame scene.now.public }
{
    match *ins {
        Ins::Load { tag, off, n } => Work::Copies {
            from: scene.place_of(tag, off, n as u16),
        },
        Ins::Store { n, .. } => Work::Copies {
            from: scene.dt() - n as u16,
        },
        Ins::Loadi { tag, off, .. } => Work::Copies {
            from: scene.address_at(scene.dt(), scene.place_of(tag, off, 2) as u32),
        },
        Ins::Storei { n, .. } => Work::Copies {
            from: scene.dt() - n as u16,
        },
        Ins::Cmpb { tag, off, b } => with_byte(scene, Operation::Minus, tag, off, b, false),
        Ins::Addb { tag, off, b } => with_byte(scene, Operation::Plus, tag, off, b, true),
        Ins::Subb { tag, off, b } => with_byte(scene, Operation::Minus, tag, off, b, true),
        Ins::Cmpw { tag, off, w } => with_word(scene, Operation::Minus, tag, off, w, false),
        Ins::Addw { tag, off, w } => with_word(scene, Operation::Plus, tag, off, w, true),
        Ins::Subw { tag, off, w } => with_word(scene, Operation::Minus, tag, off, w, true),
        Ins::Clearn { tag, off, n } => with_same(scene, Operation::And, tag, off, n, 0, true),
        Ins::Testn { tag, off, n } => with_same(scene, Operation::Or, tag, off, n, 0, false),
        Ins::Incn { tag, off, n } => with_one(scene, Operation::Plus, tag, off, n),
        Ins::Decn { tag, off, n } => with_one(scene, Operation::Minus, tag, off, n),
        Ins::Notn { tag, off, n } => with_same(scene, Operation::Xor, tag, off, n, 255, true),
        Ins::Cmpn { tag, off, n } => with_top(scene, Operation::Minus, tag, off, n, false, true),
        Ins::Addn { tag, off, n } => with_top(scene, Operation::Plus, tag, off, n, true, true),
        Ins::Subn { tag, off, n } => with_top(scene, Operation::Minus, tag, off, n, true, true),
        Ins::Andn { tag, off, n } => with_top(scene, Operation::And, tag, off, n, true, false),
        Ins::Orn { tag, off, n } => with_top(scene, Operation::Or, tag, off, n, true, false),
        Ins::Xorn { tag, off, n } => with_top(scene, Operation::Xor, tag, off, n, true, false),
        Ins::Prim { set, number, args } => match Primitive::of(set, number) {
            Some(primitive) => prim_work(primitive, &args, scene),
            None => Work::AsShaped,
        },
        _ => Work::AsShaped,
    }
}

// An operation on a byte at a place and a byte.
fn with_byte(scene: &Scene, op: Operation, tag: u8, off: i16, b: u8, written: bool) -> Work
    ensures { work_value result ≡ work.works (operation_value op) (row.place_of scene.now.frame tag off 1) 1
        (work.These (b ∷ [])) written true }
{
    let mut bytes = ArrayVec::new();
    bytes.push(b);
    Work::Works(Digitwise {
        op,
        at: scene.place_of(tag, off, 1),
        n: 1,
        operand: Operand::These(bytes),
        written,
        carries: true,
    })
}

// An operation on a word at a place and a word.
fn with_word(scene: &Scene, op: Operation, tag: u8, off: i16, w: u16, written: bool) -> Work
    ensures { work_value result ≡ work.works (operation_value op) (row.place_of scene.now.frame tag off 2) 2
        (work.These (bytes2 w)) written true }
{
    Work::Works(Digitwise {
        op,
        at: scene.place_of(tag, off, 2),
        n: 2,
        operand: Operand::These(word_bytes(w)),
        written,
        carries: true,
    })
}

// An operation on n bytes at a place and these.
fn with_bytes(
    scene: &Scene,
    op: Operation,
    tag: u8,
    off: i16,
    n: u8,
    bytes: Bytes,
    written: bool,
    carries: bool,
) -> Work
    ensures { work_value result ≡ work.works (operation_value op) (row.place_of scene.now.frame tag off n) n
        (work.These bytes.items) written carries }
{
    Work::Works(Digitwise {
        op,
        at: scene.place_of(tag, off, n as u16),
        n: n as u16,
        operand: Operand::These(bytes),
        written,
        carries,
    })
}

// An operation on n bytes at a place and a byte n times, which sets Z alone.
fn with_same(
    scene: &Scene,
    op: Operation,
    tag: u8,
    off: i16,
    n: u8,
    value: u8,
    written: bool,
) -> Work
    ensures { work_value result ≡ work.works (operation_value op) (row.place_of scene.now.frame tag off n) n
        (work.These (replicate n value)) written false }
{
    with_bytes(scene, op, tag, off, n, same_bytes(n, value), written, false)
}

// An operation on n bytes at a place and the number 1, whose result is written and sets C and Z.
fn with_one(scene: &Scene, op: Operation, tag: u8, off: i16, n: u8) -> Work
    ensures { work_value result ≡ work.works (operation_value op) (row.place_of scene.now.frame tag off n) n
        (work.These (bytes n 1)) true true }
{
    with_bytes(scene, op, tag, off, n, one_in(n), true, true)
}

// An operation on n bytes at a place and the top n bytes of the stack.
fn with_top(
    scene: &Scene,
    op: Operation,
    tag: u8,
    off: i16,
    n: u8,
    written: bool,
    carries: bool,
) -> Work
    ensures { work_value result ≡ work.works (operation_value op) (row.place_of scene.now.frame tag off (2 * n)) n
        (work.at_top scene.now.frame n) written carries }
{
    Work::Works(Digitwise {
        op,
        at: scene.place_of(tag, off, 2 * n as u16),
        n: n as u16,
        operand: Operand::AtAddress(scene.dt() - n as u16),
        written,
        carries,
    })
}

// No bytes.
pub fn no_bytes() -> Bytes
    ensures { result.items ≡ [] }
{
    ArrayVec::new()
}

// The two bytes of a word.
pub fn word_bytes(w: u16) -> Bytes
    ensures { result.items ≡ bytes2 w }
{
    let [high, low] = bytes_of(w);
    let mut bytes = ArrayVec::new();
    bytes.push(high);
    bytes.push(low);
    bytes
}

// A byte as a list.
pub fn byte_alone(b: u8) -> Bytes
    ensures { result.items ≡ b ∷ [] }
{
    let mut bytes = ArrayVec::new();
    bytes.push(b);
    bytes
}

// A byte n times.
pub fn same_bytes(n: u8, value: u8) -> Bytes
    ensures items { result.items ≡ replicate n value }
    ensures size { array_vec_len result ≡ n }
{
    let mut bytes = ArrayVec::new();
    for _i in 0..n {
        bytes.push(value);
    }
    bytes
}

// The number 1 in n bytes.
#[tactic(auto, using(crate::proofs::ByteLemmas::one_is, crate::proofs::ByteLemmas::none_is))]
fn one_in(n: u8) -> Bytes
    ensures { result.items ≡ bytes n 1 }
{
    if n == 0 {
        return ArrayVec::new();
    }
    let mut bytes = same_bytes(n - 1, 0);
    bytes.push(1);
    bytes
}

// What a primitive works on.
fn prim_work(primitive: Primitive, args: &[u8; 3], scene: &Scene) -> Work
    ensures { work_value result ≡ work.prim_work (primitive_of primitive) args.now scene.now.frame scene.now.public }
{
    match primitive {
        Primitive::CheckCase => Work::AnyZ,
        Primitive::Lookup => search(scene),
        Primitive::MemoryCompare => compare(scene, scene.number_below_top(6)),
        Primitive::MemoryCopy | Primitive::CopyFixed => Work::Copies {
            from: scene.number_below_top(2),
        },
        Primitive::DelegatorAid => Work::Counted,
        Primitive::Digest | Primitive::Encipher(_) | Primitive::Decipher(_) | Primitive::Sign(_) =>
            Work::NoFact,
        Primitive::CompareFixed => compare(scene, args[0] as u16),
        Primitive::BitByte => mask(
            scene,
            args[0],
            1,
            byte_alone(args[1]),
            byte_alone(255 - args[1]),
        ),
        Primitive::BitWord => mask(
            scene,
            args[0],
            2,
            two_bytes(args[1], args[2]),
            two_bytes(255 - args[1], 255 - args[2]),
        ),
        _ => Work::AsShaped,
    }
}

// A search of the table whose address is on the stack.
fn search(scene: &Scene) -> Work
    ensures { (args : List ℕ) → work_value result ≡ work.prim_work model.Lookup args scene.now.frame scene.now.public }
{
    let table = scene.number_below_top(2) as u32;
    Work::Searches {
        value: scene.dt() - 3,
        table: table + 1,
        n: scene.count_at(scene.dt(), table),
    }
}

// A comparison of n bytes at the addresses on the stack.
fn compare(scene: &Scene, n: u16) -> Work
    ensures { work_value result ≡ work.works Minus (model.number_below_top scene.now.frame 4) n
        (work.AtAddress (model.number_below_top scene.now.frame 2)) false true }
{
    Work::Works(Digitwise {
        op: Operation::Minus,
        at: scene.number_below_top(4),
        n,
        operand: Operand::AtAddress(scene.number_below_top(2)),
        written: false,
        carries: true,
    })
}

// Two bytes as a list.
fn two_bytes(a: u8, b: u8) -> Bytes
    ensures { result.items ≡ a ∷ b ∷ [] }
{
    let mut bytes = ArrayVec::new();
    bytes.push(a);
    bytes.push(b);
    bytes
}

// The operation of a bit manipulation of the top n bytes under a mask.
fn mask(scene: &Scene, op: u8, n: u8, mask: Bytes, inverse: Bytes) -> Work
    requires inverse { inverse.items ≡ not_block mask.items }
    ensures { work_value result ≡ work.mask_work scene.now.frame op n mask.items }
{
    match op {
        0 => masked(scene, Operation::And, n, inverse, true),
        1 => masked(scene, Operation::Or, n, mask, true),
        2 => masked(scene, Operation::Xor, n, mask, true),
        _ => masked(scene, Operation::And, n, mask, false),
    }
}

// An operation on the top n bytes and these.
fn masked(scene: &Scene, op: Operation, n: u8, bytes: Bytes, written: bool) -> Work
    ensures { work_value result ≡ work.works (operation_value op) (scene.now.frame.dt - n) n (work.These bytes.items)
        written false }
{
    Work::Works(Digitwise {
        op,
        at: scene.dt() - n as u16,
        n: n as u16,
        operand: Operand::These(bytes),
        written,
        carries: false,
    })
}
