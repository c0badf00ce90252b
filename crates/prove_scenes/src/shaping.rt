// The shape of an instruction's row in a scene.
ghost use Rattle.std.specs.Prelude.{◌≡◌, ◌≤◌, ◌*◌, [], None, length, IfSome};
ghost use Rattle.model_machine.specs.model_device.specs.Bytes.{zeros};
ghost use Rattle.model_machine.specs.Shapes as shapes;
ghost use Rattle.model_machine.specs.Primitives as model;
ghost use Rattle.model_machine.specs.Row as row;
ghost use Rattle.model_prove.specs.Work.{work};
ghost use Rattle.prove_scenes.specs.Families.{IsFlowRow, IsStackRow, IsTransfer, IsImmediate, IsBlockRow};
ghost use Rattle.prove_scenes.specs.Heads.{around_value};
ghost use Rattle.prove_scenes.specs.Outlines.{outlined};
ghost use Rattle.prove_scenes.specs.ShapeValues.{act_value, next_value, shape_value};

use crate::around::Around;
use crate::operands::on_stack;
use crate::prim_shaping::prim_shape;
use crate::scene::Scene;
use crate::shapes::{Act, Next, Shape};
use crate::working::{Bytes, byte_alone, no_bytes, same_bytes, word_bytes};
use model_machine::Ins;

/// Returns the shape of an instruction's row in a scene, as far as it matters: of the bytes that it copies, or that
/// have no fact, zeros are given, and of those that it works on none. `None` is returned only if the row abends.
#[tactic(auto, unfolding(model_machine::specs::Shapes::shape))]
pub fn shape_of(ins: &Ins, scene: &Scene, around: &Around) -> Option<Shape>
    ensures { IfSome result (λ h. shape_value h ≡ outlined (work ins.now scene.now.frame scene.now.public)
        (shapes.shape ins.now scene.now.frame scene.now.public (around_value around.now))) }
{
    match *ins {
        Ins::Nop => Some(goes(scene.dt(), Act::Stays)),
        Ins::Setsw { sw } => Some(answers(scene, Some(sw), None, Next::Goes)),
        Ins::Setla { la } => Some(answers(scene, None, Some(la), Next::Goes)),
        Ins::Setswla { sw, la } => Some(answers(scene, Some(sw), Some(la), Next::Goes)),
        Ins::Exit => Some(answers(scene, None, None, Next::Exits)),
        Ins::Exitsw { sw } => Some(answers(scene, Some(sw), None, Next::Exits)),
        Ins::Exitla { la } => Some(answers(scene, None, Some(la), Next::Exits)),
        Ins::Exitswla { sw, la } => Some(answers(scene, Some(sw), Some(la), Next::Exits)),
        Ins::Branch { .. }
        | Ins::Jump { .. }
        | Ins::Call { .. }
        | Ins::Ret
        | Ins::Reti { .. }
        | Ins::Reto { .. }
        | Ins::Retio { .. } => Some(flow_shape(ins, scene)),
        Ins::Pushz { .. }
        | Ins::Pushb { .. }
        | Ins::Pushw { .. }
        | Ins::Popn { .. }
        | Ins::Popb
        | Ins::Popw => Some(stack_shape(ins, scene)),
        Ins::Load { .. }
        | Ins::Store { .. }
        | Ins::Loadi { .. }
        | Ins::Storei { .. }
        | Ins::Loada { .. }
        | Ins::Index { .. } => Some(transfer_shape(ins, scene)),
        Ins::Setb { .. }
        | Ins::Cmpb { .. }
        | Ins::Addb { .. }
        | Ins::Subb { .. }
        | Ins::Setw { .. }
        | Ins::Cmpw { .. }
        | Ins::Addw { .. }
        | Ins::Subw { .. } => Some(immediate_shape(ins, scene)),
        Ins::Prim { set, number, args } => prim_shape(scene, around, set, number, &args),
        _ => Some(block_shape(ins, scene)),
    }
}

/// Returns the shape of a row that goes on after an act and sets no flags.
pub fn goes(dt: u16, act: Act) -> Shape
    ensures { shape_value result ≡ shapes.goes dt (act_value act) }
{
    Shape {
        dt,
        act,
        flags: None,
        next: Next::Goes,
    }
}

// A row that sets status and length of the reply, where given.
fn answers(scene: &Scene, sw: Option<u16>, la: Option<u16>, next: Next) -> Shape
    ensures { shape_value result ≡ record {
      dt = scene.now.frame.dt;
      act = shapes.Answers sw la;
      flags = None;
      next = next_value next;
    } }
{
    Shape {
        dt: scene.dt(),
        act: Act::Answers { sw, la },
        flags: None,
        next,
    }
}

// The rows that go to another place.
#[tactic(auto, unfolding(model_machine::specs::Shapes::shape))]
fn flow_shape(ins: &Ins, scene: &Scene) -> Shape
    requires { IsFlowRow ins.now }
    ensures { (x : model.Around) → shape_value result ≡ outlined (work ins.now scene.now.frame scene.now.public)
        (shapes.shape ins.now scene.now.frame scene.now.public x) }
{
    let dt = scene.dt();
    match *ins {
        Ins::Branch { cond, d } => goes(
            dt,
            Act::Jumps {
                taken: scene.holds(cond),
                to: scene.moved(d).unwrap_or(0),
            },
        ),
        Ins::Jump { cond, to } => goes(
            on_stack(cond, dt - 2, dt),
            Act::Jumps {
                taken: scene.holds(cond),
                to: scene.target(cond, to),
            },
        ),
        Ins::Call { cond, to } => goes(
            on_stack(cond, dt - 2, dt),
            Act::Calls {
                taken: scene.holds(cond),
                to: scene.target(cond, to),
            },
        ),
        Ins::Ret => goes(dt, Act::Returns { less: 0, more: 0 }),
        Ins::Reti { i } => goes(dt, Act::Returns { less: i, more: 0 }),
        Ins::Reto { o } => goes(dt, Act::Returns { less: 0, more: o }),
        Ins::Retio { i, o } => goes(dt, Act::Returns { less: i, more: o }),
        _ => unreachable!(),
    }
}

// The rows that push a constant, or pop.
#[tactic(auto, unfolding(model_machine::specs::Shapes::shape))]
fn stack_shape(ins: &Ins, scene: &Scene) -> Shape
    requires { IsStackRow ins.now }
    ensures { (x : model.Around) → shape_value result ≡ outlined (work ins.now scene.now.frame scene.now.public)
        (shapes.shape ins.now scene.now.frame scene.now.public x) }
{
    let dt = scene.dt();
    match *ins {
        Ins::Pushz { n } => pushes(dt, same_bytes(n, 0)),
        Ins::Pushb { b } => pushes(dt, byte_alone(b)),
        Ins::Pushw { w } => pushes(dt, word_bytes(w)),
        Ins::Popn { n } => goes(dt - n as u16, Act::Stays),
        Ins::Popb => goes(dt - 1, Act::Stays),
        Ins::Popw => goes(dt - 2, Act::Stays),
        _ => unreachable!(),
    }
}

/// Returns the shape of a row that pushes bytes.
pub fn pushes(dt: u16, bytes: Bytes) -> Shape
    ensures { shape_value result ≡ shapes.goes dt (shapes.Pushes bytes.items) }
{
    goes(dt, Act::Pushes { bytes })
}

/// Returns the shape of a row that writes bytes.
pub fn writes(dt: u16, at: u16, count: u16, bytes: Bytes) -> Shape
    ensures { shape_value result ≡ shapes.goes dt (shapes.Writes at count bytes.items) }
{
    goes(dt, Act::Writes { at, count, bytes })
}

// The rows between the stack and a segment, and of addresses.
#[tactic(auto, unfolding(model_machine::specs::Shapes::shape))]
fn transfer_shape(ins: &Ins, scene: &Scene) -> Shape
    requires { IsTransfer ins.now }
    ensures { (x : model.Around) → shape_value result ≡ outlined (work ins.now scene.now.frame scene.now.public)
        (shapes.shape ins.now scene.now.frame scene.now.public x) }
{
    let dt = scene.dt();
    match *ins {
        Ins::Load { tag, off, n } => {
            let at = scene.place_of(tag, off, n as u16) as u32;
            pushes(dt, zeros_of(scene.bytes_at(dt, at, n as u32)))
        }
        Ins::Store { tag, off, n } => {
            let n = n as u16;
            let at = scene.place_of(tag, off, 2 * n);
            writes(dt - n, at, n, zeros_of(scene.stack_bytes(n, n)))
        }
        Ins::Loadi { tag, off, n } => {
            let at = scene.address_at(dt, scene.place_of(tag, off, 2) as u32);
            pushes(dt, zeros_of(scene.bytes_at(dt, at as u32, n as u32)))
        }
        Ins::Storei { tag, off, n } => {
            let n = n as u16;
            let at = scene.address_at(dt, scene.place_of(tag, off, n + 2) as u32);
            writes(dt - n, at, n, zeros_of(scene.stack_bytes(n, n)))
        }
        Ins::Loada { tag, off } => pushes(dt, word_bytes(scene.place_of(tag, off, 0))),
        Ins::Index { tag, off, size } => {
            let at = scene.indexed_address(tag, off, size).unwrap_or(0);
            pushes(dt - on_stack(tag, 3, 1), word_bytes(at))
        }
        _ => unreachable!(),
    }
}

// As many zeros as there are bytes.
pub fn zeros_of(bytes: &[u8]) -> Bytes
    requires { length bytes.now ≤ 255 }
    ensures { result.items ≡ zeros (length bytes.now) }
{
    same_bytes(bytes.len() as u8, 0)
}

// The rows of a byte or a word with an immediate operand. But for those that set it, they work on their bytes.
#[tactic(auto, unfolding(model_machine::specs::Shapes::shape))]
fn immediate_shape(ins: &Ins, scene: &Scene) -> Shape
    requires { IsImmediate ins.now }
    ensures { (x : model.Around) → shape_value result ≡ outlined (work ins.now scene.now.frame scene.now.public)
        (shapes.shape ins.now scene.now.frame scene.now.public x) }
{
    let dt = scene.dt();
    match *ins {
        Ins::Setb { tag, off, b } => writes(dt, scene.place_of(tag, off, 1), 1, byte_alone(b)),
        Ins::Setw { tag, off, w } => writes(dt, scene.place_of(tag, off, 2), 2, word_bytes(w)),
        Ins::Cmpb { .. } | Ins::Cmpw { .. } => goes(dt, Act::Stays),
        Ins::Addb { tag, off, .. } => writes(dt, scene.place_of(tag, off, 1), 1, no_bytes()),
        Ins::Subb { tag, off, .. } => writes(dt, scene.place_of(tag, off, 1), 1, no_bytes()),
        Ins::Addw { tag, off, .. } => writes(dt, scene.place_of(tag, off, 2), 2, no_bytes()),
        Ins::Subw { tag, off, .. } => writes(dt, scene.place_of(tag, off, 2), 2, no_bytes()),
        _ => unreachable!(),
    }
}

// The rows of n bytes at a place, all of which work on their bytes.
#[tactic(auto, unfolding(model_machine::specs::Shapes::shape))]
fn block_shape(ins: &Ins, scene: &Scene) -> Shape
    requires { IsBlockRow ins.now }
    ensures { (x : model.Around) → shape_value result ≡ outlined (work ins.now scene.now.frame scene.now.public)
        (shapes.shape ins.now scene.now.frame scene.now.public x) }
{
    match *ins {
        Ins::Clearn { tag, off, n } => one_block(scene, tag, off, n as u16),
        Ins::Incn { tag, off, n } => one_block(scene, tag, off, n as u16),
        Ins::Decn { tag, off, n } => one_block(scene, tag, off, n as u16),
        Ins::Notn { tag, off, n } => one_block(scene, tag, off, n as u16),
        Ins::Addn { tag, off, n } => two_blocks(scene, tag, off, n as u16),
        Ins::Subn { tag, off, n } => two_blocks(scene, tag, off, n as u16),
        Ins::Andn { tag, off, n } => two_blocks(scene, tag, off, n as u16),
        Ins::Orn { tag, off, n } => two_blocks(scene, tag, off, n as u16),
        Ins::Xorn { tag, off, n } => two_blocks(scene, tag, off, n as u16),
        Ins::Testn { .. } | Ins::Cmpn { .. } => goes(scene.dt(), Act::Stays),
        _ => unreachable!(),
    }
}

// A block at a place that is changed.
fn one_block(scene: &Scene, tag: u8, off: i16, n: u16) -> Shape
    ensures { shape_value result ≡ shapes.goes scene.now.frame.dt
        (shapes.Writes (row.place_of scene.now.frame tag off n) n []) }
{
    writes(scene.dt(), scene.place_of(tag, off, n), n, no_bytes())
}

// A block at a place that is combined with the top of the stack.
fn two_blocks(scene: &Scene, tag: u8, off: i16, n: u16) -> Shape
    requires { n ≤ 255 }
    ensures { shape_value result ≡ shapes.goes scene.now.frame.dt
        (shapes.Writes (row.place_of scene.now.frame tag off (2 * n)) n []) }
{
    writes(scene.dt(), scene.place_of(tag, off, 2 * n), n, no_bytes())
}
