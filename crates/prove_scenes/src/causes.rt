// The first cause for which an instruction abends.
ghost use Rattle.std.specs.Prelude.{◌≡◌, ◌≤◌};
ghost use Rattle.model_machine.specs.declared.instruction.Ins.TheVariants as variants;
ghost use Rattle.model_machine.specs.Primitives as model;
ghost use Rattle.model_machine.specs.Row.{causes, first_cause, immediate_reads, immediate_writes, return_causes};
ghost use Rattle.prove_scenes.specs.Counting.{counted_causes};
ghost use Rattle.prove_scenes.specs.Families.{IsFlowRow, IsStackRow, IsTransfer, IsImmediate};
ghost use Rattle.prove_scenes.specs.Heads.{around_value};
ghost use Rattle.prove_scenes.specs.Transfers.{load_causes, store_causes, loadi_causes, storei_causes, index_causes};

use crate::around::Around;
use crate::block_causes::block_cause;
use crate::counting::{Counted, and, first_of, or};
use crate::operands::on_stack;
use crate::prim_causes::prim_cause;
use crate::scene::Scene;
use model_machine::{Abend, Ins};

/// Returns the first cause for which an instruction abends in a scene, of those that count.
#[tactic(auto, unfolding(model_machine::specs::Row::causes))]
pub fn cause(ins: &Ins, scene: &Scene, around: &Around, counted: Counted) -> Option<Abend>
    ensures { result ≡ first_cause (counted_causes counted
        (causes ins.now scene.now.frame scene.now.public (around_value around.now))) }
{
    match *ins {
        Ins::Nop
        | Ins::Setsw { .. }
        | Ins::Setla { .. }
        | Ins::Setswla { .. }
        | Ins::Exit
        | Ins::Exitsw { .. }
        | Ins::Exitla { .. }
        | Ins::Exitswla { .. } => first_of(counted, &[]),
        Ins::Branch { .. }
        | Ins::Jump { .. }
        | Ins::Call { .. }
        | Ins::Ret
        | Ins::Reti { .. }
        | Ins::Reto { .. }
        | Ins::Retio { .. } => flow_cause(ins, scene, counted),
        Ins::Pushz { .. }
        | Ins::Pushb { .. }
        | Ins::Pushw { .. }
        | Ins::Popn { .. }
        | Ins::Popb
        | Ins::Popw => stack_cause(ins, scene, counted),
        Ins::Load { .. }
        | Ins::Store { .. }
        | Ins::Loadi { .. }
        | Ins::Storei { .. }
        | Ins::Loada { .. }
        | Ins::Index { .. } => transfer_cause(ins, scene, counted),
        Ins::Setb { .. }
        | Ins::Cmpb { .. }
        | Ins::Addb { .. }
        | Ins::Subb { .. }
        | Ins::Setw { .. }
        | Ins::Cmpw { .. }
        | Ins::Addw { .. }
        | Ins::Subw { .. } => immediate_cause(ins, scene, counted),
        Ins::Prim { set, number, args } => prim_cause(scene, around, counted, set, number, &args),
        _ => block_cause(ins, scene, counted),
    }
}

// The rows that go to another place.
#[tactic(auto, unfolding(model_machine::specs::Row::causes))]
fn flow_cause(ins: &Ins, scene: &Scene, counted: Counted) -> Option<Abend>
    requires { IsFlowRow ins.now }
    ensures { (x : model.Around) → result ≡ first_cause (counted_causes counted
        (causes ins.now scene.now.frame scene.now.public x)) }
{
    match *ins {
        Ins::Branch { cond, d } => {
            let past = scene.no_place(scene.moved(d));
            first_of(counted, &[(Abend::A02, and(scene.holds(cond), past))])
        }
        Ins::Jump { cond, to } => jump_cause(scene, counted, cond, to),
        Ins::Call { cond, to } => call_cause(scene, counted, cond, to),
        Ins::Ret => return_cause(scene, counted, 0, 0),
        Ins::Reti { i } => return_cause(scene, counted, i, 0),
        Ins::Reto { o } => return_cause(scene, counted, 0, o),
        Ins::Retio { i, o } => return_cause(scene, counted, i, o),
        _ => unreachable!(),
    }
}

// JUMP.
#[tactic(auto, unfolding(model_machine::specs::Row::causes))]
fn jump_cause(scene: &Scene, counted: Counted, cond: u8, to: u16) -> Option<Abend>
    ensures { (x : model.Around) → result ≡ first_cause (counted_causes counted
        (causes (variants.Jump cond to) scene.now.frame scene.now.public x)) }
{
    let past = scene.no_place(Some(scene.target(cond, to)));
    first_of(
        counted,
        &[
            (Abend::A04, and(cond == 0, scene.is_under(2))),
            (Abend::A02, and(scene.holds(cond), past)),
        ],
    )
}

// CALL.
#[tactic(auto, unfolding(model_machine::specs::Row::causes))]
fn call_cause(scene: &Scene, counted: Counted, cond: u8, to: u16) -> Option<Abend>
    ensures { (x : model.Around) → result ≡ first_cause (counted_causes counted
        (causes (variants.Call cond to) scene.now.frame scene.now.public x)) }
{
    let past = scene.no_place(Some(scene.target(cond, to)));
    let full = scene.is_full_after(cond);
    first_of(
        counted,
        &[
            (Abend::A04, and(cond == 0, scene.is_under(2))),
            (Abend::A02, and(scene.holds(cond), past)),
            (Abend::A05, and(scene.holds(cond), full)),
        ],
    )
}

// A return with i bytes below the call and o above it.
fn return_cause(scene: &Scene, counted: Counted, i: u8, o: u8) -> Option<Abend>
    ensures { result ≡ first_cause (counted_causes counted (return_causes scene.now.frame i o)) }
{
    first_of(
        counted,
        &[
            (Abend::A04, scene.no_return(i, o)),
            (Abend::A02, scene.no_place(Some(scene.saved_address(2)))),
        ],
    )
}

// The rows that push a constant, or pop.
#[tactic(auto, unfolding(model_machine::specs::Row::causes))]
fn stack_cause(ins: &Ins, scene: &Scene, counted: Counted) -> Option<Abend>
    requires { IsStackRow ins.now }
    ensures { (x : model.Around) → result ≡ first_cause (counted_causes counted
        (causes ins.now scene.now.frame scene.now.public x)) }
{
    let dt = scene.dt();
    match *ins {
        Ins::Pushz { n } => first_of(
            counted,
            &[
                (Abend::A06, n == 0),
                (Abend::A05, scene.is_over(dt, n as u16)),
            ],
        ),
        Ins::Pushb { .. } => first_of(counted, &[(Abend::A05, scene.is_over(dt, 1))]),
        Ins::Pushw { .. } => first_of(counted, &[(Abend::A05, scene.is_over(dt, 2))]),
        Ins::Popn { n } => first_of(
            counted,
            &[(Abend::A06, n == 0), (Abend::A04, scene.is_under(n as u16))],
        ),
        Ins::Popb => first_of(counted, &[(Abend::A04, scene.is_under(1))]),
        Ins::Popw => first_of(counted, &[(Abend::A04, scene.is_under(2))]),
        _ => unreachable!(),
    }
}

// The rows between the stack and a segment, and of addresses.
#[tactic(auto, unfolding(model_machine::specs::Row::causes))]
fn transfer_cause(ins: &Ins, scene: &Scene, counted: Counted) -> Option<Abend>
    requires { IsTransfer ins.now }
    ensures { (x : model.Around) → result ≡ first_cause (counted_causes counted
        (causes ins.now scene.now.frame scene.now.public x)) }
{
    match *ins {
        Ins::Load { tag, off, n } => load_cause(scene, counted, tag, off, n as u16),
        Ins::Store { tag, off, n } => store_cause(scene, counted, tag, off, n as u16),
        Ins::Loadi { tag, off, n } => loadi_cause(scene, counted, tag, off, n as u16),
        Ins::Storei { tag, off, n } => storei_cause(scene, counted, tag, off, n as u16),
        Ins::Loada { tag, off } => {
            let none = scene.operand(tag, off, 0).is_none();
            let full = scene.is_over(scene.dt(), 2);
            first_of(counted, &[(Abend::A03, none), (Abend::A05, full)])
        }
        Ins::Index { tag, off, size } => index_cause(scene, counted, tag, off, size),
        _ => unreachable!(),
    }
}

// LOAD.
fn load_cause(scene: &Scene, counted: Counted, tag: u8, off: i16, n: u16) -> Option<Abend>
    ensures { result ≡ first_cause (counted_causes counted
        (load_causes scene.now.frame tag off n)) }
{
    let dt = scene.dt();
    let missed = scene.no_access(dt, scene.operand(tag, off, n), n as u32);
    first_of(
        counted,
        &[
            (Abend::A06, n == 0),
            (Abend::A04, and(tag == 0, scene.is_under(n))),
            (Abend::A03, missed),
            (Abend::A05, scene.is_over(dt, n)),
        ],
    )
}

// STORE.
fn store_cause(scene: &Scene, counted: Counted, tag: u8, off: i16, n: u16) -> Option<Abend>
    requires { n ≤ 255 }
    ensures { result ≡ first_cause (counted_causes counted
        (store_causes scene.now.frame tag off n)) }
{
    let dt = scene.dt() - n;
    let to = scene.operand(tag, off, 2 * n);
    first_of(
        counted,
        &[
            (Abend::A06, n == 0),
            (Abend::A04, scene.is_under(on_stack(tag, 2 * n, n))),
            (Abend::A03, scene.no_access(dt, to, n as u32)),
            (
                Abend::A08,
                scene.too_many(dt, to.unwrap_or(0) as u32, n as u32),
            ),
        ],
    )
}

// LOADI.
fn loadi_cause(scene: &Scene, counted: Counted, tag: u8, off: i16, n: u16) -> Option<Abend>
    ensures { result ≡ first_cause (counted_causes counted
        (loadi_causes scene.now.frame scene.now.public tag off n)) }
{
    let dt = scene.dt();
    let at = scene.operand(tag, off, 2);
    let from = scene.address_here(at.unwrap_or(0) as u32);
    let missed = or(
        scene.no_access(dt, at, 2),
        scene.is_outside(dt, from as u32, n as u32),
    );
    first_of(
        counted,
        &[
            (Abend::A06, n == 0),
            (Abend::A04, and(tag == 0, scene.is_under(2))),
            (Abend::A03, missed),
            (Abend::A05, scene.is_over(dt, n)),
        ],
    )
}

// STOREI.
fn storei_cause(scene: &Scene, counted: Counted, tag: u8, off: i16, n: u16) -> Option<Abend>
    requires { n ≤ 255 }
    ensures { result ≡ first_cause (counted_causes counted
        (storei_causes scene.now.frame scene.now.public tag off n)) }
{
    let dt = scene.dt();
    let at = scene.operand(tag, off, n + 2);
    let to = scene.address_here(at.unwrap_or(0) as u32);
    let missed = or(
        scene.no_access(dt, at, 2),
        scene.is_outside(dt - n, to as u32, n as u32),
    );
    first_of(
        counted,
        &[
            (Abend::A06, n == 0),
            (Abend::A04, scene.is_under(on_stack(tag, n + 2, n))),
            (Abend::A03, missed),
            (Abend::A08, scene.too_many(dt - n, to as u32, n as u32)),
        ],
    )
}

// INDEX.
fn index_cause(scene: &Scene, counted: Counted, tag: u8, off: i16, size: u8) -> Option<Abend>
    ensures { result ≡ first_cause (counted_causes counted
        (index_causes scene.now.frame tag off size)) }
{
    let popped = on_stack(tag, 3, 1);
    first_of(
        counted,
        &[
            (Abend::A04, scene.is_under(popped)),
            (Abend::A03, scene.indexed_address(tag, off, size).is_none()),
            (Abend::A05, scene.is_over(scene.dt() - popped, 2)),
        ],
    )
}

// The rows of a byte or a word with an immediate operand.
#[tactic(auto, unfolding(model_machine::specs::Row::causes))]
fn immediate_cause(ins: &Ins, scene: &Scene, counted: Counted) -> Option<Abend>
    requires { IsImmediate ins.now }
    ensures { (x : model.Around) → result ≡ first_cause (counted_causes counted
        (causes ins.now scene.now.frame scene.now.public x)) }
{
    match *ins {
        Ins::Setb { tag, off, .. } => immediate_write(scene, counted, tag, off, 1),
        Ins::Cmpb { tag, off, .. } => immediate_read(scene, counted, tag, off, 1),
        Ins::Addb { tag, off, .. } => immediate_write(scene, counted, tag, off, 1),
        Ins::Subb { tag, off, .. } => immediate_write(scene, counted, tag, off, 1),
        Ins::Setw { tag, off, .. } => immediate_write(scene, counted, tag, off, 2),
        Ins::Cmpw { tag, off, .. } => immediate_read(scene, counted, tag, off, 2),
        Ins::Addw { tag, off, .. } => immediate_write(scene, counted, tag, off, 2),
        Ins::Subw { tag, off, .. } => immediate_write(scene, counted, tag, off, 2),
        _ => unreachable!(),
    }
}

// A byte or a word at a place, or on top of the stack, that is read.
fn immediate_read(scene: &Scene, counted: Counted, tag: u8, off: i16, n: u16) -> Option<Abend>
    ensures { result ≡ first_cause (counted_causes counted (immediate_reads scene.now.frame tag off n)) }
{
    let at = scene.operand(tag, off, n);
    first_of(
        counted,
        &[
            (Abend::A04, and(tag == 0, scene.is_under(n))),
            (Abend::A03, scene.no_access(scene.dt(), at, n as u32)),
        ],
    )
}

// A byte or a word at a place, or on top of the stack, that is written.
fn immediate_write(scene: &Scene, counted: Counted, tag: u8, off: i16, n: u16) -> Option<Abend>
    ensures { result ≡ first_cause (counted_causes counted (immediate_writes scene.now.frame tag off n)) }
{
    let dt = scene.dt();
    let at = scene.operand(tag, off, n);
    first_of(
        counted,
        &[
            (Abend::A04, and(tag == 0, scene.is_under(n))),
            (Abend::A03, scene.no_access(dt, at, n as u32)),
            (
                Abend::A08,
                scene.too_many_here(at.unwrap_or(0) as u32, n as u32),
            ),
        ],
    )
}
