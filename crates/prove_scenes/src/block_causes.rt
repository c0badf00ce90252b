// The first cause for which an instruction on n bytes at a place abends.
ghost use Rattle.std.specs.Prelude.{◌≡◌, ◌≤◌, ◌∷◌, ◌==◌, not};
ghost use Rattle.model_machine.specs.declared.machine.Abend.TheVariants.{A06};
ghost use Rattle.model_machine.specs.Primitives.{Around, in_range};
ghost use Rattle.model_machine.specs.Row.{causes, first_cause, immediate_reads, immediate_writes, pair_reads, pair_writes};
ghost use Rattle.prove_scenes.specs.Counting.{counted_causes};
ghost use Rattle.prove_scenes.specs.Families.{IsBlockRow};

use crate::counting::{Counted, and, first_of};
use crate::operands::{in_range, on_stack};
use crate::scene::Scene;
use model_machine::{Abend, Ins};

/// Returns the first cause for which a row of n bytes at a place abends, of those that count.
#[tactic(auto, unfolding(model_machine::specs::Row::causes))]
pub fn block_cause(ins: &Ins, scene: &Scene, counted: Counted) -> Option<Abend>
    requires { IsBlockRow ins.now }
    ensures { (x : Around) → result ≡ first_cause (counted_causes counted
        (causes ins.now scene.now.frame scene.now.public x)) }
{
    match *ins {
        Ins::Clearn { tag, off, n } => one_written(scene, counted, n == 0, tag, off, n as u16),
        Ins::Testn { tag, off, n } => one_read(scene, counted, n == 0, tag, off, n as u16),
        Ins::Incn { tag, off, n } => one_written(scene, counted, is_long(n), tag, off, n as u16),
        Ins::Decn { tag, off, n } => one_written(scene, counted, is_long(n), tag, off, n as u16),
        Ins::Notn { tag, off, n } => one_written(scene, counted, n == 0, tag, off, n as u16),
        Ins::Cmpn { tag, off, n } => pair_read(scene, counted, tag, off, n as u16),
        Ins::Addn { tag, off, n } => pair_written(scene, counted, is_long(n), tag, off, n as u16),
        Ins::Subn { tag, off, n } => pair_written(scene, counted, is_long(n), tag, off, n as u16),
        Ins::Andn { tag, off, n } => pair_written(scene, counted, n == 0, tag, off, n as u16),
        Ins::Orn { tag, off, n } => pair_written(scene, counted, n == 0, tag, off, n as u16),
        Ins::Xorn { tag, off, n } => pair_written(scene, counted, n == 0, tag, off, n as u16),
        _ => unreachable!(),
    }
}

// Whether a length is not from 1 to 16.
fn is_long(n: u8) -> bool
    ensures { result ≡ not (in_range 1 16 n) }
{
    !in_range(1, 16, n as u16)
}

// One block that is read; `bad` is whether its length is out of range.
fn one_read(scene: &Scene, counted: Counted, bad: bool, tag: u8, off: i16, n: u16) -> Option<Abend>
    ensures { result ≡ first_cause (counted_causes counted
        ((A06, bad) ∷ immediate_reads scene.now.frame tag off n)) }
{
    let at = scene.operand(tag, off, n);
    first_of(
        counted,
        &[
            (Abend::A06, bad),
            (Abend::A04, and(tag == 0, scene.is_under(n))),
            (Abend::A03, scene.no_access(scene.dt(), at, n as u32)),
        ],
    )
}

// One block that is written.
fn one_written(
    scene: &Scene,
    counted: Counted,
    bad: bool,
    tag: u8,
    off: i16,
    n: u16,
) -> Option<Abend>
    ensures { result ≡ first_cause (counted_causes counted
        ((A06, bad) ∷ immediate_writes scene.now.frame tag off n)) }
{
    let dt = scene.dt();
    let at = scene.operand(tag, off, n);
    first_of(
        counted,
        &[
            (Abend::A06, bad),
            (Abend::A04, and(tag == 0, scene.is_under(n))),
            (Abend::A03, scene.no_access(dt, at, n as u32)),
            (
                Abend::A08,
                scene.too_many_here(at.unwrap_or(0) as u32, n as u32),
            ),
        ],
    )
}

// Two blocks that are read.
fn pair_read(scene: &Scene, counted: Counted, tag: u8, off: i16, n: u16) -> Option<Abend>
    requires { n ≤ 255 }
    ensures { result ≡ first_cause (counted_causes counted
        ((A06, n == 0) ∷ pair_reads scene.now.frame tag off n)) }
{
    let at = scene.operand(tag, off, 2 * n);
    first_of(
        counted,
        &[
            (Abend::A06, n == 0),
            (Abend::A04, scene.is_under(on_stack(tag, 2 * n, n))),
            (Abend::A03, scene.no_access(scene.dt(), at, n as u32)),
        ],
    )
}

// Two blocks, of which the first is written.
fn pair_written(
    scene: &Scene,
    counted: Counted,
    bad: bool,
    tag: u8,
    off: i16,
    n: u16,
) -> Option<Abend>
    requires { n ≤ 255 }
    ensures { result ≡ first_cause (counted_causes counted
        ((A06, bad) ∷ pair_writes scene.now.frame tag off n)) }
{
    let dt = scene.dt();
    let at = scene.operand(tag, off, 2 * n);
    first_of(
        counted,
        &[
            (Abend::A06, bad),
            (Abend::A04, scene.is_under(on_stack(tag, 2 * n, n))),
            (Abend::A03, scene.no_access(dt, at, n as u32)),
            (
                Abend::A08,
                scene.too_many_here(at.unwrap_or(0) as u32, n as u32),
            ),
        ],
    )
}
