// What instructions do to the protection, and when totals are asked.
ghost use Rattle.std.specs.Prelude.{◌≡◌};
ghost use Rattle.prove_facts.specs.model_rules.specs.Keeping as keeping;
ghost use Rattle.prove_forms.specs.model_sums.specs.Events as events;

use mc_arith::model_machine::Ins;
use mc_isa::Primitive;

// Whether a mode of protection keeps what waits.
pub fn is_commit(mode: u8) -> bool
    ensures { result ≡ events.is_commit mode }
{
    mode == 1 || mode == 3
}

/// Returns the mode of an instruction that changes the protection.
pub fn mode_of(ins: &Ins) -> Option<u8>
    ensures { result ≡ keeping.mode_of ins.now }
{
    match *ins {
        Ins::Prim { set, number, args } => match Primitive::of(set, number) {
            Some(Primitive::SetProtection) => Some(args[0]),
            _ => None,
        },
        _ => None,
    }
}

/// Returns whether the event of an instruction with this mode is dropped with what waits.
pub fn drops(protected: bool, mode: Option<u8>) -> bool
    ensures { result ≡ events.drops protected mode }
{
    match mode {
        Some(mode) => protected && !is_commit(mode),
        None => false,
    }
}

/// Returns whether what power leaves changes with an instruction with this mode, so that the totals are asked.
pub fn asks(protected: bool, mode: Option<u8>) -> bool
    ensures { result ≡ events.asks protected mode }
{
    match mode {
        Some(mode) => !protected || is_commit(mode),
        None => !protected,
    }
}
