// The first cause of some, of those that count.
ghost use Rattle.std.specs.Prelude.{◌≡◌, ◌&&◌, ◌||◌, Option};
ghost use Rattle.model_machine.specs.Row.{first_cause};
ghost use Rattle.prove_scenes.specs.Counting.{counts, counted_causes};

use model_machine::Abend;

/// Which causes count: all of them, or those that the key of a place decides, which are all but 03, and 06 where a
/// length is read.
#[derive(Clone, Copy, Debug, PartialEq, Eq)]
pub enum Counted {
    All,
    Known { bad_length: bool },
}

/// Returns the first of some causes that holds, of those that count.
pub fn first_of(counted: Counted, causes: &[(Abend, bool)]) -> Option<Abend>
    ensures { result ≡ first_cause (counted_causes counted causes.now) }
{
    for (abend, holds) in causes {
        if and(*holds, counts(counted, *abend)) {
            return Some(*abend);
        }
    }
    None
}

// Whether a cause counts.
fn counts(counted: Counted, abend: Abend) -> bool
    ensures { result ≡ counts counted abend }
{
    match counted {
        Counted::All => true,
        Counted::Known { bad_length } => match abend {
            Abend::A03 => false,
            Abend::A06 => !bad_length,
            _ => true,
        },
    }
}

/// Returns whether both are true.
pub fn and(a: bool, b: bool) -> bool
    ensures { result ≡ (a && b) }
{
    a && b
}

/// Returns whether one is true.
pub fn or(a: bool, b: bool) -> bool
    ensures { result ≡ (a || b) }
{
    a || b
}
