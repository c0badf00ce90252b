// The verdict on code.
ghost use Rattle.std.specs.Prelude.{◌≤◌, length, IfOk, IfErr};
ghost use Rattle.law_family.specs.model_device.specs.Limits.{most_code};
ghost use Rattle.mc_check.specs.Verdicts.{IsVerdictOf, KeepsTo};
ghost use Rattle.mc_check.specs.Table.{IsFaultDue};

use crate::bases::find_bases;
use crate::closing::close;
use crate::judging::judge;
use crate::table::Fault;
use law_family::model_text::CheckCause;
use model_device::NoMemory;
use std::alloc::Global;

/// A verdict on code: the most bytes of stack that it takes, or the place and cause of a rule that it breaks.
#[derive(Clone, Copy, Debug, PartialEq, Eq)]
pub enum Verdict {
    Accept { deepest: u16 },
    Refuse { place: u16, cause: CheckCause },
}

// Returns the verdict, or a fault that is due whatever the session bytes are.
fn decide(alloc: Global, code: &[u8], session: u16) -> Result<Verdict, Fault>
    requires low { 1 ≤ length code.now }
    requires high { length code.now ≤ most_code }
    ensures verdict { IfOk result (λ verdict. IsVerdictOf code.now session verdict) }
    ensures runs { IfOk result (λ verdict. KeepsTo code.now session verdict) }
    ensures due { IfErr result (λ fault. IsFaultDue code.now fault) }
{
    let table = close(alloc, code)?;
    let bases = find_bases(alloc, code, &table)?;
    Ok(judge(code, session, &table, &bases))
}

/// Checks the code of an application with `session` session bytes, and returns the verdict. Code that is
/// accepted never abends with 01, 02, 04 or 05, and the rule of a refusal is broken at its place. The code
/// has 1 to 8,192 bytes.
///
/// # Errors
///
/// Returns `NoMemory` if out of memory.
pub fn check(alloc: Global, code: &[u8], session: u16) -> Result<Verdict, NoMemory>
    requires low { 1 ≤ length code.now }
    requires high { length code.now ≤ most_code }
    ensures verdict { IfOk result (λ verdict. IsVerdictOf code.now session verdict) }
    ensures runs { IfOk result (λ verdict. KeepsTo code.now session verdict) }
{
    match decide(alloc, code, session) {
        Ok(verdict) => Ok(verdict),
        Err(Fault::Refused(refusal)) => Ok(Verdict::Refuse {
            place: refusal.place,
            cause: refusal.cause,
        }),
        Err(Fault::NoMemory) => Err(NoMemory),
    }
}
