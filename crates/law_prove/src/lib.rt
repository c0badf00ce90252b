#![tactic(auto)]

//! What closed tables of abstract states cover of the plays of an application. The law of a row is of any tables: what
//! it leads to at their places is covered by all tables that include the outcomes, as closed tables include their own.

ghost use Rattle.law_prove.specs.Laws.{MomentLaw, PlaceLaw, LeadLaw, PopLaw, StatusLaw, JumpLaw, PushLaw};
ghost use Rattle.law_prove.specs.Laws.{MoveLaw, CompareLaw, SumLaw, BitLaw, PrimitiveLaw, MaskLaw, ReturnLaw};
ghost use Rattle.law_prove.specs.ReachLaws.{StoreLaw, CopyLaw, ResultLaw, DelegatorLaw};
ghost use Rattle.law_prove.specs.TargetLaws.{TargetLaw};
ghost use Rattle.model_prove.specs.model_machine.specs.declared.instruction.Ins.TheVariants.{Nop};

/// Between commands: each moment that may follow one is one that closed tables have, and none breaks a rule.
pub fn moments_are_covered()
    ensures { MomentLaw }
{}

/// A frame that a delegation begins is at a place that closed tables have; and if the budget ends at a place, or no
/// instruction is there, they have the moment after the answer, or after the delegation.
pub fn places_are_covered()
    ensures { PlaceLaw }
{}

/// After NOP closed tables have the next place, with the allowances that its event leaves.
pub fn no_operation_is_covered()
    ensures { LeadLaw Nop }
{}

/// After POPN, POPB and POPW closed tables have the next place, or what follows an abend.
pub fn pops_are_covered()
    ensures { PopLaw }
{}

/// After SETSW, SETLA and SETSWLA closed tables have the next place, with status and length of the reply.
pub fn statuses_are_covered()
    ensures { StatusLaw }
{}

/// After BRANCH, and after JUMP and CALL to a place in their own bytes, closed tables have the place that the
/// condition leads to, with the call open, or what follows an abend.
pub fn jumps_are_covered()
    ensures { JumpLaw }
{}

/// After PUSHZ, PUSHB, PUSHW and LOADA closed tables have the next place, with the bytes pushed, or what follows an
/// abend.
pub fn pushes_are_covered()
    ensures { PushLaw }
{}

/// After LOAD, STORE, SETB and SETW closed tables have the next place, with the facts moved with the bytes; and the
/// moments to which a stop in the write of static bytes leads, or an abend.
pub fn moves_are_covered()
    ensures { MoveLaw }
{}

/// After CMPB, CMPW, CMPN and TESTN closed tables have the place with the flags of the machine, both operands
/// narrowed to the values that lead to them, and the last compare.
pub fn comparisons_are_covered()
    ensures { CompareLaw }
{}

/// After ADDB, SUBB, ADDW, SUBW, INCN, DECN, ADDN and SUBN closed tables have the place with the flags of the
/// machine and the digits of its result; and what stops in the write and abends lead to.
pub fn sums_are_covered()
    ensures { SumLaw }
{}

/// So they have after CLEARN, NOTN, ANDN, ORN and XORN.
pub fn bits_are_covered()
    ensures { BitLaw }
{}

/// After PRIM 2, which pushes the flags, and PRIM 3,m, which drops or commits what waits, closed tables have the
/// next place, with what is read and what power would leave; and what a stop in a commit leads to.
pub fn flags_and_protection_are_covered()
    ensures { PrimitiveLaw }
{}

/// After the primitives that clear, set, invert or test bits of the top byte or word, closed tables have the place
/// with Z by the bits that are left.
pub fn masks_are_covered()
    ensures { MaskLaw }
{}

/// After RET, RETI, RETO and RETIO closed tables have the place that the newest open call has saved, with the calls
/// before it still open and the top bytes moved over it; a return without an open call is in no closed tables,
/// unless it abends.
pub fn returns_are_covered()
    ensures { ReturnLaw }
{}

pub use model_prove::model_machine;

/// After JUMP and CALL to the address in the top two bytes of the stack closed tables have the place that it names, with
/// these two bytes known; or what follows abend 02, if it is not in the code, or another abend.
pub fn targets_are_covered()
    ensures { TargetLaw }
{}

/// After STOREI closed tables have the next place, with what is then known of the bytes that were written and of the
/// others, whether few addresses are followed each or many together; and what stops in a write of static bytes and
/// abends lead to.
pub fn stores_through_addresses_are_covered()
    ensures { StoreLaw }
{}

/// So they have after the copies of as many bytes as the stack or the instruction has, from and to the addresses that
/// the stack has.
pub fn copies_are_covered()
    ensures { CopyLaw }
{}

/// So they have after the digest of a message and after each cipher over one, whose results have no fact.
pub fn results_are_covered()
    ensures { ResultLaw }
{}

/// So they have after the name of the delegator was written at an address that the stack has, with any name of 5 to 16
/// bytes, in a frame that a delegation began; and with Z set and nothing written in another.
pub fn delegator_names_are_covered()
    ensures { DelegatorLaw }
{}
