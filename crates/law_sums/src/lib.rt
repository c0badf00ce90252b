//! What is known for sums holds of the states of an application: laws of the definitions of `model_sums`.
#![tactic(auto)]

ghost use Rattle.law_sums.specs.FormLaws.{FormLaw};
ghost use Rattle.law_sums.specs.OriginLaws.{NumberLaw};
ghost use Rattle.law_sums.specs.WriteLaws.{WriteLaw, PopLaw, LoadLaw, FollowLaw};
ghost use Rattle.law_sums.specs.CopyLaws.{CopyLaw, OperationLaw};
ghost use Rattle.law_sums.specs.LossLaws.{DropLaw, DelegationLaw};
ghost use Rattle.law_sums.specs.ReachLaws.{ReachLaw};
ghost use Rattle.law_sums.specs.EventLaws.{EventLaw, EvenLaw, StartLaw};
ghost use Rattle.law_sums.specs.TurnLaws.{TurnLaw};

/// Sums and multiples of forms are those of their values, and what is the same modulo 256 to the length of a block is
/// so whatever the public bytes were.
pub fn forms_are_numbers()
    ensures { FormLaw }
{}

/// The number that bytes are whose origins are known is the value of the form of their origins.
pub fn bytes_are_their_forms()
    ensures { NumberLaw }
{}

/// What is known after a write holds after it: origins go with the bytes, a whole block moves, and what is touched in
/// part ends.
pub fn writes_move_blocks()
    ensures { WriteLaw }
{}

/// What is known where DT is lower holds.
pub fn pops_forget()
    ensures { PopLaw }
{}

/// A block that was loaded is as much as the block that it was loaded from.
pub fn loads_are_known()
    ensures { LoadLaw }
{}

/// What a place says holds where it follows from what holds.
pub fn what_follows_holds()
    ensures { FollowLaw }
{}

/// The event of an instruction moves by how much totals are off as it moves the sums.
pub fn events_move_totals()
    ensures { EventLaw }
{}

/// Totals that are not off hold.
pub fn even_totals_hold()
    ensures { EvenLaw }
{}

/// What is known as a frame begins holds, where each total does.
pub fn beginnings_hold()
    ensures { StartLaw }
{}

/// What is known after bytes were copied holds: a loaded block that is copied over its own moves it by as much as it is
/// more.
pub fn copies_move_blocks()
    ensures { CopyLaw }
{}

/// An addition and a subtraction move their first operand by what the second is.
pub fn operations_move_blocks()
    ensures { OperationLaw }
{}

/// What is known after what waits was dropped holds, where each total holds of what power would leave.
pub fn drops_make_even()
    ensures { DropLaw }
{}

/// What is known after a delegation holds, whatever the public bytes are.
pub fn delegations_lose_public()
    ensures { DelegationLaw }
{}

/// What is known after a write at an address that is not known holds, if no byte that it could not reach changed.
pub fn far_writes_end_blocks()
    ensures { ReachLaw }
{}

/// What is known after an instruction and its event is so of the sums that then stand. If totals were asked and are not
/// off, each holds of the sums as power would leave them; if they were not asked, these stay.
pub fn turns_keep_totals()
    ensures { TurnLaw }
{}
