#![tactic(auto)]

//! Which families of applications are closed, and what a closed family sees, over the definitions alone.

mod apart_rows;
mod rows;

ghost use Rattle.law_closed.specs.ApartLaws.{NeededLaw, SameNeededLaw};
ghost use Rattle.law_closed.specs.Laws.{ClosedByCodeLaw, DelegationLaw, FamiliesLaw, SameGivenLaw};

/// If two families are closed in some lines, so are the family of the names of both, the family of the names that both
/// have, and the family of the names that the first has alone.
pub fn families_combine()
    ensures combine { FamiliesLaw }
{}

/// Two plays that give a closed family the same, on whatever images, with whatever other lines, stops and strangers,
/// give it the same replies, and leave the same static bytes of it.
pub fn families_see_what_they_are_given()
    ensures same { SameGivenLaw }
{}

/// An application cannot delegate if its access list denies the primitive, or if no place of its code has it. In every
/// run and play, whatever is jumped to, each delegation comes from an application that is on the card when the command
/// begins and that can delegate.
pub fn delegations_come_from_code()
    ensures code { DelegationLaw }
{}

/// If no application that is ever on the card of a play can delegate, every family is closed and so isolated. If none
/// outside a family can, the family is closed once its own commands delegate to its own names alone.
pub fn families_are_closed_by_code()
    ensures closed { ClosedByCodeLaw }
{}

/// Whatever two plays that a closed family is in, with any strangers, power lines and stops: if both give it the same
/// but for the losses of a selection that it does not have, it sees the same.
pub fn neighbours_are_no_input()
    ensures needed { NeededLaw }
    ensures same { SameNeededLaw }
{}
