#![tactic(auto)]

//! Laws of the instruction table, over the definitions alone: each row has a shape, one of nine acts, and what all rows
//! do is proved over these.

ghost use Rattle.law_rows.specs.Keeping.{KeepingLaw, LeavingLaw};
ghost use Rattle.law_rows.specs.ShapeLaw.{ShapeLaw};

/// What each instruction does is the meaning of its shape.
pub fn rows_have_shapes()
    ensures shapes { ShapeLaw }
{}

/// Each row that is done keeps its frame's name, access list and session size, and makes no segment shorter; its static
/// bytes change just as its list of changes says.
pub fn rows_keep_their_frame()
    ensures keeps { KeepingLaw }
{}

/// A row that exits or delegates leaves its frame's segments as they were, and changes no static byte.
pub fn leaving_changes_nothing()
    ensures leaves { LeavingLaw }
{}

pub use model_machine;
