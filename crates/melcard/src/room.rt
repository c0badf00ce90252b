// The memory of a job, taken before its input is read.
ghost use Rattle.std.specs.Prelude.{◌≡◌, IfOk};
ghost use Rattle.melcard.specs.Rooms.{HasRoom};
ghost use Rattle.melcard.specs.declared.job.Form.TheVariants.{Listing};

use crate::job::Form;
use crate::listing::LONGEST_LINE;
use mc_base::MOST_CODE;
use mc_filter::INPUT_LIMIT;
use std::alloc::{AllocError, Global};

/// Bytes for what a job makes of its input. They are empty, and have room if the job is a listing.
#[derive(Drop)]
pub struct Room {
    /// The digits of an input.
    pub digits: Vec<u8>,
    /// The bytes that the digits spell.
    pub code: Vec<u8>,
    /// The listing, or the line that refuses the input.
    pub text: Vec<u8>,
}

// The room of a listing, whatever its input is.
fn listing_room(alloc: Global) -> Result<Room, AllocError>
    ensures { IfOk result (λ r. HasRoom r) }
{
    Ok(Room {
        digits: Vec::with_capacity(alloc, INPUT_LIMIT)?,
        code: Vec::with_capacity(alloc, INPUT_LIMIT / 2)?,
        text: Vec::with_capacity(alloc, LONGEST_LINE * MOST_CODE)?,
    })
}

/// Returns the room of a job, whose size depends on its form alone.
pub fn room_for(alloc: Global, form: Form) -> Result<Room, AllocError>
    ensures { IfOk result (λ r. form ≡ Listing → HasRoom r) }
{
    match form {
        Form::Listing => listing_room(alloc),
        Form::Code | Form::Verdicts => Ok(Room {
            digits: Vec::new(alloc),
            code: Vec::new(alloc),
            text: Vec::new(alloc),
        }),
    }
}
