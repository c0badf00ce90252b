#![tactic(auto)]

//! What an instruction does in the frame that stands for all of a place.

mod around;
mod block_causes;
mod causes;
mod coarse_rows;
mod counting;
mod deciding;
mod laws;
mod looking;
mod operands;
mod prim_causes;
mod prim_shaping;
mod scene;
mod segment;
mod shapes;
mod shaping;
mod words;
mod working;

pub use around::Around;
pub use causes::cause;
pub use coarse_rows::{Coarse, Lengths, coarse_of, coarse_shape, may_have_bad_length, may_miss};
pub use counting::Counted;
pub use deciding::{Places, deciders, inside, later_deciders, primitive_of, takes_target};
pub use laws::{coarse_outlines_lead_alike, outlines_lead_alike};
pub use looking::Place;
pub use scene::{OpenCall, Registers, Scene, Sizes};
pub use shapes::{Act, Next, Shape};
pub use shaping::shape_of;
pub use working::{Bytes, Digitwise, Operand, Operation, Work, work_of};
