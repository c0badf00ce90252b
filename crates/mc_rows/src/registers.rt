// Rows that set the status and the length of the reply, and those that end the frame.
ghost use Rattle.mc_rows.specs.FrameRows.{PublicActs};
ghost use Rattle.mc_rows.specs.Families.{IsRegisterRow};

use mc_segs::Public;
use model_machine::Ins;

/// The continuation after an instruction other than PRIM that was done: the next one, or the frame's exit.
#[derive(Clone, Copy, Debug, PartialEq, Eq)]
pub enum Flow {
    Go,
    Exit,
}

/// Executes NOP, SETSW, SETLA or SETSWLA, or the exit after one of them.
#[tactic(auto, unfolding(model_machine::specs::Row::row, model_machine::specs::Row::causes, model_machine::specs::Row::effect))]
#[inline(always)]
pub fn registers(public: &mut Public, ins: &Ins) -> Flow
    requires { IsRegisterRow ins.now }
    ensures { PublicActs ins.now public.old public.new result }
{
    match *ins {
        Ins::Nop => Flow::Go,
        Ins::Exit => Flow::Exit,
        Ins::Setsw { sw } => {
            public.set_sw(sw);
            Flow::Go
        }
        Ins::Exitsw { sw } => {
            public.set_sw(sw);
            Flow::Exit
        }
        Ins::Setla { la } => {
            public.set_la(la);
            Flow::Go
        }
        Ins::Exitla { la } => {
            public.set_la(la);
            Flow::Exit
        }
        Ins::Setswla { sw, la } => {
            public.set_sw(sw);
            public.set_la(la);
            Flow::Go
        }
        Ins::Exitswla { sw, la } => {
            public.set_sw(sw);
            public.set_la(la);
            Flow::Exit
        }
        _ => unreachable!(),
    }
}
