// The primitives on the command's case, the flags and the protection of static bytes. Each of them borrows
// what every primitive borrows, so that its contract is that of its row.
ghost use Rattle.std.specs.Prelude.{◌≡◌, [], ◌∷◌, false};
ghost use Rattle.model_machine.specs.Primitives as model;
ghost use Rattle.model_machine.specs.Primitives.{CheckCase, LoadCcr, StoreCcr, SetProtection};
ghost use Rattle.mc_segs.specs.HeldFrames.{CanRun};
ghost use Rattle.mc_segs.specs.Ends.{scene};
ghost use Rattle.mc_prims.specs.Acting.{alone, PrimActs};

use crate::stack::pop_byte;
use mc_bank::Bank;
use mc_segs::{Frame, Halt, Next, Public, protect, push};
use model_machine::Abend;

/// Executes Check Case: pops a case, 1 to 4, and sets Z to whether it is the command's.
#[tactic(auto, unfolding(model_machine::specs::Primitives::later_causes, model_machine::specs::Primitives::prim_effect))]
pub fn check_case<B: Bank>(
    bank: &mut B,
    frame: &mut Frame,
    public: &mut Public,
    case: u8,
) -> Result<Next, Halt>
    requires runs { CanRun B.Bank bank.old frame.old }
    ensures { PrimActs B.Bank
        (scene bank.old bank.new frame.old frame.new public.old public.new) CheckCase []
        (record alone { case = case }) result }
{
    let asked = pop_byte(frame)?;
    if asked < 1 || asked > 4 {
        return Err(Halt::Abend(Abend::A06));
    }
    frame.set_flags(frame.c(), asked == case);
    Ok(Next::Go)
}

/// Executes Load CCR: pushes the flags, C as 02 and Z as 01.
#[tactic(auto, unfolding(model_machine::specs::Primitives::later_causes, model_machine::specs::Primitives::prim_effect))]
pub fn load_flags<B: Bank>(
    bank: &mut B,
    frame: &mut Frame,
    public: &mut Public,
) -> Result<Next, Halt>
    requires runs { CanRun B.Bank bank.old frame.old }
    ensures { PrimActs B.Bank
        (scene bank.old bank.new frame.old frame.new public.old public.new) LoadCcr [] alone result }
{
    push(frame, &[2 * frame.c() as u8 + frame.z() as u8])?;
    Ok(Next::Go)
}

/// Executes Store CCR: pops the flags, as Load CCR pushes them.
#[tactic(auto, unfolding(model_machine::specs::Primitives::later_causes, model_machine::specs::Primitives::prim_effect))]
pub fn store_flags<B: Bank>(
    bank: &mut B,
    frame: &mut Frame,
    public: &mut Public,
) -> Result<Next, Halt>
    requires runs { CanRun B.Bank bank.old frame.old }
    ensures { PrimActs B.Bank
        (scene bank.old bank.new frame.old frame.new public.old public.new) StoreCcr [] alone result }
{
    let flags = pop_byte(frame)?;
    frame.set_flags(flags / 2 % 2 == 1, flags % 2 == 1);
    Ok(Next::Go)
}

/// Executes Set Transaction Protection: sets the protection of static writes to the mode in the argument
/// byte.
#[tactic(auto, unfolding(model_machine::specs::Primitives::later_causes, model_machine::specs::Primitives::prim_effect))]
pub fn set_protection<B: Bank>(
    bank: &mut B,
    frame: &mut Frame,
    public: &mut Public,
    args: &[u8; 3],
) -> Result<Next, Halt>
    requires runs { CanRun B.Bank bank.old frame.old }
    requires args { model.has_bad_argument SetProtection args.now ≡ false }
    ensures { PrimActs B.Bank
        (scene bank.old bank.new frame.old frame.new public.old public.new) SetProtection args.now alone result }
{
    protect(bank, frame, args[0])?;
    Ok(Next::Go)
}
