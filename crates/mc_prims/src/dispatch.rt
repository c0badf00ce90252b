// A primitive by its pair of set and number.
ghost use Rattle.std.specs.Prelude.{◌≡◌, ◌≤◌, false, length};
ghost use Rattle.model_machine.specs.declared.instruction.Ins.TheVariants.{Prim};
ghost use Rattle.model_machine.specs.Primitives as model;
ghost use Rattle.mc_segs.specs.HeldFrames.{frame_on_bank, CanRun};
ghost use Rattle.mc_segs.specs.Ends.{RowActs, scene};
ghost use Rattle.mc_prims.specs.Acting.{PrimActs};
ghost use Rattle.mc_prims.specs.Table.{surroundings_of};
ghost use Rattle.mc_isa.specs.Primitives.{primitive_of};

use crate::bits::{Side, manipulate_top, shift_top};
use crate::ciphers::Way;
use crate::memory::{compare_fixed, compare_memory, copy_fixed, copy_memory, digest, look_up};
use crate::messages::{sign_message, turn_message};
use crate::names::{delegate, report_delegator};
use crate::registers::{check_case, load_flags, set_protection, store_flags};
use mc_bank::Bank;
use mc_isa::Primitive;
use mc_segs::{Frame, Halt, Next, Public};
use mc_words::Aid;
use model_machine::Abend;

/// The surroundings of a frame: the case of the chain's command, 1 to 4, and the name of the application
/// whose frame delegated to the running one, if there is one.
#[derive(Clone, Copy, Debug, PartialEq, Eq)]
pub struct Around {
    pub case: u8,
    pub delegator: Option<Aid>,
}

/// Executes the primitive of a set and a number. A set has as many arguments as its number; the other bytes
/// of `args` do not count. The ciphers are DES and two-key triple DES (FIPS 46-3) and AES-128 (FIPS 197), in
/// ECB mode or as the last block of CBC (FIPS 81), and the digest is SHA-1 (FIPS 180-4).
///
/// # Errors
///
/// Returns abend 06 if there is no such pair or the argument bytes are out of their range, else abend 0A if
/// the access list of the frame's application denies the primitive, else the abend of the primitive's first
/// other cause that holds. An abend writes no byte. Returns the `Stop` of the bank if it stopped during the
/// change of static bytes.
#[tactic(auto, unfolding(model_machine::specs::Row::row, model_machine::specs::Row::causes, model_machine::specs::Row::effect))]
pub fn prim<B: Bank>(
    bank: &mut B,
    frame: &mut Frame,
    public: &mut Public,
    set: u8,
    number: u8,
    args: &[u8; 3],
    around: &Around,
) -> Result<Next, Halt>
    requires runs { CanRun B.Bank bank.old frame.old }
    ensures { RowActs B.Bank (scene bank.old bank.new frame.old frame.new public.old public.new)
        (Prim set number args.now) (surroundings_of around.now) result }
{
    let Some(primitive) = Primitive::of(set, number) else {
        return Err(Halt::Abend(Abend::A06));
    };
    if primitive.has_bad_argument(args) {
        return Err(Halt::Abend(Abend::A06));
    }
    let sizes = bank.facts(frame.slot()).sizes;
    if primitive.is_denied(sizes.deny) {
        return Err(Halt::Abend(Abend::A0A));
    }
    run(bank, frame, public, primitive, args, around)
}

// Executes a primitive whose argument bytes are good and which is not denied.
#[tactic(auto, unfolding(model_machine::specs::Primitives::later_causes, model_machine::specs::Primitives::prim_effect))]
fn run<B: Bank>(
    bank: &mut B,
    frame: &mut Frame,
    public: &mut Public,
    primitive: Primitive,
    args: &[u8; 3],
    around: &Around,
) -> Result<Next, Halt>
    requires runs { CanRun B.Bank bank.old frame.old }
    requires args { model.has_bad_argument (primitive_of primitive) args.now ≡ false }
    requires room { length frame.old.frame.fixed ≤ 4096 }
    ensures { PrimActs B.Bank (scene bank.old bank.new frame.old frame.new public.old public.new)
        (primitive_of primitive) args.now (surroundings_of around.now) result }
{
    match primitive {
        Primitive::CheckCase => check_case(bank, frame, public, around.case),
        Primitive::LoadCcr => load_flags(bank, frame, public),
        Primitive::StoreCcr => store_flags(bank, frame, public),
        Primitive::Lookup => look_up(bank, frame, public),
        Primitive::MemoryCompare => compare_memory(bank, frame, public),
        Primitive::MemoryCopy => copy_memory(bank, frame, public),
        Primitive::Delegate => delegate(bank, frame, public),
        Primitive::DelegatorAid => report_delegator(bank, frame, public, around.delegator),
        Primitive::Digest => digest(bank, frame, public),
        Primitive::CompareFixed => compare_fixed(bank, frame, public, args),
        Primitive::CopyFixed => copy_fixed(bank, frame, public, args),
        Primitive::SetProtection => set_protection(bank, frame, public, args),
        Primitive::Encipher(cipher) => turn_message(
            bank,
            frame,
            public,
            Way::Encipher,
            cipher,
            args[0],
        ),
        Primitive::Decipher(cipher) => turn_message(
            bank,
            frame,
            public,
            Way::Decipher,
            cipher,
            args[0],
        ),
        Primitive::Sign(cipher) => sign_message(bank, frame, public, cipher, args),
        Primitive::BitByte => manipulate_top(bank, frame, public, args[0], &[args[1]]),
        Primitive::ShiftLeft => shift_top(bank, frame, public, Side::Left, args[0], args[1]),
        Primitive::ShiftRight => shift_top(bank, frame, public, Side::Right, args[0], args[1]),
        Primitive::BitWord => manipulate_top(bank, frame, public, args[0], &[args[1], args[2]]),
    }
}
