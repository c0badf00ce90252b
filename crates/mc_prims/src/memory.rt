// The primitives that copy, compare, digest and look up bytes.
ghost use Rattle.std.specs.Prelude.{◌≡◌, ◌+◌, ◌==◌, ◌≤◌, [], ◌∷◌, false, length, position, Ok};
ghost use Rattle.model_machine.specs.Frame.{frame_with_flags, frame_after_push};
ghost use Rattle.model_machine.specs.Primitives as model;
ghost use Rattle.model_machine.specs.Primitives.{Lookup, MemoryCompare, MemoryCopy, CompareFixed, CopyFixed, Digest};
ghost use Rattle.mc_segs.specs.HeldFrames.{frame_on_bank, CanRun};
ghost use Rattle.mc_segs.specs.Ends.{scene};
ghost use Rattle.mc_segs.specs.declared.ends.Next.TheVariants.{Go};
ghost use Rattle.mc_prims.specs.Acting.{alone, CausesAct, PrimActs, compare_causes, flags_compared};

use crate::access::{Block, as_length, reach, read_count};
use crate::stack::{pop_byte_and_word, pop_three, pop_two};
use mc_arith::compare;
use mc_bank::Bank;
use mc_segs::{Frame, Halt, Next, Public, push, store};
use sha1::Sha1;

/// Executes Memory Copy: copies bytes. Their length and the addresses of target and source are on the stack.
#[tactic(auto, unfolding(model_machine::specs::Primitives::later_causes, model_machine::specs::Primitives::prim_effect))]
pub fn copy_memory<B: Bank>(
    bank: &mut B,
    frame: &mut Frame,
    public: &mut Public,
) -> Result<Next, Halt>
    requires runs { CanRun B.Bank bank.old frame.old }
    ensures { PrimActs B.Bank
        (scene bank.old bank.new frame.old frame.new public.old public.new) MemoryCopy [] alone result }
{
    let (len, to, from) = pop_three(frame)?;
    let len = as_length(len)?;
    let block = Block::read(bank, frame, public, from, len)?;
    store(bank, frame, public, to, block.bytes())?;
    Ok(Next::Go)
}

/// Executes Memory Copy Fixed Length: copies as many bytes as the argument byte states. The addresses of
/// target and source are on the stack.
#[tactic(auto, unfolding(model_machine::specs::Primitives::later_causes, model_machine::specs::Primitives::prim_effect))]
pub fn copy_fixed<B: Bank>(
    bank: &mut B,
    frame: &mut Frame,
    public: &mut Public,
    args: &[u8; 3],
) -> Result<Next, Halt>
    requires runs { CanRun B.Bank bank.old frame.old }
    requires args { model.has_bad_argument CopyFixed args.now ≡ false }
    ensures { PrimActs B.Bank
        (scene bank.old bank.new frame.old frame.new public.old public.new) CopyFixed args.now alone result }
{
    let (to, from) = pop_two(frame)?;
    let block = Block::read(bank, frame, public, from, args[0])?;
    store(bank, frame, public, to, block.bytes())?;
    Ok(Next::Go)
}

/// Executes Memory Compare: sets the flags of the first block minus the second. Their length and their
/// addresses are on the stack.
#[tactic(auto, unfolding(model_machine::specs::Primitives::later_causes, model_machine::specs::Primitives::prim_effect))]
pub fn compare_memory<B: Bank>(
    bank: &mut B,
    frame: &mut Frame,
    public: &mut Public,
) -> Result<Next, Halt>
    requires runs { CanRun B.Bank bank.old frame.old }
    ensures { PrimActs B.Bank
        (scene bank.old bank.new frame.old frame.new public.old public.new) MemoryCompare [] alone result }
{
    let (len, first, second) = pop_three(frame)?;
    let len = as_length(len)?;
    compare_bytes(bank, frame, public, len, first, second)
}

/// Executes Memory Compare Fixed Length: sets the flags of the first block minus the second, of the length in
/// the argument byte. Their addresses are on the stack.
#[tactic(auto, unfolding(model_machine::specs::Primitives::later_causes, model_machine::specs::Primitives::prim_effect))]
pub fn compare_fixed<B: Bank>(
    bank: &mut B,
    frame: &mut Frame,
    public: &mut Public,
    args: &[u8; 3],
) -> Result<Next, Halt>
    requires runs { CanRun B.Bank bank.old frame.old }
    requires args { model.has_bad_argument CompareFixed args.now ≡ false }
    ensures { PrimActs B.Bank
        (scene bank.old bank.new frame.old frame.new public.old public.new) CompareFixed args.now alone result }
{
    let (first, second) = pop_two(frame)?;
    compare_bytes(bank, frame, public, args[0], first, second)
}

// Sets the flags by the difference of bytes at two addresses.
fn compare_bytes<B: Bank>(
    bank: &mut B,
    frame: &mut Frame,
    public: &mut Public,
    len: u8,
    first: u16,
    second: u16,
) -> Result<Next, Halt>
    requires runs { CanRun B.Bank bank.old frame.old }
    requires len { 1 ≤ len }
    ensures { CausesAct B.Bank (scene bank.old bank.new frame.old frame.new public.old public.new)
        (compare_causes (frame_on_bank B.Bank bank.old frame.old) len first second)
        (flags_compared (frame_on_bank B.Bank bank.old frame.old) public.old len first second) result }
{
    let first = Block::read(bank, frame, public, first, len)?;
    let second = Block::read(bank, frame, public, second, len)?;
    let flags = compare(first.bytes(), second.bytes());
    frame.set_flags(flags.c, flags.z);
    Ok(Next::Go)
}

/// Executes SHA-1 (FIPS 180-4): writes the digest of a message. The length of the message and the addresses
/// of the message and the digest are on the stack.
#[tactic(auto, unfolding(model_machine::specs::Primitives::later_causes, model_machine::specs::Primitives::prim_effect))]
pub fn digest<B: Bank>(bank: &mut B, frame: &mut Frame, public: &mut Public) -> Result<Next, Halt>
    requires runs { CanRun B.Bank bank.old frame.old }
    ensures { PrimActs B.Bank
        (scene bank.old bank.new frame.old frame.new public.old public.new) Digest [] alone result }
{
    let (len, from, to) = pop_three(frame)?;
    // The length of the digest does not depend on the one that was read, so its place is tested first.
    reach(bank, frame, public, to, 20)?;
    let len = as_length(len)?;
    let message = Block::read(bank, frame, public, from, len)?;
    store(bank, frame, public, to, &Sha1::digest(message.bytes()))?;
    Ok(Next::Go)
}

/// Executes Lookup: pushes the first index of a byte, or 0, and sets Z to whether it was found. The byte and
/// an address are on the stack; at the address are a count and the bytes among which the byte is looked up.
#[tactic(auto, unfolding(model_machine::specs::Primitives::later_causes, model_machine::specs::Primitives::prim_effect))]
pub fn look_up<B: Bank>(bank: &mut B, frame: &mut Frame, public: &mut Public) -> Result<Next, Halt>
    requires runs { CanRun B.Bank bank.old frame.old }
    requires room { length frame.old.frame.fixed ≤ 4096 }
    ensures { PrimActs B.Bank
        (scene bank.old bank.new frame.old frame.new public.old public.new) Lookup [] alone result }
{
    let (value, at) = pop_byte_and_word(frame)?;
    let (count, behind) = read_count(bank, frame, public, at)?;
    let bytes = Block::read(bank, frame, public, behind, count)?;
    match first_place(bytes.bytes(), value) {
        Some(place) => report_place(frame, place, true),
        None => report_place(frame, 0, false),
    }
}

// Pushes an index, and sets Z to whether the byte was found.
fn report_place(frame: &mut Frame, place: u8, found: bool) -> Result<Next, Halt>
    requires room { frame.old.frame.dt + 1 ≤ 0x8200 }
    ensures done { result ≡ Ok Go }
    ensures reported { frame.new ≡ record frame.old {
      frame = frame_with_flags
          (frame_after_push frame.old.frame (place ∷ [])) frame.old.frame.c found;
    } }
{
    push(frame, &[place])?;
    frame.set_flags(frame.c(), found);
    Ok(Next::Go)
}

// The first index of a byte.
fn first_place(bytes: &[u8], value: u8) -> Option<u8>
    requires { length bytes.now ≤ 255 }
    ensures { result ≡ position (λ b. b == value) bytes.now }
{
    let mut place = 0;
    for b in bytes {
        if *b == value {
            return Some(place);
        }
        place += 1;
    }
    None
}
