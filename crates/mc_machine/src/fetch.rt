// The instruction at the code address of a frame.
ghost use Rattle.std.specs.Prelude.{◌≡◌, ◌+◌, ◌≤◌, false, length, min, take, drop};
ghost use Rattle.law_machine.specs.model_machine.specs.Code.{instruction_at, DecodesTo};
ghost use Rattle.mc_segs.specs.HeldFrames.{FitsBank, app_under};

use mc_bank::Bank;
use mc_isa::{DecodeFault, Ins, decode};
use mc_segs::Frame;

/// The most bytes that an instruction has.
const LONGEST: u16 = 6;

/// Returns the instruction at the frame's code address, and the address after it.
#[inline(always)]
pub fn fetch<B: Bank>(bank: &B, frame: &Frame) -> Result<(Ins, u16), DecodeFault>
    requires going { (B.state bank.now).stopped ≡ false }
    requires fits { FitsBank (B.state bank.now) (B.named bank.now) frame.now }
    ensures exact { result ≡ instruction_at (app_under (B.state bank.now) (B.named bank.now) frame.now).code
        frame.now.frame.at }
    ensures stands { DecodesTo (app_under (B.state bank.now) (B.named bank.now) frame.now).code
        frame.now.frame.at result }
{
    let at = frame.at();
    let end = frame.code_len();
    if at >= end {
        return Err(DecodeFault::Past);
    }
    let left = end - at;
    let mut bytes = [0; 6];
    read_code(bank, frame, left, &mut bytes);
    let (ins, size) = decode(&bytes, 0)?;
    if size > left {
        return Err(DecodeFault::Past);
    }
    Ok((ins, at + size))
}

// Reads `LONGEST` bytes of code. If fewer are left, the bytes after those are unspecified.
#[inline(always)]
fn read_code<B: Bank>(bank: &B, frame: &Frame, left: u16, into: &mut [u8; 6])
    requires going { (B.state bank.now).stopped ≡ false }
    requires fits { FitsBank (B.state bank.now) (B.named bank.now) frame.now }
    requires left { frame.now.frame.at + left ≡ frame.now.frame.code_len }
    ensures { take (min left 6) into.new ≡ take (min left 6)
        (drop frame.now.frame.at (app_under (B.state bank.now) (B.named bank.now) frame.now).code) }
{
    if left < LONGEST {
        read_last(bank, frame, &mut into[..left as usize]);
    } else {
        bank.code(frame.slot(), frame.at(), into);
    }
}

// Reads the last bytes of code, when fewer than `LONGEST` are left.
#[cold]
#[inline(never)]
fn read_last<B: Bank>(bank: &B, frame: &Frame, into: &mut [u8])
    requires going { (B.state bank.now).stopped ≡ false }
    requires fits { FitsBank (B.state bank.now) (B.named bank.now) frame.now }
    requires inside { frame.now.frame.at + length into.old ≤ frame.now.frame.code_len }
    ensures { into.new ≡ take (length into.old)
        (drop frame.now.frame.at (app_under (B.state bank.now) (B.named bank.now) frame.now).code) }
{
    bank.code(frame.slot(), frame.at(), into);
}
