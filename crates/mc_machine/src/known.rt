// Instructions that were decoded before, by their code addresses: a loop decodes each of its instructions once.
ghost use Rattle.std.specs.Prelude.{◌≡◌, ℕ, List, false};
ghost use Rattle.law_machine.specs.model_machine.specs.Code.{instruction_at, DecodesTo};
ghost use Rattle.mc_segs.specs.HeldFrames.{FitsBank, app_under};
ghost use Rattle.mc_machine.specs.Known.{KnowsCode};

use crate::fetch::fetch;
use mc_bank::Bank;
use mc_isa::{DecodeFault, Ins};
use mc_segs::Frame;

/// The number of places of a table. The instruction at a code address has the place of its remainder.
const PLACES: usize = 256;

/// The address of a place without an instruction. A code address is less.
const NOWHERE: u32 = 0x10000;

/// An instruction, its code address, and the address after it.
#[derive(Clone, Copy, Debug)]
pub struct Known {
    pub at: u32,
    pub next: u16,
    pub ins: Ins,
}

/// Instructions of one code that were decoded before.
pub type Table = [Known; 256];

/// Returns a table without instructions.
#[inline(always)]
pub fn blank() -> Table
    ensures { (code : List ℕ) → KnowsCode code result }
{
    [Known {
        at: NOWHERE,
        next: 0,
        ins: Ins::Nop,
    }; 256]
}

/// Returns the instruction at the frame's code address, and the address after it, as `fetch` does. If the table does
/// not have it, it is decoded and kept there.
#[inline(always)]
pub fn fetch_known<B: Bank>(
    bank: &B,
    frame: &Frame,
    table: &mut Table,
) -> Result<(Ins, u16), DecodeFault>
    requires going { (B.state bank.now).stopped ≡ false }
    requires fits { FitsBank (B.state bank.now) (B.named bank.now) frame.now }
    requires knows { KnowsCode (app_under (B.state bank.now) (B.named bank.now) frame.now).code table.old }
    ensures exact { result ≡ instruction_at (app_under (B.state bank.now) (B.named bank.now) frame.now).code
        frame.now.frame.at }
    ensures stands { DecodesTo (app_under (B.state bank.now) (B.named bank.now) frame.now).code
        frame.now.frame.at result }
    ensures knows { KnowsCode (app_under (B.state bank.now) (B.named bank.now) frame.now).code table.new }
{
    let at = frame.at();
    let known = table[at as usize % PLACES];
    if known.at == at as u32 {
        return Ok((known.ins, known.next));
    }
    learn(bank, frame, table)
}

// Decodes the instruction at the frame's code address, and keeps it in its place.
#[cold]
#[inline(never)]
fn learn<B: Bank>(bank: &B, frame: &Frame, table: &mut Table) -> Result<(Ins, u16), DecodeFault>
    requires going { (B.state bank.now).stopped ≡ false }
    requires fits { FitsBank (B.state bank.now) (B.named bank.now) frame.now }
    requires knows { KnowsCode (app_under (B.state bank.now) (B.named bank.now) frame.now).code table.old }
    ensures exact { result ≡ instruction_at (app_under (B.state bank.now) (B.named bank.now) frame.now).code
        frame.now.frame.at }
    ensures stands { DecodesTo (app_under (B.state bank.now) (B.named bank.now) frame.now).code
        frame.now.frame.at result }
    ensures knows { KnowsCode (app_under (B.state bank.now) (B.named bank.now) frame.now).code table.new }
{
    let at = frame.at();
    let (ins, next) = fetch(bank, frame)?;
    table[at as usize % PLACES] = Known {
        at: at as u32,
        next,
        ins,
    };
    Ok((ins, next))
}
