// The primitives that encipher, decipher and sign messages.
ghost use Rattle.std.specs.Prelude.{◌≡◌, [], ◌∷◌, false, true, get_or, slice_index};
ghost use Rattle.model_machine.specs.Primitives as model;
ghost use Rattle.mc_segs.specs.HeldFrames.{frame_on_bank, CanRun};
ghost use Rattle.mc_segs.specs.Ends.{scene};
ghost use Rattle.mc_prims.specs.Acting.{alone, CausesAct, PrimActs};
ghost use Rattle.mc_isa.specs.Primitives.{cipher_of};
ghost use Rattle.mc_prims.specs.Table.{block_under_key};

use crate::access::Block;
use crate::ciphers::Way;
use crate::stack::{pop_four, pop_three};
use mc_bank::Bank;
use mc_isa::Cipher;
use mc_segs::{Frame, Halt, Next, Public, store};

/// Enciphers or deciphers a message of a given number of bytes: its address, that of the result and that of the key
/// are on the stack.
#[tactic(auto, using(std::proofs::lemmas::Bool::or_right, crate::proofs::FrameLemmas::message_some))]
pub fn turn_message<B: Bank>(
    bank: &mut B,
    frame: &mut Frame,
    public: &mut Public,
    way: Way,
    cipher: Cipher,
    len: u8,
) -> Result<Next, Halt>
    requires runs { CanRun B.Bank bank.old frame.old }
    requires message { model.is_message (cipher_of cipher) len ≡ true }
    ensures { CausesAct B.Bank (scene bank.old bank.new frame.old frame.new public.old public.new)
        (model.cipher_causes (cipher_of cipher) len (frame_on_bank B.Bank bank.old frame.old))
        (model.effect_and_next
        (model.cipher_done (block_under_key way (cipher_of cipher)) (cipher_of cipher) len
        (frame_on_bank B.Bank bank.old frame.old) public.old)) result }
{
    let (from, to, key) = pop_three(frame)?;
    let mut message = Block::read(bank, frame, public, from, len)?;
    let key = Block::read(bank, frame, public, key, cipher.key_len())?;
    message.turn(way, cipher, key.bytes());
    store(bank, frame, public, to, message.bytes())?;
    Ok(Next::Go)
}

/// Signs a message: the addresses of the start block, the message, the signature and the key are on the stack.
#[tactic(auto, using(std::proofs::lemmas::Bool::or_right, crate::proofs::FrameLemmas::message_some), unfolding(model_machine::specs::Primitives::later_causes, model_machine::specs::Primitives::prim_effect))]
pub fn sign_message<B: Bank>(
    bank: &mut B,
    frame: &mut Frame,
    public: &mut Public,
    cipher: Cipher,
    args: &[u8; 3],
) -> Result<Next, Halt>
    requires runs { CanRun B.Bank bank.old frame.old }
    requires message { model.is_message (cipher_of cipher) (slice_index args.now 0) ≡ true }
    ensures { PrimActs B.Bank (scene bank.old bank.new frame.old frame.new public.old public.new)
        (model.Sign (cipher_of cipher)) args.now alone result }
{
    let (start, from, to, key) = pop_four(frame)?;
    let mut last = Block::read(bank, frame, public, start, cipher.block_len())?;
    let message = Block::read(bank, frame, public, from, args[0])?;
    let key = Block::read(bank, frame, public, key, cipher.key_len())?;
    last.sign(cipher, key.bytes(), message.bytes());
    store(bank, frame, public, to, last.bytes())?;
    Ok(Next::Go)
}
