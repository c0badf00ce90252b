// Static writes: committed at once, or kept as pending words until a commit.
ghost use Rattle.std.specs.Prelude.{◌≡◌, ℕ, ◌+◌, ◌*◌, ◌/◌, ◌%◌, ◌≤◌, ◌<◌, length, slice_index, true, false, [], ◌∷◌, Some, None, IsSome, OnOk, OnErr, ◌==◌, ◌||◌};
ghost use Rattle.mc_apdu.specs.model_machine.specs.Frame as model;
ghost use Rattle.mc_words.specs.model_device.specs.Pieces.{not_pending, pending_at, put_word};
ghost use Rattle.mc_bank.specs.Bank.{app_of};
ghost use Rattle.mc_segs.specs.HeldFrames.{frame_on_bank, ArePendingIn, CanRun};
ghost use Rattle.mc_segs.specs.Puts.{words_under, IsWordOf, PutsPiece, PutsBytes};
ghost use Rattle.mc_segs.specs.Commits.{IsCommitted};
ghost use Rattle.mc_segs.specs.Ends.{IfDue, IsOneCommit, Commits, EffectDone, scene, Protects};

use crate::bytes::write;
use crate::frame::Frame;
use mc_apdu::model_machine::Abend;
use mc_bank::{Bank, Slot};
use mc_trans::Pending;
use mc_words::{Stop, Word};

/// Sets the protection of static writes: mode 0 drops the pending words and ends it, 1 commits them and ends
/// it, 2 drops them and begins it, 3 commits them and begins it. A commit is one commit of the bank; without
/// pending words there is none.
///
/// # Errors
///
/// Returns the `Stop` of the bank if the commit stopped.
pub fn protect<B: Bank>(bank: &mut B, frame: &mut Frame, mode: u8) -> Result<(), Stop>
    requires runs { CanRun B.Bank bank.old frame.old }
    requires mode { mode ≤ 3 }
    ensures { Protects B.Bank (scene bank.old bank.new frame.old frame.new [] [])
        (model.protect (frame_on_bank B.Bank bank.old frame.old) [] mode) result }
{
    if !commits(mode) {
        drop_pending(frame, mode >= 2);
        return Ok(());
    }
    commit_pending(bank, frame)?;
    drop_pending(frame, mode >= 2);
    Ok(())
}

// Whether a mode commits the pending words.
fn commits(mode: u8) -> bool
    ensures { result ≡ (mode == 1 || mode == 3) }
{
    mode == 1 || mode == 3
}

// Drops the pending words, and begins or ends protection.
fn drop_pending(frame: &mut Frame, protected: bool)
    ensures { frame.new ≡ record frame.old { frame = record frame.old.frame { pieces = []; protected = protected } } }
{
    frame.pending.clear();
    frame.protected = protected;
}

// Commits the pending words, if there are some.
fn commit_pending<B: Bank>(bank: &mut B, frame: &Frame) -> Result<(), Stop>
    requires runs { CanRun B.Bank bank.old frame.now }
    ensures items { let m = frame_on_bank B.Bank bank.old frame.now in
        IsOneCommit B.did m.name m.fixed (model.pending_change m m.pieces) bank.old result bank.new }
    ensures fixed { OnOk result (IsCommitted (B.state bank.old) (B.state bank.new) (B.named bank.old)
        (B.named bank.new) frame.now (model.static_bytes
        (frame_on_bank B.Bank bank.old frame.now))) }
    ensures going { OnOk result ((B.state bank.new).stopped ≡ false) }
{
    let words = frame.pending.list();
    if words.is_empty() {
        return Ok(());
    }
    bank.commit(frame.slot, words)
}

/// Writes static bytes at once, in one commit of the words that they touch.
///
/// # Errors
///
/// Returns the `Stop` of the bank if the commit stopped.
pub fn commit_static<B: Bank>(bank: &mut B, frame: &Frame, at: u16, from: &[u8]) -> Result<(), Stop>
    requires runs { CanRun B.Bank bank.old frame.now }
    requires low { 1 ≤ length from.now }
    requires high { length from.now ≤ 255 }
    requires range { at + length from.now ≤ length frame.now.frame.fixed }
    ensures items { Commits B.Bank (scene bank.old bank.new frame.now frame.now [] [])
        (model.static_written false (frame_on_bank B.Bank bank.old frame.now) [] at from.now) result }
    ensures done { OnOk result (EffectDone B.Bank (scene bank.old bank.new frame.now frame.now [] [])
        (model.static_written false (frame_on_bank B.Bank bank.old frame.now) [] at from.now)) }
{
    if (at % 8) as usize + from.len() <= 8 {
        commit_word(bank, frame, at, from)
    } else {
        commit_words(bank, frame, at, from)
    }
}

// Writes static bytes that lie in one word, as most writes do: without a list of pending words.
fn commit_word<B: Bank>(bank: &mut B, frame: &Frame, at: u16, from: &[u8]) -> Result<(), Stop>
    requires runs { CanRun B.Bank bank.old frame.now }
    requires low { 1 ≤ length from.now }
    requires high { length from.now ≤ 255 }
    requires range { at + length from.now ≤ length frame.now.frame.fixed }
    requires one { at % 8 + length from.now ≤ 8 }
    ensures items { Commits B.Bank (scene bank.old bank.new frame.now frame.now [] [])
        (model.static_written false (frame_on_bank B.Bank bank.old frame.now) [] at from.now) result }
    ensures done { OnOk result (EffectDone B.Bank (scene bank.old bank.new frame.now frame.now [] [])
        (model.static_written false (frame_on_bank B.Bank bank.old frame.now) [] at from.now)) }
{
    let word = word_with(bank, frame.slot, frame.fixed_len, at, from);
    bank.commit(frame.slot, &[(at / 8, word)])
}

// Writes static bytes that may lie in several words.
fn commit_words<B: Bank>(bank: &mut B, frame: &Frame, at: u16, from: &[u8]) -> Result<(), Stop>
    requires runs { CanRun B.Bank bank.old frame.now }
    requires low { 1 ≤ length from.now }
    requires high { length from.now ≤ 255 }
    requires range { at + length from.now ≤ length frame.now.frame.fixed }
    ensures items { Commits B.Bank (scene bank.old bank.new frame.now frame.now [] [])
        (model.static_written false (frame_on_bank B.Bank bank.old frame.now) [] at from.now) result }
    ensures done { OnOk result (EffectDone B.Bank (scene bank.old bank.new frame.now frame.now [] [])
        (model.static_written false (frame_on_bank B.Bank bank.old frame.now) [] at from.now)) }
{
    let mut words = Pending::new();
    put_bytes(bank, frame.slot, frame.fixed_len, &mut words, at, from);
    bank.commit(frame.slot, words.list())
}

// The one word of the static segment that bytes lie in, with them.
fn word_with<B: Bank>(bank: &B, slot: Slot, len: u16, at: u16, from: &[u8]) -> Word
    requires going { (B.state bank.now).stopped ≡ false }
    requires there { IsSome (B.named bank.now slot) }
    requires len { len ≡ length (app_of (B.state bank.now).apps (B.named bank.now slot)).fixed }
    requires low { 1 ≤ length from.now }
    requires range { at + length from.now ≤ len }
    requires one { at % 8 + length from.now ≤ 8 }
    ensures { PutsBytes (app_of (B.state bank.now).apps (B.named bank.now slot)).fixed [] at from.now
        ((at / 8, result) ∷ []) }
{
    let mut word = fresh_word(bank, slot, len, at / 8);
    write(&mut word, (at % 8) as usize, from);
    word
}

/// Keeps static bytes as pending words.
///
/// # Errors
///
/// Returns abend 08, and changes nothing, if more than 64 words would be pending.
pub fn keep_static<B: Bank>(bank: &B, frame: &mut Frame, at: u16, from: &[u8]) -> Result<(), Abend>
    requires runs { CanRun B.Bank bank.now frame.old }
    requires low { 1 ≤ length from.now }
    requires high { length from.now ≤ 255 }
    requires range { at + length from.now ≤ length frame.old.frame.fixed }
    ensures abend { IfDue result (model.passes_limit true
        (frame_on_bank B.Bank bank.now frame.old)
        (Some (model.Static at)) (length from.now)) Abend.A08 }
    ensures kept { OnOk result (EffectDone B.Bank (scene bank.now bank.now frame.old frame.new [] [])
        (model.static_written true (frame_on_bank B.Bank bank.now frame.old) [] at from.now)) }
    ensures unchanged { OnErr result (frame.new ≡ frame.old) }
{
    let count = (at % 8 + from.len() as u16 - 1) / 8 + 1;
    let more = missing(&frame.pending, at / 8, count);
    if frame.pending.list().len() + more as usize > 64 {
        return Err(Abend::A08);
    }
    put_bytes(
        bank,
        frame.slot,
        frame.fixed_len,
        &mut frame.pending,
        at,
        from,
    );
    Ok(())
}

// The number of words in `first..first + count` that are not pending.
fn missing(pending: &Pending, first: u16, count: u16) -> u16
    requires { first + count < 65536 }
    ensures value { result ≡ not_pending first count pending.now }
    ensures bound { result ≤ count }
{
    let mut missing = 0;
    for number in first..first + count {
        if pending.get(number).is_none() {
            missing += 1;
        }
    }
    missing
}

// Puts bytes into the pending words of the static segment of `len` bytes, word by word; a word that is not
// yet pending begins with the bank's bytes.
fn put_bytes<B: Bank>(bank: &B, slot: Slot, len: u16, words: &mut Pending, at: u16, from: &[u8])
    requires going { (B.state bank.now).stopped ≡ false }
    requires there { IsSome (B.named bank.now slot) }
    requires len { len ≡ length (app_of (B.state bank.now).apps (B.named bank.now slot)).fixed }
    requires low { 1 ≤ length from.now }
    requires high { length from.now ≤ 255 }
    requires range { at + length from.now ≤ len }
    requires pending { ArePendingIn len words.old }
    requires room { length words.old + not_pending (at / 8) (words_under at (length from.now)) words.old ≤ 64 }
    ensures { PutsBytes (app_of (B.state bank.now).apps (B.named bank.now slot)).fixed words.old at from.now words.new }
{
    let begin = at as usize;
    let end = begin + from.len();
    for number in begin / 8..(end - 1) / 8 + 1 {
        let low = begin.max(8 * number);
        let high = end.min(8 * number + 8);
        let piece = &from[low - begin..high - begin];
        put_piece(
            bank,
            slot,
            len,
            words,
            number as u16,
            low - 8 * number,
            piece,
        );
    }
}

// Puts bytes into one word of the static segment.
fn put_piece<B: Bank>(
    bank: &B,
    slot: Slot,
    len: u16,
    words: &mut Pending,
    number: u16,
    at: usize,
    piece: &[u8],
)
    requires going { (B.state bank.now).stopped ≡ false }
    requires there { IsSome (B.named bank.now slot) }
    requires len { len ≡ length (app_of (B.state bank.now).apps (B.named bank.now slot)).fixed }
    requires range { 8 * number < len }
    requires place { at + length piece.now ≤ 8 }
    requires room { pending_at words.old number ≡ None → length words.old < 64 }
    ensures { PutsPiece (app_of (B.state bank.now).apps (B.named bank.now slot)).fixed words.old number at piece.now
        words.new }
{
    if piece.len() == 8 {
        // Nothing of the old word is left, so the compiler drops the read.
        let mut word = word_of(bank, slot, len, words, number);
        write(&mut word, 0, piece);
        put(words, number, word);
        return;
    }
    let mut word = word_of(bank, slot, len, words, number);
    write(&mut word, at, piece);
    put(words, number, word);
}

// Makes a word pending; there is room for it.
fn put(words: &mut Pending, number: u16, word: Word)
    requires { pending_at words.old number ≡ None → length words.old < 64 }
    ensures { words.new ≡ put_word number word words.old }
{
    let _ = words.put(number, word);
}

// A word of the static segment: the pending one, or else the bank's bytes with zeros after the segment's end.
fn word_of<B: Bank>(bank: &B, slot: Slot, len: u16, words: &Pending, number: u16) -> Word
    requires going { (B.state bank.now).stopped ≡ false }
    requires there { IsSome (B.named bank.now slot) }
    requires len { len ≡ length (app_of (B.state bank.now).apps (B.named bank.now slot)).fixed }
    requires range { 8 * number < len }
    ensures { IsWordOf (app_of (B.state bank.now).apps (B.named bank.now slot)).fixed words.now number result }
{
    match words.get(number) {
        Some(word) => word,
        None => fresh_word(bank, slot, len, number),
    }
}

// A word of the static segment as the bank has it, with zeros after the segment's end.
fn fresh_word<B: Bank>(bank: &B, slot: Slot, len: u16, number: u16) -> Word
    requires going { (B.state bank.now).stopped ≡ false }
    requires there { IsSome (B.named bank.now slot) }
    requires len { len ≡ length (app_of (B.state bank.now).apps (B.named bank.now slot)).fixed }
    requires range { 8 * number < len }
    ensures eight { length result ≡ 8 }
    ensures bytes { (k : ℕ) → k < 8 → 8 * number + k < len
        → slice_index result k
        ≡ slice_index (app_of (B.state bank.now).apps (B.named bank.now slot)).fixed (8 * number + k) }
{
    let mut word = [0; 8];
    let count = (len - 8 * number).min(8) as usize;
    bank.fixed(slot, 8 * number, &mut word[..count]);
    word
}
