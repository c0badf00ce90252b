// What a watcher finds of a card between two turns: the section that runs, its stack, and the place of its operand.
ghost use Rattle.std.specs.Prelude.{◌≡◌, ◌-◌, ◌≤◌, ℕ, true, false, cond, List, [], Some, length, take, bytes_eq, option_map, IsSome, IfSome};
ghost use Rattle.mc_words.specs.model_device.specs.Limits.{most_code};
ghost use Rattle.mc_arith.specs.model_machine.specs.Frame.{dynamic_end, floor, Frame as ModelFrame};
ghost use Rattle.mc_arith.specs.model_machine.specs.Chain.{Chain as ModelChain, Follows};
ghost use Rattle.desk_draft.specs.FullTurns.{running_code, stack_of};
ghost use Rattle.mc_bank.specs.Bank.{app_of, name_or};
ghost use Rattle.mc_segs.specs.HeldFrames.{CanRun};
ghost use Rattle.mc_segs.specs.Places.{lies_in_segment};
ghost use Rattle.mc_card.specs.Parts.{IsRunning, RunsChain};
ghost use Rattle.desk_cover.specs.Sections.{index_of, is_of};
ghost use Rattle.desk_cover.specs.Looking.{IsPlace, IsScene, LiesAfter, Shows, bytes_there, operand_after, place_in, place_pair, section_at, span_in, span_value, stack_after};
ghost use Rattle.desk_cover.specs.Watching.{FrameRuns, IsWatched, code_on, frame_in, name_in};

use crate::sections::{Section, Sections};
use crate::span::{Span, span_of};
use arrayvec::ArrayVec;
use mc_bank::{Bank, Slot};
use mc_card::{Card, Chain};
use mc_isa::decode;
use mc_nvm::Nvm;
use mc_segs::{Frame, Place, look, place_of, resolve};

/// The number of code bytes that are compared at a time.
const PIECE: usize = 256;

/// What is kept of the running frame before a turn: the name of its application, the floor of its stack, the stack,
/// and the place of the operand of its next instruction.
#[derive(Drop)]
pub struct Scene {
    name: ArrayVec<u8, 16>,
    floor: u16,
    stack: ArrayVec<u8, 512>,
    place: Option<(Place, u8)>,
}

/// The bytes of an operand, and the stack, after a turn.
#[derive(Drop)]
pub struct After {
    pub operand: ArrayVec<u8, 255>,
    pub stack: ArrayVec<u8, 512>,
}

// Whether the code of an application is this, which is as long.
fn has_code<B: Bank>(bank: &B, slot: Slot, code: &[u8]) -> bool
    requires going { (B.state bank.now).stopped ≡ false }
    requires there { IsSome (B.named bank.now slot) }
    requires size { length code.now ≡ length (app_of (B.state bank.now).apps (B.named bank.now slot)).code }
    requires most { length code.now ≤ 65535 }
    ensures { result ≡ bytes_eq (app_of (B.state bank.now).apps (B.named bank.now slot)).code code.now }
{
    let mut bytes = [0; PIECE];
    let mut at = 0;
    while at < code.len() {
        let count = (code.len() - at).min(PIECE);
        let piece = &mut bytes[..count];
        bank.code(slot, at as u16, piece);
        if &*piece != &code[at..at + count] {
            return false;
        }
        at += count;
    }
    true
}

// Whether a frame runs a section: its application has the section's name and code.
fn runs<B: Bank>(bank: &B, frame: &Frame, section: &Section<'_>) -> bool
    requires { CanRun B.Bank bank.now frame.now }
    ensures value { result ≡ is_of (name_or (B.named bank.now frame.now.slot))
        (app_of (B.state bank.now).apps (B.named bank.now frame.now.slot)).code section.now }
    ensures short { result ≡ true → length section.now.code ≤ most_code }
{
    let code = section.code();
    let facts = bank.facts(frame.slot());
    if !section.has_name(facts.aid.bytes()) {
        return false;
    }
    if frame.code_len() as usize != code.len() {
        return false;
    }
    has_code(bank, frame.slot(), code)
}

/// Returns the index of the first section that a frame runs, or `None` if it runs none.
pub fn section_of<N: Nvm>(card: &Card<N>, frame: &Frame, sections: &Sections<'_>) -> Option<usize>
    requires { FrameRuns N.state card.now frame.now }
    ensures value { result ≡ index_of 0 sections.now (name_in N.state card.now frame.now)
        (code_on N.state card.now frame.now) }
    ensures short { IfSome (section_at sections.now result) (λ s. length s.code ≤ most_code) }
{
    let all = sections.all();
    for i in 0..all.len() {
        if runs(card.bank(), frame, &all[i]) {
            return Some(i);
        }
    }
    None
}

/// Returns the index of the first section that the running frame of a card runs, or `None` if it runs none.
pub fn running_section<N: Nvm>(card: &Card<N>, sections: &Sections<'_>) -> Option<usize>
    requires { IsRunning N.state card.now }
    ensures value { (ch : ModelChain) (left : ℕ) → RunsChain N.state card.now ch left
        → result ≡ index_of 0 sections.now ch.frame.name (running_code ch) }
    ensures short { IfSome (section_at sections.now result) (λ s. length s.code ≤ most_code) }
{
    match card.chain() {
        Some(chain) => section_of(card, chain.running(), sections),
        None => None,
    }
}

// The place of a span in a frame, if its bytes lie whole in a segment.
fn placed(frame: &Frame, span: Span) -> Option<(Place, u8)>
    requires { 1 ≤ span.tag }
    ensures { option_map place_pair result ≡ place_in frame.now.frame (Some (span_value span)) }
{
    let Ok(at) = resolve(frame, span.tag.min(7), span.off) else {
        return None;
    };
    match place_of(frame, at, span.size as usize) {
        Some(place) => Some((place, span.size)),
        None => None,
    }
}

// The place of the operand of the instruction that a frame runs next in some code.
fn operand_place(frame: &Frame, code: &[u8]) -> Option<(Place, u8)>
    requires { length code.now ≤ most_code }
    ensures { option_map place_pair result ≡ place_in frame.now.frame (span_in frame.now.frame code.now) }
{
    let Ok((ins, _end)) = decode(code, frame.at()) else {
        return None;
    };
    match span_of(&ins) {
        Some(span) => placed(frame, span),
        None => None,
    }
}

// Replaces a stack by that of a frame.
fn put_stack(frame: &Frame, into: &mut ArrayVec<u8, 512>)
    ensures { into.new.items ≡ stack_of frame.now.frame }
{
    let _dt = frame.dt();
    let _floor = frame.floor();
    into.clear();
    into.try_extend_from_slice(frame.stack()).unwrap();
}

/// Returns the name of the application of a slot.
pub fn name_of<B: Bank>(bank: &B, slot: Slot) -> ArrayVec<u8, 16>
    requires going { (B.state bank.now).stopped ≡ false }
    requires there { IsSome (B.named bank.now slot) }
    ensures { result.items ≡ name_or (B.named bank.now slot) }
{
    let mut name = ArrayVec::new();
    name.try_extend_from_slice(bank.facts(slot).aid.bytes())
        .unwrap();
    name
}

// The place of the operand that a frame has next, if its section is known.
fn place_by(frame: &Frame, code: Option<&[u8]>) -> Option<(Place, u8)>
    requires { IfSome code (λ c. length c.now ≤ most_code) }
    ensures { IsPlace result frame.now.frame (option_map (λ c. c.now) code.entry) }
{
    match code {
        Some(code) => operand_place(frame, code),
        None => None,
    }
}

impl Scene {
    /// Returns what is kept before the first turn.
    pub fn blank() -> Scene {
        Scene {
            name: ArrayVec::new(),
            floor: 0,
            stack: ArrayVec::new(),
            place: None,
        }
    }

    // Becomes what is kept of a frame before its next turn.
    fn take_frame(&mut self, frame: &Frame, name: &[u8], code: Option<&[u8]>)
        requires few { length name.now ≤ 16 }
        requires short { IfSome code (λ c. length c.now ≤ most_code) }
        ensures name { self.new.name.items ≡ name.now }
        ensures floor { self.new.floor ≡ floor frame.now.frame }
        ensures stack { self.new.stack.items ≡ stack_of frame.now.frame }
        ensures place { IsPlace self.new.place frame.now.frame (option_map (λ c. c.now) code.entry) }
        ensures high { frame.now.frame.dt ≤ dynamic_end }
    {
        let _dt = frame.dt();
        self.name.clear();
        self.name.try_extend_from_slice(name).unwrap();
        self.floor = frame.floor();
        put_stack(frame, &mut self.stack);
        self.place = place_by(frame, code);
    }

    /// Becomes what is kept of the running frame of a card before its next turn, by the name of its application and the
    /// code of its section, if it is of one. It is written in place to avoid copying it.
    pub fn take<N: Nvm>(&mut self, card: &Card<N>, name: &[u8], code: Option<&[u8]>)
        requires running { IsRunning N.state card.now }
        requires name { (ch : ModelChain) (left : ℕ) → RunsChain N.state card.now ch left → name.now ≡ ch.frame.name }
        requires few { length name.now ≤ 16 }
        requires short { IfSome code (λ c. length c.now ≤ most_code) }
        ensures { (ch : ModelChain) (left : ℕ) → RunsChain N.state card.now ch left
            → IsScene self.new ch.frame (option_map (λ c. c.now) code.entry) }
    {
        match card.chain() {
            Some(chain) => self.take_frame(chain.running(), name, code),
            None => {}
        }
    }
}

// Replaces bytes by those at a place of the running frame.
fn put_bytes<N: Nvm>(
    card: &Card<N>,
    chain: &Chain,
    place: &Option<(Place, u8)>,
    into: &mut ArrayVec<u8, 255>,
)
    requires { FrameRuns N.state card.now chain.now.running }
    ensures { IfSome place.now (λ p. lies_in_segment chain.now.running.frame chain.now.public p.0 p.1 ≡ true)
        → into.new.items ≡ bytes_there (frame_in N.state card.now chain.now.running) chain.now.public
        (option_map place_pair place.now) }
{
    into.clear();
    let Some((place, size)) = place else {
        return;
    };
    let mut bytes = [0; 255];
    let piece = &mut bytes[..*size as usize];
    if look(card.bank(), chain.running(), chain.public(), *place, piece) {
        into.try_extend_from_slice(piece).unwrap();
    }
}

impl After {
    /// Returns what is shown before the first turn.
    pub fn blank() -> After {
        After {
            operand: ArrayVec::new(),
            stack: ArrayVec::new(),
        }
    }

    // Becomes what is left of a frame that runs no more: no operand, and the stack that it had, up to DT.
    fn take_left(&mut self, scene: &Scene, dt: u16)
        ensures operand { self.new.operand.items ≡ [] }
        ensures stack { self.new.stack.items ≡ take (dt - scene.now.floor) scene.now.stack.items }
    {
        let count = dt.saturating_sub(scene.floor) as usize;
        let kept = count.min(scene.stack.len());
        self.operand.clear();
        self.stack.clear();
        self.stack
            .try_extend_from_slice(&scene.stack.as_slice()[..kept])
            .unwrap();
    }

    // Becomes the operand and the stack of the frame that runs.
    fn take_running<N: Nvm>(&mut self, card: &Card<N>, chain: &Chain, scene: &Scene)
        requires { FrameRuns N.state card.now chain.now.running }
        ensures operand { IfSome scene.now.place
            (λ p. lies_in_segment chain.now.running.frame chain.now.public p.0 p.1 ≡ true)
            → self.new.operand.items ≡ bytes_there (frame_in N.state card.now chain.now.running) chain.now.public
            (option_map place_pair scene.now.place) }
        ensures stack { self.new.stack.items ≡ stack_of chain.now.running.frame }
    {
        put_bytes(card, chain, &scene.place, &mut self.operand);
        put_stack(chain.running(), &mut self.stack);
    }

    // Becomes the operand and the stack of the frame that a scene is of, by the frame that runs after a turn.
    fn take_chain<N: Nvm>(&mut self, card: &Card<N>, chain: &Chain, scene: &Scene, dt: u16)
        requires { FrameRuns N.state card.now chain.now.running }
        ensures operand { IfSome scene.now.place
            (λ p. lies_in_segment chain.now.running.frame chain.now.public p.0 p.1 ≡ true)
            → self.new.operand.items ≡ cond (bytes_eq (name_in N.state card.now chain.now.running) scene.now.name.items)
            (bytes_there (frame_in N.state card.now chain.now.running) chain.now.public
            (option_map place_pair scene.now.place)) [] }
        ensures stack { self.new.stack.items
            ≡ cond (bytes_eq (name_in N.state card.now chain.now.running) scene.now.name.items)
            (stack_of chain.now.running.frame) (take (dt - scene.now.floor) scene.now.stack.items) }
    {
        let name = name_of(card.bank(), chain.running().slot());
        if name.as_slice() == scene.name.as_slice() {
            self.take_running(card, chain, scene);
        } else {
            self.take_left(scene, dt);
        }
    }

    /// Becomes the operand's bytes and the stack of a frame after a turn, by what was kept of it before the turn and
    /// by its DT after it. It is written in place to avoid copying it.
    pub fn take<N: Nvm>(&mut self, card: &Card<N>, scene: &Scene, dt: u16)
        requires { IsWatched N.state card.now }
        ensures operand { (f : ModelFrame) (code : List ℕ) (next : Follows) → IsScene scene.now f (Some code)
            → Shows N.state card.now next → LiesAfter (place_in f (span_in f code)) next
            → self.new.operand.items ≡ operand_after f (place_in f (span_in f code)) next }
        ensures stack { (f : ModelFrame) (code : List ℕ) (next : Follows) → IsScene scene.now f (Some code)
            → Shows N.state card.now next → self.new.stack.items ≡ stack_after f dt next }
    {
        match card.chain() {
            Some(chain) => self.take_chain(card, chain, scene, dt),
            None => self.take_left(scene, dt),
        }
    }
}
