// The commands of a load, one after the other.
ghost use Rattle.std.specs.List.{AllByRecursion};
ghost use Rattle.std.specs.Prelude.{◌≡◌, ◌+◌, ◌++◌, ◌∷◌, [], ◌≤◌, length, is_err, true, false};
ghost use Rattle.model_play.specs.model_device.specs.Limits.{most_code};
ghost use Rattle.model_play.specs.model_device.specs.Bytes.{bytes2};
ghost use Rattle.model_play.specs.model_card.specs.Units.{FitsUnit};
ghost use Rattle.model_play.specs.Play.{is_done, load_commands, section_commands, send};
ghost use Rattle.mc_unit.specs.Parts.{parts_of};
ghost use Rattle.mc_machine.specs.Turns.{outcome_value};
ghost use Rattle.mc_card.specs.Parts.{device_in, card_in, session_state_in, IsReadyCard};
ghost use Rattle.mc_script.specs.Classes.{IsManaged};
ghost use Rattle.mc_script.specs.Runs.{RanAndReported, sent_to};
ghost use Rattle.mc_script.specs.StepCounts.{OnlyFirstOpens, first_search, instructions, StepsOf};
ghost use Rattle.mc_card.specs.Ends.{outcome_or_stop};

use crate::runner::Runner;
use arrayvec::ArrayVec;
use mc_card::Card;
use mc_machine::Outcome;
use mc_nvm::Nvm;
use mc_unit::Unit;
use mc_words::{Steps, Stop, bytes_of};
use std::marker::Model;
use std::sync::ledger::Ledger;

/// The most bytes of a section that one command sends.
const PIECE: usize = 248;

/// The command CREATE.
const CREATE: [u8; 4] = [0xBE, 0x16, 0x00, 0x00];

/// The commands of a load that are still to be sent: OPEN, the pieces of code, data, DIR and FCI, and CREATE.
/// Its view in contracts is their list.
#[derive(Debug, Drop)]
pub struct LoadCommands<'a> {
    open: Option<[u8; 17]>,
    code: Section<'a>,
    data: Section<'a>,
    dir: Section<'a>,
    fci: Section<'a>,
    create: Option<[u8; 4]>,
}

impl<'a> Model for LoadCommands<'a> {
    ghost use Rattle.std.specs.List.{AllByRecursion};
    ghost use Rattle.std.specs.Prelude.{List, ℕ};

    ghost Value = { List (List ℕ) };

    ghost use Rattle.mc_script.specs.Loads.{commands_left};

    ghost view = { commands_left };
}

impl<'a> LoadCommands<'a> {
    /// Returns all commands of a load.
    pub fn new(unit: &Unit<'a>, fixed: u16, session: u16) -> LoadCommands<'a>
        requires { FitsUnit unit.now.code.now unit.now.init.now unit.now.dir.now unit.now.fci.now }
        ensures commands { result ≡ load_commands (parts_of unit.now) fixed session }
        ensures managed { AllByRecursion IsManaged result }
        ensures opens { OnlyFirstOpens result }
    {
        LoadCommands {
            open: Some(open_command(unit, fixed, session)),
            code: Section::new(0x24, unit.code),
            data: Section::new(0x26, unit.init),
            dir: Section::new(0x20, unit.dir),
            fci: Section::new(0x22, unit.fci),
            create: Some(CREATE),
        }
    }

    /// Puts the next command into `into`, and returns whether one was left.
    pub fn next(&mut self, into: &mut ArrayVec<u8, 253>) -> bool
        ensures command { result ≡ true → self.old ≡ into.new.items ∷ self.new }
        ensures none { result ≡ false → self.old ≡ [] }
    {
        if let Some(open) = self.open.take() {
            put_bytes(into, &open);
            return true;
        }
        if self.code.next(into) {
            return true;
        }
        if self.data.next(into) {
            return true;
        }
        if self.dir.next(into) {
            return true;
        }
        if self.fci.next(into) {
            return true;
        }
        if let Some(create) = self.create.take() {
            put_bytes(into, &create);
            return true;
        }
        false
    }
}

// Returns the command OPEN: the lengths of the code, of the static segment, of the data, of the session, of
// DIR and of FCI.
fn open_command(unit: &Unit<'_>, fixed: u16, session: u16) -> [u8; 17]
    requires { FitsUnit unit.now.code.now unit.now.init.now unit.now.dir.now unit.now.fci.now }
    ensures { result ≡ 0xBE ∷ 0x12 ∷ 0x00 ∷ 0x00 ∷ 12
        ∷ (bytes2 (length unit.now.code.now) ++ bytes2 fixed ++ bytes2 (length unit.now.init.now) ++ bytes2 session
        ++ bytes2 (length unit.now.dir.now) ++ bytes2 (length unit.now.fci.now)) }
{
    let [code_high, code_low] = bytes_of(unit.code.len() as u16);
    let [fixed_high, fixed_low] = bytes_of(fixed);
    let [data_high, data_low] = bytes_of(unit.init.len() as u16);
    let [session_high, session_low] = bytes_of(session);
    let [dir_high, dir_low] = bytes_of(unit.dir.len() as u16);
    let [fci_high, fci_low] = bytes_of(unit.fci.len() as u16);
    [
        0xBE,
        0x12,
        0x00,
        0x00,
        12,
        code_high,
        code_low,
        fixed_high,
        fixed_low,
        data_high,
        data_low,
        session_high,
        session_low,
        dir_high,
        dir_low,
        fci_high,
        fci_low,
    ]
}

// Puts a command of fixed bytes into `into`.
fn put_bytes(into: &mut ArrayVec<u8, 253>, bytes: &[u8])
    requires { length bytes.now ≤ 253 }
    ensures { into.new.items ≡ bytes.now }
{
    into.clear();
    into.try_extend_from_slice(bytes).unwrap();
}

// The commands of a section that are still to be sent, each a piece of it with its place.
#[derive(Debug, Drop)]
struct Section<'a> {
    ins: u8,
    at: u16,
    rest: &'a [u8],
}

impl<'a> Model for Section<'a> {
    ghost use Rattle.std.specs.List.{AllByRecursion};
    ghost use Rattle.std.specs.Prelude.{◌+◌, ◌≤◌, length, List, ℕ};
    ghost use Rattle.model_play.specs.model_device.specs.Limits.{most_code};

    ghost Value = { List (List ℕ) };

    ghost use Rattle.mc_script.specs.Loads.{pieces_left};

    ghost view = { pieces_left };

    ghost invariant = { λ s. s.at + length s.rest.now ≤ most_code };
}

impl<'a> Section<'a> {
    // Returns all commands of a section.
    fn new(ins: u8, bytes: &'a [u8]) -> Section<'a>
        requires { length bytes.now ≤ most_code }
        ensures { result ≡ section_commands ins bytes.now }
    {
        Section {
            ins,
            at: 0,
            rest: bytes,
        }
    }

    // Puts the next command into `into`, and returns whether one was left.
    fn next(&mut self, into: &mut ArrayVec<u8, 253>) -> bool
        ensures command { result ≡ true → self.old ≡ into.new.items ∷ self.new }
        ensures none { result ≡ false → self.old ≡ [] }
        ensures stays { result ≡ false → self.new ≡ [] }
    {
        if self.rest.is_empty() {
            return false;
        }
        let (piece, behind) = self.rest.split_at(self.rest.len().min(PIECE));
        put_piece(into, self.ins, self.at, piece);
        self.at += piece.len() as u16;
        self.rest = behind;
        true
    }
}

// Puts the command that sends a piece of a section, at its place, into `into`.
fn put_piece(into: &mut ArrayVec<u8, 253>, ins: u8, at: u16, piece: &[u8])
    requires { length piece.now ≤ 248 }
    ensures { into.new.items ≡ 0xBE ∷ ins ∷ (bytes2 at ++ length piece.now ∷ piece.now) }
{
    into.clear();
    let header = [
        0xBE,
        ins,
        (at / 256 % 256) as u8,
        (at % 256) as u8,
        piece.len() as u8,
    ];
    into.try_extend_from_slice(&header).unwrap();
    into.try_extend_from_slice(piece).unwrap();
}

// Returns whether a command was answered by 9000 alone.
fn is_done(outcome: &Outcome) -> bool
    ensures { result ≡ is_done (outcome_value outcome.now) }
{
    match outcome {
        Outcome::Reply(reply) => reply.body.is_empty() && reply.sw == 0x9000,
        Outcome::Abend(_) => false,
    }
}

/// Sends commands of class BE to a card in turn, up to the first that is not answered by 9000 alone, and
/// writes the last outcome to `into`. None but the first of them is an OPEN.
pub fn send<N: Nvm, R: Runner, L: Ledger>(
    card: &mut Card<N>,
    commands: &mut LoadCommands<'_>,
    budget: u32,
    runner: &mut R,
    into: &mut Outcome,
    steps: &mut Steps<L>,
) -> Result<(), Stop>
    requires ready { IsReadyCard N.state card.old }
    requires some { 1 ≤ budget }
    requires budget { budget ≤ 65536 }
    requires managed { AllByRecursion IsManaged commands.old }
    requires opens { OnlyFirstOpens commands.old }
    ensures done { RanAndReported N.state N.wrote (R.reported (sent_to N.state card.old [] budget)) card.old
        (send (card_in N.state card.old) (session_state_in N.state card.old) budget commands.old)
        (outcome_or_stop result into.new) card.new runner.old runner.new }
    ensures steps { StepsOf
        (instructions (send (card_in N.state card.old) (session_state_in N.state card.old) budget commands.old).turns)
        (first_search (card_in N.state card.old) commands.old) (is_err result) steps.old steps.new }
    ensures keeps_device { N.same (device_in card.old) (device_in card.new) }
{
    let mut bytes = ArrayVec::new();
    while commands.next(&mut bytes) {
        runner.run(card, bytes.as_slice(), budget, into, steps)?;
        if !is_done(into) {
            return Ok(());
        }
    }
    into.put_done();
    Ok(())
}
