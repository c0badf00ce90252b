// A place for the chain of a command that is run turn by turn.
ghost use Rattle.std.specs.Prelude.{◌≡◌, ◌≤◌, ℕ, false, None, IsSome, IfOk, IfSome, length, option_map};
ghost use Rattle.law_machine.specs.model_machine.specs.Chain.{start};
ghost use Rattle.law_machine.specs.model_machine.specs.Code.{Shaped};
ghost use Rattle.mc_apdu.specs.Command.{parts_of};
ghost use Rattle.mc_bank.specs.Bank.{app_of, name_or};
ghost use Rattle.mc_machine.specs.Chains.{FitsChain, session_in};
ghost use Rattle.mc_machine.specs.Places.{Runs, IsBegun, TurnsTo};
ghost use Rattle.mc_machine.specs.Turns.{brief_result, AgreesWithEnd};

use crate::chain::{Chain, begin};
use crate::outcome::{BriefTurn, Outcome};
use crate::turning::brief_turn;
use mc_apdu::Apdu;
use mc_bank::{Bank, Slot};
use mc_segs::Session;
use mc_words::{Steps, Stop};
use std::marker::Model;
use std::sync::ledger::Ledger;

/// A place for the chain of a command that is run turn by turn. It keeps the bytes of the last chain, over which the
/// next one is begun: a chain has room for four frames, and moving it takes longer than a short command.
#[derive(Debug, Drop)]
pub struct ChainPlace {
    chain: Option<Chain>,
    is_running: bool,
}

impl Model for ChainPlace {
    ghost use Rattle.std.specs.Prelude.{Option};
    ghost use Rattle.mc_machine.specs.Chains.{Chained};
    ghost use Rattle.mc_machine.specs.Places.{chain_if_running};

    ghost Value = { Option Chained };

    ghost view = { λ p. chain_if_running p.is_running p.chain };
}

impl ChainPlace {
    /// Returns a place in which no chain runs.
    pub fn new() -> ChainPlace
        ensures { result ≡ None }
    {
        ChainPlace {
            chain: None,
            is_running: false,
        }
    }

    /// Returns the chain that runs, or `None` if none runs.
    pub fn running(&self) -> Option<&Chain>
        ensures { option_map (λ c. c.now) result ≡ self.now }
    {
        if self.is_running {
            self.chain.as_ref()
        } else {
            None
        }
    }

    /// Begins the chain of a command to the application of slot `first`, with the session bytes of its selection. The
    /// budget is 1 to 65,536 instructions, and the command has at most 1,024 bytes of data. A chain that ran before is
    /// lost.
    pub fn begin<B: Bank>(
        &mut self,
        bank: &B,
        first: Slot,
        session: &Session,
        apdu: &Apdu,
        budget: u32,
    )
        requires going { (B.state bank.now).stopped ≡ false }
        requires there { IsSome (B.named bank.now first) }
        requires session { length session.now ≡ (app_of (B.state bank.now).apps (B.named bank.now first)).session }
        requires some { 1 ≤ budget }
        requires budget { budget ≤ 65536 }
        requires data { length apdu.now.body.now ≤ 1024 }
        ensures { Runs self.new (IsBegun (B.state bank.now) (B.named bank.now)
            (start (B.state bank.now).apps (name_or (B.named bank.now first)) session.now (parts_of apdu.now)) budget) }
    {
        put_begun(&mut self.chain, bank, first, session, apdu, budget);
        self.is_running = true;
    }

    /// Runs one turn of the chain that runs, as `brief_turn` does, and writes the outcome of its end, if it has one, to
    /// `into`. The chain runs on, also after its last turn.
    ///
    /// # Errors
    ///
    /// Returns the `Stop` of the bank in the turn's change.
    pub fn turn_into<B: Bank, L: Ledger>(
        &mut self,
        bank: &mut B,
        into: &mut Outcome,
        steps: &mut Steps<L>,
    ) -> Result<BriefTurn, Stop>
        requires going { (B.state bank.old).stopped ≡ false }
        requires fits { Runs self.old (FitsChain B.Bank bank.old) }
        ensures done { Runs self.old (λ c. Runs self.new
            (TurnsTo B.Bank bank.old bank.new (brief_result result into.new) steps.old steps.new c)) }
        ensures agrees { IfOk result (λ turn. AgreesWithEnd turn.end into.new) }
        ensures shaped { IfOk result (λ turn. IfSome turn.ins Shaped) }
        ensures low { IfOk result (λ turn. 1 ≤ turn.depth) }
        ensures high { IfOk result (λ turn. turn.depth ≤ 4) }
    {
        let chain = self.chain.as_mut().unwrap();
        let turn = brief_turn(bank, chain, steps)?;
        chain.put_end_of(turn.end, into);
        Ok(turn)
    }

    /// Ends the chain that runs, and writes the session bytes of its first frame to `session`.
    pub fn end(&mut self, session: &mut Session)
        requires { IsSome self.old }
        ensures idle { self.new ≡ None }
        ensures session { Runs self.old (λ c. session.new ≡ session_in c) }
    {
        self.chain.as_ref().unwrap().keep_session(session);
        self.is_running = false;
    }

    /// Ends the chain that runs, if one runs.
    pub fn clear(&mut self)
        ensures { self.new ≡ None }
    {
        self.is_running = false;
    }
}

// Begins a chain, over the bytes of an earlier one if there is one.
fn put_begun<B: Bank>(
    place: &mut Option<Chain>,
    bank: &B,
    first: Slot,
    session: &Session,
    apdu: &Apdu,
    budget: u32,
)
    requires going { (B.state bank.now).stopped ≡ false }
    requires there { IsSome (B.named bank.now first) }
    requires session { length session.now ≡ (app_of (B.state bank.now).apps (B.named bank.now first)).session }
    requires some { 1 ≤ budget }
    requires budget { budget ≤ 65536 }
    requires data { length apdu.now.body.now ≤ 1024 }
    ensures { Runs place.new (IsBegun (B.state bank.now) (B.named bank.now)
        (start (B.state bank.now).apps (name_or (B.named bank.now first)) session.now (parts_of apdu.now)) budget) }
{
    match place {
        Some(chain) => chain.begin_again(bank, first, session, apdu, budget),
        None => put_first(place, bank, first, session, apdu, budget),
    }
}

// Begins the first chain of a place. It is a call of its own because a chain is large and its place is cleared where it
// is made.
#[cold]
#[inline(never)]
fn put_first<B: Bank>(
    place: &mut Option<Chain>,
    bank: &B,
    first: Slot,
    session: &Session,
    apdu: &Apdu,
    budget: u32,
)
    requires going { (B.state bank.now).stopped ≡ false }
    requires there { IsSome (B.named bank.now first) }
    requires session { length session.now ≡ (app_of (B.state bank.now).apps (B.named bank.now first)).session }
    requires some { 1 ≤ budget }
    requires budget { budget ≤ 65536 }
    requires data { length apdu.now.body.now ≤ 1024 }
    ensures { Runs place.new (IsBegun (B.state bank.now) (B.named bank.now)
        (start (B.state bank.now).apps (name_or (B.named bank.now first)) session.now (parts_of apdu.now)) budget) }
{
    *place = Some(begin(bank, first, session, apdu, budget));
}
