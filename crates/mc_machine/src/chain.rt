// A chain of frames: its beginning, its end, and what one frame reads of the others.
ghost use Rattle.std.specs.Prelude.{◌≡◌, ◌≤◌, length, false, IsSome};
ghost use Rattle.law_machine.specs.model_machine.specs.Chain.{start};
ghost use Rattle.mc_apdu.specs.Command.{parts_of};
ghost use Rattle.mc_bank.specs.Bank.{app_of, name_or};
ghost use Rattle.mc_machine.specs.Chains.{FrameReadsAs, RunsAs, first_of, session_in};

use crate::waiting::Waiting;
use mc_apdu::Apdu;
use mc_bank::{Bank, Slot};
use mc_segs::{Frame, Public, Session};
use std::marker::Model;

/// A command to an application that runs: the running frame and those that wait for it, the public segment, and what is
/// left of the budget.
#[derive(Debug, Drop)]
pub struct Chain {
    pub(crate) running: Frame,
    pub(crate) waiting: Waiting,
    pub(crate) public: Public,
    pub(crate) case: u8,
    pub(crate) le: u16,
    pub(crate) left: u32,
}

impl Model for Chain {
    ghost use Rattle.std.specs.Prelude.{◌≤◌};
    ghost use Rattle.mc_machine.specs.Chains.{Chained};

    ghost Value = { Chained };

    ghost view = { λ c. record {
      running = c.running;
      below = c.waiting;
      public = c.public;
      case = c.case;
      le = c.le;
      left = c.left;
    } };

    ghost invariant = { λ c. c.left ≤ 65536 };
}

/// Returns the chain of a command to the application of slot `first`, with the session bytes of its
/// selection, before its first turn. The budget is 1 to 65,536 instructions, and the command has at most
/// 1,024 bytes of data.
pub fn begin<B: Bank>(bank: &B, first: Slot, session: &Session, apdu: &Apdu, budget: u32) -> Chain
    requires going { (B.state bank.now).stopped ≡ false }
    requires there { IsSome (B.named bank.now first) }
    requires session { length session.now ≡ (app_of (B.state bank.now).apps (B.named bank.now first)).session }
    requires some { 1 ≤ budget }
    requires budget { budget ≤ 65536 }
    requires data { length apdu.now.body.now ≤ 1024 }
    ensures runs { RunsAs (B.state bank.now) (B.named bank.now) result
        (start (B.state bank.now).apps (name_or (B.named bank.now first)) session.now (parts_of apdu.now)) }
    ensures left { result.left ≡ budget }
{
    Chain {
        running: first_frame(bank, first, session),
        waiting: Waiting::new(),
        public: Public::new(apdu),
        case: apdu.case(),
        le: apdu.le.unwrap_or(0),
        left: budget,
    }
}

/// Returns the frame of the application of slot `first`, with the session bytes of its selection, before its
/// first turn.
pub fn first_frame<B: Bank>(bank: &B, first: Slot, session: &Session) -> Frame
    requires going { (B.state bank.now).stopped ≡ false }
    requires there { IsSome (B.named bank.now first) }
    requires session { length session.now ≡ (app_of (B.state bank.now).apps (B.named bank.now first)).session }
    ensures { FrameReadsAs (B.state bank.now) (B.named bank.now) result
        (first_of (B.state bank.now).apps (name_or (B.named bank.now first)) session.now) }
{
    Frame::new(first, &bank.facts(first), session)
}

impl Chain {
    /// Makes this chain the one that `begin` returns, in place to avoid moving it.
    pub(crate) fn begin_again<B: Bank>(
        &mut self,
        bank: &B,
        first: Slot,
        session: &Session,
        apdu: &Apdu,
        budget: u32,
    )
        requires going { (B.state bank.now).stopped ≡ false }
        requires there { IsSome (B.named bank.now first) }
        requires session { length session.now ≡ (app_of (B.state bank.now).apps (B.named bank.now first)).session }
        requires some { 1 ≤ budget }
        requires budget { budget ≤ 65536 }
        requires data { length apdu.now.body.now ≤ 1024 }
        ensures runs { RunsAs (B.state bank.now) (B.named bank.now) self.new
            (start (B.state bank.now).apps (name_or (B.named bank.now first)) session.now (parts_of apdu.now)) }
        ensures left { self.new.left ≡ budget }
    {
        self.running = first_frame(bank, first, session);
        self.waiting.clear();
        self.public = Public::new(apdu);
        self.case = apdu.case();
        self.le = apdu.le.unwrap_or(0);
        self.left = budget;
    }

    /// Writes the present session bytes of the first frame to `session`.
    pub(crate) fn keep_session(&self, session: &mut Session)
        ensures { session.new ≡ session_in self.now }
    {
        match &self.waiting.first {
            Some(first) => first.keep_session(session),
            None => self.running.keep_session(session),
        }
    }

    /// Returns the present session bytes of the first frame.
    pub fn session(&self) -> Session
        ensures { result ≡ session_in self.now }
    {
        match &self.waiting.first {
            Some(first) => first.session(),
            None => self.running.session(),
        }
    }

    /// Returns the running frame.
    pub fn running(&self) -> &Frame
        ensures { result.now ≡ self.now.running }
    {
        &self.running
    }

    /// Returns the public segment.
    pub fn public(&self) -> &Public
        ensures { result.now ≡ self.now.public }
    {
        &self.public
    }
}
