ghost use Rattle.std.specs.Prelude.{◌≡◌, ◌+◌, ◌≤◌, ◌==◌, cond, ℕ, List, false, option_map, Ok, None, IfOk, OnOk};
ghost use Rattle.model_card.specs.model_device.specs.Orders.{InOrder, answer_of};
ghost use Rattle.model_card.specs.Manager.{select, open_load, load_part, create, delete, manage};
ghost use Rattle.mc_apdu.specs.Command.{parts_of};
ghost use Rattle.mc_bank.specs.Bank.{Changes};
ghost use Rattle.mc_manager.specs.ManagerState.{BankView, view_of, selected_of, session_state_of, load_of, ManagerFits};
ghost use Rattle.mc_manager.specs.CommandDue.{due, due_application, due_select, due_manager, CommandLeaves, most_ticks};
ghost use Rattle.mc_manager.specs.CommandDue.{items_of, apps_after, NoneStale};
ghost use Rattle.mc_manager.specs.Ends.{CommandEnds};
ghost use Rattle.mc_manager.specs.Ruled.{ruling_with_reply, ruling_or_stop};

use crate::creation::creation;
use crate::deletion::deletion;
use crate::filling::{fill, load_refusal};
use crate::load::Load;
use crate::open::open;
use crate::routed::{Routed, Ruling};
use crate::select::{say_selected, selection};
use crate::selection::Selection;
use crate::status::Status;
use arrayvec::ArrayVec;
use mc_apdu::{Apdu, Reply};
use mc_bank::{Bank, Part};
use mc_words::{Steps, Stop};
use std::marker::Model;
use std::sync::ledger::Ledger;

/// The card manager: the selected application and the open load. The session bytes of the selection are kept by whoever
/// runs the application.
#[derive(Debug, Drop)]
pub struct Manager {
    selected: Option<Selection>,
    load: Option<Load>,
}

impl Model for Manager {
    ghost use Rattle.mc_manager.specs.ManagerState.{ManagerState};

    ghost Value = { ManagerState };

    ghost view = { λ m. record { selected = m.selected; load = m.load } };
}

impl Manager {
    /// Returns a manager that has no selection and no open load. It fits every bank.
    pub fn new() -> Manager
        ensures empty { result ≡ record { selected = None; load = None } }
        ensures fits { (v : BankView) → ManagerFits v result }
    {
        Manager {
            selected: None,
            load: None,
        }
    }

    /// Returns a manager with a selection and a copy of an open load.
    pub fn of(selected: Option<Selection>, load: &Option<Load>) -> Manager
        ensures { result ≡ record { selected = selected; load = load.now } }
    {
        Manager {
            selected,
            load: copied(load),
        }
    }

    /// Returns the selected application, or `None` if none is selected.
    pub fn selected(&self) -> Option<Selection>
        ensures { result ≡ self.now.selected }
    {
        self.selected
    }

    /// Returns the open load, or `None` if none is open.
    pub fn load(&self) -> Option<&Load>
        ensures { option_map (λ load. load.now) result ≡ self.now.load }
    {
        self.load.as_ref()
    }

    /// Runs one command and returns its answer: `Answer` with its reply, `Fresh` with the new selection and its reply,
    /// or `Pass` if the selected application is to run it.
    ///
    /// The class FF is refused; SELECT (00 A4 04 of ISO/IEC 7816-4) and the commands of class BE are the manager's; all
    /// else is for the selected application. Each command is answered by the first refusal of its row, and a refusal
    /// changes nothing.
    ///
    /// It is `rule` with a reply of its own.
    ///
    /// # Errors
    ///
    /// Returns the `Stop` of the bank, which comes only if the number of power cuts or of failed writes rose.
    /// After a `Stop` the manager is not used again.
    pub fn command<B: Bank, L: Ledger>(
        &mut self,
        bank: &mut B,
        apdu: &Apdu,
        steps: &mut Steps<L>,
    ) -> Result<Routed, Stop>
        requires going { (B.state bank.old).stopped ≡ false }
        requires fits { ManagerFits (view_of B.Bank bank.old) self.old }
        // Its items are made on the bank in order, up to the first that stops.
        ensures items { (s : List ℕ) → InOrder B.did bank.old
            (items_of (due (view_of B.Bank bank.old) s self.old (parts_of apdu.now)))
            (answer_of result) bank.new }
        // The applications change as the row of the command has it; after a stop they are the old or the new
        // ones.
        ensures apps { (s : List ℕ) → Changes (B.state bank.old)
            (apps_after (due (view_of B.Bank bank.old) s self.old (parts_of apdu.now))
            (B.state bank.old).apps) (answer_of result) (B.state bank.new) }
        // It is answered as its row has it, or passed to the selected application: the first refusal changes
        // nothing.
        ensures leaves { (s : List ℕ) → IfOk result (λ r. CommandLeaves
            (due (view_of B.Bank bank.old) s self.old (parts_of apdu.now)) s
            (view_of B.Bank bank.old) self.old r
            (view_of B.Bank bank.new) self.new) }
        // The manager fits the bank again.
        ensures fits { OnOk result (ManagerFits (view_of B.Bank bank.new) self.new) }
        // The bank has not stopped.
        ensures going { OnOk result ((B.state bank.new).stopped ≡ false) }
        // An application that is on the card now was there before, or consists of what its own load sent.
        ensures no_stale_byte { NoneStale (load_of (B.site_bytes bank.old) self.old) (B.state bank.old).apps
            (B.state bank.new).apps }
        // The number of steps never falls.
        ensures rises { steps.old ≤ steps.new }
        // OPEN alone makes steps, at most as many as the bank allows.
        ensures ticks { steps.new ≤ steps.old + most_ticks (parts_of apdu.now) (B.state bank.old).ticks }
    {
        let mut reply = Reply {
            body: ArrayVec::new(),
            sw: 0,
        };
        match self.rule(bank, apdu, &mut reply, steps)? {
            Ruling::Answer => Ok(Routed::Answer(reply)),
            Ruling::Fresh(slot) => Ok(Routed::Fresh(slot, reply)),
            Ruling::Pass(slot) => Ok(Routed::Pass(slot)),
        }
    }

    /// Runs one command and returns how it is dealt with: `Answer` or `Fresh`, with the reply written to `reply`, or
    /// `Pass` if the selected application is to run it. The reply is written in place to avoid copying it; its contents
    /// are unspecified after `Pass`.
    ///
    /// The class FF is refused; SELECT (00 A4 04 of ISO/IEC 7816-4) and the commands of class BE are the manager's; all
    /// else is for the selected application. Each command is answered by the first refusal of its row, and a refusal
    /// changes nothing.
    ///
    /// # Errors
    ///
    /// Returns the `Stop` of the bank, which comes only if the number of power cuts or of failed writes rose.
    /// The contents of `reply` are unspecified then, and the manager is not used again.
    pub fn rule<B: Bank, L: Ledger>(
        &mut self,
        bank: &mut B,
        apdu: &Apdu,
        reply: &mut Reply,
        steps: &mut Steps<L>,
    ) -> Result<Ruling, Stop>
        requires going { (B.state bank.old).stopped ≡ false }
        requires fits { ManagerFits (view_of B.Bank bank.old) self.old }
        // Its items are made on the bank in order, up to the first that stops.
        ensures items { (s : List ℕ) → InOrder B.did bank.old
            (items_of (due (view_of B.Bank bank.old) s self.old (parts_of apdu.now)))
            (answer_of result) bank.new }
        // The applications change as the row of the command has it; after a stop they are the old or the new
        // ones.
        ensures apps { (s : List ℕ) → Changes (B.state bank.old)
            (apps_after (due (view_of B.Bank bank.old) s self.old (parts_of apdu.now))
            (B.state bank.old).apps) (answer_of result) (B.state bank.new) }
        // It is answered as its row has it, or passed to the selected application: the first refusal changes
        // nothing.
        ensures leaves { (s : List ℕ) → IfOk result (λ r. CommandLeaves
            (due (view_of B.Bank bank.old) s self.old (parts_of apdu.now)) s
            (view_of B.Bank bank.old) self.old (ruling_with_reply r reply.new)
            (view_of B.Bank bank.new) self.new) }
        // The manager fits the bank again.
        ensures fits { OnOk result (ManagerFits (view_of B.Bank bank.new) self.new) }
        // The bank has not stopped.
        ensures going { OnOk result ((B.state bank.new).stopped ≡ false) }
        // An application that is on the card now was there before, or consists of what its own load sent.
        ensures no_stale_byte { NoneStale (load_of (B.site_bytes bank.old) self.old) (B.state bank.old).apps
            (B.state bank.new).apps }
        // The number of steps never falls.
        ensures rises { steps.old ≤ steps.new }
        // OPEN alone makes steps, at most as many as the bank allows.
        ensures ticks { steps.new ≤ steps.old + most_ticks (parts_of apdu.now) (B.state bank.old).ticks }
    {
        self.route(bank, apdu, reply, steps)
    }

    // Runs a command by its route. It is the body of `rule`, with the relation that its parts ensure.
    #[inline(always)]
    fn route<B: Bank, L: Ledger>(
        &mut self,
        bank: &mut B,
        apdu: &Apdu,
        reply: &mut Reply,
        steps: &mut Steps<L>,
    ) -> Result<Ruling, Stop>
        requires going { (B.state bank.old).stopped ≡ false }
        requires fits { ManagerFits (view_of B.Bank bank.old) self.old }
        ensures ends { CommandEnds B.did (λ s. due (view_of B.Bank bank.old) s self.old
            (parts_of apdu.now)) (view_of B.Bank bank.old) self.old bank.old
            (ruling_or_stop result reply.new) (view_of B.Bank bank.new) self.new bank.new }
        ensures no_stale_byte { NoneStale (load_of (B.site_bytes bank.old) self.old) (B.state bank.old).apps
            (B.state bank.new).apps }
        ensures rises { steps.old ≤ steps.new }
        ensures ticks { steps.new ≤ steps.old + most_ticks (parts_of apdu.now) (B.state bank.old).ticks }
    {
        if apdu.cla == 0xFF {
            Status::NoClass.say(reply);
            return Ok(Ruling::Answer);
        }
        if apdu.cla == 0x00 && apdu.ins == 0xA4 && apdu.p1 == 0x04 {
            return Ok(self.select(bank, apdu, reply));
        }
        if apdu.cla == 0xBE {
            return self.manage(bank, apdu, reply, steps);
        }
        Ok(self.pass(reply))
    }

    // Runs a command of class BE by its INS.
    #[tactic(auto, unfolding(model_card::specs::Manager::manage))]
    fn manage<B: Bank, L: Ledger>(
        &mut self,
        bank: &mut B,
        apdu: &Apdu,
        reply: &mut Reply,
        steps: &mut Steps<L>,
    ) -> Result<Ruling, Stop>
        requires going { (B.state bank.old).stopped ≡ false }
        requires fits { ManagerFits (view_of B.Bank bank.old) self.old }
        ensures ends { CommandEnds B.did (λ s. due_manager
            (manage (B.room bank.old) (B.state bank.old).apps (session_state_of (B.site_bytes bank.old) s self.old)
            (parts_of apdu.now))) (view_of B.Bank bank.old) self.old bank.old
            (ruling_or_stop result reply.new) (view_of B.Bank bank.new) self.new bank.new }
        ensures rises { steps.old ≤ steps.new }
        ensures ticks { steps.new ≤ steps.old + cond (apdu.now.ins == 0x12) (B.state bank.old).ticks 0 }
    {
        match apdu.ins {
            0x12 => Ok(self.open(bank, apdu, reply, steps)),
            0x24 => self.load_part(bank, Part::Code, apdu, reply),
            0x26 => self.load_part(bank, Part::Data, apdu, reply),
            0x20 => self.load_part(bank, Part::Dir, apdu, reply),
            0x22 => self.load_part(bank, Part::Fci, apdu, reply),
            0x16 => self.create(bank, apdu, reply),
            0x18 => self.delete(bank, apdu, reply),
            _ => {
                Status::NoInstruction.say(reply);
                Ok(Ruling::Answer)
            }
        }
    }

    // Passes a command to the selected application.
    fn pass(&self, reply: &mut Reply) -> Ruling
        ensures { (v : BankView) → (s : List ℕ)
            → CommandLeaves (due_application (selected_of s self.now)) s v self.now (ruling_with_reply result reply.new)
            v self.now }
    {
        match &self.selected {
            Some(selection) => Ruling::Pass(selection.slot),
            None => {
                Status::Conditions.say(reply);
                Ruling::Answer
            }
        }
    }

    // SELECT: 00 A4 04.
    fn select<B: Bank>(&mut self, bank: &B, apdu: &Apdu, reply: &mut Reply) -> Ruling
        requires going { (B.state bank.now).stopped ≡ false }
        requires fits { ManagerFits (view_of B.Bank bank.now) self.old }
        ensures { CommandEnds B.did (λ s. due_select
            (select (B.state bank.now).apps (session_state_of (B.site_bytes bank.now) s self.old) (parts_of apdu.now)))
            (view_of B.Bank bank.now) self.old bank.now
            (Ok (ruling_with_reply result reply.new))
            (view_of B.Bank bank.now) self.new bank.now }
    {
        let selection = match selection(bank, apdu) {
            Err(refusal) => {
                refusal.say(reply);
                return Ruling::Answer;
            }
            Ok(selection) => selection,
        };
        let chosen = selection.slot;
        self.selected = Some(selection);
        say_selected(bank, chosen, apdu, reply);
        Ruling::Fresh(chosen)
    }

    // OPEN: BE 12.
    fn open<B: Bank, L: Ledger>(
        &mut self,
        bank: &B,
        apdu: &Apdu,
        reply: &mut Reply,
        steps: &mut Steps<L>,
    ) -> Ruling
        requires going { (B.state bank.now).stopped ≡ false }
        requires fits { ManagerFits (view_of B.Bank bank.now) self.old }
        ensures ends { CommandEnds B.did (λ s. due_manager
            (open_load (B.room bank.now) (B.state bank.now).apps (session_state_of (B.site_bytes bank.now) s self.old)
            (parts_of apdu.now))) (view_of B.Bank bank.now) self.old bank.now
            (Ok (ruling_with_reply result reply.new))
            (view_of B.Bank bank.now) self.new bank.now }
        ensures rises { steps.old ≤ steps.new }
        ensures ticks { steps.new ≤ steps.old + (B.state bank.now).ticks }
    {
        match open(bank, apdu, steps) {
            Err(cause) => {
                cause.say(reply);
                Ruling::Answer
            }
            Ok(load) => {
                self.load = Some(load);
                Status::Done.say(reply);
                Ruling::Answer
            }
        }
    }

    // LOAD CODE, DATA, DIR and FCI: BE 24, 26, 20 and 22.
    fn load_part<B: Bank>(
        &mut self,
        bank: &mut B,
        part: Part,
        apdu: &Apdu,
        reply: &mut Reply,
    ) -> Result<Ruling, Stop>
        requires going { (B.state bank.old).stopped ≡ false }
        requires fits { ManagerFits (view_of B.Bank bank.old) self.old }
        ensures { CommandEnds B.did (λ s. due_manager
            (load_part part (session_state_of (B.site_bytes bank.old) s self.old) (parts_of apdu.now)))
            (view_of B.Bank bank.old) self.old bank.old (ruling_or_stop result reply.new)
            (view_of B.Bank bank.new) self.new bank.new }
    {
        if let Some(refusal) = load_refusal(&self.load, part, apdu) {
            refusal.say(reply);
            return Ok(Ruling::Answer);
        }
        let Some(load) = &mut self.load else {
            Status::Conditions.say(reply);
            return Ok(Ruling::Answer);
        };
        fill(load, bank, part, apdu.body)?;
        Status::Done.say(reply);
        Ok(Ruling::Answer)
    }

    // CREATE: BE 16.
    fn create<B: Bank>(
        &mut self,
        bank: &mut B,
        apdu: &Apdu,
        reply: &mut Reply,
    ) -> Result<Ruling, Stop>
        requires going { (B.state bank.old).stopped ≡ false }
        requires fits { ManagerFits (view_of B.Bank bank.old) self.old }
        ensures { CommandEnds B.did (λ s. due_manager
            (create (B.state bank.old).apps (session_state_of (B.site_bytes bank.old) s self.old) (parts_of apdu.now)))
            (view_of B.Bank bank.old) self.old bank.old (ruling_or_stop result reply.new)
            (view_of B.Bank bank.new) self.new bank.new }
    {
        let aid = match creation(&self.load, bank, apdu) {
            Err(refusal) => {
                refusal.say(reply);
                return Ok(Ruling::Answer);
            }
            Ok(aid) => aid,
        };
        let Some(load) = &self.load else {
            Status::Conditions.say(reply);
            return Ok(Ruling::Answer);
        };
        bank.create(load.site(), &aid)?;
        self.load = None;
        Status::Done.say(reply);
        Ok(Ruling::Answer)
    }

    // DELETE: BE 18.
    fn delete<B: Bank>(
        &mut self,
        bank: &mut B,
        apdu: &Apdu,
        reply: &mut Reply,
    ) -> Result<Ruling, Stop>
        requires going { (B.state bank.old).stopped ≡ false }
        requires fits { ManagerFits (view_of B.Bank bank.old) self.old }
        ensures { CommandEnds B.did (λ s. due_manager
            (delete (B.state bank.old).apps (session_state_of (B.site_bytes bank.old) s self.old) (parts_of apdu.now)))
            (view_of B.Bank bank.old) self.old bank.old (ruling_or_stop result reply.new)
            (view_of B.Bank bank.new) self.new bank.new }
    {
        let slot = match deletion(&self.selected, bank, apdu) {
            Err(refusal) => {
                refusal.say(reply);
                return Ok(Ruling::Answer);
            }
            Ok(slot) => slot,
        };
        bank.delete(slot)?;
        self.load = None;
        Status::Done.say(reply);
        Ok(Ruling::Answer)
    }
}

// Returns a copy of an open load.
fn copied(load: &Option<Load>) -> Option<Load>
    ensures { result ≡ load.now }
{
    match load {
        Some(load) => Some(load.copy()),
        None => None,
    }
}
