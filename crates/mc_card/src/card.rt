ghost use Rattle.std.specs.Prelude.{◌≡◌, ◌+◌, ◌-◌, ◌≤◌, ℕ, true, length, take, drop, option_map, Ok, Some, None, IsSome, IfSome, IfOk, OnOk};
ghost use Rattle.mc_words.specs.model_device.specs.Bytes.{lookup};
ghost use Rattle.mc_words.specs.model_device.specs.Orders.{answer_of};
ghost use Rattle.mc_words.specs.model_device.specs.Device.{Makes, Ended, IsSized};
ghost use Rattle.mc_apdu.specs.model_machine.specs.Chain.{Chain as ModelChain, turn_of};
ghost use Rattle.mc_bank.specs.model_card.specs.Manager.{empty_session_state, route};
ghost use Rattle.mc_apdu.specs.model_machine.specs.Code.{Shaped};
ghost use Rattle.mc_bank.specs.model_card.specs.Commands.{status};
ghost use Rattle.mc_bank.specs.Bank.{app_of};
ghost use Rattle.mc_machine.specs.declared.outcome.Outcome.TheVariants as outcome;
ghost use Rattle.mc_machine.specs.Turns.{brief_result, outcome_value, run_outcome, reply_or_stop};
ghost use Rattle.mc_machine.specs.Turns.{AgreesWithEnd, IsReply, WritesFew};
ghost use Rattle.mc_store.specs.Power.{power_writes, power_answer, PowersUp};
ghost use Rattle.mc_card.specs.Parts.{device_in, card_in, session_state_in, due, IsUp, IsReadyCard, RunsChain, IsRunning};
ghost use Rattle.mc_card.specs.Ends.{power_up_end, restart_end, device_after, Commanded, Begun, ChainTurned, RouteSteps};
ghost use Rattle.mc_card.specs.Ends.{BeginSteps, most_weight};
ghost use Rattle.mc_card.specs.ItemWrites.{ItemsMade, MadeWithin};

use arrayvec::ArrayVec;
use mc_apdu::{Reply, parse};
use mc_bank::Bank;
use mc_machine::{BriefTurn, ChainPlace, End, Outcome, Turn, run_into};
use mc_manager::Manager;
use mc_nvm::Nvm;
use mc_segs::Session;
use mc_store::{Store, Up};
use mc_words::{Aid, Steps, Stop};
use std::sync::ledger::Ledger;

/// A card that runs: its applications in the words of a device, the manager with the selection and the open load, the
/// session bytes of the selected application, and the chain of a command that is run turn by turn.
#[derive(Drop)]
pub struct Card<N: Nvm> {
    pub(crate) store: Store<N>,
    pub(crate) manager: Manager,
    pub(crate) session: Session,
    pub(crate) chain: ChainPlace,
}

impl<N: Nvm> Card<N> {
    /// Returns the card in `dev`, whose power is on, and the number of device writes that recovery and migration made
    /// (at most 71). Nothing is selected and no load is open.
    ///
    /// It is `restart` of a card that is `asleep` over `dev`.
    ///
    /// # Errors
    ///
    /// Returns the device with `Up::Stop` if it cut or refused a write, and with `Up::Unusable`, the first fault and
    /// its place, if the words are no card.
    pub fn power_up(dev: N) -> Result<(Card<N>, u16), (N, Up)>
        requires power { (N.state dev).on ≡ true }
        // Up to the first one that stops it makes the writes that recovery still has to make and then those of the
        // migration.
        ensures makes { Makes N.wrote dev (power_writes (N.state dev).words) (power_answer (power_up_end result))
            (device_after result) }
        // The applications are those that the words mean before the power-up; after a fault or a stop the
        // words are what the rule of stops allows.
        ensures ends { PowersUp (N.state dev) (power_up_end result) (N.state (device_after result)) }
        // The card runs, and no command does.
        ensures ready { IfOk result (λ p. IsReadyCard N.state p.0) }
        // Nothing is selected, and no load is open.
        ensures session_state { IfOk result (λ p. session_state_in N.state p.0 ≡ empty_session_state) }
        // The device is the one that came in.
        ensures keeps_device { N.same dev (device_after result) }
    {
        let mut card = Card::asleep(dev);
        match card.restart() {
            Ok(writes) => Ok((card, writes)),
            Err(up) => Err((card.into_dev(), up)),
        }
    }

    /// Returns a card over a device whose words have not been read yet. Until a `restart` succeeds only
    /// `into_dev` and `restart` may be called.
    pub fn asleep(dev: N) -> Card<N>
        ensures { device_in result ≡ dev }
    {
        Card {
            store: Store::asleep(dev),
            manager: Manager::new(),
            session: Session::new(0),
            chain: ChainPlace::new(),
        }
    }

    /// Looks for the card in its device, whose power was turned on, and returns the number of device writes that
    /// recovery and migration made (at most 71). Nothing is selected and no load is open then, and no command runs.
    ///
    /// # Errors
    ///
    /// Returns `Up::Stop` if the device cut or refused a write, and `Up::Unusable`, the first fault and its place, if
    /// the words are no card. After either only `into_dev` and `restart` may be called.
    pub fn restart(&mut self) -> Result<u16, Up>
        requires power { (N.state (device_in self.old)).on ≡ true }
        // Up to the first one that stops it makes the writes that recovery still has to make and then those of the
        // migration.
        ensures makes { Makes N.wrote (device_in self.old) (power_writes (N.state (device_in self.old)).words)
            (power_answer (restart_end self.new result)) (device_in self.new) }
        // The applications are those that the words mean before the power-up; after a fault or a stop the
        // words are what the rule of stops allows.
        ensures ends { PowersUp (N.state (device_in self.old)) (restart_end self.new result)
            (N.state (device_in self.new)) }
        // The card runs, and no command does.
        ensures ready { IfOk result (λ n. IsReadyCard N.state self.new) }
        // Nothing is selected, and no load is open.
        ensures session_state { IfOk result (λ n. session_state_in N.state self.new ≡ empty_session_state) }
        // The device is the same one.
        ensures keeps_device { N.same (device_in self.old) (device_in self.new) }
    {
        let writes = self.store.restart()?;
        self.manager = Manager::new();
        self.session = Session::new(0);
        self.chain.clear();
        Ok(writes)
    }

    /// Runs one command, `bytes` as they come (ISO/IEC 7816-4), and returns its outcome: a reply, or the abend of the
    /// application that ran it. `budget` is 1 to 65,536 instructions for that application. A command of a wrong length
    /// is answered 6700.
    ///
    /// It is `command_into` with an outcome of its own.
    ///
    /// # Errors
    ///
    /// Returns the `Stop` of the device. After a `Stop` only `into_dev` and `restart` may be called.
    pub fn command<L: Ledger>(
        &mut self,
        bytes: &[u8],
        budget: u32,
        steps: &mut Steps<L>,
    ) -> Result<Outcome, Stop>
        requires ready { IsReadyCard N.state self.old }
        requires some { 1 ≤ budget }
        requires budget { budget ≤ 65536 }
        // Its device writes are those of its items in order; wherever one stops, the words are the card after
        // the items that are complete then, and without a stop after all of them.
        ensures made { ItemsMade N.state N.wrote (card_in N.state self.old)
            (due N.state self.old bytes.now budget).items (device_in self.old) (answer_of result)
            (device_in self.new) }
        // The outcome is that of its row.
        ensures outcome { IfOk result (λ o. outcome_value o ≡ (due N.state self.old bytes.now budget).outcome) }
        // The session state after it is that of its row.
        ensures session_state { OnOk result (session_state_in N.state self.new
            ≡ (due N.state self.old bytes.now budget).session_state) }
        // The card is ready for the next command.
        ensures on { OnOk result (IsReadyCard N.state self.new) }
        // Each instruction of an application is one step, and of the other commands OPEN alone makes any.
        ensures steps { RouteSteps (card_in N.state self.old) (session_state_in N.state self.old).selected budget
            (route bytes.now) (answer_of result) steps.old steps.new }
        // Each item that was begun makes at most 147 device writes if an application runs, and 84 if the manager
        // answers.
        ensures few { IsSized (N.state (device_in self.old)).words → MadeWithin N.wrote (most_weight (route bytes.now))
            (due N.state self.old bytes.now budget).items (device_in self.old) (answer_of result)
            (device_in self.new) }
        // A stop comes only if the device's count of cuts or faults rose.
        ensures ended { Ended (answer_of result) (N.state (device_in self.old)) (N.state (device_in self.new)) }
        // The device is the same one.
        ensures keeps_device { N.same (device_in self.old) (device_in self.new) }
    {
        let mut outcome = Outcome::done();
        self.command_into(bytes, budget, &mut outcome, steps)?;
        Ok(outcome)
    }

    /// Runs one command, `bytes` as they come (ISO/IEC 7816-4), and writes its outcome to `into`, in place to avoid
    /// copying it: a reply, or the abend of the application that ran it. `budget` is 1 to 65,536 instructions for that
    /// application. A command of a wrong length is answered 6700.
    ///
    /// # Errors
    ///
    /// Returns the `Stop` of the device. The contents of `into` are unspecified then, and only `into_dev` and `restart`
    /// may be called.
    pub fn command_into<L: Ledger>(
        &mut self,
        bytes: &[u8],
        budget: u32,
        into: &mut Outcome,
        steps: &mut Steps<L>,
    ) -> Result<(), Stop>
        requires ready { IsReadyCard N.state self.old }
        requires some { 1 ≤ budget }
        requires budget { budget ≤ 65536 }
        // Its device writes are those of its items in order; wherever one stops, the words are the card after
        // the items that are complete then, and without a stop after all of them.
        ensures made { ItemsMade N.state N.wrote (card_in N.state self.old)
            (due N.state self.old bytes.now budget).items (device_in self.old) (answer_of result)
            (device_in self.new) }
        // The outcome is that of its row.
        ensures outcome { OnOk result (outcome_value into.new ≡ (due N.state self.old bytes.now budget).outcome) }
        // The session state after it is that of its row.
        ensures session_state { OnOk result (session_state_in N.state self.new
            ≡ (due N.state self.old bytes.now budget).session_state) }
        // The card is ready for the next command.
        ensures on { OnOk result (IsReadyCard N.state self.new) }
        // Each instruction of an application is one step, and of the other commands OPEN alone makes any.
        ensures steps { RouteSteps (card_in N.state self.old) (session_state_in N.state self.old).selected budget
            (route bytes.now) (answer_of result) steps.old steps.new }
        // Each item that was begun makes at most 147 device writes if an application runs, and 84 if the manager
        // answers.
        ensures few { IsSized (N.state (device_in self.old)).words → MadeWithin N.wrote (most_weight (route bytes.now))
            (due N.state self.old bytes.now budget).items (device_in self.old) (answer_of result)
            (device_in self.new) }
        // A stop comes only if the device's count of cuts or faults rose.
        ensures ended { Ended (answer_of result) (N.state (device_in self.old)) (N.state (device_in self.new)) }
        // The device is the same one.
        ensures keeps_device { N.same (device_in self.old) (device_in self.new) }
    {
        make_reply(into);
        match self.perform_in(bytes, budget, into, steps)? {
            End::Reply => Ok(()),
            End::Abend(abend) => {
                into.put_abend(abend);
                Ok(())
            }
        }
    }

    // Runs one command. Its reply, if it ends with one, is written to the reply in `into`.
    fn perform_in<L: Ledger>(
        &mut self,
        bytes: &[u8],
        budget: u32,
        into: &mut Outcome,
        steps: &mut Steps<L>,
    ) -> Result<End, Stop>
        requires ready { IsReadyCard N.state self.old }
        requires some { 1 ≤ budget }
        requires budget { budget ≤ 65536 }
        requires place { IsReply into.old }
        ensures done { Commanded N.state N.wrote self.old (due N.state self.old bytes.now budget)
            (run_outcome result into.new) self.new }
        ensures steps { RouteSteps (card_in N.state self.old) (session_state_in N.state self.old).selected budget
            (route bytes.now) (answer_of (run_outcome result into.new)) steps.old steps.new }
        ensures few { IsSized (N.state (device_in self.old)).words → MadeWithin N.wrote (most_weight (route bytes.now))
            (due N.state self.old bytes.now budget).items (device_in self.old) (answer_of (run_outcome result into.new))
            (device_in self.new) }
    {
        match into {
            Outcome::Reply(reply) => self.perform(bytes, budget, reply, steps),
            Outcome::Abend(abend) => Ok(End::Abend(*abend)),
        }
    }

    // Runs one command. Its reply, if it ends with one, is written to `reply`.
    fn perform<L: Ledger>(
        &mut self,
        bytes: &[u8],
        budget: u32,
        reply: &mut Reply,
        steps: &mut Steps<L>,
    ) -> Result<End, Stop>
        requires ready { IsReadyCard N.state self.old }
        requires some { 1 ≤ budget }
        requires budget { budget ≤ 65536 }
        ensures done { Commanded N.state N.wrote self.old (due N.state self.old bytes.now budget)
            (reply_or_stop result reply.new) self.new }
        ensures steps { RouteSteps (card_in N.state self.old) (session_state_in N.state self.old).selected budget
            (route bytes.now) (answer_of (reply_or_stop result reply.new)) steps.old steps.new }
        ensures few { IsSized (N.state (device_in self.old)).words → MadeWithin N.wrote (most_weight (route bytes.now))
            (due N.state self.old bytes.now budget).items (device_in self.old)
            (answer_of (reply_or_stop result reply.new))
            (device_in self.new) }
    {
        let Ok(apdu) = parse(bytes) else {
            wrong_length(reply);
            return Ok(End::Reply);
        };
        match self.direct(&apdu, reply, steps)? {
            None => Ok(End::Reply),
            Some(slot) => run_into(
                &mut self.store,
                slot,
                &mut self.session,
                &apdu,
                budget,
                reply,
                steps,
            ),
        }
    }

    /// Begins a command as `command` does, and returns its outcome, or `None` exactly if it is passed to the
    /// selected application. Then `turn` runs it, and only `turn` may be called until the chain has ended.
    ///
    /// # Errors
    ///
    /// Returns the `Stop` of the device. After a `Stop` only `into_dev` and `restart` may be called.
    pub fn begin<L: Ledger>(
        &mut self,
        bytes: &[u8],
        budget: u32,
        steps: &mut Steps<L>,
    ) -> Result<Option<Outcome>, Stop>
        requires ready { IsReadyCard N.state self.old }
        requires some { 1 ≤ budget }
        requires budget { budget ≤ 65536 }
        ensures done { Begun N.state N.wrote self.old bytes.now budget result self.new }
        ensures steps { BeginSteps (card_in N.state self.old) (route bytes.now) steps.old steps.new }
        ensures ended { Ended (answer_of result) (N.state (device_in self.old)) (N.state (device_in self.new)) }
        ensures keeps_device { N.same (device_in self.old) (device_in self.new) }
    {
        let mut reply = Reply {
            body: ArrayVec::new(),
            sw: 0,
        };
        let Ok(apdu) = parse(bytes) else {
            wrong_length(&mut reply);
            return Ok(Some(Outcome::Reply(reply)));
        };
        match self.direct(&apdu, &mut reply, steps)? {
            None => Ok(Some(Outcome::Reply(reply))),
            Some(slot) => {
                self.chain
                    .begin(&self.store, slot, &self.session, &apdu, budget);
                Ok(None)
            }
        }
    }

    /// Runs the next turn of a command that `begin` passed to the application and that has not ended: one
    /// executed instruction, which is one step, or a fetch that ends it. With the last turn the session bytes
    /// become those of the selection.
    ///
    /// It is `brief_turn` with an outcome of its own.
    ///
    /// # Errors
    ///
    /// Returns the `Stop` of the device. After a `Stop` only `into_dev` and `restart` may be called.
    pub fn turn<L: Ledger>(&mut self, steps: &mut Steps<L>) -> Result<Turn, Stop>
        requires running { IsRunning N.state self.old }
        ensures done { (ch : ModelChain) (left : ℕ) → RunsChain N.state self.old ch left
            → ChainTurned N.state N.wrote self.old ch left (turn_of left ch) result self.new }
        ensures steps { (ch : ModelChain) (left : ℕ) → RunsChain N.state self.old ch left
            → steps.new ≡ steps.old + (turn_of left ch).count }
        ensures shaped { IfOk result (λ turn. IfSome turn.ins Shaped) }
        ensures low { IfOk result (λ turn. 1 ≤ turn.depth) }
        ensures high { IfOk result (λ turn. turn.depth ≤ 4) }
        ensures few { IsSized (N.state (device_in self.old)).words → (ch : ModelChain) (left : ℕ)
            → RunsChain N.state self.old ch left → WritesFew (turn_of left ch) }
        ensures ended { Ended (answer_of result) (N.state (device_in self.old)) (N.state (device_in self.new)) }
        ensures keeps_device { N.same (device_in self.old) (device_in self.new) }
    {
        let mut outcome = Outcome::done();
        let turn = self.brief_turn(&mut outcome, steps)?;
        Ok(turn.with_outcome(outcome))
    }

    /// Runs the next turn as `turn` does, and returns it without the bytes of its reply. With the last turn the outcome
    /// of the command is written to `into`, in place to avoid copying it.
    ///
    /// # Errors
    ///
    /// Returns the `Stop` of the device. After a `Stop` only `into_dev` and `restart` may be called.
    pub fn brief_turn<L: Ledger>(
        &mut self,
        into: &mut Outcome,
        steps: &mut Steps<L>,
    ) -> Result<BriefTurn, Stop>
        requires running { IsRunning N.state self.old }
        ensures done { (ch : ModelChain) (left : ℕ) → RunsChain N.state self.old ch left
            → ChainTurned N.state N.wrote self.old ch left (turn_of left ch) (brief_result result into.new) self.new }
        ensures agrees { IfOk result (λ turn. AgreesWithEnd turn.end into.new) }
        ensures steps { (ch : ModelChain) (left : ℕ) → RunsChain N.state self.old ch left
            → steps.new ≡ steps.old + (turn_of left ch).count }
        ensures shaped { IfOk result (λ turn. IfSome turn.ins Shaped) }
        ensures low { IfOk result (λ turn. 1 ≤ turn.depth) }
        ensures high { IfOk result (λ turn. turn.depth ≤ 4) }
        ensures few { IsSized (N.state (device_in self.old)).words → (ch : ModelChain) (left : ℕ)
            → RunsChain N.state self.old ch left → WritesFew (turn_of left ch) }
        ensures ended { Ended (answer_of result) (N.state (device_in self.old)) (N.state (device_in self.new)) }
        ensures keeps_device { N.same (device_in self.old) (device_in self.new) }
    {
        let reported = self.chain.turn_into(&mut self.store, into, steps)?;
        if reported.end.is_some() {
            self.chain.end(&mut self.session);
        }
        Ok(reported)
    }

    /// Returns the length in bytes of the static segment of an application, or `None` exactly if the name is
    /// not on the card.
    pub fn static_len(&self, aid: &Aid) -> Option<u16>
        requires { IsUp N.state self.now }
        ensures value { result ≡ option_map (λ a. length a.fixed) (lookup (card_in N.state self.now).apps aid.now) }
        ensures most { IfSome result (λ n. n ≤ 4096) }
    {
        let slot = self.store.find(aid)?;
        Some(self.store.facts(slot).sizes.fixed)
    }

    /// Copies static bytes of an application that is on the card to `into`, from `at` on; all of them lie in
    /// its segment.
    pub fn static_of(&self, aid: &Aid, at: u16, into: &mut [u8])
        requires up { IsUp N.state self.now }
        requires there { IsSome (lookup (card_in N.state self.now).apps aid.now) }
        requires range { at + length into.old ≤ length (app_of (card_in N.state self.now).apps (Some aid.now)).fixed }
        ensures { into.new ≡ take (length into.old)
            (drop at (app_of (card_in N.state self.now).apps (Some aid.now)).fixed) }
    {
        if let Some(slot) = self.store.find(aid) {
            self.store.fixed(slot, at, into);
        }
    }

    /// Returns the device, whose words are the card.
    pub fn into_dev(self) -> N
        ensures { result ≡ device_in self }
    {
        self.store.into_dev()
    }
}

// Writes to `reply` the reply to a command of a wrong length (ISO/IEC 7816-4).
fn wrong_length(reply: &mut Reply)
    ensures { outcome_value (outcome.Reply reply.new) ≡ status 0x6700 }
{
    reply.body.clear();
    reply.sw = 0x6700;
}

// Makes an outcome a reply if it is none.
fn make_reply(outcome: &mut Outcome)
    ensures { IsReply outcome.new }
{
    match outcome {
        Outcome::Reply(_) => {}
        Outcome::Abend(_) => outcome.put_done(),
    }
}
