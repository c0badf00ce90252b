// What the instructions of a line do to what is counted of an application, recorded.
ghost use Rattle.std.specs.Prelude.{◌≡◌, ◌-◌, ◌≤◌, ◌∷◌, ℕ, List, [], bytes_eq, cond, false, slice_get, true, IfSome, OnOk};
ghost use Rattle.mc_apdu.specs.model_machine.specs.Chain.{Chain};
ghost use Rattle.mc_apdu.specs.model_machine.specs.Code.{Shaped};
ghost use Rattle.mc_card.specs.Parts.{IsRunning, RunsChain};
ghost use Rattle.mc_machine.specs.declared.outcome.Outcome.{Outcome as ModelOutcome};
ghost use Rattle.mc_machine.specs.Turns.{full_turn, turn_value, AgreesWithEnd};
ghost use Rattle.lab_record.specs.Fitting.{amount_of};
ghost use Rattle.law_events.specs.Turns.{mode_in, opens_by};
ghost use Rattle.law_events.specs.law_steps.specs.Registers.{protection_after_mode};
ghost use Rattle.law_events.specs.law_promise.specs.model_events.specs.Amounts.{turn_text};
ghost use Rattle.mc_apdu.specs.model_machine.specs.Chain.{Turn as ModelTurn};
ghost use Rattle.lab_record.specs.Logs.{deed_value, is_spent, log_abend, log_counted, log_done, log_end, log_fitting, log_lines, log_on, log_own, log_settled, no_marks, public_seen, with_deed, Drops, Keeps, Moves, Sight};
ghost use Rattle.lab_record.specs.Recorders.{log_of, log_rules, marks_of, IsSight, LooksAt, Recorded, Stays};

use crate::fitting::{move_sums, number_of};
use crate::subject::Subject;
use crate::turning::{fitting_turn, is_named, mode_of};
use lab_app_rules::{Amount, Effect, Rules};
use lab_branch::push;
use lab_history::{Deed, Happening};
use mc_card::{BriefTurn, Card};
use mc_isa::Ins;
use mc_machine::{End, Outcome};
use mc_nvm::Nvm;
use mc_script::{Runner, Watcher, run_watched};
use mc_segs::Abend;
use mc_words::{Aid, NoMemory, Steps, Stop};
use std::alloc::Global;
use std::sync::ledger::Ledger;

/// Records what the instructions of a line do to what is counted of an application.
#[derive(Drop)]
pub struct Recorder<'a> {
    alloc: Global,
    rules: &'a Rules<'a>,
    aid: &'a Aid,
    /// The public segment before an instruction of the application, if there is a sum.
    public: Vec<u8>,
    /// Whether protection is on in each frame, the first one first.
    opens: [bool; 4],
    /// Whether it was out of memory.
    pub is_short: bool,
    /// The turns that were taken, of all applications: one that abends is among them.
    pub turns: u64,
    /// What those of the application do.
    pub deeds: Vec<Happening>,
}

// Whether the next instruction is one of the application with a name.
fn is_own<N: Nvm>(card: &Card<N>, aid: &Aid) -> bool
    requires { IsRunning N.state card.now }
    ensures { (ch : Chain) (left : ℕ) → RunsChain N.state card.now ch left → result ≡ bytes_eq ch.frame.name aid.now }
{
    match card.chain() {
        Some(chain) => is_named(card.bank(), chain.running(), aid),
        None => false,
    }
}

// The public segment of the command that runs on a card.
fn public_of<N: Nvm>(card: &Card<N>) -> &[u8]
    ensures { (ch : Chain) (left : ℕ) → RunsChain N.state card.now ch left → result.now ≡ ch.public }
{
    match card.chain() {
        Some(chain) => chain.public().bytes(),
        None => &[],
    }
}

// Whether a turn ended since the budget is spent: it has no instruction then.
fn is_spent(ins: &Option<Ins>, abend: Abend) -> bool
    ensures { result ≡ is_spent ins.now abend }
{
    match ins {
        None => abend == Abend::A07,
        Some(_) => false,
    }
}

// Whether protection is on after a mode, if there is one.
fn protection_after(mode: Option<u8>, on: bool) -> bool
    ensures { result ≡ protection_after_mode mode on }
{
    match mode {
        Some(mode) => mode >= 2,
        None => on,
    }
}

impl<'a> Recorder<'a> {
    /// Returns a recorder of a line that is not begun.
    pub fn new(alloc: Global, subject: Subject<'a>) -> Recorder<'a>
        ensures rules { result.rules ≡ subject.entry.rules }
        ensures aid { result.aid ≡ subject.entry.aid }
        ensures marks { marks_of result ≡ no_marks }
    {
        Recorder {
            alloc,
            rules: subject.rules,
            aid: subject.aid,
            public: Vec::new(alloc),
            opens: [false; 4],
            is_short: false,
            turns: 0,
            deeds: Vec::new(alloc),
        }
    }

    // Whether there is a sum.
    fn has_sums(&self) -> bool
        ensures { result ≡ (log_rules self.now.rules.now).sums }
    {
        !self.rules.sums.is_empty()
    }

    // Copies the public segment, if there is a sum.
    fn copy(&mut self, public: &[u8])
        ensures { LooksAt self.old true public.now self.new }
    {
        self.public.clear();
        if self.has_sums() && self.public.extend_from_slice(public).is_err() {
            self.is_short = true;
        }
    }

    // Looks at the public segment before an instruction, if it is one of the application.
    fn look_at(&mut self, own: bool, public: &[u8])
        ensures { LooksAt self.old own public.now self.new }
    {
        if own {
            self.copy(public);
        }
    }

    fn add(&mut self, deed: Deed) -> Result<(), NoMemory>
        ensures stays { Stays self.old self.new }
        ensures log { OnOk result (log_of self.new ≡ with_deed (deed_value deed) (log_of self.old)) }
    {
        let turn = self.turns;
        push(&mut self.deeds, Happening { turn, deed })
    }

    // Records that a sum is moved by the `on` line with a number.
    fn add_sum(&mut self, i: usize, amount: Amount) -> Result<(), NoMemory>
        ensures stays { Stays self.old self.new }
        ensures log { OnOk result (log_of self.new
            ≡ with_deed (Moves i (amount_of amount self.old.public.items)) (log_of self.old)) }
    {
        let number = number_of(self.alloc, amount, self.public.as_slice())?;
        self.add(Deed::Sum(i, number))
    }

    // Records that the `on` line with a number fits an instruction.
    fn add_line(&mut self, i: usize) -> Result<(), NoMemory>
        ensures stays { Stays self.old self.new }
        ensures log { OnOk result (log_of self.new ≡ log_on (slice_get self.old.rules.now.ons.items i) i
            self.old.public.items (log_of self.old)) }
    {
        let Some(on) = self.rules.ons.get(i) else {
            return Ok(());
        };
        match on.effect {
            Effect::Add(amount) => self.add_sum(i, amount),
            Effect::Take(amount) => self.add_sum(i, amount),
            _ => self.add(Deed::On(i)),
        }
    }

    fn add_lines(&mut self, lines: &[usize]) -> Result<(), NoMemory>
        ensures stays { Stays self.old self.new }
        ensures log { OnOk result (log_of self.new
            ≡ log_lines self.old.rules.now.ons.items self.old.public.items lines.now (log_of self.old)) }
    {
        for i in lines {
            self.add_line(*i)?;
        }
        Ok(())
    }

    // Records what becomes of what waits, after an instruction under protection.
    fn settle(&mut self, mode: Option<u8>) -> Result<(), NoMemory>
        ensures stays { Stays self.old self.new }
        ensures log { OnOk result (log_of self.new ≡ log_settled mode (log_of self.old)) }
    {
        match mode {
            None => Ok(()),
            Some(mode) => if mode == 1 || mode == 3 {
                self.add(Deed::Keep)
            } else {
                self.add(Deed::Drop)
            },
        }
    }

    // Records an instruction without protection that is counted with sums: it begins from what is kept, and is kept at
    // once.
    fn add_kept(&mut self, lines: &[usize]) -> Result<(), NoMemory>
        ensures stays { Stays self.old self.new }
        ensures log { OnOk result (log_of self.new ≡ with_deed Keeps (log_lines self.old.rules.now.ons.items
            self.old.public.items lines.now (with_deed Drops (log_of self.old)))) }
    {
        self.add(Deed::Drop)?;
        self.add_lines(lines)?;
        self.add(Deed::Keep)
    }

    // Records an instruction that was done, by whether it was under protection, by the lines that fit it and the mode that
    // it gives the protection.
    fn add_done(&mut self, on: bool, lines: &[usize], mode: Option<u8>) -> Result<(), NoMemory>
        ensures stays { Stays self.old self.new }
        ensures log { OnOk result (log_of self.new
            ≡ log_fitting (log_rules self.old.rules.now) on self.old.public.items lines.now mode (log_of self.old)) }
    {
        if !self.has_sums() {
            return self.add_lines(lines);
        }
        if on {
            self.add_lines(lines)?;
            return self.settle(mode);
        }
        if mode.is_none() && !move_sums(self.rules.ons.as_slice(), lines) {
            return self.add_lines(lines);
        }
        self.add_kept(lines)
    }

    // Records an instruction that was done.
    fn see_done(&mut self, turn: &BriefTurn, on: bool) -> Result<(), NoMemory>
        requires shaped { IfSome turn.now.ins Shaped }
        requires low { 1 ≤ turn.now.depth }
        requires high { turn.now.depth ≤ 4 }
        ensures stays { Stays self.old self.new }
        ensures log { (o : ModelOutcome) (t : ModelTurn) (public : List ℕ) → t ≡ turn_value (full_turn turn.now o) t.wrote
            → self.old.public.items ≡ public_seen (log_rules self.old.rules.now) public → OnOk result (log_of self.new
            ≡ log_done (log_rules self.old.rules.now) on public (turn_text t) (mode_in t.ins) (log_of self.old)) }
    {
        let lines = fitting_turn(self.alloc, self.rules.ons.as_slice(), turn)?;
        self.add_done(on, lines.as_slice(), mode_of(&turn.ins))
    }

    // Records an instruction that abended, or that the budget is spent.
    fn see_abend(&mut self, ins: &Option<Ins>, abend: Abend) -> Result<(), NoMemory>
        ensures stays { Stays self.old self.new }
        ensures log { OnOk result (log_of self.new ≡ cond (is_spent ins.now abend) (log_of self.old)
            (log_abend (log_rules self.old.rules.now) (log_of self.old))) }
    {
        if is_spent(ins, abend) || self.rules.never.is_none() {
            return Ok(());
        }
        self.add(Deed::Abend)
    }

    // Records a turn of the application that was not stopped, by whether it was under protection.
    fn see(&mut self, turn: &BriefTurn, on: bool) -> Result<(), NoMemory>
        requires shaped { IfSome turn.now.ins Shaped }
        requires low { 1 ≤ turn.now.depth }
        requires high { turn.now.depth ≤ 4 }
        ensures stays { Stays self.old self.new }
        ensures log { (o : ModelOutcome) (t : ModelTurn) (public : List ℕ) → AgreesWithEnd turn.now.end o
            → t ≡ turn_value (full_turn turn.now o) t.wrote
            → self.old.public.items ≡ public_seen (log_rules self.old.rules.now) public → OnOk result (log_of self.new
            ≡ log_end (log_rules self.old.rules.now) on public t t.end (log_of self.old)) }
    {
        match &turn.end {
            Some(End::Abend(abend)) => self.see_abend(&turn.ins, *abend),
            Some(End::Reply) => self.see_done(turn, on),
            None => self.see_done(turn, on),
        }
    }

    // Records a turn of the application.
    fn see_own(&mut self, turn: &BriefTurn, on: bool)
        requires shaped { IfSome turn.now.ins Shaped }
        requires low { 1 ≤ turn.now.depth }
        requires high { turn.now.depth ≤ 4 }
        ensures rules { self.new.rules ≡ self.old.rules }
        ensures aid { self.new.aid ≡ self.old.aid }
        ensures opens { self.new.opens ≡ self.old.opens }
        ensures had { self.new.is_short ≡ false → self.old.is_short ≡ false }
        ensures log { (o : ModelOutcome) (t : ModelTurn) (public : List ℕ) → AgreesWithEnd turn.now.end o
            → t ≡ turn_value (full_turn turn.now o) t.wrote
            → self.old.public.items ≡ public_seen (log_rules self.old.rules.now) public → self.new.is_short ≡ false
            → log_of self.new ≡ log_own true (log_rules self.old.rules.now) on public t (log_of self.old) }
    {
        if self.see(turn, on).is_err() {
            self.is_short = true;
        }
    }

    // Records a turn, if it is one of the application.
    fn see_if(&mut self, turn: &BriefTurn, own: bool, on: bool)
        requires shaped { IfSome turn.now.ins Shaped }
        requires low { 1 ≤ turn.now.depth }
        requires high { turn.now.depth ≤ 4 }
        ensures rules { self.new.rules ≡ self.old.rules }
        ensures aid { self.new.aid ≡ self.old.aid }
        ensures opens { self.new.opens ≡ self.old.opens }
        ensures had { self.new.is_short ≡ false → self.old.is_short ≡ false }
        ensures log { (o : ModelOutcome) (t : ModelTurn) (public : List ℕ) → AgreesWithEnd turn.now.end o
            → t ≡ turn_value (full_turn turn.now o) t.wrote
            → (own ≡ true → self.old.is_short ≡ false
            → self.old.public.items ≡ public_seen (log_rules self.old.rules.now) public) → self.new.is_short ≡ false
            → log_of self.new ≡ log_own own (log_rules self.old.rules.now) on public t (log_of self.old) }
    {
        if own {
            self.see_own(turn, on);
        }
    }

    // Sets the protection of the frame that ran a turn; that of a frame that it called is off.
    fn open(&mut self, turn: &BriefTurn)
        requires low { 1 ≤ turn.now.depth }
        requires high { turn.now.depth ≤ 4 }
        ensures rules { self.new.rules ≡ self.old.rules }
        ensures aid { self.new.aid ≡ self.old.aid }
        ensures is_short { self.new.is_short ≡ self.old.is_short }
        ensures log { log_of self.new ≡ log_of self.old }
        ensures opens { self.new.opens ≡ opens_by (turn.now.depth - 1) turn.now.ins self.old.opens }
    {
        let place = turn.depth as usize - 1;
        let on = self.opens[place];
        self.opens[place] = protection_after(mode_of(&turn.ins), on);
        if place < 3 {
            self.opens[place + 1] = false;
        }
    }

    // Counts an instruction.
    fn count(&mut self)
        ensures stays { Stays self.old self.new }
        ensures log { log_of self.new ≡ log_counted (log_of self.old) }
    {
        self.turns = self.turns.saturating_add(1);
    }

    // Records a turn that was not stopped, by whether it is one of the application.
    fn see_turn(&mut self, turn: &BriefTurn, own: bool)
        requires shaped { IfSome turn.now.ins Shaped }
        requires low { 1 ≤ turn.now.depth }
        requires high { turn.now.depth ≤ 4 }
        ensures { (o : ModelOutcome) (x : Sight) → AgreesWithEnd turn.now.end o
            → IsSight self.old (full_turn turn.now o) own x → Recorded self.old (x ∷ []) self.new }
    {
        let on = self.opens[turn.depth as usize - 1];
        self.see_if(turn, own, on);
        self.open(turn);
        self.count();
    }
}

impl<'a> Watcher for Recorder<'a> {
    ghost use Rattle.lab_record.specs.Logs.{Sight as RecordedSight, sight};
    ghost use Rattle.lab_record.specs.Recorders.{recorded_none, recorded_on, Recorded};

    ghost Seen = { RecordedSight };

    ghost seen = { sight };

    ghost watched = { Recorded };

    ghost silent = { recorded_none };

    ghost onward = { recorded_on };

    fn turn<N: Nvm, L: Ledger>(
        &mut self,
        card: &mut Card<N>,
        into: &mut Outcome,
        steps: &mut Steps<L>,
    ) -> Result<BriefTurn, Stop> {
        let own = is_own(card, self.aid);
        self.look_at(own, public_of(card));
        let turn = card.brief_turn(into, steps)?;
        self.see_turn(&turn, own);
        Ok(turn)
    }
}

impl<'a> Runner for Recorder<'a> {
    ghost use Rattle.std.specs.Prelude.{[]};
    ghost use Rattle.mc_script.specs.Watching.{Watches};
    ghost use Rattle.lab_record.specs.Logs.{sight};
    ghost use Rattle.lab_record.specs.Recorders.{recorded_none, recorded_on, Recorded};

    ghost reported = { Watches sight Recorded };

    ghost silent = { λ c. recorded_none };

    ghost onward = { λ c d q r s. recorded_on q r s [] [] };

    fn run<N: Nvm, L: Ledger>(
        &mut self,
        card: &mut Card<N>,
        bytes: &[u8],
        budget: u32,
        into: &mut Outcome,
        steps: &mut Steps<L>,
    ) -> Result<(), Stop> {
        run_watched(self, card, bytes, budget, into, steps)
    }
}
