// One try: a move from a state, whole or cut.
ghost use Rattle.std.specs.Prelude.{◌≡◌, ◌≤◌, ℕ, true, List, length, map, replicate, vec_len, IfOk, OnOk};
ghost use Rattle.arrayvec.specs.ArrayVec.{array_vec_len};
ghost use Rattle.law_explore_text.specs.model_device.specs.Image.{image_with};
ghost use Rattle.law_explore_text.specs.model_play.specs.Play.{is_card_line};
ghost use Rattle.law_explore_text.specs.law_explore.specs.Rules as rule;
ghost use Rattle.law_explore_text.specs.law_explore.specs.States as model;
ghost use Rattle.lab_rules.specs.Meanings.{IsMove};
ghost use Rattle.law_explore_text.specs.model_device.specs.PowerUp.{Base};
ghost use Rattle.law_explore_text.specs.model_play.specs.Play as play;
ghost use Rattle.lab_key.specs.Kept.{IsKeptCard, IsOfDevice};
ghost use Rattle.lab_key.specs.Shown.{IsShown, ShowsSome};
ghost use Rattle.law_explore_text.specs.model_play.specs.Play.{Step};
ghost use Rattle.law_explore_text.specs.law_explore.specs.Rules.{AtResult};
ghost use Rattle.law_explore_text.specs.law_explore.specs.model_events.specs.Matching.{plain};
ghost use Rattle.law_explore_text.specs.law_explore.specs.Tries.{allowances_after, times};
ghost use Rattle.lab_rules.specs.Occasions.{capped, counts_after, AreSpent};
ghost use Rattle.lab_branch.specs.Branches.{branch_bench, branch_state};
ghost use Rattle.law_explore_text.specs.model_play.specs.Play.{start};
ghost use Rattle.mc_script.specs.Players.{device_of, IsPlayerAt, IsUnfused};
ghost use Rattle.lab_search.specs.Kept.{CanBeTried, IsCandidate, Kept, KeepsKept, SpendsFrom, TryIs, root_of, runs_now, words_of};
ghost use Rattle.lab_search.specs.Tallies.{CountsTry};
ghost use Rattle.lab_search.specs.Trying.{CanCut, TriedAs};

use crate::journey::Manner;
use crate::making::{Candidate, try_on};
use crate::playing::Budget;
use lab_branch::BranchNvm;
use lab_key::{CardState, Rosters, Saved};
use lab_rules::{Occasion, apply_all, count, plain_into};
use mc_script::{Live, Player, Text};
use mc_words::{NoMemory, Steps, Word};
use std::alloc::Global;
use std::sync::ledger::Ledger;

/// A player, which is put back before each try, and the room for the texts and the counts of a try. Player and texts are
/// on the heap, so that a laboratory can be moved without a large frame on the stack.
#[derive(Drop)]
pub struct Laboratory {
    pub player: Box<Player<BranchNvm>>,
    pub budget: Budget,
    pub text: Box<Text>,
    pub plain: Box<Text>,
    pub counts: Vec<u64>,
}

/// What a try came to: its cut hit no write, a state, or the place of an allowance that is spent below zero.
#[derive(Drop)]
pub enum Tried {
    NotHit,
    Reached(CardState),
    Broken(usize),
}

/// Puts the card that was saved on the device of a player, and puts the player back before its first line.
pub fn put_card(player: &mut Player<BranchNvm>, saved: Saved<'_>)
    ensures words { (device_of player.new).device.words ≡ image_with (device_of player.old).root saved.entry.words.now }
    ensures root { (device_of player.new).root ≡ (device_of player.old).root }
    ensures start { IsPlayerAt branch_state branch_bench player.new (start (device_of player.new).device.words) }
    ensures steady { (branch_bench (device_of player.new)).steady ≡ true }
{
    put_words(player.device_mut(), saved.words);
    player.rewind();
}

// Puts the words that differ from its root on a device, which has no fuse after it.
fn put_words(device: &mut BranchNvm, words: &[(u16, Word)])
    ensures words { device.new.device.words ≡ image_with device.old.root words.now }
    ensures root { device.new.root ≡ device.old.root }
    ensures unfused { IsUnfused (branch_bench device.new) }
{
    device.return_to_root();
    device.put_words(words);
}

// Keeps the card that is on the device of a player, with what runs on it, and returns its number.
fn keep_card(
    alloc: Global,
    rosters: &mut Rosters,
    player: &mut Player<BranchNvm>,
    live: Live,
) -> Result<usize, NoMemory>
    requires { ShowsSome (device_of player.old).device.words live }
    ensures of { (b : Base) (l : play.Live) → IsShown (device_of player.old).device.words live b l
        → IsOfDevice (device_of player.old).root b
        → IfOk result (λ n. IsKeptCard (device_of player.old).root rosters.new n b l) }
    ensures keeps { (b : Base) (l : play.Live) → IsShown (device_of player.old).device.words live b l
        → IsOfDevice (device_of player.old).root b → (n : ℕ) (c : Base) (m : play.Live)
        → IsKeptCard (device_of player.old).root rosters.old n c m
        → IsKeptCard (device_of player.old).root rosters.new n c m }
    ensures root { (device_of player.new).root ≡ (device_of player.old).root }
{
    rosters.keep(alloc, player.device_mut(), live)
}

// Sets all counts to 0.
fn zero(counts: &mut Vec<u64>)
    ensures { counts.new.items ≡ replicate (vec_len counts.old) 0 }
{
    counts.as_mut_slice().fill(0);
}

// Counts the result of a move for its `on` lines. `room` is left with the plain text of the result.
fn count_result(candidate: &Candidate<'_>, text: &Text, room: &mut Text, counts: &mut [u64])
    requires { array_vec_len text.now ≤ 8210 }
    ensures { counts.new ≡ counts_after AtResult (plain text.now.items) candidate.now.ons.now candidate.now.applies.now
        counts.old }
{
    room.clear();
    plain_into(room, text.as_slice());
    count(
        candidate.ons,
        candidate.applies,
        Occasion::Result,
        room.as_slice(),
        counts,
    );
}

// Does to amounts what the `on` lines say of a move, whose executed instructions are counted. Returns the place of the
// allowance that is spent below zero, if one is.
fn spend(
    candidate: &Candidate<'_>,
    text: &Text,
    room: &mut Text,
    counts: &mut [u64],
    amounts: &mut [u32],
) -> Option<usize>
    requires { array_vec_len text.now ≤ 8210 }
    ensures spent { (held a : List (List ℕ × ℕ)) (rs : List rule.OnRule) (m : rule.Move) (t : Step)
        → SpendsFrom held a rs m t candidate.now text.now.items counts.old amounts.old
        → AreSpent held result amounts.new (allowances_after rs m t a) }
    ensures counted { (held a : List (List ℕ × ℕ)) (rs : List rule.OnRule) (m : rule.Move) (t : Step)
        → SpendsFrom held a rs m t candidate.now text.now.items counts.old amounts.old
        → counts.new ≡ map (λ r. capped (times r m t)) rs }
{
    count_result(candidate, text, room, counts);
    apply_all(candidate.ons, counts, amounts)
}

/// Returns whether a card runs.
pub fn runs(live: &Live) -> bool
    ensures { result ≡ runs_now live.now }
{
    match live {
        Live::Running(_) => true,
        Live::Unpowered => false,
        Live::Muted => false,
    }
}

impl Laboratory {
    // Makes a move from a card that was kept. Returns what runs after it, or `None` if a cut hit no write.
    fn play<L: Ledger>(
        &mut self,
        alloc: Global,
        saved: Saved<'_>,
        candidate: &Candidate<'_>,
        manner: Manner,
        steps: &mut Steps<L>,
    ) -> Result<Option<Live>, NoMemory>
        requires shown { ShowsSome (image_with (root_of self.old) saved.words.now) saved.live.now }
        ensures tried { (c : model.CardState) (m : rule.Move)
            → IsShown (image_with (root_of self.old) saved.entry.words.now) saved.entry.live.now c.base c.live
            → c.budget ≡ self.old.budget → IsMove candidate.now.chosen.now m → is_card_line m.line ≡ true
            → CanCut c manner → TriedAs c m manner candidate.now.ons.now candidate.now.applies.now
            (replicate (vec_len self.old.counts) 0) self.new.counts.items self.new.text.value.items
            (words_of self.new) result }
        ensures root { root_of self.new ≡ root_of self.old }
        ensures budget { self.new.budget ≡ self.old.budget }
        ensures short { array_vec_len self.new.text.value ≤ 8210 }
        ensures counts { length self.new.counts.items ≡ length self.old.counts.items }
    {
        put_card(&mut *self.player, saved);
        zero(&mut self.counts);
        try_on(
            alloc,
            &mut *self.player,
            &self.budget,
            saved.live,
            candidate,
            manner,
            self.counts.as_mut_slice(),
            &mut *self.text,
            steps,
        )
    }

    /// Makes a try from a state.
    ///
    /// # Errors
    ///
    /// Returns `NoMemory` if it is out of memory.
    pub fn attempt<L: Ledger>(
        &mut self,
        alloc: Global,
        rosters: &mut Rosters,
        state: &CardState,
        candidate: &Candidate<'_>,
        manner: Manner,
        steps: &mut Steps<L>,
    ) -> Result<Tried, NoMemory>
        requires { CanBeTried self.old rosters.old state.now candidate.now manner }
        // States that were kept stay kept.
        ensures keeps { OnOk result (KeepsKept self.old rosters.old self.new rosters.new) }
        // It came to the outcome of the definition.
        ensures tried { (held : List (List ℕ × ℕ)) (ons : List rule.OnRule) (c : model.CardState) (m : rule.Move)
            → Kept self.old rosters.old (map (λ a. a.0) held) state.now c → IsCandidate held ons m candidate.now
            → CanCut c manner
            → IfOk result (TryIs self.new rosters.new (map (λ a. a.0) held) ons c m manner) }
        // The counts are how many times each `on` line applies.
        ensures counted { (held : List (List ℕ × ℕ)) (ons : List rule.OnRule) (c : model.CardState) (m : rule.Move)
            → Kept self.old rosters.old (map (λ a. a.0) held) state.now c → IsCandidate held ons m candidate.now
            → CanCut c manner
            → IfOk result (CountsTry self.new ons c m manner) }
    {
        let Some(saved) = rosters.saved(state.card) else {
            unreachable!()
        };
        let Some(live) = self.play(alloc, saved, candidate, manner, steps)? else {
            return Ok(Tried::NotHit);
        };
        let mut allowances = Vec::from_slice(alloc, state.allowances.as_slice())?;
        let broken = spend(
            candidate,
            &*self.text,
            &mut *self.plain,
            self.counts.as_mut_slice(),
            allowances.as_mut_slice(),
        );
        if let Some(allowance) = broken {
            return Ok(Tried::Broken(allowance));
        }
        let runs = runs(&live);
        let card = keep_card(alloc, rosters, &mut *self.player, live)?;
        Ok(Tried::Reached(CardState {
            card,
            runs,
            allowances,
        }))
    }
}
