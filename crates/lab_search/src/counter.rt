// Executed instructions that are counted while a line of a deck is played.
ghost use Rattle.std.specs.Prelude.{◌≡◌, ◌≤◌, ◌∷◌, [], ℕ, Option, IfSome};
ghost use Rattle.law_explore_text.specs.model_machine.specs.Chain.{Turn as ModelTurn};
ghost use Rattle.law_explore_text.specs.model_machine.specs.Code.{Shaped};
ghost use Rattle.mc_machine.specs.declared.outcome.Outcome.{Outcome as ModelOutcome};
ghost use Rattle.mc_machine.specs.Turns.{full_turn, turn_value};
ghost use Rattle.mc_deck.specs.Lines.{line_of, GoodLine};
ghost use Rattle.mc_script.specs.Arming.{on_after_answer};
ghost use Rattle.mc_script.specs.Counting.{count_after_rises, line_powers};
ghost use Rattle.mc_script.specs.Players.{device_of};
ghost use Rattle.mc_script.specs.Benches.{IsPlaying, LineDone};
ghost use Rattle.mc_script.specs.Watching.{turn_alone};
ghost use Rattle.lab_search.specs.Counters.{counts_no_turn, counts_on, AreCounted, CountsTurns};

use lab_rules::{OnRule, count_turn, has_turns};
use mc_card::{BriefTurn, Card};
use mc_deck::Line;
use mc_machine::Outcome;
use mc_nvm::{Bench, Nvm};
use mc_script::{Answer, Player, Runner, Silent, Watcher, run_watched};
use mc_trace::line_of_brief;
use mc_words::{Steps, Stop};
use std::sync::ledger::Ledger;

/// Counts for each `on` line that applies to a move how many executed instructions its pattern fits.
#[derive(Drop)]
struct TurnCounter<'a, 'b> {
    ons: &'a [OnRule],
    applies: &'a [bool],
    counts: &'b mut [u64],
}

impl<'a, 'b> TurnCounter<'a, 'b> {
    // Counts an executed instruction.
    fn count_turn(&mut self, turn: &BriefTurn)
        requires shaped { IfSome turn.now.ins Shaped }
        requires low { 1 ≤ turn.now.depth }
        requires high { turn.now.depth ≤ 4 }
        ensures { (outcome : ModelOutcome) (wrote : Option ℕ)
            → CountsTurns self.old (turn_value (full_turn turn.now outcome) wrote ∷ []) self.new }
    {
        count_turn(
            self.ons,
            self.applies,
            line_of_brief(turn).as_slice(),
            self.counts,
        );
    }
}

impl<'a, 'b> Watcher for TurnCounter<'a, 'b> {
    ghost Seen = { ModelTurn };

    ghost seen = { turn_alone };

    ghost watched = { CountsTurns };

    ghost silent = { counts_no_turn };

    ghost onward = { counts_on };

    fn turn<N: Nvm, L: Ledger>(
        &mut self,
        card: &mut Card<N>,
        into: &mut Outcome,
        steps: &mut Steps<L>,
    ) -> Result<BriefTurn, Stop> {
        let turn = card.brief_turn(into, steps)?;
        self.count_turn(&turn);
        Ok(turn)
    }
}

impl<'a, 'b> Runner for TurnCounter<'a, 'b> {
    ghost reported = { λ c. CountsTurns };

    ghost silent = { λ c. counts_no_turn };

    ghost onward = { λ c d q r s. counts_on q r s [] [] };

    fn run<N: Nvm, L: Ledger>(
        &mut self,
        card: &mut Card<N>,
        bytes: &[u8],
        budget: u32,
        into: &mut Outcome,
        steps: &mut Steps<L>,
    ) -> Result<(), Stop> {
        run_watched(self, card, bytes, budget, into, steps)
    }
}

// Plays a line, and counts its turns.
fn play<N: Bench, L: Ledger>(
    counter: &mut TurnCounter<'_, '_>,
    player: &mut Player<N>,
    line: &Line<'_>,
    steps: &mut Steps<L>,
) -> Option<Answer>
    requires playing { IsPlaying N.Bench player.old }
    requires good { GoodLine (line_of line.now) }
    ensures done { LineDone N.Bench (AreCounted counter.old.ons.now counter.old.applies.now) player.old
        (line_of line.now) counter.old.counts.now counter.new.counts.now result player.new }
    ensures same { counter.new.counts.ghost_name ≡ counter.old.counts.ghost_name }
    ensures powers { (N.bench (device_of player.new)).powers
        ≡ count_after_rises (N.bench (device_of player.old)).powers (line_powers (line_of line.now)) }
    ensures power { (N.state (device_of player.new)).on
        ≡ on_after_answer (N.state (device_of player.old)).on (line_of line.now) result }
    ensures keeps_device { N.same (device_of player.old) (device_of player.new) }
{
    player.line(line, counter, steps)
}

/// Plays one line of a deck as `Player::line` does, and returns its result, or `None` if it has none.
///
/// Adds to the count of each `on` line that applies how many of the executed instructions that the line shows its
/// pattern fits, up to the last value of a count.
pub fn play_counted<N: Bench, L: Ledger>(
    player: &mut Player<N>,
    line: &Line<'_>,
    ons: &[OnRule],
    applies: &[bool],
    counts: &mut [u64],
    steps: &mut Steps<L>,
) -> Option<Answer>
    requires playing { IsPlaying N.Bench player.old }
    requires good { GoodLine (line_of line.now) }
    // The line is the step of the play from each state that the player is at, and the turns that it shows are counted.
    ensures done { LineDone N.Bench (AreCounted ons.now applies.now) player.old (line_of line.now)
        counts.old counts.new result player.new }
    ensures powers { (N.bench (device_of player.new)).powers
        ≡ count_after_rises (N.bench (device_of player.old)).powers (line_powers (line_of line.now)) }
    ensures power { (N.state (device_of player.new)).on
        ≡ on_after_answer (N.state (device_of player.old)).on (line_of line.now) result }
    ensures keeps_device { N.same (device_of player.old) (device_of player.new) }
{
    if !has_turns(ons, applies) {
        return player.line(line, &mut Silent, steps);
    }
    let mut counter = TurnCounter {
        ons,
        applies,
        counts,
    };
    play(&mut counter, player, line, steps)
}
