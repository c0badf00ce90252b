// A recorder as what watches the turns of a play.
ghost use Rattle.std.specs.Prelude.{[]};
ghost use Rattle.mc_script.specs.Watching.{Watches};
ghost use Rattle.desk_steps.specs.Moments.{moment, Moment};
ghost use Rattle.desk_steps.specs.Recorded.{recorded_none, recorded_on, Recorded};

use crate::looking::{running_aid, source_of};
use crate::recording::Recorder;
use desk_cover::running_section;
use mc_card::{BriefTurn, Card};
use mc_machine::Outcome;
use mc_nvm::Nvm;
use mc_script::{Runner, Watcher, run_watched};
use mc_streams::Sink;
use mc_words::{Steps, Stop};
use std::sync::ledger::Ledger;

impl<'s, 'o, T: Sink> Watcher for Recorder<'s, 'o, T> {
    ghost Seen = { Moment };

    ghost seen = { moment };

    ghost watched = { Recorded T.Sink };

    ghost silent = { recorded_none T.Sink };

    ghost onward = { recorded_on T.Sink };

    fn turn<N: Nvm, L: Ledger>(
        &mut self,
        card: &mut Card<N>,
        into: &mut Outcome,
        steps: &mut Steps<L>,
    ) -> Result<BriefTurn, Stop> {
        let Some(aid) = running_aid(card) else {
            return card.brief_turn(into, steps);
        };
        let section = running_section(card, self.sections);
        self.look_before(card, aid);
        let turn = card.brief_turn(into, steps)?;
        let source = source_of(self.sections, section, turn.at);
        self.after_turn(card, &aid, &turn, source);
        Ok(turn)
    }
}

impl<'s, 'o, T: Sink> Runner for Recorder<'s, 'o, T> {
    ghost reported = { Watches moment (Recorded T.Sink) };

    ghost silent = { λ c. recorded_none T.Sink };

    ghost onward = { λ c d q r s. recorded_on T.Sink q r s [] [] };

    fn run<N: Nvm, L: Ledger>(
        &mut self,
        card: &mut Card<N>,
        bytes: &[u8],
        budget: u32,
        into: &mut Outcome,
        steps: &mut Steps<L>,
    ) -> Result<(), Stop> {
        run_watched(self, card, bytes, budget, into, steps)
    }
}
