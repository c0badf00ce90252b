// The proof of the rules of a deck.
ghost use Rattle.std.specs.Prelude.{◌≡◌, IfErr, IfOk, Ok};
ghost use Rattle.mc_deck.specs.model_play.specs.DeckGrammar.{deck_read};
ghost use Rattle.lab_app_rules.specs.model_rules.specs.Rules.{AppRules, Target};
ghost use Rattle.prove_tables.specs.law_prove_closed.specs.model_rule_text.specs.Reading.{app_rules_read};
ghost use Rattle.lab_app_rules.specs.Rules.{AreRules};
ghost use Rattle.lab_app_rules.specs.Sums.{AreSums};
ghost use Rattle.mc_text.specs.Texts.{sunk};
ghost use Rattle.mc_filter.specs.Inputs.{Rejects};
ghost use Rattle.mc_filter.specs.Outside.{outside};
ghost use Rattle.mellab.specs.declared.job.Job.TheVariants as job;
ghost use Rattle.mellab.specs.Running.{RejectsLabJob};
ghost use Rattle.mellab.specs.Statuses.{MellabDone};
ghost use Rattle.mellab.specs.Verdicts.{refused_rules};

use crate::running::status_by;
use lab_app_rules::Rules;
use mc_deck::Deck;
use mc_filter::{Rejection, Status, deck_of, ended, read_input, refused};
use mc_streams::{Sink, Source, put_all};
use prove_rules::{RuleRefusal, read_named_rules};
use prove_tables::prove;
use std::alloc::Global;

// Reads the rules of a deck, or returns the line that refuses them.
fn rules_of<'a>(alloc: Global, deck: &'a Deck, text: &'a [u8]) -> Result<Rules<'a>, Rejection>
    requires { deck_read text.now ≡ Ok deck.now }
    ensures read { IfOk result (λ r. (a : AppRules) × (g : Target) × (app_rules_read text.now ≡ Ok a)
        × AreRules a g r × AreSums a r) }
    ensures rejected { IfErr result (Rejects (refused_rules (app_rules_read text.now))) }
{
    match read_named_rules(alloc, deck, text) {
        Ok((rules, _aid)) => Ok(rules),
        Err(RuleRefusal::At(number, cause)) => Err(refused(alloc, "line", number, cause.word())),
        Err(RuleRefusal::NoMemory) => Err(Rejection::NoMemory),
    }
}

/// Decides whether the application that a deck names keeps the deck's rules in every play, and writes the text that
/// says so.
///
/// # Errors
///
/// Returns why the input is rejected, before it writes anything.
pub fn prove_input<S: Source, T: Sink>(
    alloc: Global,
    input: &mut S,
    out: &mut T,
) -> Result<Status, Rejection>
    ensures done { IfOk result
        (MellabDone job.Prove (outside S.Source T.Sink input.old input.new out.old out.new)) }
    ensures rejected { IfErr result
        (RejectsLabJob job.Prove (outside S.Source T.Sink input.old input.new out.old out.new)) }
    ensures out { IfErr result (λ e. sunk T.Sink out.new ≡ sunk T.Sink out.old) }
{
    let text = read_input(alloc, input)?;
    let deck = deck_of(alloc, text.as_slice())?;
    let rules = rules_of(alloc, &deck, text.as_slice())?;
    let verdict = prove(alloc, &rules)?;
    let written = put_all(out, verdict.text.as_slice());
    Ok(ended(status_by(verdict.proved), written))
}
