// The exploration of a deck whose rules speak of one application.
ghost use Rattle.std.specs.Prelude.{◌≡◌, ℕ, List, IfErr, IfOk, Ok};
ghost use Rattle.mc_deck.specs.model_play.specs.DeckGrammar.{deck_read, DeckLine};
ghost use Rattle.lab_deck.specs.law_explore_text.specs.law_explore.specs.Rules.{Move};
ghost use Rattle.lab_deck.specs.law_explore_text.specs.law_explore.specs.States.{play_of_deck};
ghost use Rattle.lab_deck.specs.law_histories.specs.Histories.{app_exploration_read};
ghost use Rattle.mc_filter.specs.Inputs.{Rejects};
ghost use Rattle.mc_text.specs.Texts.{sunk};
ghost use Rattle.lab_application.specs.Shadows.{AreMovesOf};
ghost use Rattle.lab_application.specs.Texts.{IsAppExplored};
ghost use Rattle.lab_deck.specs.Applications.{IsApplicationRead};
ghost use Rattle.mellab.specs.Running.{refused_application, EndsApplication};

use crate::exploring::status_explored;
use lab_application::explore_within;
use lab_deck::{Application, ApplicationRefusal, read_application};
use lab_record::Subject;
use lab_search::Explored;
use mc_deck::Deck;
use mc_filter::{Rejection, Status, deck_of, refused};
use mc_script::JobFault;
use mc_streams::Sink;
use mc_words::Steps;
use std::alloc::Global;
use std::sync::ledger::Ledger;

// Reads the deck of a text, or returns the line that refuses it.
fn deck_in(alloc: Global, text: &[u8]) -> Result<Deck, Rejection>
    ensures deck { IfOk result (λ d. deck_read text.now ≡ Ok d) }
    ensures rejected { IfErr result (Rejects (refused_application (app_exploration_read text.now))) }
{
    deck_of(alloc, text)
}

// Reads the moves and the rules of a deck that names an application, or returns the line that refuses them.
fn application_of<'a>(
    alloc: Global,
    deck: &'a Deck,
    text: &'a [u8],
) -> Result<Application<'a>, Rejection>
    requires { deck_read text.now ≡ Ok deck.now }
    ensures read { IfOk result (λ x. IsApplicationRead x (app_exploration_read text.now)) }
    ensures rejected { IfErr result (Rejects (refused_application (app_exploration_read text.now))) }
{
    match read_application(alloc, deck, text) {
        Ok(application) => Ok(application),
        Err(ApplicationRefusal::Line(number, cause)) => Err(refused(
            alloc,
            "line",
            number,
            cause.word(),
        )),
        Err(ApplicationRefusal::NoMove) => Err(refused(alloc, "line", 0, "NoMove")),
        Err(ApplicationRefusal::NoRule) => Err(refused(alloc, "line", 0, "NoRule")),
        Err(ApplicationRefusal::NoMemory) => Err(Rejection::NoMemory),
    }
}

// Explores a deck with the moves and the rules that were read in it.
fn explore_read<T: Sink, L: Ledger>(
    alloc: Global,
    depth: u32,
    most: u32,
    application: &Application<'_>,
    out: &mut T,
    steps: &mut Steps<L>,
) -> Result<Explored, JobFault>
    requires read { (ls : List (ℕ × DeckLine)) × (ms : List Move) × AreMovesOf application.now.moves ls ms }
    ensures { (ls : List (ℕ × DeckLine)) (ms : List Move) → AreMovesOf application.now.moves ls ms
        → IsAppExplored application.now.rules ms depth (play_of_deck ls) (sunk T.Sink out.old) result
        (sunk T.Sink out.new) }
{
    let subject = Subject {
        rules: &application.rules,
        aid: &application.aid,
    };
    explore_within(
        alloc,
        &application.moves,
        subject,
        most as usize,
        depth,
        out,
        steps,
    )
}

/// Explores the deck of a text whose rules speak of one application, at most `depth` moves deep and with at most as many
/// states.
///
/// # Errors
///
/// Returns why the text is rejected, before it writes anything.
pub fn explore_application<T: Sink, L: Ledger>(
    alloc: Global,
    depth: u32,
    most: u32,
    text: &[u8],
    out: &mut T,
    steps: &mut Steps<L>,
) -> Result<Status, Rejection>
    ensures ends { IfOk result (EndsApplication depth text.now (sunk T.Sink out.old) (sunk T.Sink out.new)) }
    ensures rejected { IfErr result (Rejects (refused_application (app_exploration_read text.now))) }
    ensures out { IfErr result (λ e. sunk T.Sink out.new ≡ sunk T.Sink out.old) }
{
    let deck = deck_in(alloc, text)?;
    let application = application_of(alloc, &deck, text)?;
    let explored = explore_read(alloc, depth, most, &application, out, steps);
    Ok(status_explored(explored))
}
