// The application that runs on a card, and the source line of a place of its code.
ghost use Rattle.std.specs.Prelude.{◌≡◌, ℕ, option_map, Some};
ghost use Rattle.mc_text.specs.model_machine.specs.Chain.{Chain as ModelChain};
ghost use Rattle.desk_draft.specs.Verdicts.{source_line};
ghost use Rattle.mc_card.specs.Parts.{RunsChain};
ghost use Rattle.desk_cover.specs.Looking.{section_at};
ghost use Rattle.desk_cover.specs.Watching.{IsWatched};

use desk_cover::Sections;
use mc_bank::Bank;
use mc_card::Card;
use mc_nvm::Nvm;
use mc_words::Aid;

/// Returns the name of the application that runs on a card, or `None` if no command runs.
#[tactic(auto, using(desk_cover::proofs::WatchLemmas::watched_chain))]
pub fn running_aid<N: Nvm>(card: &Card<N>) -> Option<Aid>
    requires { IsWatched N.state card.now }
    ensures { (ch : ModelChain) (left : ℕ) → RunsChain N.state card.now ch left → result ≡ Some ch.frame.name }
{
    match card.chain() {
        Some(chain) => Some(card.bank().facts(chain.running().slot()).aid),
        None => None,
    }
}

/// Returns the number of the line whose code has the byte at a place of the section with an index, or `None` if there
/// is none.
pub fn source_of(sections: &Sections<'_>, section: Option<usize>, place: u16) -> Option<u32>
    ensures { result ≡ option_map (λ l. l.number) (source_line (section_at sections.now section) place) }
{
    match sections.all().get(section?) {
        Some(section) => Some(section.line_at(place)?.number),
        None => None,
    }
}
