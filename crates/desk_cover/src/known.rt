// What is known of the application that runs a command, from turn to turn.
ghost use Rattle.std.specs.Prelude.{◌≡◌, ◌≤◌, ℕ, length, IfSome};
ghost use Rattle.mc_words.specs.model_device.specs.Limits.{most_code};
ghost use Rattle.mc_arith.specs.model_machine.specs.Chain.{Chain as ModelChain};
ghost use Rattle.desk_draft.specs.FullTurns.{running_code};
ghost use Rattle.mc_card.specs.Parts.{IsRunning, RunsChain};
ghost use Rattle.desk_cover.specs.Looking.{section_at};
ghost use Rattle.desk_cover.specs.Known.{IsKnownAfter, Knows};
ghost use Rattle.desk_cover.specs.Sections.{index_of};
ghost use Rattle.desk_cover.specs.Watching.{FrameRuns, IsWatched, code_on, name_in};

use crate::looking::{name_of, section_of};
use crate::sections::Sections;
use arrayvec::ArrayVec;
use mc_card::Card;
use mc_nvm::Nvm;
use mc_segs::Frame;

/// The name of the application that runs a command, and the index of the first section that it runs, if it runs one.
///
/// No turn changes code, so that a section is looked for only if another application runs than before.
#[derive(Drop)]
pub struct Known {
    name: ArrayVec<u8, 16>,
    section: Option<usize>,
}

// Returns what is known of the application of a frame.
fn known_of<N: Nvm>(card: &Card<N>, frame: &Frame, sections: &Sections<'_>) -> Known
    requires { FrameRuns N.state card.now frame.now }
    ensures name { result.name.items ≡ name_in N.state card.now frame.now }
    ensures section { result.section ≡ index_of 0 sections.now (name_in N.state card.now frame.now)
        (code_on N.state card.now frame.now) }
    ensures short { IfSome (section_at sections.now result.section) (λ s. length s.code ≤ most_code) }
{
    Known {
        name: name_of(card.bank(), frame.slot()),
        section: section_of(card, frame, sections),
    }
}

impl Known {
    /// Returns what is known of the application that runs on a card.
    pub fn new<N: Nvm>(card: &Card<N>, sections: &Sections<'_>) -> Known
        requires { IsRunning N.state card.now }
        ensures { Knows N.state card.now sections.now result }
    {
        match card.chain() {
            Some(chain) => known_of(card, chain.running(), sections),
            None => Known {
                name: ArrayVec::new(),
                section: None,
            },
        }
    }

    /// Returns the name of the application.
    pub fn name(&self) -> &[u8]
        ensures value { result.now ≡ self.now.name.items }
        ensures short { length result.now ≤ 16 }
    {
        self.name.as_slice()
    }

    /// Returns the index of the section.
    pub fn section(&self) -> Option<usize>
        ensures { result ≡ self.now.section }
    {
        self.section
    }

    // Becomes what is known of the application of a frame that runs after a turn.
    fn follow_frame<N: Nvm>(&mut self, card: &Card<N>, frame: &Frame, sections: &Sections<'_>)
        requires { FrameRuns N.state card.now frame.now }
        ensures { IsKnownAfter sections.now (name_in N.state card.now frame.now) (code_on N.state card.now frame.now)
            self.old self.new }
    {
        let name = name_of(card.bank(), frame.slot());
        if name.as_slice() != self.name.as_slice() {
            *self = known_of(card, frame, sections);
        }
    }

    /// Becomes what is known of the application that runs after a turn, if one runs: the section is looked for only if
    /// its name is another one.
    pub fn follow<N: Nvm>(&mut self, card: &Card<N>, sections: &Sections<'_>)
        requires { IsWatched N.state card.now }
        ensures { (ch : ModelChain) (left : ℕ) → RunsChain N.state card.now ch left
            → IsKnownAfter sections.now ch.frame.name (running_code ch) self.old self.new }
    {
        if let Some(chain) = card.chain() {
            self.follow_frame(card, chain.running(), sections);
        }
    }
}
