// What runs the commands of a play and writes its text.
ghost use Rattle.std.specs.Prelude.{◌≡◌, ℕ, List, Option, None};
ghost use Rattle.model_play.specs.model_machine.specs.Chain.{Turn as ModelTurn};
ghost use Rattle.model_play.specs.DeckGrammar.{DeckLine};
ghost use Rattle.model_play.specs.Play.{FailedWrite, State, Step, step};
ghost use Rattle.mc_text.specs.Logs.{Log};
ghost use Rattle.mc_text.specs.Texts.{Puts};
ghost use Rattle.mc_script.specs.Benches.{IsPlayerAt, IsPlaying};
ghost use Rattle.mc_script.specs.Lines.{Lined};
ghost use Rattle.mc_script.specs.Runs.{SentCommand, sent_by};
ghost use Rattle.mc_script.specs.Writers.{write_result};

use crate::answer::Answer;
use crate::player::Player;
use crate::runner::Runner;
use mc_nvm::Bench;
use mc_streams::WriteFault;

/// Runs the commands of a play, and writes its text line by line. Once its sink failed it writes no more, and commands
/// are run to their end.
pub trait Reporter: Runner {
    /// The text of a line that was played.
    ghost text: { Self → Step → List ℕ };

    /// What the sink took, and its fault if it failed.
    ghost log: { Self → Log };

    /// The reporter before and after something was written: its sink is the same one, and so is the text of each line.
    ghost same: { Self → Self → Type 0 };

    /// Writes the result of a line, if it has one, after what was written of its turns.
    fn report<N: Bench>(&mut self, number: u32, player: &Player<N>, answer: &Option<Answer>)
        requires playing { IsPlaying N.Bench player.now }
        // What was written since the line began is the text of the line, unless the sink had failed before.
        ensures reports { (before : Self) (p : Player N) (s : State) (l : DeckLine) (w : Option FailedWrite)
            → IsPlayerAt N.Bench p s → (log before).fault ≡ None
            → Lined N.state N.bench (Self.reported (sent_by N.state p l)) p s (number, l) w before self.old answer.now
            player.now → Puts (log before).out (text before (step s (number, l) w)) (write_result (log self.new).fault)
            (log self.new).out }
        ensures same { same self.old self.new };

    /// Returns `Ok` if all was written, or else the fault of the sink.
    fn ended(&self) -> Result<(), WriteFault>
        ensures { result ≡ write_result (log self.now).fault };

    /// What is recorded of turns goes to the same sink.
    ghost records: { (c : SentCommand) (q r : Self) (ts : List ModelTurn) → Self.reported c q ts r → same q r };

    /// A reporter that wrote nothing is the same.
    ghost itself: { (q : Self) → same q q };

    /// What is written after something else goes to the same sink.
    ghost after: { (q r s : Self) → same q r → same r s → same q s };

    /// The text of each line stays.
    ghost texts: { (q r : Self) → same q r → text r ≡ text q };
}
