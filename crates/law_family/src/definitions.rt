//! Laws that check the definitions against each other.

ghost use Rattle.std.specs.Prelude.{◌≡◌, ◌+◌, ◌-◌, ◌<◌, ◌≤◌, ℕ, List, ◌++◌};
ghost use Rattle.model_play.specs.model_device.specs.Image.{image_with};
ghost use Rattle.model_play.specs.model_card.specs.Items.{Item, moves, at_stop};
ghost use Rattle.model_play.specs.model_machine.specs.Chain.{Chain, run_of_chain};
ghost use Rattle.model_play.specs.TraceText.{TraceLaw};
ghost use Rattle.law_family.specs.Begins.{BeginsLaw};
ghost use Rattle.law_family.specs.ReadDecks.{ReadLinesLaw, ReadDecksLaw};
ghost use Rattle.law_family.specs.Split.{with_whole};

/// Pairs that are laid after others are laid as one list.
pub fn pairs_compose()
    ensures { (m : List (List ℕ)) (a : List (ℕ × List ℕ)) (b : List (ℕ × List ℕ))
        → image_with m (a ++ b) ≡ image_with (image_with m a) b }
{}

/// A stop at write k falls in the first items if they make k device writes, and else in those after them.
pub fn stops_split()
    ensures within { (is : List Item) (js : List Item) (k : ℕ) (x : List ℕ) → 1 ≤ k → k ≤ moves is
        → at_stop (is ++ js) k x ≡ at_stop is k x }
    ensures behind { (is : List Item) (js : List Item) (k : ℕ) (x : List ℕ) → moves is < k
        → at_stop (is ++ js) k x ≡ with_whole is (at_stop js (k - moves is) x) }
{}

/// A run decodes no more instructions than its budget.
pub fn counts_within_budget()
    ensures { (budget : ℕ) (chain : Chain) → (run_of_chain budget chain).count ≤ budget }
{}

/// The trace of a play, without the lines that begin with `>`, is its transcript.
pub fn traces_hold_transcripts()
    ensures { TraceLaw }
{}

/// In every play, whatever was cut or failed, each application on the card keeps to the limit of static bytes, and
/// each command that is passed to the selected application is run with as many session bytes as that application has.
pub fn runs_begin_well()
    ensures { BeginsLaw }
{}

/// What each line of a deck that was read carries is bytes; so in each of its plays from the words of a device each
/// item touches at most 64 words, and a card that was found or formatted is found by every later power line that no
/// stop hits.
pub fn read_decks_fit()
    ensures lines { ReadLinesLaw }
    ensures plays { ReadDecksLaw }
{}
