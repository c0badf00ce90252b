// Lines that make no device write.
ghost use Rattle.std.specs.Prelude.{◌≡◌, ◌≤◌, ◌<◌, length, None, cond, nat_lt, slice_set};
ghost use Rattle.std.specs.List.{AllByRecursion};
ghost use Rattle.model_play.specs.model_device.specs.Device.{bench_after_pokes};
ghost use Rattle.model_play.specs.model_device.specs.Image.{image_with};
ghost use Rattle.model_play.specs.DeckGrammar as line;
ghost use Rattle.model_play.specs.Play.{formatted_image};
ghost use Rattle.mc_card.specs.Parts.{device_in};
ghost use Rattle.mc_script.specs.Players.{device_of};
ghost use Rattle.mc_script.specs.Benches.{SilentDone};

use crate::answer::Answer;
use crate::armed::Armed;
use crate::player::{Player, Power};
use mc_blocks::format_words;
use mc_card::Card;
use mc_nvm::Bench;
use mc_words::Word;

// Sets words of a device in order.
fn poke_all<N: Bench>(card: &mut Card<N>, list: &[(u16, Word)])
    requires { AllByRecursion (λ p. p.0 < length (N.state (device_in card.old)).words) list.now }
    ensures state { N.state (device_in card.new)
        ≡ record (N.state (device_in card.old)) { words = image_with (N.state (device_in card.old)).words list.now } }
    ensures bench { N.bench (device_in card.new) ≡ bench_after_pokes (length list.now) (N.bench (device_in card.old)) }
    ensures keeps_device { N.same (device_in card.old) (device_in card.new) }
{
    for (at, word) in list {
        card.poke(*at as u32, *word);
    }
}

// Sets the words of an empty card.
fn format<N: Bench>(card: &mut Card<N>)
    ensures state { N.state (device_in card.new)
        ≡ record (N.state (device_in card.old)) { words = formatted_image (N.state (device_in card.old)).words } }
    ensures bench { N.bench (device_in card.new) ≡ bench_after_pokes 5 (N.bench (device_in card.old)) }
    ensures keeps_device { N.same (device_in card.old) (device_in card.new) }
{
    let words = format_words(card.len());
    poke_all(card, &words);
}

// Sets one word of a device, if it has the place.
fn poke<N: Bench>(card: &mut Card<N>, at: u16, fill: Word)
    ensures state { N.state (device_in card.new)
        ≡ record (N.state (device_in card.old)) { words = slice_set (N.state (device_in card.old)).words at fill } }
    ensures bench { N.bench (device_in card.new)
        ≡ bench_after_pokes (cond (nat_lt at (length (N.state (device_in card.old)).words)) 1 0)
        (N.bench (device_in card.old)) }
    ensures keeps_device { N.same (device_in card.old) (device_in card.new) }
{
    if (at as u32) < card.len() {
        card.poke(at as u32, fill);
    }
}

impl<N: Bench> Player<N> {
    /// Plays a `budget` line.
    pub(crate) fn set_budget(&mut self, budget: u32)
        requires some { 1 ≤ budget }
        requires most { budget ≤ 65536 }
        ensures done { SilentDone N.Bench self.old (line.Budget budget) None self.new }
        ensures device { device_of self.new ≡ device_of self.old }
    {
        self.budget = budget;
    }

    /// Plays a `cut` line.
    pub(crate) fn arm_cut(&mut self, k: u32, fill: Word)
        requires { 1 ≤ k }
        ensures done { SilentDone N.Bench self.old (line.Cut k fill) None self.new }
        ensures device { device_of self.new ≡ device_of self.old }
    {
        self.armed = Armed::Cut { k, fill };
    }

    /// Plays a `fail` line.
    pub(crate) fn arm_fail(&mut self, k: u32)
        requires { 1 ≤ k }
        ensures done { SilentDone N.Bench self.old (line.Fail k) None self.new }
        ensures device { device_of self.new ≡ device_of self.old }
    {
        self.armed = Armed::Fail(k);
    }

    /// Plays a `format` line, which does nothing after the first power line.
    pub(crate) fn format(&mut self) -> Option<Answer>
        ensures done { SilentDone N.Bench self.old line.Format result self.new }
        ensures keeps_device { N.same (device_of self.old) (device_of self.new) }
    {
        match self.power {
            Power::BeforePower => {
                format(&mut self.card);
                Some(Answer::Formatted)
            }
            _ => None,
        }
    }

    /// Plays a `poke` line, which does nothing after the first power line.
    pub(crate) fn poke(&mut self, at: u16, fill: Word)
        ensures done { SilentDone N.Bench self.old (line.Poke at fill) None self.new }
        ensures keeps_device { N.same (device_of self.old) (device_of self.new) }
    {
        match self.power {
            Power::BeforePower => poke(&mut self.card, at, fill),
            _ => {}
        }
    }
}
