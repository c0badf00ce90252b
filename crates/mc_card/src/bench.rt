// A card over a bench: its size, its power, its words before a power-up, and its armed stops.
ghost use Rattle.std.specs.Prelude.{◌≡◌, ◌≤◌, ◌<◌, length, slice_set, true, Some, None};
ghost use Rattle.mc_words.specs.model_device.specs.Device.{next_count, bench_after_poke, IsImage};
ghost use Rattle.std.specs.Borrow.{Lends, sem};
ghost use Rattle.mc_card.specs.Parts.{device_in, with_device};
ghost use Rattle.mc_card.specs.contracts.card.Card.{the_row};

use crate::card::Card;
use mc_nvm::Bench;
use mc_words::Word;

impl<N: Bench> Card<N> {
    /// Returns the number of words of the device.
    pub fn len(&self) -> u32
        ensures len { result ≡ length (N.state (device_in self.now)).words }
        ensures image { IsImage (N.state (device_in self.now)).words }
    {
        self.store.device_len()
    }

    /// Returns the device as a bench sees it. After its words or its power changed, a card that ran is valid for
    /// `restart` alone.
    pub fn device_mut(&mut self) -> &mut N
        ensures value { result.now ≡ device_in self.old }
        ensures* writes_back { sem 𝓛 (Lends (the_row N.row) N.row self.entry result (λ w. with_device self.old w)) }
    {
        self.store.device_mut()
    }

    /// Turns the power of the device on. A card that ran is valid for `restart` alone afterwards.
    pub fn power(&mut self)
        ensures state { N.state (device_in self.new) ≡ record (N.state (device_in self.old)) { on = true } }
        ensures bench { N.bench (device_in self.new)
            ≡ record (N.bench (device_in self.old)) { powers = next_count (N.bench (device_in self.old)).powers } }
        ensures keeps_device { N.same (device_in self.old) (device_in self.new) }
    {
        self.store.device_mut().power();
    }

    /// Sets the word of the device at `at` to `word`. A card that ran is valid for `restart` alone
    /// afterwards.
    pub fn poke(&mut self, at: u32, word: Word)
        requires { at < length (N.state (device_in self.old)).words }
        ensures state { N.state (device_in self.new)
            ≡ record (N.state (device_in self.old)) { words = slice_set (N.state (device_in self.old)).words at word } }
        ensures bench { N.bench (device_in self.new)
            ≡ bench_after_poke (N.bench (device_in self.old)) }
        ensures keeps_device { N.same (device_in self.old) (device_in self.new) }
    {
        self.store.device_mut().poke(at, word);
    }

    /// Arms a power cut at the `k`-th device write from now, which leaves `fill` in its word. It replaces an
    /// earlier armed cut.
    pub fn arm(&mut self, k: u32, fill: Word)
        requires { 1 ≤ k }
        ensures state { N.state (device_in self.new) ≡ N.state (device_in self.old) }
        ensures bench { N.bench (device_in self.new)
            ≡ record (N.bench (device_in self.old)) {
              cut = Some (record { writes = k; fill = fill });
              arms = next_count (N.bench (device_in self.old)).arms;
            } }
        ensures rest { self.new ≡ with_device self.old (device_in self.new) }
        ensures keeps_device { N.same (device_in self.old) (device_in self.new) }
    {
        self.store.device_mut().arm(k, fill);
    }

    /// Arms a failed write: the device refuses the `k`-th device write from now, which leaves `fill` in its
    /// word, unless another stop comes first. It replaces an earlier armed failed write.
    pub fn wear(&mut self, k: u32, fill: Word)
        requires { 1 ≤ k }
        ensures state { N.state (device_in self.new) ≡ N.state (device_in self.old) }
        ensures bench { N.bench (device_in self.new)
            ≡ record (N.bench (device_in self.old)) {
              worn = Some (record { writes = k; fill = fill });
              wears = next_count (N.bench (device_in self.old)).wears;
            } }
        ensures rest { self.new ≡ with_device self.old (device_in self.new) }
        ensures keeps_device { N.same (device_in self.old) (device_in self.new) }
    {
        self.store.device_mut().wear(k, fill);
    }

    /// Disarms both the power cut and the failed write.
    pub fn disarm(&mut self)
        ensures state { N.state (device_in self.new) ≡ N.state (device_in self.old) }
        ensures bench { N.bench (device_in self.new)
            ≡ record (N.bench (device_in self.old)) { cut = None; worn = None } }
        ensures rest { self.new ≡ with_device self.old (device_in self.new) }
        ensures keeps_device { N.same (device_in self.old) (device_in self.new) }
    {
        self.store.device_mut().disarm();
    }
}
