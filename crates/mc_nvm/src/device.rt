ghost use Rattle.std.specs.Prelude.{◌≡◌, ℕ, ◌<◌, ◌≤◌, true, List, length, slice_index_or, slice_set, [], Some, None, refl};
ghost use Rattle.std.proofs.Common.{◌∙◌};
ghost use Rattle.mc_words.specs.model_device.specs.Orders.{Answer};
ghost use Rattle.mc_words.specs.model_device.specs.Device.{DeviceState, BenchState, IsImage, Wrote, BenchWrote, next_count, bench_after_poke};

use mc_words::{Stop, Word};

/// A device of 256 to 16,384 words of eight bytes, written one word at a time. A write may stop: it is torn as power
/// goes, or it fails. Its word may hold anything then.
pub trait Nvm {
    /// The words, whether power is on, the counts of cuts and failed writes, and the tape, if one is recorded.
    ghost state: { Self → DeviceState };

    /// One write: the device before, the place, the word, the answer, the device after.
    ghost wrote: { Self → ℕ → List ℕ → Answer → Self → Type 0 };

    /// Two states belong to one device, if it is borrowed.
    ghost same: { Self → Self → Type 0 };

    /// Returns the number of words, 256 to 16,384, which never changes.
    fn len(&self) -> u32
        ensures len { result ≡ length (state self.now).words }
        ensures image { IsImage (state self.now).words };

    /// Returns the word at a place below the length, with power or without.
    fn read(&self, at: u32) -> Word
        requires { at < length (state self.now).words }
        ensures { result ≡ slice_index_or (state self.now).words at [] };

    /// Writes one word at a place below the length, while power is on.
    ///
    /// # Errors
    ///
    /// Returns `Stop::Off` if power went during the write, and `Stop::Worn` if the write failed. The count of cuts or
    /// of failed writes rose then, and the word at `at` may hold anything.
    fn write(&mut self, at: u32, word: Word) -> Result<(), Stop>
        requires place { at < length (state self.old).words }
        requires power { (state self.old).on ≡ true }
        ensures wrote { wrote self.old at word result self.new }
        ensures rules { Wrote (state self.old) at word result (state self.new) }
        ensures keeps_device { same self.old self.new };

    /// A write by the relation keeps the rules of devices.
    ghost obeys: { (d : Self) (at : ℕ) (w : List ℕ) (a : Answer) (e : Self) → (state d).on ≡ true → wrote d at w a e
        → Wrote (state d) at w a (state e) };

    /// A write by the relation has its place in the device and a word of eight bytes.
    ghost fits: { (d : Self) (at : ℕ) (w : List ℕ) (a : Answer) (e : Self) → wrote d at w a e
        → (at < length (state d).words) × (length w ≡ 8) };

    /// A write keeps which device is borrowed.
    ghost keeps: { (d : Self) (at : ℕ) (w : List ℕ) (a : Answer) (e : Self) → wrote d at w a e → same d e };

    /// That relation is reflexive.
    ghost itself: { (d : Self) → same d d };

    /// That relation is transitive.
    ghost onward: { (d : Self) (e : Self) (f : Self) → same d e → same e f → same d f };
}

/// A device whose writes can be stopped on demand, and whose calls are counted.
pub trait Bench: Nvm {
    /// The fuses, the counts of calls, and whether no write fails but by a fuse.
    ghost bench: { Self → BenchState };

    /// Arms a cut at the k-th write from now, which leaves `fill` in its word. It replaces an earlier cut fuse.
    fn arm(&mut self, k: u32, fill: Word)
        requires { 1 ≤ k }
        ensures state { Self.state self.new ≡ Self.state self.old }
        ensures bench { bench self.new ≡ record (bench self.old) {
          cut = Some (record { writes = k; fill = fill });
          arms = next_count (bench self.old).arms;
        } }
        ensures keeps_device { Self.same self.old self.new };

    /// Takes both fuses away.
    fn disarm(&mut self)
        ensures state { Self.state self.new ≡ Self.state self.old }
        ensures bench { bench self.new ≡ record (bench self.old) { cut = None; worn = None } }
        ensures keeps_device { Self.same self.old self.new };

    /// Turns power on.
    fn power(&mut self)
        ensures state { Self.state self.new ≡ record (Self.state self.old) { on = true } }
        ensures bench { bench self.new ≡ record (bench self.old) { powers = next_count (bench self.old).powers } }
        ensures keeps_device { Self.same self.old self.new };

    /// Sets one word at a place below the length. It is no write and needs no power. The bench keeps the count of
    /// power-ups before it.
    fn poke(&mut self, at: u32, word: Word)
        requires { at < length (Self.state self.old).words }
        ensures state { Self.state self.new
            ≡ record (Self.state self.old) { words = slice_set (Self.state self.old).words at word } }
        ensures bench { bench self.new ≡ bench_after_poke (bench self.old) }
        ensures keeps_device { Self.same self.old self.new };

    /// Makes the k-th write from now fail and leave `fill` in its word, unless another stop comes before it or falls
    /// on it. It replaces an earlier wear fuse.
    fn wear(&mut self, k: u32, fill: Word)
        requires { 1 ≤ k }
        ensures state { Self.state self.new ≡ Self.state self.old }
        ensures bench { bench self.new ≡ record (bench self.old) {
          worn = Some (record { writes = k; fill = fill });
          wears = next_count (bench self.old).wears;
        } }
        ensures keeps_device { Self.same self.old self.new };

    /// A write by the relation is stopped by the fuses and by nothing else, or by a bench that is not steady.
    ghost burns: { (d : Self) (at : ℕ) (w : List ℕ) (a : Answer) (e : Self) → (Self.state d).on ≡ true
        → Self.wrote d at w a e → BenchWrote (Self.state d) (bench d) at a (Self.state e) (bench e) };
}

impl<N: Nvm> Nvm for &mut N {
    ghost state = { λ d. N.state d.now };

    ghost wrote = { λ d at w a e. N.wrote d.now at w a e.now × (e.ghost_name ≡ d.ghost_name) };

    ghost same = { λ d e. N.same d.now e.now × (e.ghost_name ≡ d.ghost_name) };

    ghost obeys = { λ d at w a e on r. N.obeys d.now at w a e.now on r.0 };

    ghost fits = { λ d at w a e r. N.fits d.now at w a e.now r.0 };

    ghost keeps = { λ d at w a e r. (N.keeps d.now at w a e.now r.0, r.1) };

    ghost itself = { λ d. (N.itself d.now, refl) };

    ghost onward = { λ d e f r s. (N.onward d.now e.now f.now r.0 s.0, s.1 ∙ r.1) };

    fn len(&self) -> u32 {
        (**self).len()
    }

    fn read(&self, at: u32) -> Word {
        (**self).read(at)
    }

    fn write(&mut self, at: u32, word: Word) -> Result<(), Stop> {
        (**self).write(at, word)
    }
}

impl<N: Bench> Bench for &mut N {
    ghost bench = { λ d. N.bench d.now };

    ghost burns = { λ d at w a e on r. N.burns d.now at w a e.now on r.0 };

    fn arm(&mut self, k: u32, fill: Word) {
        (**self).arm(k, fill);
    }

    fn disarm(&mut self) {
        (**self).disarm();
    }

    fn power(&mut self) {
        (**self).power();
    }

    fn poke(&mut self, at: u32, word: Word) {
        (**self).poke(at, word);
    }

    fn wear(&mut self, k: u32, fill: Word) {
        (**self).wear(k, fill);
    }
}
