ghost use Rattle.std.specs.Prelude.{◌≡◌};
ghost use Rattle.std.specs.Borrow.{Lends, sem};
ghost use Rattle.model_play.specs.Play.{start};
ghost use Rattle.mc_script.specs.Players.{device_of, on_device, IsUnfused};
ghost use Rattle.mc_script.specs.Benches.{IsPlayerAt, IsPlaying};
ghost use Rattle.mc_script.specs.contracts.player.Player.{the_row};

use crate::armed::Armed;
use mc_card::Card;
use mc_machine::Outcome;
use mc_nvm::Bench;

/// The budget of a command before the first `budget` line.
const FIRST_BUDGET: u32 = 10_000;

/// The power of a play's device: before its first power line, without power or without a card, mute after a
/// failed write, or with a card that runs.
#[derive(Clone, Copy, Debug, PartialEq, Eq)]
pub enum Power {
    BeforePower,
    Off,
    Mute,
    On,
}

/// A play between two lines: its card, of which only the device is valid if no card runs, the budget of the
/// commands to come, the stop that is armed for the next card line, and how the last command ended (9000
/// before the first). The device itself has no fuse then: a stop is passed to it with its line.
#[derive(Drop)]
pub struct Player<N: Bench> {
    pub(crate) card: Card<N>,
    pub(crate) power: Power,
    pub(crate) budget: u32,
    pub(crate) armed: Armed,
    pub(crate) outcome: Outcome,
}

impl<N: Bench> Player<N> {
    /// Returns a play before its first line, on a device without a fuse.
    pub fn new(device: N) -> Player<N>
        requires { IsUnfused (N.bench device) }
        ensures at { IsPlayerAt N.Bench result (start (N.state device).words) }
        ensures device { device_of result ≡ device }
    {
        Player {
            card: Card::asleep(device),
            power: Power::BeforePower,
            budget: FIRST_BUDGET,
            armed: Armed::Not,
            outcome: Outcome::done(),
        }
    }

    /// Makes this a play before its first line, on its device, as `new` does. It is changed in place: a card has some
    /// kilobytes, and moving them takes longer than a short command.
    pub fn rewind(&mut self)
        requires { IsUnfused (N.bench (device_of self.old)) }
        ensures at { IsPlayerAt N.Bench self.new (start (N.state (device_of self.old)).words) }
        ensures playing { IsPlaying N.Bench self.new }
        ensures device { device_of self.new ≡ device_of self.old }
    {
        self.power = Power::BeforePower;
        self.budget = FIRST_BUDGET;
        self.armed = Armed::Not;
        self.outcome.put_done();
    }

    /// Returns the device. After a change of its words, its power or its fuses, `rewind` is called before a line is
    /// played.
    pub fn device_mut(&mut self) -> &mut N
        ensures value { result.now ≡ device_of self.old }
        ensures* writes_back { sem 𝓛 (Lends (the_row N.row) N.row self.entry result (λ w. on_device self.old w)) }
    {
        self.card.device_mut()
    }

    /// Returns how the last command ended, which is the value of an `Outcome` among the results until the
    /// next line is played.
    pub fn outcome(&self) -> &Outcome
        ensures { result.now ≡ self.now.outcome }
    {
        &self.outcome
    }

    /// Returns the device.
    pub fn into_dev(self) -> N
        ensures { result ≡ device_of self }
    {
        self.card.into_dev()
    }
}
