// What runs on a player's device, saved and put back.
ghost use Rattle.std.specs.Prelude.{◌≡◌, true, false, IfOk};
ghost use Rattle.model_play.specs.Play as play;
ghost use Rattle.model_play.specs.Play.{State, Warm, AfterPower, Running};
ghost use Rattle.model_play.specs.Family.{live_in, is_running};
ghost use Rattle.mc_script.specs.Players.{device_of};
ghost use Rattle.mc_script.specs.Benches.{IsPlayerAt, IsPlaying};
ghost use Rattle.mc_script.specs.Lives.{LiveShows, FitsLive, IsStopped, live_at};
ghost use Rattle.mc_card.specs.Saved.{FitsWords, session_state_on};

use crate::player::{Player, Power};
use mc_card::SavedSession;
use mc_nvm::Bench;
use mc_words::NoMemory;
use std::alloc::Global;

/// What runs on a device: a card, with its session state; or no card, which is mute after a failed write.
#[derive(Drop)]
pub enum Live {
    Running(SavedSession),
    Unpowered,
    Muted,
}

impl<N: Bench> Player<N> {
    /// Saves what runs on the device.
    ///
    /// # Errors
    ///
    /// Returns `NoMemory` if it is out of memory.
    pub fn live(&self, alloc: Global) -> Result<Live, NoMemory>
        requires { IsPlaying N.Bench self.now }
        ensures shows { IfOk result (λ v. (s : State) → IsPlayerAt N.Bench self.now s
            → LiveShows (N.state (device_of self.now)).words v (live_in s)) }
        ensures fits { IfOk result (FitsLive (N.state (device_of self.now)).words) }
    {
        match self.power {
            Power::On => Ok(Live::Running(self.card.saved(alloc)?)),
            Power::Mute => Ok(Live::Muted),
            Power::Off => Ok(Live::Unpowered),
            Power::BeforePower => Ok(Live::Unpowered),
        }
    }

    /// Puts back what ran on the device, if a card runs exactly if one ran.
    pub fn put_live(&mut self, saved: &Live)
        requires playing { IsPlaying N.Bench self.old }
        requires fits { FitsLive (N.state (device_of self.old)).words saved.now }
        ensures playing { IsPlaying N.Bench self.new }
        ensures at { (s : Warm) (l : play.Live) → IsPlayerAt N.Bench self.old (AfterPower s)
            → LiveShows (N.state (device_of self.old)).words saved.now l → is_running s.live ≡ is_running l
            → IsPlayerAt N.Bench self.new (AfterPower (record s { live = l })) }
        ensures device { device_of self.new ≡ device_of self.old }
    {
        match saved {
            Live::Running(saved) => self.put_running(saved),
            Live::Unpowered => self.put_stopped(Power::Off),
            Live::Muted => self.put_stopped(Power::Mute),
        }
    }

    // Puts back the session state of a card, if one runs.
    fn put_running(&mut self, saved: &SavedSession)
        requires playing { IsPlaying N.Bench self.old }
        requires fits { FitsWords (N.state (device_of self.old)).words saved.now }
        ensures playing { IsPlaying N.Bench self.new }
        ensures at { (s : Warm) → IsPlayerAt N.Bench self.old (AfterPower s) → is_running s.live ≡ true
            → IsPlayerAt N.Bench self.new (AfterPower (record s {
              live = Running (session_state_on (N.state (device_of self.old)).words saved.now);
            })) }
        ensures device { device_of self.new ≡ device_of self.old }
    {
        match self.power {
            Power::On => self.card.put_saved(saved),
            Power::BeforePower => {}
            Power::Off => {}
            Power::Mute => {}
        }
    }

    // Replaces the power, if no card runs, by another one without a card.
    fn put_stopped(&mut self, power: Power)
        requires stopped { IsStopped power }
        requires playing { IsPlaying N.Bench self.old }
        ensures playing { IsPlaying N.Bench self.new }
        ensures at { (s : Warm) → IsPlayerAt N.Bench self.old (AfterPower s) → is_running s.live ≡ false
            → IsPlayerAt N.Bench self.new (AfterPower (record s { live = live_at power })) }
        ensures device { device_of self.new ≡ device_of self.old }
    {
        match self.power {
            Power::Off => self.power = power,
            Power::Mute => self.power = power,
            Power::BeforePower => {}
            Power::On => {}
        }
    }
}
