// What writes and pops make of a place.
ghost use Rattle.std.specs.Prelude.{◌≡◌, ◌+◌, ◌≤◌, true, map, IfOk, OnOk, IfSome};
ghost use Rattle.model_device.specs.Bytes.{bytes2};
ghost use Rattle.prove_facts.specs.model_rules.specs.Keeping.{Amounts};
ghost use Rattle.prove_facts.specs.model_prove.specs.Keys.{Start};
ghost use Rattle.prove_facts.specs.model_prove.specs.Steps as steps;
ghost use Rattle.prove_facts.specs.Sets.{set_of};
ghost use Rattle.prove_spots.specs.Grounds.{spot_of};

use crate::calls::{Loss, lose_calls};
use crate::lists::know_all;
use crate::spot::Spot;
use model_device::{NoMemory, bytes_of};
use prove_facts::Values;
use prove_keys::PUBLIC;

/// Returns the address after n bytes from one on, unless they go past the last address.
pub fn end_of(at: u16, n: usize) -> Option<u32>
    ensures { IfSome result (λ end. (end ≡ at + n) × (end ≤ 65536)) }
{
    if n > 65536 - at as usize {
        return None;
    }
    Some(at as u32 + n as u32)
}

/// Returns the values of the two bytes of a number.
pub fn pair_of(number: u16) -> [Values; 2]
    ensures { map set_of result ≡ steps.sets (bytes2 number) }
{
    let [high, low] = bytes_of(number);
    [Values::one(high), Values::one(low)]
}

impl Spot {
    /// Writes bytes of these values from an address on. Returns whether they end at the last address or below it.
    ///
    /// # Errors
    ///
    /// Returns `NoMemory` if it is out of memory.
    pub fn written(&mut self, at: u16, values: &[Values]) -> Result<bool, NoMemory>
        ensures { IfOk result (λ done. done ≡ true → (s : Start) (a : Amounts)
            → spot_of s a self.new ≡ steps.written at (map set_of values.now) (spot_of s a self.old)) }
    {
        let Some(end) = end_of(at, values.len()) else {
            return Ok(false);
        };
        let from = at as u32;
        lose_calls(&mut self.calls, &Loss::Written { from, to: end })?;
        know_all(&mut self.bytes, at, values)?;
        self.last = self.last.without(from, end);
        Ok(true)
    }

    /// Makes DT at most this: the dynamic bytes above it are lost.
    ///
    /// # Errors
    ///
    /// Returns `NoMemory` if it is out of memory.
    pub fn lowered(&mut self, dt: u16) -> Result<(), NoMemory>
        ensures { OnOk result ((s : Start) (a : Amounts)
            → spot_of s a self.new ≡ steps.lowered dt (spot_of s a self.old)) }
    {
        let from = dt as u32;
        lose_calls(&mut self.calls, &Loss::Lowered { dt })?;
        self.bytes.forget(from, PUBLIC as u32)?;
        self.last = self.last.without(from, from.max(PUBLIC as u32));
        self.registers.dt = dt;
        Ok(())
    }

    /// Pushes bytes of these values. Returns whether DT is an address after it.
    ///
    /// # Errors
    ///
    /// Returns `NoMemory` if it is out of memory.
    pub fn pushed(&mut self, values: &[Values]) -> Result<bool, NoMemory>
        ensures { IfOk result (λ done. done ≡ true → (s : Start) (a : Amounts)
            → spot_of s a self.new ≡ steps.pushed (map set_of values.now) (spot_of s a self.old)) }
    {
        let dt = self.dt();
        if values.len() > 65535 - dt as usize {
            return Ok(false);
        }
        if !self.written(dt, values)? {
            return Ok(false);
        }
        self.set_dt(dt + values.len() as u16);
        Ok(true)
    }

    /// Writes the two bytes of a number at an address, if there is one. Returns whether they end at the last address or
    /// below it.
    ///
    /// # Errors
    ///
    /// Returns `NoMemory` if it is out of memory.
    pub fn answer_set(&mut self, at: u16, number: Option<u16>) -> Result<bool, NoMemory>
        ensures { IfOk result (λ done. done ≡ true → (s : Start) (a : Amounts)
            → spot_of s a self.new ≡ steps.answer_set at number (spot_of s a self.old)) }
    {
        match number {
            None => Ok(true),
            Some(number) => {
                let pair = pair_of(number);
                self.written(at, &pair)
            }
        }
    }
}
