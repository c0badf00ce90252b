// What jumps, calls and returns make of a place.
ghost use Rattle.std.specs.Prelude.{◌≡◌, ◌++◌, [], ◌∷◌, true, map, IfSome, IsNone, IfOk, OnOk};
ghost use Rattle.model_device.specs.Bytes.{bytes2};
ghost use Rattle.prove_facts.specs.model_rules.specs.Keeping.{Amounts};
ghost use Rattle.prove_facts.specs.model_prove.specs.Keys.{Start};
ghost use Rattle.prove_facts.specs.model_prove.specs.Steps as steps;
ghost use Rattle.prove_facts.specs.Sets.{set_of};
ghost use Rattle.prove_keys.specs.Keys.{call_of};
ghost use Rattle.prove_spots.specs.Grounds.{spot_of, with_call, with_calls, with_saved};

use crate::calls::{pop_call, push_call};
use crate::spot::Spot;
use model_device::{NoMemory, bytes_of};
use prove_facts::Values;
use prove_keys::Call;

// The values of the four bytes that a call saves.
fn saved_of(lb: u16, place: u16) -> [Values; 4]
    ensures { map set_of result ≡ steps.sets (bytes2 lb ++ bytes2 place) }
{
    let [a, b] = bytes_of(lb);
    let [c, d] = bytes_of(place);
    [
        Values::one(a),
        Values::one(b),
        Values::one(c),
        Values::one(d),
    ]
}

impl Spot {
    /// Goes on at a place, if a jump is taken.
    pub fn jumped(&mut self, taken: bool, to: u16)
        ensures { (s : Start) (a : Amounts) → spot_of s a self.new ≡ steps.jumped taken to (spot_of s a self.old) }
    {
        if taken {
            self.registers.at = to;
        }
    }

    /// Opens a call, if it is taken. Returns whether DT is an address after it.
    ///
    /// # Errors
    ///
    /// Returns `NoMemory` if it is out of memory.
    pub fn called_if(&mut self, taken: bool, to: u16) -> Result<bool, NoMemory>
        ensures { IfOk result (λ done. done ≡ true → (s : Start) (a : Amounts)
            → spot_of s a self.new ≡ steps.called_if taken to (spot_of s a self.old)) }
    {
        if !taken {
            return Ok(true);
        }
        self.called(to)
    }

    /// Opens a call: its four bytes are pushed. Returns whether DT is an address after it.
    ///
    /// # Errors
    ///
    /// Returns `NoMemory` if it is out of memory.
    pub fn called(&mut self, to: u16) -> Result<bool, NoMemory>
        ensures { IfOk result (λ done. done ≡ true → (s : Start) (a : Amounts)
            → spot_of s a self.new ≡ steps.called to (spot_of s a self.old)) }
    {
        let dt = self.dt();
        let lb = self.lb();
        let place = self.at();
        if dt > 65535 - 4 {
            return Ok(false);
        }
        let saved = saved_of(lb, place);
        if !self.pushed(&saved)? {
            return Ok(false);
        }
        let end = dt + 4;
        self.open(Call { end, lb, place }, to)?;
        Ok(true)
    }

    // Opens a call whose bytes are pushed.
    fn open(&mut self, call: Call, to: u16) -> Result<(), NoMemory>
        ensures { OnOk result (self.new ≡ with_call to (call_of call) self.old) }
    {
        self.registers.lb = call.end;
        self.registers.at = to;
        push_call(&mut self.calls, call)?;
        Ok(())
    }

    /// Returns through the newest call, if one is open, which leaves those before it open, with these values of the
    /// bytes that move over it and the bytes below it. Returns whether they end below the last address.
    ///
    /// # Errors
    ///
    /// Returns `NoMemory` if it is out of memory.
    pub fn returned(&mut self, to: u16, values: &[Values]) -> Result<bool, NoMemory>
        ensures { IfOk result (λ done. done ≡ true → (s : Start) (a : Amounts)
            → spot_of s a self.new
            ≡ steps.returned_by self.old.calls to (map set_of values.now) (spot_of s a self.old)) }
    {
        match self.newest() {
            None => Ok(true),
            Some(call) => self.came_back(&call, to, values),
        }
    }

    // Takes the newest open call off.
    fn newest(&mut self) -> Option<Call>
        ensures none { IsNone result → (self.old.calls ≡ []) × (self.new ≡ self.old) }
        ensures some { IfSome result (λ call.
            (self.old.calls ≡ call_of call ∷ self.new.calls) × (self.new ≡ with_calls self.new.calls self.old)) }
    {
        match pop_call(&mut self.calls) {
            Some(call) => Some(call),
            None => None,
        }
    }

    // Returns through a call that was taken off the open ones.
    fn came_back(&mut self, call: &Call, to: u16, values: &[Values]) -> Result<bool, NoMemory>
        ensures { IfOk result (λ done. done ≡ true → (s : Start) (a : Amounts)
            → spot_of s a self.new
            ≡ steps.returned (call_of call.now) self.old.calls to (map set_of values.now) (spot_of s a self.old)) }
    {
        if values.len() > 65535 - to as usize {
            return Ok(false);
        }
        self.leave(call);
        if !self.written(to, values)? {
            return Ok(false);
        }
        self.lowered(to + values.len() as u16)?;
        Ok(true)
    }

    // Takes LB and the place from a call.
    fn leave(&mut self, call: &Call)
        ensures { self.new ≡ with_saved (call_of call.now) self.old }
    {
        self.registers.lb = call.lb;
        self.registers.at = call.place;
    }
}
