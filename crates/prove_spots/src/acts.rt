// What acts make of a place.
ghost use Rattle.std.specs.Prelude.{◌≡◌, true, ◌-◌, map, length, IfOk};
ghost use Rattle.prove_facts.specs.model_rules.specs.Keeping.{Amounts};
ghost use Rattle.prove_facts.specs.model_prove.specs.Arrivals.{Setting, static_size};
ghost use Rattle.prove_facts.specs.model_prove.specs.Keys.{Start};
ghost use Rattle.prove_facts.specs.model_prove.specs.Steps as steps;
ghost use Rattle.prove_facts.specs.Sets.{set_of};
ghost use Rattle.prove_scenes.specs.ShapeValues.{act_value};
ghost use Rattle.prove_spots.specs.Grounds.{spot_of};

use crate::spot::Spot;
use model_device::NoMemory;
use prove_facts::Values;
use prove_scenes::Act;
use std::alloc::Global;

/// The addresses of the status and the length of a reply in the public segment.
const STATUS: u16 = 0xC40F;

const LENGTH: u16 = 0xC40D;

impl Spot {
    /// Does an act, with these values of the bytes that it writes or pushes; DT is already lowered, and `fixed` is the
    /// number of static bytes. Returns whether it could.
    ///
    /// # Errors
    ///
    /// Returns `NoMemory` if it is out of memory.
    pub fn acted(
        &mut self,
        alloc: Global,
        fixed: u16,
        act: &Act,
        values: &[Values],
    ) -> Result<bool, NoMemory>
        ensures { IfOk result (λ done. done ≡ true → (x : Setting) (s : Start) (a : Amounts) → static_size x ≡ fixed
            → spot_of s a self.new ≡ steps.acted x (act_value act.now) (map set_of values.now) (spot_of s a self.old)) }
    {
        match act {
            Act::Stays => Ok(true),
            Act::Answers { sw, la } => self.answered(*sw, *la),
            Act::Jumps { taken, to } => {
                self.jumped(*taken, *to);
                Ok(true)
            }
            Act::Calls { taken, to } => self.called_if(*taken, *to),
            Act::Returns { less, .. } => {
                let to = self.lb().saturating_sub(4);
                self.returned(to.saturating_sub(*less as u16), values)
            }
            Act::Pushes { .. } => self.pushed(values),
            Act::Replaces { .. } => self.replaced(values),
            Act::Writes { at, .. } => self.written(*at, values),
            Act::Protects { mode } => self.protection_set(alloc, fixed, *mode),
        }
    }

    // Sets status and length of the reply, if they are set.
    fn answered(&mut self, sw: Option<u16>, la: Option<u16>) -> Result<bool, NoMemory>
        ensures { IfOk result (λ done. done ≡ true → (s : Start) (a : Amounts)
            → spot_of s a self.new ≡ steps.answer_set 0xC40D la (steps.answer_set 0xC40F sw (spot_of s a self.old))) }
    {
        if !self.answer_set(STATUS, sw)? {
            return Ok(false);
        }
        self.answer_set(LENGTH, la)
    }

    // Replaces the bytes on top.
    fn replaced(&mut self, values: &[Values]) -> Result<bool, NoMemory>
        ensures { IfOk result (λ done. done ≡ true → (s : Start) (a : Amounts)
            → spot_of s a self.new
            ≡ steps.written (self.old.dt - length values.now) (map set_of values.now) (spot_of s a self.old)) }
    {
        let dt = self.dt() as usize;
        self.written(dt.saturating_sub(values.len()) as u16, values)
    }
}
