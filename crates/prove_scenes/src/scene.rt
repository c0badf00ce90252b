// The frame that stands for all frames of a place.
ghost use Rattle.std.specs.Prelude.{◌≡◌, ◌≤◌, ◌+◌, ◌-◌, ◌++◌, length, true, false, IfOk, IfSome, OnOk};
ghost use Rattle.model_machine.specs.model_device.specs.Bytes.{bytes2, splice};
ghost use Rattle.model_machine.specs.model_device.specs.Card.{App};
ghost use Rattle.model_prove.specs.Keys.{PlaceKey};
ghost use Rattle.model_prove.specs.Splits.{stand_in, with_byte, with_values};
ghost use Rattle.prove_scenes.specs.Scenes.{IsSized, HasRegisters, EndsInStack, scene_of, stack_under};

use crate::segment::Segment;
use model_device::{NoMemory, bytes_of};
use std::alloc::Global;
use std::marker::Model;

/// The address of the first dynamic byte.
pub const DYNAMIC: u16 = 0x8000;

/// The greatest address at which the dynamic segment ends.
pub const DYNAMIC_END: u16 = 0x8200;

/// The address of the first public byte.
pub const PUBLIC: u16 = 0xC000;

/// The address after the last public byte.
pub const PUBLIC_END: u16 = 0xC411;

/// The numbers of bytes of an application's code, static segment and session, and its access list.
#[derive(Clone, Copy, Debug, PartialEq, Eq)]
pub struct Sizes {
    pub code: u16,
    pub fixed: u16,
    pub session: u16,
    pub deny: u16,
}

/// An open call: DT right above its four saved bytes, the saved LB, and the saved place.
#[derive(Clone, Copy, Debug, PartialEq, Eq)]
pub struct OpenCall {
    pub dt: u16,
    pub lb: u16,
    pub at: u16,
}

/// The registers of a place, and its newest open call.
#[derive(Clone, Copy, Debug, PartialEq, Eq)]
pub struct Registers {
    pub at: u16,
    pub c: bool,
    pub z: bool,
    pub dt: u16,
    pub lb: u16,
    pub protected: bool,
    pub newest: Option<OpenCall>,
}

/// A frame and the public segment around it, which stand for all of a place: their bytes are zeros, but for those that
/// were set and those that the newest call saved.
#[derive(Drop)]
pub struct Scene {
    pub(crate) code_len: u16,
    pub(crate) session: u16,
    pub(crate) deny: u16,
    pub(crate) fixed: Segment,
    pub(crate) dynamic: Segment,
    pub(crate) dt: u16,
    pub(crate) lb: u16,
    pub(crate) at: u16,
    pub(crate) c: bool,
    pub(crate) z: bool,
    pub(crate) protected: bool,
    pub(crate) public: Segment,
}

impl Model for Scene {
    ghost use Rattle.model_prove.specs.Splits.{Scene};
    ghost use Rattle.prove_scenes.specs.Scenes.{scene_value, KeepsScene};

    ghost Value = { Scene };

    ghost view = { scene_value };

    ghost invariant = { KeepsScene };
}

impl Scene {
    /// Returns the frame that stands for those of a place, or `None` if its registers lie in no segment: its registers
    /// are those of the place, its bytes zeros.
    ///
    /// # Errors
    ///
    /// Returns `NoMemory` if it is out of memory.
    #[tactic(auto, using(crate::proofs::SceneLemmas::stands_in))]
    pub fn stand_in(
        alloc: Global,
        sizes: &Sizes,
        place: &Registers,
    ) -> Result<Option<Scene>, NoMemory>
        ensures { IfOk result (λ r. IfSome r (λ s. (app : App) (k : PlaceKey) → IsSized app sizes.now
            → HasRegisters k place.now → s ≡ stand_in app k)) }
    {
        Scene::of(alloc, sizes, place)
    }

    // The scene of a place, if its registers lie in the dynamic segment.
    fn of(alloc: Global, sizes: &Sizes, place: &Registers) -> Result<Option<Scene>, NoMemory>
        ensures { IfOk result (λ r. IfSome r (λ s. s ≡ scene_of sizes.now place.now)) }
    {
        if sizes.fixed > 4096 || !has_stack(sizes, place) || !has_call(place.newest) {
            return Ok(None);
        }
        Ok(Some(Scene {
            code_len: sizes.code,
            session: sizes.session,
            deny: sizes.deny,
            fixed: Segment::new(alloc, sizes.fixed),
            dynamic: stack_of(alloc, place.newest)?,
            dt: place.dt,
            lb: place.lb,
            at: place.at,
            c: place.c,
            z: place.z,
            protected: place.protected,
            public: Segment::new(alloc, PUBLIC_END - PUBLIC),
        }))
    }

    /// Sets the code address, and nothing else.
    pub fn go(&mut self, at: u16)
        ensures { self.new ≡ record self.old { frame = record self.old.frame { at = at } } }
    {
        self.at = at;
    }

    /// Sets the byte at an address, and returns `true`; or `false`, if the scene has no such byte.
    ///
    /// # Errors
    ///
    /// Returns `NoMemory` if it is out of memory.
    pub fn set_byte(&mut self, at: u16, value: u8) -> Result<bool, NoMemory>
        ensures set { IfOk result (λ set. set ≡ true → self.new ≡ with_byte self.old (at, value)) }
    {
        let place = at as usize;
        if place < self.fixed.len() {
            self.fixed.put(place, &[value])?;
            return Ok(true);
        }
        if at < PUBLIC {
            let i = at.saturating_sub(DYNAMIC) as usize;
            if i >= self.dynamic.len() {
                return Ok(false);
            }
            self.dynamic.put(i, &[value])?;
            return Ok(true);
        }
        let i = (at - PUBLIC) as usize;
        if i >= self.public.len() {
            return Ok(false);
        }
        self.public.put(i, &[value])?;
        Ok(true)
    }

    /// Sets bytes in their order, and returns `true`; or `false`, if the scene has not all of them.
    ///
    /// # Errors
    ///
    /// Returns `NoMemory` if it is out of memory.
    pub fn set_bytes(&mut self, bytes: &[(u16, u8)]) -> Result<bool, NoMemory>
        ensures set { IfOk result (λ set. set ≡ true → self.new ≡ with_values self.old bytes.now) }
    {
        for (at, value) in bytes {
            if !self.set_byte(*at, *value)? {
                return Ok(false);
            }
        }
        Ok(true)
    }
}

// Whether DT lies between the floor and the end of the dynamic segment.
fn has_stack(sizes: &Sizes, place: &Registers) -> bool
    ensures low { result ≡ true → 0x8000 + sizes.now.session ≤ place.now.dt }
    ensures high { result ≡ true → place.now.dt ≤ 0x8200 }
{
    DYNAMIC as u32 + sizes.session as u32 <= place.dt as u32 && place.dt <= DYNAMIC_END
}

// Whether a call, if there is one, ends in the dynamic segment.
fn has_call(newest: Option<OpenCall>) -> bool
    ensures { result ≡ true → EndsInStack newest }
{
    match newest {
        Some(call) => call.dt <= DYNAMIC_END,
        None => true,
    }
}

// The dynamic bytes under a newest call.
fn stack_of(alloc: Global, newest: Option<OpenCall>) -> Result<Segment, NoMemory>
    requires { EndsInStack newest }
    ensures { IfOk result (λ bytes. bytes ≡ stack_under newest) }
{
    let mut bytes = Segment::new(alloc, 512);
    if let Some(call) = newest {
        save(&mut bytes, &call)?;
    }
    Ok(bytes)
}

// Writes what a call saved.
fn save(bytes: &mut Segment, call: &OpenCall) -> Result<(), NoMemory>
    requires room { length bytes.old ≡ 512 }
    requires end { call.now.dt ≤ 0x8200 }
    ensures { OnOk result (bytes.new ≡ splice bytes.old (call.now.dt - 4 - 0x8000)
        (bytes2 call.now.lb ++ bytes2 call.now.at)) }
{
    let from = call.dt.saturating_sub(4).saturating_sub(DYNAMIC) as usize;
    let [a, b] = bytes_of(call.lb);
    let [c, d] = bytes_of(call.at);
    bytes.put(from, &[a, b, c, d])
}
