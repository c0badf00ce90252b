// The bytes of a scene, at places of its segments and on its stack.
ghost use Rattle.std.specs.Prelude.{◌≡◌, ◌≤◌, ◌+◌, length, take, drop, cond, option_map};
ghost use Rattle.model_machine.specs.model_device.specs.Bytes.{num};
ghost use Rattle.model_machine.specs.Frame as model;
ghost use Rattle.model_machine.specs.Primitives as model_prims;
ghost use Rattle.prove_scenes.specs.Scenes.{frame_to};
ghost use Rattle.prove_scenes.specs.Places.{place_value};

use crate::scene::{DYNAMIC, PUBLIC, PUBLIC_END, Scene};
use crate::words::words_of;
use model_device::number_of;

/// A segment, and a place in it.
#[derive(Clone, Copy, Debug, PartialEq, Eq)]
pub enum Place {
    Static(u32),
    Dynamic(u32),
    Public(u32),
}

impl Scene {
    /// Returns the access list.
    pub fn deny(&self) -> u16
        ensures { result ≡ self.now.frame.deny }
    {
        self.deny
    }

    /// Returns DT.
    pub fn dt(&self) -> u16
        ensures value { result ≡ self.now.frame.dt }
        ensures low { 0x8000 ≤ result }
        ensures high { result ≤ 0x8200 }
    {
        self.dt
    }

    /// Returns the flag C.
    pub fn c(&self) -> bool
        ensures { result ≡ self.now.frame.c }
    {
        self.c
    }

    /// Returns both flags as a byte: 2 for C and 1 for Z.
    pub fn flags_byte(&self) -> u8
        ensures { result ≡ cond self.now.frame.c 2 0 + cond self.now.frame.z 1 0 }
    {
        match (self.c, self.z) {
            (true, true) => 3,
            (true, false) => 2,
            (false, true) => 1,
            (false, false) => 0,
        }
    }

    /// Returns the number of static bytes.
    pub fn fixed_len(&self) -> usize
        ensures value { result ≡ length self.now.frame.fixed }
        ensures most { result ≤ 4096 }
    {
        self.fixed.len()
    }

    /// Returns the place of `count` bytes at an address, if with this DT they lie whole in a segment.
    pub fn where_is(&self, dt: u16, at: u32, count: u32) -> Option<Place>
        ensures { option_map place_value result ≡ model.where_is (frame_to self.now dt) at count }
    {
        let end = at as usize + count as usize;
        if end <= self.fixed.len() {
            return Some(Place::Static(at));
        }
        if at >= DYNAMIC as u32 && end <= dt as usize {
            return Some(Place::Dynamic(at - DYNAMIC as u32));
        }
        if at >= PUBLIC as u32 && end <= PUBLIC_END as usize {
            return Some(Place::Public(at - PUBLIC as u32));
        }
        None
    }

    /// Returns whether `count` bytes at an address are not whole in a segment with this DT; no bytes always are.
    pub fn is_outside(&self, dt: u16, at: u32, count: u32) -> bool
        ensures { result ≡ model.is_outside (frame_to self.now dt) at count }
    {
        count != 0 && self.where_is(dt, at, count).is_none()
    }

    /// Returns whether `count` bytes at an address, if there is one, are not whole in a segment with this DT.
    pub fn no_access(&self, dt: u16, at: Option<u16>, count: u32) -> bool
        ensures { result ≡ model.no_access (frame_to self.now dt) at count }
    {
        match at {
            Some(at) => self.is_outside(dt, at as u32, count),
            None => true,
        }
    }

    /// Returns the `count` bytes at an address, with this DT; none, if they are not whole in a segment.
    #[tactic(auto, unfolding(model_machine::specs::Frame::bytes_at))]
    pub fn bytes_at(&self, dt: u16, at: u32, count: u32) -> &[u8]
        ensures value { result.now ≡ model.bytes_at (frame_to self.now dt) self.now.public at count }
        ensures short { length result.now ≤ count }
    {
        if count == 0 {
            return &[];
        }
        match self.where_is(dt, at, count) {
            Some(Place::Static(i)) => part(self.fixed.bytes(), i as usize, count as usize),
            Some(Place::Dynamic(i)) => part(self.dynamic.bytes(), i as usize, count as usize),
            Some(Place::Public(i)) => part(self.public.bytes(), i as usize, count as usize),
            None => &[],
        }
    }

    /// Returns the number in the two bytes at an address, with this DT.
    pub fn address_at(&self, dt: u16, at: u32) -> u16
        ensures { result ≡ model.address_at (frame_to self.now dt) self.now.public at }
    {
        number(self.bytes_at(dt, at, 2))
    }

    /// Returns the number in the two bytes at an address.
    pub fn address_here(&self, at: u32) -> u16
        ensures { result ≡ model.address_at self.now.frame self.now.public at }
    {
        self.address_at(self.dt, at)
    }

    /// Returns the byte at an address, with this DT.
    pub fn count_at(&self, dt: u16, at: u32) -> u8
        ensures { result ≡ model_prims.count_at (frame_to self.now dt) self.now.public at }
    {
        byte(self.bytes_at(dt, at, 1))
    }

    /// Returns whether with this DT a write of `count` bytes at an address would leave more than 64 words pending.
    #[tactic(auto, unfolding(model_machine::specs::Frame::too_many))]
    pub fn too_many(&self, dt: u16, at: u32, count: u32) -> bool
        ensures { result ≡ model.too_many (frame_to self.now dt) at count }
    {
        if !self.protected {
            return false;
        }
        match self.where_is(dt, at, count) {
            Some(Place::Static(i)) => words_of(i, count) > 64,
            _ => false,
        }
    }

    /// Returns whether a write of `count` bytes at an address would leave more than 64 words pending.
    pub fn too_many_here(&self, at: u32, count: u32) -> bool
        ensures { result ≡ model.too_many self.now.frame at count }
    {
        self.too_many(self.dt, at, count)
    }

    /// Returns the `count` bytes of the stack that begin `below` bytes below its top.
    pub fn stack_bytes(&self, below: u16, count: u16) -> &[u8]
        ensures value { result.now ≡ model.stack_bytes self.now.frame below count }
        ensures short { length result.now ≤ count }
    {
        let from = self.dt.saturating_sub(below).saturating_sub(DYNAMIC);
        part(self.dynamic.bytes(), from as usize, count as usize)
    }

    /// Returns the number in the two bytes that begin `below` bytes below the top of the stack.
    pub fn number_below_top(&self, below: u16) -> u16
        ensures { result ≡ model_prims.number_below_top self.now.frame below }
    {
        number(self.stack_bytes(below, 2))
    }

    /// Returns the byte on top of the stack.
    pub fn top_byte(&self) -> u8
        ensures { result ≡ num (model.top self.now.frame 1) }
    {
        byte(self.stack_bytes(1, 1))
    }

    /// Returns the number that lies `below` bytes below LB.
    pub fn saved_address(&self, below: u16) -> u16
        ensures { result ≡ model.saved_address self.now.frame below }
    {
        let from = self.lb.saturating_sub(below).saturating_sub(DYNAMIC);
        number(part(self.dynamic.bytes(), from as usize, 2))
    }
}

// The bytes of a list from a place on, at most `count` of them.
#[tactic(auto, using(crate::proofs::PartLemmas::part_is))]
fn part(bytes: &[u8], from: usize, count: usize) -> &[u8]
    ensures value { result.now ≡ take count (drop from bytes.now) }
    ensures short { length result.now ≤ count }
{
    let from = from.min(bytes.len());
    let count = count.min(bytes.len() - from);
    &bytes[from..from + count]
}

// The number that at most two bytes are.
fn number(bytes: &[u8]) -> u16
    requires { length bytes.now ≤ 2 }
    ensures { result ≡ num bytes.now }
{
    match bytes {
        [a, b] => number_of(*a, *b),
        [a] => *a as u16,
        _ => 0,
    }
}

// The number that at most one byte is.
fn byte(bytes: &[u8]) -> u8
    requires { length bytes.now ≤ 1 }
    ensures { result ≡ num bytes.now }
{
    match bytes {
        [a] => *a,
        _ => 0,
    }
}
