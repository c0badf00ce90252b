// A frame of the application: its registers, its open calls, and what is known of its bytes.
use model_device::NoMemory;
use prove_facts::{Block, Facts, Form, Origin, Values, push};
use prove_keys::{Call, DYNAMIC, DYNAMIC_END, Known, PUBLIC, PUBLIC_END, Registers, touches};
use std::alloc::Global;

/// The sizes of the application, and the blocks of its lines of sums.
#[derive(Clone, Copy)]
pub struct Sizes<'a> {
    pub code: u16,
    pub fixed: u16,
    pub session: u16,
    pub blocks: &'a [Block],
}

impl<'a> Sizes<'a> {
    pub fn floor(&self) -> u16 {
        DYNAMIC.saturating_add(self.session)
    }
}

#[derive(Drop)]
pub struct State {
    pub registers: Registers,
    pub calls: Vec<Call>,
    pub known: Known,
}

/// A byte: its values, and where it comes from.
#[derive(Clone, Copy, PartialEq, Eq, Debug)]
pub struct Byte {
    pub values: Values,
    pub origin: Origin,
}

#[derive(Clone, Copy, PartialEq, Eq, Debug)]
pub enum Segment {
    Static,
    Dynamic,
    Public,
}

// The number of some bytes, at most 65,535.
fn length_of(bytes: &[Byte]) -> u16 {
    bytes.len().min(65535) as u16
}

/// The segment of n bytes at an address, n at least 1, if they lie whole in one under this DT.
pub fn where_is(sizes: &Sizes<'_>, dt: u16, at: u16, n: u16) -> Option<Segment> {
    let end = at as u32 + n as u32;
    if end <= sizes.fixed as u32 {
        Some(Segment::Static)
    } else if at >= DYNAMIC && end <= dt as u32 {
        Some(Segment::Dynamic)
    } else if at >= PUBLIC && end <= PUBLIC_END as u32 {
        Some(Segment::Public)
    } else {
        None
    }
}

pub fn is_outside(sizes: &Sizes<'_>, dt: u16, at: u16, n: u16) -> bool {
    n != 0 && where_is(sizes, dt, at, n).is_none()
}

impl State {
    pub fn copied(&self, alloc: Global) -> Result<State, NoMemory> {
        Ok(State {
            registers: self.registers,
            calls: Vec::from_slice(alloc, self.calls.as_slice())?,
            known: self.known.copied(alloc)?,
        })
    }

    /// The static bytes as power would leave them.
    pub fn kept(&self, alloc: Global) -> Result<Facts, NoMemory> {
        if self.registers.protected {
            self.known.kept.copied(alloc)
        } else {
            self.known.read.part(alloc, 0, DYNAMIC as u32)
        }
    }

    pub fn values(&self, at: u16) -> Values {
        self.known.read.at(at)
    }

    pub fn values_of(&self, alloc: Global, at: u16, n: u16) -> Result<Vec<Values>, NoMemory> {
        let mut out = Vec::new(alloc);
        for i in 0..n {
            push(&mut out, self.values(at.saturating_add(i)))?;
        }
        Ok(out)
    }

    pub fn bytes_of(&self, alloc: Global, at: u16, n: u16) -> Result<Vec<Byte>, NoMemory> {
        let mut out = Vec::new(alloc);
        for i in 0..n {
            let place = at.saturating_add(i);
            push(
                &mut out,
                Byte {
                    values: self.values(place),
                    origin: self.known.sums.origin(place),
                },
            )?;
        }
        Ok(out)
    }

    /// A byte has only some of the values that it had.
    pub fn narrow(&mut self, at: u16, values: &Values) -> Result<(), NoMemory> {
        let there = self.values(at).and(values);
        self.known.read.set(at, there)
    }

    pub fn narrow_all(&mut self, at: u16, values: &[Values]) -> Result<(), NoMemory> {
        let mut place = at;
        for one in values {
            self.narrow(place, one)?;
            place = place.saturating_add(1);
        }
        Ok(())
    }

    /// Whether no values are left for some of n bytes.
    pub fn is_empty(&self, at: u16, n: u16) -> bool {
        for i in 0..n {
            if self.values(at.saturating_add(i)).is_empty() {
                return true;
            }
        }
        false
    }

    fn put(&mut self, at: u16, bytes: &[Byte]) -> Result<(), NoMemory> {
        let mut place = at;
        for byte in bytes {
            self.known.read.set(place, byte.values)?;
            self.known.sums.set_origin(place, byte.origin)?;
            place = place.saturating_add(1);
        }
        Ok(())
    }

    /// Calls with a byte below DT or written over are lost, and those before it.
    fn lose_calls(&mut self, alloc: Global, from: u32, to: u32) -> Result<(), NoMemory> {
        let mut lost = 0;
        for (i, call) in self.calls.iter().enumerate() {
            if (call.end as u32) > self.registers.dt as u32
                || touches(call.end.saturating_sub(4), 4, from, to)
            {
                lost = i.saturating_add(1);
            }
        }
        self.drop_calls(alloc, lost)
    }

    /// The first calls are lost.
    pub fn drop_calls(&mut self, alloc: Global, lost: usize) -> Result<(), NoMemory> {
        if lost == 0 {
            return Ok(());
        }
        let mut left = Vec::new(alloc);
        for call in self.calls.iter().skip(lost) {
            push(&mut left, *call)?;
        }
        self.calls = left;
        Ok(())
    }

    /// Writes bytes at an address that is whole in a segment. Of sums only what it touches ends.
    pub fn write(
        &mut self,
        alloc: Global,
        sizes: &Sizes<'_>,
        at: u16,
        bytes: &[Byte],
    ) -> Result<(), NoMemory> {
        self.known
            .sums
            .write(alloc, sizes.blocks, at as u32, length_of(bytes) as u32)?;
        self.write_quiet(alloc, at, bytes)
    }

    /// Writes bytes at an address by which its block moves.
    pub fn write_moved(
        &mut self,
        alloc: Global,
        sizes: &Sizes<'_>,
        at: u16,
        bytes: &[Byte],
        moved: &Option<Form>,
        times: u128,
    ) -> Result<(), NoMemory> {
        match moved {
            Some(form) => {
                let moved = Block {
                    at,
                    n: length_of(bytes),
                };
                self.known
                    .sums
                    .move_block(alloc, sizes.blocks, &moved, form, times)?;
            }
            None => self
                .known
                .sums
                .write(alloc, sizes.blocks, at as u32, length_of(bytes) as u32)?,
        }
        self.write_quiet(alloc, at, bytes)
    }

    fn write_quiet(&mut self, alloc: Global, at: u16, bytes: &[Byte]) -> Result<(), NoMemory> {
        let end = at as u32 + length_of(bytes) as u32;
        self.known.last = self.known.last.without(at as u32, end);
        self.put(at, bytes)?;
        self.lose_calls(alloc, at as u32, end)
    }

    /// Lowers DT.
    pub fn pop(&mut self, alloc: Global, sizes: &Sizes<'_>, n: u16) -> Result<(), NoMemory> {
        let dt = self.registers.dt.saturating_sub(n);
        self.registers.dt = dt;
        self.known.read.forget(dt as u32, DYNAMIC_END as u32 + 1)?;
        self.known.last = self.known.last.without(dt as u32, DYNAMIC_END as u32 + 1);
        self.known.sums.pop(alloc, sizes.blocks, dt)?;
        self.lose_calls(alloc, 0, 0)
    }

    /// Raises DT over bytes.
    pub fn push(&mut self, bytes: &[Byte]) -> Result<(), NoMemory> {
        let dt = self.registers.dt;
        self.registers.dt = dt.saturating_add(length_of(bytes));
        self.put(dt, bytes)
    }

    pub fn is_under(&self, sizes: &Sizes<'_>, n: u16) -> bool {
        (self.registers.dt as u32) < sizes.floor() as u32 + n as u32
    }

    pub fn is_over(&self, n: u16) -> bool {
        self.registers.dt as u32 + n as u32 > DYNAMIC_END as u32
    }

    pub fn register(&self, sizes: &Sizes<'_>, tag: u8) -> u16 {
        match tag {
            1 => 0,
            2 => sizes.fixed,
            3 => DYNAMIC,
            4 => self.registers.lb,
            5 => self.registers.dt,
            6 => PUBLIC,
            _ => PUBLIC_END,
        }
    }

    /// The place of the operand: with tag 0 it begins k bytes below the top of the stack.
    pub fn operand(&self, sizes: &Sizes<'_>, tag: u8, off: i16, k: u16) -> Option<u16> {
        if tag == 0 {
            return Some(self.registers.dt.saturating_sub(k));
        }
        let at = self.register(sizes, tag) as i32 + off as i32;
        if at >= 0 && at < 65536 {
            Some(at as u16)
        } else {
            None
        }
    }

    /// The public bytes are any.
    pub fn lose_public(&mut self) -> Result<(), NoMemory> {
        self.known.read.forget(PUBLIC as u32, 0x10000)?;
        self.known.last = self.known.last.without(PUBLIC as u32, 0x10000);
        self.known.sums.lose_public();
        Ok(())
    }

    /// What waits is dropped.
    pub fn drop_waiting(&mut self, alloc: Global) -> Result<(), NoMemory> {
        if !self.registers.protected {
            return Ok(());
        }
        let mut read = self.known.kept.copied(alloc)?;
        read.append_part(&self.known.read, DYNAMIC as u32, 0x10000)?;
        self.known.read = read;
        self.known.last = self.known.last.without(0, DYNAMIC as u32);
        self.known.sums.drop_waiting(alloc)
    }

    /// Protection is on or off, where what is read is what is kept.
    pub fn protect(&mut self, alloc: Global, on: bool) -> Result<(), NoMemory> {
        self.registers.protected = on;
        self.known.kept = if on {
            self.known.read.part(alloc, 0, DYNAMIC as u32)?
        } else {
            Facts::new(alloc)
        };
        Ok(())
    }

    /// The session bytes and the static bytes as power would leave them.
    pub fn kept_and_session(&self, alloc: Global, sizes: &Sizes<'_>) -> Result<Facts, NoMemory> {
        let mut facts = self.kept(alloc)?;
        facts.append_part(&self.known.read, DYNAMIC as u32, sizes.floor() as u32)?;
        Ok(facts)
    }
}

pub fn plain(values: Values) -> Byte {
    Byte {
        values,
        origin: Origin::Unknown,
    }
}

pub fn constant(value: u8) -> Byte {
    Byte {
        values: Values::one(value),
        origin: Origin::Constant(value),
    }
}

pub fn known_byte(value: u8) -> Byte {
    Byte {
        values: Values::one(value),
        origin: Origin::Unknown,
    }
}
