// Addresses of operands, places to go to, and the bounds of the stack.
ghost use Rattle.std.specs.Prelude.{◌≡◌, Some};
ghost use Rattle.model_machine.specs.Frame as model;
ghost use Rattle.model_machine.specs.Primitives.{in_range};
ghost use Rattle.model_machine.specs.Row as row;
ghost use Rattle.prove_scenes.specs.Scenes.{frame_to};

use crate::scene::{DYNAMIC, DYNAMIC_END, PUBLIC, PUBLIC_END, Scene};

impl Scene {
    /// Returns whether a condition holds: 1 to 7 are EQ, LT, LE, GT, GE, NE and ALL; 0 always holds.
    pub fn holds(&self, cond: u8) -> bool
        ensures { result ≡ row.holds cond self.now.frame }
    {
        match cond {
            1 => self.z,
            2 => self.c,
            3 => self.c || self.z,
            4 => !self.c && !self.z,
            5 => !self.c,
            6 => !self.z,
            _ => true,
        }
    }

    /// Returns whether a place to go to is not in the code.
    pub fn no_place(&self, to: Option<u16>) -> bool
        ensures { result ≡ row.no_place self.now.frame to }
    {
        match to {
            Some(to) => to >= self.code_len,
            None => true,
        }
    }

    /// Returns the place that lies a distance after the code address, if it is an address.
    pub fn moved(&self, d: i8) -> Option<u16>
        ensures { result ≡ model.moved_address self.now.frame.at d }
    {
        moved_address(self.at, d as i16)
    }

    /// Returns the address of a jump or a call: under condition 0 the two bytes on top of the stack.
    pub fn target(&self, cond: u8, to: u16) -> u16
        ensures { result ≡ row.target self.now.frame cond to }
    {
        if cond == 0 {
            return self.number_below_top(2);
        }
        to
    }

    /// Returns the address of a register plus an offset, if it is one. Tags 1 to 7 are SB, ST, DB, LB, DT, PB and PT.
    pub fn resolve(&self, tag: u8, off: i16) -> Option<u16>
        ensures { result ≡ model.resolve self.now.frame tag off }
    {
        moved_address(self.register(tag), off)
    }

    // The value of the register with a tag.
    fn register(&self, tag: u8) -> u16
        ensures { result ≡ model.register self.now.frame tag }
    {
        match tag {
            1 => 0,
            2 => self.fixed.len() as u16,
            3 => DYNAMIC,
            4 => self.lb,
            5 => self.dt,
            6 => PUBLIC,
            _ => PUBLIC_END,
        }
    }

    /// Returns the place of an operand, if there is one; with tag 0 it begins `below` bytes below the top of the stack.
    pub fn operand(&self, tag: u8, off: i16, below: u16) -> Option<u16>
        ensures { result ≡ row.operand self.now.frame tag off below }
    {
        if tag == 0 {
            return Some(self.dt.saturating_sub(below));
        }
        self.resolve(tag, off)
    }

    /// Returns the place of an operand, or 0.
    pub fn place_of(&self, tag: u8, off: i16, below: u16) -> u16
        ensures { result ≡ row.place_of self.now.frame tag off below }
    {
        self.operand(tag, off, below).unwrap_or(0)
    }

    /// Returns the base of an indexed address, if there is one: with tag 0 it lies below the index on the stack.
    pub fn index_base(&self, tag: u8, off: i16) -> Option<u16>
        ensures { result ≡ row.index_base self.now.frame tag off }
    {
        if tag == 0 {
            return Some(self.number_below_top(3));
        }
        self.resolve(tag, off)
    }

    /// Returns an indexed address, if it is one: base plus index times size.
    pub fn indexed_address(&self, tag: u8, off: i16, size: u8) -> Option<u16>
        ensures { result ≡ row.indexed_address self.now.frame tag off size }
    {
        let index = self.top_byte() as u32;
        match self.index_base(tag, off) {
            Some(base) => in_two_bytes(base as u32 + index * size as u32),
            None => None,
        }
    }

    /// Returns whether fewer than `count` bytes are above the floor.
    pub fn is_under(&self, count: u16) -> bool
        ensures { result ≡ model.is_under self.now.frame count }
    {
        (self.dt as u32) < DYNAMIC as u32 + self.session as u32 + count as u32
    }

    /// Returns whether `count` bytes more than up to this DT would pass the end of the stack.
    pub fn is_over(&self, dt: u16, count: u16) -> bool
        ensures { result ≡ model.is_over (frame_to self.now dt) count }
    {
        (DYNAMIC_END as u32) < dt as u32 + count as u32
    }

    /// Returns whether a call has no room on the stack, once its address is popped.
    pub fn is_full_after(&self, cond: u8) -> bool
        ensures { result ≡ model.is_over (row.without_target self.now.frame cond) 4 }
    {
        if cond == 0 {
            return self.is_over(self.dt - 2, 4);
        }
        self.is_over(self.dt, 4)
    }

    /// Returns whether no call lies below with `i` bytes under it, or fewer than `o` bytes lie above it.
    pub fn no_return(&self, i: u8, o: u8) -> bool
        ensures { result ≡ model.no_return self.now.frame i o }
    {
        let floor = DYNAMIC as u32 + self.session as u32;
        !(floor + 4 + i as u32 <= self.lb as u32 && self.lb as u32 + o as u32 <= self.dt as u32)
    }
}

// A number plus a signed one, if that is an address.
fn moved_address(from: u16, by: i16) -> Option<u16>
    ensures { result ≡ model.moved_address from by }
{
    from.checked_add_signed(by)
}

// A number, if it is an address.
fn in_two_bytes(at: u32) -> Option<u16>
    ensures { result ≡ model.in_two_bytes at }
{
    if at < 65536 {
        return Some(at as u16);
    }
    None
}

/// Returns whether a number is from `low` to `high`.
pub fn in_range(low: u16, high: u16, n: u16) -> bool
    ensures { result ≡ in_range low high n }
{
    low <= n && n <= high
}

/// Returns `n` with tag 0, when the operand is on the stack, else `m`.
pub fn on_stack(tag: u8, n: u16, m: u16) -> u16
    ensures { result ≡ row.on_stack tag n m }
{
    if tag == 0 { n } else { m }
}
