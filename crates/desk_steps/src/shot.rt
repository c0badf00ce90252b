// The bytes that a frame reads between two turns.
ghost use Rattle.std.specs.Prelude.{◌≡◌, ◌+◌, ◌-◌, ◌≤◌, length, take, IsSome, Some};
ghost use Rattle.mc_text.specs.model_machine.specs.Frame.{dynamic_base, static_bytes, with_la, with_sw};
ghost use Rattle.mc_words.specs.model_device.specs.Bytes.{bytes2, lookup, splice};
ghost use Rattle.mc_bank.specs.Bank.{app_of};
ghost use Rattle.mc_card.specs.Parts.{IsUp, card_in};
ghost use Rattle.mc_segs.specs.HeldFrames.{CanRun, frame_on_bank};
ghost use Rattle.law_steps.specs.Readings.{reading_of};
ghost use Rattle.law_steps.specs.Spans.{look_register, look_resolve};
ghost use Rattle.desk_steps.specs.Shots.{dynamics, look_of, shot_byte, shot_number, shot_reading, statics};

use mc_bank::Bank;
use mc_card::Card;
use mc_nvm::Nvm;
use mc_segs::{Frame, Place, Public, look};
use mc_words::{Aid, bytes_of};

/// DB, the address of the first dynamic byte.
pub const DYNAMIC: u16 = 0x8000;

/// PB, the address of the first public byte.
pub const PUBLIC: u16 = 0xC000;

/// The bytes that a frame reads: static ones with those that wait for a commit over them, dynamic ones below DT with
/// zeros after them, and public ones; and its registers LB and DT.
#[derive(Drop)]
pub struct Shot {
    pub fixed: [u8; 4096],
    pub fixed_len: u16,
    pub dynamic: [u8; 512],
    pub lb: u16,
    pub dt: u16,
    pub public: [u8; 1041],
}

// Reads all static bytes of a frame.
fn read_static<B: Bank>(bank: &B, frame: &Frame, public: &Public, into: &mut [u8], len: usize)
    requires runs { CanRun B.Bank bank.now frame.now }
    requires size { len ≡ length frame.now.frame.fixed }
    requires room { len ≤ length into.old }
    ensures { take len into.new ≡ take (length (frame_on_bank B.Bank bank.now frame.now).fixed)
        (static_bytes (frame_on_bank B.Bank bank.now frame.now)) }
{
    let _whole = look(bank, frame, public, Place::Static(0), &mut into[..len]);
}

// Reads the dynamic bytes of a frame below DT.
fn read_dynamic<B: Bank>(bank: &B, frame: &Frame, public: &Public, into: &mut [u8], len: usize)
    requires runs { CanRun B.Bank bank.now frame.now }
    requires most { len ≤ 512 }
    requires room { len ≤ length into.old }
    ensures { 512 ≤ length frame.now.frame.dyn → take len into.new ≡ take len frame.now.frame.dyn }
{
    let _whole = look(bank, frame, public, Place::Dynamic(0), &mut into[..len]);
}

// Writes a number in two bytes.
fn put_number(into: &mut [u8], at: usize, number: u16)
    requires { at + 2 ≤ length into.old }
    ensures { into.new ≡ splice into.old at (bytes2 number) }
{
    into[at..at + 2].copy_from_slice(&bytes_of(number));
}

impl Shot {
    /// Returns the shot of no frame: all its bytes are zero.
    pub fn blank() -> Shot {
        Shot {
            fixed: [0; 4096],
            fixed_len: 0,
            dynamic: [0; 512],
            lb: DYNAMIC,
            dt: DYNAMIC,
            public: [0; 1041],
        }
    }

    /// Becomes equal to another shot.
    pub fn copy(&mut self, other: &Shot)
        ensures lb { self.new.lb ≡ other.now.lb }
        ensures dt { self.new.dt ≡ other.now.dt }
        ensures size { self.new.fixed_len ≡ other.now.fixed_len }
        ensures reading { shot_reading self.new ≡ shot_reading other.now }
    {
        self.fixed = other.fixed;
        self.fixed_len = other.fixed_len;
        self.dynamic = other.dynamic;
        self.lb = other.lb;
        self.dt = other.dt;
        self.public = other.public;
    }

    /// Becomes the shot of a frame.
    pub fn take<B: Bank>(&mut self, bank: &B, frame: &Frame, public: &Public)
        requires { CanRun B.Bank bank.now frame.now }
        ensures lb { self.new.lb ≡ frame.now.frame.lb }
        ensures dt { self.new.dt ≡ frame.now.frame.dt }
        ensures size { self.new.fixed_len ≡ length (frame_on_bank B.Bank bank.now frame.now).fixed }
        ensures few { self.new.fixed_len ≤ 4096 }
        ensures high { self.new.dt ≤ 0x8200 }
        ensures whole { length public.now ≡ 1041 }
        ensures reading { 512 ≤ length frame.now.frame.dyn
            → shot_reading self.new ≡ reading_of (frame_on_bank B.Bank bank.now frame.now) public.now }
    {
        let dt = frame.dt();
        let len = bank.facts(frame.slot()).sizes.fixed;
        self.lb = frame.lb();
        self.dt = dt;
        self.fixed_len = len;
        self.dynamic = [0; 512];
        read_static(bank, frame, public, &mut self.fixed, len as usize);
        read_dynamic(
            bank,
            frame,
            public,
            &mut self.dynamic,
            (dt - DYNAMIC) as usize,
        );
        self.public.copy_from_slice(public.bytes());
    }

    /// Has DT at an address, if that is lower.
    pub fn lower(&mut self, dt: u16)
        ensures lb { self.new.lb ≡ self.old.lb }
        ensures reading { shot_reading self.new ≡ record (shot_reading self.old)
            { dynamic = take (dt - dynamic_base) (dynamics self.old) } }
    {
        self.dt = self.dt.min(dt);
    }

    /// Has the static bytes that a card keeps of the application of a name.
    pub fn take_kept<N: Nvm>(&mut self, card: &Card<N>, aid: &Aid)
        requires { IsUp N.state card.now }
        ensures lb { self.new.lb ≡ self.old.lb }
        ensures reading { IsSome (lookup (card_in N.state card.now).apps aid.now)
            → shot_reading self.new ≡ record (shot_reading self.old)
            { fixed = (app_of (card_in N.state card.now).apps (Some aid.now)).fixed } }
    {
        if let Some(len) = card.static_len(aid) {
            self.fixed_len = len;
            card.static_of(aid, 0, &mut self.fixed[..len as usize]);
        }
    }

    /// Sets the length of the reply in the public bytes.
    pub fn set_la(&mut self, la: u16)
        ensures lb { self.new.lb ≡ self.old.lb }
        ensures reading { shot_reading self.new
            ≡ record (shot_reading self.old) { public = with_la self.old.public la } }
    {
        put_number(&mut self.public, 1037, la);
    }

    /// Sets the status of the reply in the public bytes.
    pub fn set_sw(&mut self, sw: u16)
        ensures lb { self.new.lb ≡ self.old.lb }
        ensures reading { shot_reading self.new
            ≡ record (shot_reading self.old) { public = with_sw self.old.public sw } }
    {
        put_number(&mut self.public, 1039, sw);
    }

    /// Returns the static bytes.
    pub fn statics(&self) -> &[u8]
        ensures value { result.now ≡ statics self.now }
        ensures short { length result.now ≤ 4096 }
    {
        &self.fixed[..(self.fixed_len as usize).min(4096)]
    }

    /// Returns the dynamic bytes below DT.
    pub fn dynamics(&self) -> &[u8]
        ensures value { result.now ≡ dynamics self.now }
        ensures short { length result.now ≤ 512 }
    {
        &self.dynamic[..(self.dt.saturating_sub(DYNAMIC) as usize).min(512)]
    }

    // The byte at an address, 0 if no segment has it.
    fn byte_at(&self, address: u16) -> u8
        ensures { result ≡ shot_byte self.now address }
    {
        let at = address as usize;
        if address < self.fixed_len {
            return self.fixed[at.min(4095)];
        }
        if address >= PUBLIC {
            return self.public[(at - PUBLIC as usize).min(1040)];
        }
        if address >= DYNAMIC {
            return self.dynamic[(at - DYNAMIC as usize).min(511)];
        }
        0
    }

    /// Returns the number in the byte at an address.
    pub fn count_at(&self, address: u16) -> u16
        ensures value { result ≡ shot_byte self.now address }
        ensures byte { result ≤ 255 }
    {
        self.byte_at(address) as u16
    }

    /// Returns the number in the two bytes at an address.
    pub fn number_at(&self, address: u16) -> u16
        ensures { result ≡ shot_number self.now address }
    {
        self.count_at(address) * 256 + self.count_at(address.saturating_add(1))
    }

    /// Returns the number in the two bytes that begin some bytes below DT.
    pub fn number_below_top(&self, count: u16) -> u16
        ensures { result ≡ shot_number self.now (self.now.dt - count) }
    {
        self.number_at(self.dt.saturating_sub(count))
    }

    // The value of the register with a tag from 1 to 7.
    fn register(&self, tag: u8) -> u16
        ensures { result ≡ look_register (look_of self.now) tag }
    {
        match tag {
            1 => 0,
            2 => self.fixed_len,
            3 => DYNAMIC,
            4 => self.lb,
            5 => self.dt,
            6 => PUBLIC,
            _ => 0xC411,
        }
    }

    /// Returns the address of the register with a tag from 1 to 7 plus an offset, or `None` if the sum is no address.
    pub fn resolve(&self, tag: u8, off: i16) -> Option<u16>
        ensures { result ≡ look_resolve (look_of self.now) tag off }
    {
        self.register(tag).checked_add_signed(off)
    }
}
