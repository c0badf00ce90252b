// Lines of JSON, gathered and written to a sink.
ghost use Rattle.std.specs.Prelude.{◌≡◌, ◌+◌, ◌≤◌, ◌++◌, [], ◌∷◌, codes, decimal, length, None};
ghost use Rattle.arrayvec.specs.ArrayVec.{array_vec_len};
ghost use Rattle.mc_text.specs.model_text.specs.Listing.{hex_text};
ghost use Rattle.desk_steps.specs.Json.{character, characters};
ghost use Rattle.desk_steps.specs.Sheets.{fault_in, written_by, Adds};

use arrayvec::ArrayVec;
use itoa::Buffer;
use mc_streams::{Sink, WriteFault};
use mc_text::{add, digit, put};

/// The number of bytes that are gathered before they are written.
const ROOM: usize = 8211;

/// Lines of JSON, which are written one by one, a long one in pieces. Once its sink failed no more is written.
#[derive(Drop)]
pub struct Sheet<'o, T: Sink> {
    out: &'o mut T,
    fault: Option<WriteFault>,
    text: ArrayVec<u8, 8211>,
}

// The fault of a sink that failed.
fn fault_in(done: Result<(), WriteFault>) -> Option<WriteFault>
    ensures { result ≡ fault_in done }
{
    match done {
        Ok(()) => None,
        Err(fault) => Some(fault),
    }
}

/// Returns `Ok` if all was written, or else the fault of the sink.
pub fn written(fault: Option<WriteFault>) -> Result<(), WriteFault>
    ensures { result ≡ written_by fault }
{
    match fault {
        None => Ok(()),
        Some(fault) => Err(fault),
    }
}

impl<'o, T: Sink> Sheet<'o, T> {
    /// Returns a sheet without a line, by the fault of its sink if it failed before.
    pub fn new(out: &'o mut T, fault: Option<WriteFault>) -> Sheet<'o, T>
        ensures out { result.out.now ≡ out.old }
        ensures same { result.out.ghost_name ≡ out.entry.ghost_name }
        ensures fault { result.fault ≡ fault }
        ensures text { result.text.items ≡ [] }
    {
        Sheet {
            out,
            fault,
            text: ArrayVec::new(),
        }
    }

    // Writes what is gathered; the sink did not fail before.
    fn put_gathered(&mut self)
        requires { self.old.fault ≡ None }
        ensures adds { Adds T.Sink self.old [] self.new }
        ensures text { self.new.text.items ≡ [] }
    {
        let done = put(self.out, self.text.as_slice());
        self.text.clear();
        self.fault = fault_in(done);
    }

    /// Writes what is gathered, unless the sink failed before.
    pub fn flush(&mut self)
        ensures adds { Adds T.Sink self.old [] self.new }
        ensures text { self.new.text.items ≡ [] }
    {
        if self.fault.is_none() {
            self.put_gathered();
        } else {
            self.text.clear();
        }
    }

    // Makes room for a number of bytes.
    fn make_room(&mut self, count: usize)
        requires { count ≤ 8211 }
        ensures adds { Adds T.Sink self.old [] self.new }
        ensures room { array_vec_len self.new.text + count ≤ 8211 }
    {
        if self.text.len() + count > ROOM {
            self.flush();
        }
    }

    // Gathers a piece, for which there is room.
    fn gather(&mut self, piece: &[u8])
        requires { array_vec_len self.old.text + length piece.now ≤ 8211 }
        ensures { Adds T.Sink self.old piece.now self.new }
    {
        add(&mut self.text, piece);
    }

    /// Adds a piece.
    pub fn add(&mut self, piece: &[u8])
        requires { length piece.now ≤ 8211 }
        ensures { Adds T.Sink self.old piece.now self.new }
    {
        self.make_room(piece.len());
        self.gather(piece);
    }

    // Adds a byte in upper case hexadecimal.
    fn add_byte(&mut self, byte: u8)
        ensures { Adds T.Sink self.old (hex_text (byte ∷ [])) self.new }
    {
        self.add(&[digit(byte / 16 % 16), digit(byte % 16)]);
    }

    /// Adds bytes in upper case hexadecimal.
    pub fn add_hex(&mut self, bytes: &[u8])
        ensures { Adds T.Sink self.old (hex_text bytes.now) self.new }
    {
        for byte in bytes {
            self.add_byte(*byte);
        }
    }

    /// Adds a number in decimal.
    pub fn add_number(&mut self, number: u32)
        ensures { Adds T.Sink self.old (decimal number) self.new }
    {
        let mut buffer = Buffer::new();
        self.add(buffer.format(number).as_bytes());
    }

    /// Adds a key, as it is written, and a number.
    pub fn add_key(&mut self, key: &[u8], number: u32)
        requires { length key.now ≤ 8211 }
        ensures { Adds T.Sink self.old (key.now ++ decimal number) self.new }
    {
        self.add(key);
        self.add_number(number);
    }

    // Adds a byte as `\u00XX`.
    fn add_code(&mut self, byte: u8)
        ensures { Adds T.Sink self.old (codes "\\u00" ++ hex_text (byte ∷ [])) self.new }
    {
        self.add(b"\\u00");
        self.add_byte(byte);
    }

    // Adds a byte of a string, escaped if it is a quotation mark, a backslash, or no printable character of ASCII.
    fn add_character(&mut self, byte: u8)
        ensures { Adds T.Sink self.old (character byte) self.new }
    {
        match byte {
            b'"' => self.add(b"\\\""),
            b'\\' => self.add(b"\\\\"),
            b' '..=b'~' => self.add(&[byte]),
            _ => self.add_code(byte),
        }
    }

    /// Adds the characters of a string, without its quotation marks.
    pub fn add_characters(&mut self, text: &[u8])
        ensures { Adds T.Sink self.old (characters text.now) self.new }
    {
        for byte in text {
            self.add_character(*byte);
        }
    }

    /// Ends a line with a text, and writes it.
    pub fn end_line(&mut self)
        ensures adds { Adds T.Sink self.old (codes "}\n") self.new }
        ensures text { self.new.text.items ≡ [] }
    {
        self.add(b"}\n");
        self.flush();
    }

    /// Returns the fault of the sink, if it failed.
    pub fn fault(&self) -> Option<WriteFault>
        ensures { result ≡ self.now.fault }
    {
        self.fault
    }
}
