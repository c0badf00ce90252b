// The table of the primitives, the ranges of their argument bytes, and which of them an access list denies.
ghost use Rattle.std.specs.Prelude.{◌≡◌, ◌*◌, ◌-◌, ◌&&◌, option_map};
ghost use Rattle.law_rows.specs.model_machine.specs.Primitives as model;
ghost use Rattle.mc_isa.specs.Primitives.{cipher_of, primitive_of};

/// A cipher of the primitives.
#[derive(Clone, Copy, Debug, PartialEq, Eq)]
pub enum Cipher {
    Des,
    TripleDes,
    Aes,
}

/// The primitives, by their names.
#[derive(Clone, Copy, Debug, PartialEq, Eq)]
pub enum Primitive {
    CheckCase,
    LoadCcr,
    StoreCcr,
    Lookup,
    MemoryCompare,
    MemoryCopy,
    Delegate,
    DelegatorAid,
    Digest,
    CompareFixed,
    CopyFixed,
    SetProtection,
    Encipher(Cipher),
    Decipher(Cipher),
    Sign(Cipher),
    BitByte,
    ShiftLeft,
    ShiftRight,
    BitWord,
}

impl Cipher {
    /// Returns the length of a block in bytes.
    pub fn block_len(self) -> u8
        ensures { result ≡ model.block_len (cipher_of self) }
    {
        match self {
            Cipher::Des | Cipher::TripleDes => 8,
            Cipher::Aes => 16,
        }
    }

    /// Returns the length of a key in bytes.
    pub fn key_len(self) -> u8
        ensures { result ≡ model.key_len (cipher_of self) }
    {
        match self {
            Cipher::Des => 8,
            Cipher::TripleDes | Cipher::Aes => 16,
        }
    }

    // Whether a message of `len` bytes is one or more whole blocks.
    fn is_message(self, len: u8) -> bool
        ensures { result ≡ model.is_message (cipher_of self) len }
    {
        self.block_len() <= len && len % self.block_len() == 0
    }
}

impl Primitive {
    /// Returns the primitive of a pair of set and number, or `None` if the table has no such pair.
    pub fn of(set: u8, number: u8) -> Option<Primitive>
        ensures { option_map primitive_of result ≡ model.primitive set number }
    {
        match set {
            0 => without_argument(number),
            1 => with_one(number),
            2 => with_two(number),
            3 => with_three(number),
            _ => None,
        }
    }

    /// Returns whether the argument bytes alone are a cause of abend 06.
    pub fn has_bad_argument(self, args: &[u8; 3]) -> bool
        ensures { result ≡ model.has_bad_argument (primitive_of self) args.now }
    {
        match self {
            Primitive::CompareFixed | Primitive::CopyFixed => args[0] == 0,
            Primitive::SetProtection | Primitive::BitByte | Primitive::BitWord => args[0] > 3,
            Primitive::Encipher(cipher) | Primitive::Decipher(cipher) | Primitive::Sign(cipher) => {
                !cipher.is_message(args[0])
            }
            Primitive::ShiftLeft | Primitive::ShiftRight => !is_shift(args[0], args[1]),
            _ => false,
        }
    }

    /// Returns whether the access list `deny` denies it.
    pub fn is_denied(self, deny: u16) -> bool
        ensures { result ≡ model.is_denied deny (primitive_of self) }
    {
        match self {
            Primitive::Encipher(_) | Primitive::Decipher(_) | Primitive::Sign(_) => deny % 2 == 1,
            Primitive::Delegate => deny / 2 % 2 == 1,
            Primitive::DelegatorAid => deny / 4 % 2 == 1,
            Primitive::SetProtection => deny / 8 % 2 == 1,
            _ => false,
        }
    }
}

fn without_argument(number: u8) -> Option<Primitive>
    ensures { option_map primitive_of result ≡ model.primitive 0 number }
{
    match number {
        1 => Some(Primitive::CheckCase),
        2 => Some(Primitive::LoadCcr),
        3 => Some(Primitive::StoreCcr),
        4 => Some(Primitive::Lookup),
        5 => Some(Primitive::MemoryCompare),
        6 => Some(Primitive::MemoryCopy),
        7 => Some(Primitive::Delegate),
        8 => Some(Primitive::DelegatorAid),
        9 => Some(Primitive::Digest),
        _ => None,
    }
}

fn with_one(number: u8) -> Option<Primitive>
    ensures { option_map primitive_of result ≡ model.primitive 1 number }
{
    match number {
        1 => Some(Primitive::CompareFixed),
        2 => Some(Primitive::CopyFixed),
        3 => Some(Primitive::SetProtection),
        4 => Some(Primitive::Encipher(Cipher::Des)),
        5 => Some(Primitive::Decipher(Cipher::Des)),
        6 => Some(Primitive::Encipher(Cipher::TripleDes)),
        7 => Some(Primitive::Decipher(Cipher::TripleDes)),
        8 => Some(Primitive::Sign(Cipher::Des)),
        9 => Some(Primitive::Sign(Cipher::TripleDes)),
        10 => Some(Primitive::Encipher(Cipher::Aes)),
        11 => Some(Primitive::Decipher(Cipher::Aes)),
        12 => Some(Primitive::Sign(Cipher::Aes)),
        _ => None,
    }
}

fn with_two(number: u8) -> Option<Primitive>
    ensures { option_map primitive_of result ≡ model.primitive 2 number }
{
    match number {
        1 => Some(Primitive::BitByte),
        2 => Some(Primitive::ShiftLeft),
        3 => Some(Primitive::ShiftRight),
        _ => None,
    }
}

fn with_three(number: u8) -> Option<Primitive>
    ensures { option_map primitive_of result ≡ model.primitive 3 number }
{
    match number {
        1 => Some(Primitive::BitWord),
        _ => None,
    }
}

// Whether a value of `len` bytes, 1 to 16, can be shifted by `by` bits, fewer than it has.
fn is_shift(len: u8, by: u8) -> bool
    ensures { result ≡ (model.in_range 1 16 len && model.in_range 1 (8 * len - 1) by) }
{
    1 <= len && len <= 16 && 1 <= by && by < 8 * len
}
