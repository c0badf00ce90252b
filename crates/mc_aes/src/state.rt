// The state of FIPS 197: four columns of four bytes, each in a word, the byte of row 0 highest.

ghost use Rattle.std.specs.Prelude.{◌≡◌, [], ◌∷◌, length, ◌/◌, ◌%◌, ◌^◌};
ghost use Rattle.model_machine.specs.Modes.{bit_sum};
ghost use Rattle.mc_aes.specs.State.{word, state_bytes};

#[derive(Clone, Copy)]
pub struct State {
    pub first: u32,
    pub second: u32,
    pub third: u32,
    pub fourth: u32,
}

pub fn load(b: &[u8]) -> State
    requires { length b.now ≡ 16 }
    ensures { state_bytes result ≡ b.now }
{
    State {
        first: u32::from_be_bytes([b[0], b[1], b[2], b[3]]),
        second: u32::from_be_bytes([b[4], b[5], b[6], b[7]]),
        third: u32::from_be_bytes([b[8], b[9], b[10], b[11]]),
        fourth: u32::from_be_bytes([b[12], b[13], b[14], b[15]]),
    }
}

pub fn store(s: State) -> [u8; 16]
    ensures { result ≡ state_bytes s }
{
    let [a0, a1, a2, a3] = s.first.to_be_bytes();
    let [b0, b1, b2, b3] = s.second.to_be_bytes();
    let [c0, c1, c2, c3] = s.third.to_be_bytes();
    let [d0, d1, d2, d3] = s.fourth.to_be_bytes();
    [
        a0, a1, a2, a3, b0, b1, b2, b3, c0, c1, c2, c3, d0, d1, d2, d3,
    ]
}

#[inline]
pub fn add(s: State, key: State) -> State
    ensures { state_bytes result ≡ bit_sum (state_bytes s) (state_bytes key) }
{
    State {
        first: s.first ^ key.first,
        second: s.second ^ key.second,
        third: s.third ^ key.third,
        fourth: s.fourth ^ key.fourth,
    }
}

// The bytes of a word, from the one in row 0 on.

#[inline]
pub fn byte0(w: u32) -> u8
    ensures { result ≡ w / 2 ^ 24 % 256 }
{
    (w >> 24) as u8
}

#[inline]
pub fn byte1(w: u32) -> u8
    ensures { result ≡ w / 2 ^ 16 % 256 }
{
    (w >> 16 & 0xFF) as u8
}

#[inline]
pub fn byte2(w: u32) -> u8
    ensures { result ≡ w / 2 ^ 8 % 256 }
{
    (w >> 8 & 0xFF) as u8
}

#[inline]
pub fn byte3(w: u32) -> u8
    ensures { result ≡ w % 256 }
{
    (w & 0xFF) as u8
}

// The word of four bytes, from the one in row 0 on.
#[inline]
pub fn joined(row0: u8, row1: u8, row2: u8, row3: u8) -> u32
    ensures { word result ≡ row0 ∷ row1 ∷ row2 ∷ row3 ∷ [] }
{
    (row0 as u32) << 24 ^ (row1 as u32) << 16 ^ (row2 as u32) << 8 ^ row3 as u32
}
