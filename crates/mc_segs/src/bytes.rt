// Reads and writes within byte arrays.
ghost use Rattle.std.specs.Prelude.{◌≡◌, ◌+◌, ◌≤◌, ◌<◌, length, take, drop, ◌++◌};
ghost use Rattle.mc_words.specs.model_device.specs.Bytes.{be2, bytes2, splice};

// Copies bytes. One, two or four of them, as most operands have, are copied in place: a call of `memcpy` takes longer.
// They are read before any is written, which makes one read and one write of them.
#[inline(always)]
fn copy(into: &mut [u8], from: &[u8])
    requires { length into.old ≡ length from.now }
    ensures { into.new ≡ from.now }
{
    match from {
        [a] => into[0] = *a,
        [a, b] => {
            let (a, b) = (*a, *b);
            into[0] = a;
            into[1] = b;
        }
        [a, b, c, d] => {
            let (a, b, c, d) = (*a, *b, *c, *d);
            into[0] = a;
            into[1] = b;
            into[2] = c;
            into[3] = d;
        }
        _ => into.copy_from_slice(from),
    }
}

/// Copies the bytes of `bytes` from `at` on into `into`.
#[inline(always)]
pub fn read(bytes: &[u8], at: usize, into: &mut [u8])
    requires { at + length into.old ≤ length bytes.now }
    ensures { into.new ≡ take (length into.old) (drop at bytes.now) }
{
    let from = &bytes[at..at + into.len()];
    copy(into, from);
}

/// Writes `piece` into `into` from `at` on.
#[inline(always)]
pub fn write(into: &mut [u8], at: usize, piece: &[u8])
    requires { at + length piece.now ≤ length into.old }
    ensures { into.new ≡ splice into.old at piece.now }
{
    copy(&mut into[at..at + piece.len()], piece);
}

/// Moves `len` bytes from `from` to `to`; the two ranges may overlap.
pub fn move_bytes(bytes: &mut [u8], from: usize, len: usize, to: usize)
    requires from { from + len ≤ length bytes.old }
    requires to { to + len ≤ length bytes.old }
    ensures { bytes.new ≡ splice bytes.old to (take len (drop from bytes.old)) }
{
    bytes.copy_within(from..from + len, to);
}

/// Returns the four bytes of two words, high bytes first.
pub fn words(first: u16, second: u16) -> [u8; 4]
    ensures { result ≡ bytes2 first ++ bytes2 second }
{
    [
        (first / 256) as u8,
        (first % 256) as u8,
        (second / 256) as u8,
        (second % 256) as u8,
    ]
}

/// Returns the word in the two bytes at `at`, high byte first.
pub fn word_at(bytes: &[u8], at: usize) -> u16
    requires { at + 1 < length bytes.now }
    ensures { result ≡ be2 bytes.now at }
{
    bytes[at] as u16 * 256 + bytes[at + 1] as u16
}
