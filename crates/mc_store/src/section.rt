// Bytes of the sections of a block, read word by word.
ghost use Rattle.std.specs.Prelude.{◌≡◌, ◌+◌, ◌*◌, ◌<◌, ◌≤◌, length, take, drop, true};
ghost use Rattle.mc_words.specs.model_device.specs.Card.{word};
ghost use Rattle.mc_store.specs.Slots.{flat};

use mc_nvm::Nvm;
use mc_words::Word;

// Copies at most seven bytes of the words of a device, from `skip` bytes after the start of the word at a place on.
// They lie in two words at the most.
#[inline(always)]
fn read_few<N: Nvm>(device: &N, place: u32, skip: usize, into: &mut [u8])
    requires skip { skip < 8 }
    requires few { length into.old < 8 }
    requires range { 8 * place + skip + length into.old ≤ 8 * length (N.state device.now).words }
    ensures { into.new ≡ take (length into.old) (drop (8 * place + skip) (flat (N.state device.now).words)) }
{
    if into.is_empty() {
        return;
    }
    let _size = device.len();
    let end = skip + into.len();
    let words = [device.read(place), word_where(device, place + 1, end > 8)];
    copy_few(into, &words.as_flattened()[skip..end]);
}

// Copies bytes, up to five of them in place: the last instructions of a code are fetched so, and a call of `memcpy` takes
// longer. They are read before any is written.
#[inline(always)]
fn copy_few(into: &mut [u8], from: &[u8])
    requires { length into.old ≡ length from.now }
    ensures { into.new ≡ from.now }
{
    match from {
        [a] => into[0] = *a,
        [a, b] => {
            let (a, b) = (*a, *b);
            into[0] = a;
            into[1] = b;
        }
        [a, b, c] => {
            let (a, b, c) = (*a, *b, *c);
            into[0] = a;
            into[1] = b;
            into[2] = c;
        }
        [a, b, c, d] => {
            let (a, b, c, d) = (*a, *b, *c, *d);
            into[0] = a;
            into[1] = b;
            into[2] = c;
            into[3] = d;
        }
        [a, b, c, d, e] => {
            let (a, b, c, d, e) = (*a, *b, *c, *d, *e);
            into[0] = a;
            into[1] = b;
            into[2] = c;
            into[3] = d;
            into[4] = e;
        }
        _ => into.copy_from_slice(from),
    }
}

// Returns the word at a place if it is asked for.
#[inline(always)]
fn word_where<N: Nvm>(device: &N, place: u32, asked: bool) -> Word
    requires { asked ≡ true → place < length (N.state device.now).words }
    ensures { asked ≡ true → result ≡ word (N.state device.now).words place }
{
    if asked { device.read(place) } else { [0; 8] }
}

/// Copies bytes of the words of a device into the whole of `into`, from `at` bytes after the start of the word `from`
/// on.
pub fn read_bytes<N: Nvm>(device: &N, from: u32, at: u16, into: &mut [u8])
    requires { 8 * from + at + length into.old ≤ 8 * length (N.state device.now).words }
    ensures { into.new ≡ take (length into.old) (drop (8 * from + at) (flat (N.state device.now).words)) }
{
    let _size = device.len();
    let mut place = from + (at / 8) as u32;
    let mut skip = (at % 8) as usize;
    let mut done = 0;
    while done < into.len() {
        let word = device.read(place);
        let count = (8 - skip).min(into.len() - done);
        into[done..done + count].copy_from_slice(&word[skip..skip + count]);
        done += count;
        place += 1;
        skip = 0;
    }
}

/// Copies bytes as `read_bytes` does, without a loop if there are few.
#[inline(always)]
pub fn read_window<N: Nvm>(device: &N, from: u32, at: u16, into: &mut [u8])
    requires { 8 * from + at + length into.old ≤ 8 * length (N.state device.now).words }
    ensures { into.new ≡ take (length into.old) (drop (8 * from + at) (flat (N.state device.now).words)) }
{
    let _size = device.len();
    if into.len() < 8 {
        read_few(device, from + (at / 8) as u32, (at % 8) as usize, into);
    } else {
        read_bytes(device, from, at, into);
    }
}
