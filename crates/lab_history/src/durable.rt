// Whether the write of an instruction that a stop hit is durable.
ghost use Rattle.std.specs.Prelude.{◌≡◌, ◌+◌, ◌-◌, ◌≤◌, ℕ, List, bytes_eq, length};
ghost use Rattle.model_device.specs.Image.{Two, opening};
ghost use Rattle.model_device.specs.Stopped.{cost, stands};
ghost use Rattle.lab_history.specs.Durable.{count_in, first_in, IsGroup};

/// The greatest number of device writes of an atomic write, one of 64 words.
const MOST_WRITES: usize = 147;

// The number of device writes of an atomic write of some words.
fn cost(words: usize) -> usize
    requires { words ≤ 64 }
    ensures { result ≡ cost Two words }
{
    (words + 3) / 4 + 2 * words + 3
}

// The number of words of an atomic write of a number of device writes, or 0 if no atomic write has that number.
fn words_of(writes: usize) -> usize
    ensures high { result ≤ 64 }
    ensures words { (words : ℕ) → 1 ≤ words → words ≤ 64 → writes ≡ cost Two words → result ≡ words }
{
    if writes < 6 || writes > MOST_WRITES {
        return 0;
    }
    let words = 4 * (writes - 3) / 9;
    if cost(words) == writes { words } else { 0 }
}

// The number of places that have a value.
fn count_of(values: &[u64], value: u64) -> usize
    ensures count { result ≡ count_in values.now value }
    ensures high { result ≤ length values.now }
{
    let mut count = 0;
    for it in values {
        if *it == value {
            count += 1;
        }
    }
    count
}

// The first place that has a value, or the number of places if none has it.
fn first_of(values: &[u64], value: u64) -> usize
    ensures { result ≡ first_in values.now value }
{
    for (i, it) in values.iter().enumerate() {
        if *it == value {
            return i;
        }
    }
    values.len()
}

// Whether a stop at a device write of an atomic write of some words leaves it durable; `opens` is whether the word that it
// leaves opens the journal.
fn stands(words: usize, write: usize, opens: bool) -> bool
    requires { words ≤ 64 }
    ensures { (left : List ℕ) → opens ≡ bytes_eq left (opening Two) → result ≡ stands Two words write left }
{
    let commit = (words + 3) / 4 + words + 2;
    write > commit || (write == commit && opens)
}

/// Returns whether the write of an instruction is durable that a stop hit at its line's device write after the first `made`
/// ones; `turns` has for each device write of the line the number of instructions that were done before it; `opens` is
/// whether the word that the stop leaves opens the journal.
///
/// The device writes of one instruction are those with one number of instructions before them, and they are one atomic
/// write of 1 to 64 words. Of writes that are none the result is unspecified.
pub fn is_durable(turns: &[u64], made: usize, opens: bool) -> bool
    ensures { (front back : List ℕ) (words turn : ℕ) (left : List ℕ) → IsGroup turns.now made front words turn back
        → opens ≡ bytes_eq left (opening Two) → result ≡ stands Two words (made + 1 - length front) left }
{
    if made >= turns.len() {
        return false;
    }
    let turn = turns[made];
    let writes = count_of(turns, turn);
    let words = words_of(writes);
    let first = first_of(turns, turn);
    if words == 0 || made < first {
        return false;
    }
    stands(words, made - first + 1, opens)
}
