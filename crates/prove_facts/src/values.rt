// Sets of byte values.
ghost use Rattle.std.specs.Prelude.{◌≡◌, ◌<◌, ℕ, ◌+◌, ◌-◌, ◌%◌, ◌^◌, min, true, false, not, ◌&&◌, ◌||◌, ◌==◌, nat_lt, nat_le, [], ◌∷◌, cond, length, ◌*◌, bit_or, count_ones};
ghost use Rattle.std.specs.Int.{bit_at, trailing_zeros, w64};
ghost use Rattle.model_prove.specs.Sets.{union, common, is_subset, is_empty, is_full, only_value};
ghost use Rattle.prove_facts.specs.Sets.{has_bit, has_value, set_of, values_of, least_value};

/// A set of some of the 256 values of a byte.
#[derive(Clone, Copy, PartialEq, Eq, Debug)]
pub struct Values {
    pub words: [u64; 4],
}

impl Values {
    /// All 256 values.
    pub const ALL: Values = Values {
        words: [u64::MAX; 4],
    };
    /// No value.
    pub const NONE: Values = Values { words: [0; 4] };

    /// Returns the set of one value.
    pub fn one(value: u8) -> Values
        ensures values { (v : ℕ) → v < 256 → has_value result v ≡ (v == value) }
        ensures set { set_of result ≡ value ∷ [] }
    {
        let bit = 1u64 << (value % 64);
        match value / 64 {
            0 => Values {
                words: [bit, 0, 0, 0],
            },
            1 => Values {
                words: [0, bit, 0, 0],
            },
            2 => Values {
                words: [0, 0, bit, 0],
            },
            _ => Values {
                words: [0, 0, 0, bit],
            },
        }
    }

    /// Returns the set of the values below a number.
    pub fn below(end: u16) -> Values
        ensures { (v : ℕ) → v < 256 → has_value result v ≡ nat_lt v end }
    {
        Values {
            words: [
                low_bits(end),
                low_bits(end.saturating_sub(64)),
                low_bits(end.saturating_sub(128)),
                low_bits(end.saturating_sub(192)),
            ],
        }
    }

    /// Returns the set of the values from one to another.
    pub fn range(low: u8, high: u8) -> Values
        ensures { (v : ℕ) → v < 256 → has_value result v ≡ nat_le low v && nat_le v high }
    {
        Values::below(high as u16 + 1).and(&Values::below(low as u16).not())
    }

    /// Returns the values of either set.
    pub fn or(&self, other: &Values) -> Values
        ensures values { (v : ℕ) → v < 256 → has_value result v ≡ has_value self.now v || has_value other.now v }
        ensures set { set_of result ≡ union (set_of self.now) (set_of other.now) }
    {
        let [a, b, c, d] = self.words;
        let [e, f, g, h] = other.words;
        Values {
            words: [a | e, b | f, c | g, d | h],
        }
    }

    /// Returns the values of both sets.
    pub fn and(&self, other: &Values) -> Values
        ensures values { (v : ℕ) → v < 256 → has_value result v ≡ has_value self.now v && has_value other.now v }
        ensures set { set_of result ≡ common (set_of self.now) (set_of other.now) }
    {
        let [a, b, c, d] = self.words;
        let [e, f, g, h] = other.words;
        Values {
            words: [a & e, b & f, c & g, d & h],
        }
    }

    /// Returns the other values.
    pub fn not(&self) -> Values
        ensures { (v : ℕ) → v < 256 → has_value result v ≡ not (has_value self.now v) }
    {
        let [a, b, c, d] = self.words;
        Values {
            words: [inverted(a), inverted(b), inverted(c), inverted(d)],
        }
    }

    /// Returns whether a value is there.
    pub fn has(&self, value: u8) -> bool
        ensures { result ≡ has_value self.now value }
    {
        let [a, b, c, d] = self.words;
        let word = match value / 64 {
            0 => a,
            1 => b,
            2 => c,
            _ => d,
        };
        word >> (value % 64) & 1 == 1
    }

    /// Returns the set with one more value.
    pub fn with(&self, value: u8) -> Values
        ensures { (v : ℕ) → v < 256 → has_value result v ≡ has_value self.now v || (v == value) }
    {
        self.or(&Values::one(value))
    }

    /// Returns whether no value is there.
    pub fn is_empty(&self) -> bool
        ensures values { result ≡ true → (v : ℕ) → v < 256 → has_value self.now v ≡ false }
        ensures set { result ≡ is_empty (set_of self.now) }
    {
        let [a, b, c, d] = self.words;
        are_zero(a, b, c, d)
    }

    /// Returns whether all 256 values are there.
    pub fn is_all(&self) -> bool
        ensures values { result ≡ true → (v : ℕ) → v < 256 → has_value self.now v ≡ true }
        ensures set { result ≡ is_full (set_of self.now) }
    {
        self.not().is_empty()
    }

    /// Returns the number of values.
    pub fn count(&self) -> u32
        ensures { result ≡ length (set_of self.now) }
    {
        let [a, b, c, d] = self.words;
        ones_of(a, b, c, d)
    }

    /// Returns whether each value is in another set.
    pub fn is_within(&self, other: &Values) -> bool
        ensures values { result ≡ true → (v : ℕ) → v < 256 → has_value self.now v ≡ true
            → has_value other.now v ≡ true }
        ensures set { result ≡ is_subset (set_of self.now) (set_of other.now) }
    {
        self.and(&other.not()).is_empty()
    }

    /// Returns each value plus a number, modulo 256.
    pub fn moved(&self, by: u8) -> Values
        ensures { (v : ℕ) → v < 256 → has_value result v ≡ has_value self.now ((v + 256 - by) % 256) }
    {
        let [a, b, c, d] = self.words;
        let r = by % 64;
        match by / 64 {
            0 => moved_words(a, b, c, d, r),
            1 => moved_words(d, a, b, c, r),
            2 => moved_words(c, d, a, b, r),
            _ => moved_words(b, c, d, a, r),
        }
    }

    /// Returns the one value of a set that has one.
    pub fn only(&self) -> Option<u8>
        ensures { result ≡ only_value (set_of self.now) }
    {
        if self.count() == 1 {
            self.least()
        } else {
            None
        }
    }

    /// Returns the least value, or `None` if there is none.
    pub fn least(&self) -> Option<u8>
        ensures { result ≡ least_value (set_of self.now) }
    {
        let [a, b, c, d] = self.words;
        least_of(a, b, c, d)
    }
}

// The least value of four words.
fn least_of(a: u64, b: u64, c: u64, d: u64) -> Option<u8>
    ensures { result ≡ least_value (values_of (a ∷ b ∷ c ∷ d ∷ [])) }
{
    if a != 0 {
        return Some(lowest(0, a));
    }
    if b != 0 {
        return Some(lowest(1, b));
    }
    if c != 0 {
        return Some(lowest(2, c));
    }
    if d != 0 { Some(lowest(3, d)) } else { None }
}

// Whether no bit of four words is set.
fn are_zero(a: u64, b: u64, c: u64, d: u64) -> bool
    ensures zero { result ≡ (bit_or (bit_or (bit_or a b) c) d == 0) }
    ensures fit { (a < 2 ^ 64) × (b < 2 ^ 64) × (c < 2 ^ 64) × (d < 2 ^ 64) }
{
    a | b | c | d == 0
}

// The number of bits of four words that are set.
fn ones_of(a: u64, b: u64, c: u64, d: u64) -> u32
    ensures ones { result ≡ count_ones a + (count_ones b + (count_ones c + count_ones d)) }
    ensures fit { (a < 2 ^ 64) × (b < 2 ^ 64) × (c < 2 ^ 64) × (d < 2 ^ 64) }
{
    let low = a.count_ones().saturating_add(b.count_ones());
    low.saturating_add(c.count_ones())
        .saturating_add(d.count_ones())
}

// The other bits of a word.
fn inverted(word: u64) -> u64
    ensures { (i : ℕ) → i < 64 → (bit_at result i == 1) ≡ not (bit_at word i == 1) }
{
    !word
}

// The lowest bits of a word, as many as a number says.
fn low_bits(count: u16) -> u64
    ensures { result ≡ 2 ^ min count 64 - 1 }
{
    if count == 0 {
        return 0;
    }
    if count >= 64 {
        u64::MAX
    } else {
        u64::MAX >> (64 - count)
    }
}

// A word moved up by fewer than 64 bits, with the highest bits of the word below it.
fn joined(word: u64, lower: u64, by: u8) -> u64
    ensures { by < 64 → (i : ℕ) → i < 64 → (bit_at result i == 1)
        ≡ cond (nat_le by i) (bit_at word (i - by) == 1) (bit_at lower (i + 64 - by) == 1) }
{
    if by == 0 {
        return word;
    }
    if by >= 64 {
        return word;
    }
    word << by | lower >> (64 - by)
}

// Four words whose values are moved by fewer than 64.
fn moved_words(a: u64, b: u64, c: u64, d: u64, by: u8) -> Values
    ensures { by < 64 → (v : ℕ) → v < 256 → has_value result v ≡ has_bit (a ∷ b ∷ c ∷ d ∷ []) ((v + 256 - by) % 256) }
{
    Values {
        words: [
            joined(a, d, by),
            joined(b, a, by),
            joined(c, b, by),
            joined(d, c, by),
        ],
    }
}

// The place of the lowest bit of a word that is not zero, after some words.
fn lowest(words: u32, word: u64) -> u8
    requires few { words < 4 }
    requires some { 0 < word }
    ensures { result ≡ 64 * words + trailing_zeros w64 word }
{
    (words
        .saturating_mul(64)
        .saturating_add(word.trailing_zeros())
        .min(255)) as u8
}
