// Numbers modulo 256 to the 16, of which a u128 has just room for one.
ghost use Rattle.std.specs.Prelude.{◌≡◌, ◌+◌, ◌-◌, ◌%◌, ◌^◌, ◌<◌, true};
ghost use Rattle.prove_forms.specs.Forms.{modulus};

/// The most bytes of a number that a u128 has room for.
pub(crate) const LONGEST: u16 = 16;

// Returns 256 to the n.
fn power(n: u16) -> u128
    requires { n < 16 }
    ensures { result ≡ 256 ^ n }
{
    256u128.pow(n as u32)
}

/// Returns the greatest number of n bytes, modulo 256 to the 16.
pub(crate) fn mask(n: u16) -> u128
    ensures { result ≡ (256 ^ n - 1) % modulus }
{
    if n >= LONGEST {
        return u128::MAX;
    }
    power(n) - 1
}

/// Returns whether a number is zero modulo 256 to the n.
pub(crate) fn is_multiple(value: u128, n: u16) -> bool
    ensures { result ≡ true → value % 256 ^ n ≡ 0 }
{
    if n >= LONGEST {
        return value == 0;
    }
    value % power(n) == 0
}

/// Returns the sum of two numbers, modulo 256 to the 16.
pub(crate) fn sum(a: u128, b: u128) -> u128
    ensures sum { result ≡ (a + b) % modulus }
    ensures same { b ≡ 0 → result ≡ a }
{
    a.wrapping_add(b)
}
