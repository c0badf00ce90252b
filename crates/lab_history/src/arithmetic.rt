// Numbers in bytes, the highest first, modulo 256 to the power of their size.
ghost use Rattle.std.specs.Prelude.{◌≡◌, ◌+◌, ◌%◌, ◌^◌, cond, length};
ghost use Rattle.model_device.specs.Bytes.{num};
ghost use Rattle.lab_history.specs.Digits.{digit_at};

// The digit at a place counted from the lowest one, 0 above the highest.
fn digit(number: &[u8], place: usize) -> u8
    ensures { result ≡ digit_at number.now place }
{
    if place < number.len() {
        number[number.len() - 1 - place]
    } else {
        0
    }
}

/// Adds a number to a block, modulo 256 to the power of its length.
pub fn add(block: &mut [u8], number: &[u8])
    ensures { num block.new % 256 ^ length block.old ≡ (num block.old + num number.now) % 256 ^ length block.old }
{
    let count = block.len();
    let mut carry = 0;
    for i in (0..count).rev() {
        let other = digit(number, count - 1 - i);
        let sum = block[i] as u16 + other as u16 + carry;
        block[i] = (sum % 256) as u8;
        carry = sum / 256;
    }
}

/// Takes a number from a block, modulo 256 to the power of its length.
pub fn take(block: &mut [u8], number: &[u8])
    ensures { (num block.new + num number.now) % 256 ^ length block.old ≡ num block.old % 256 ^ length block.old }
{
    let count = block.len();
    let mut borrow = 0;
    for i in (0..count).rev() {
        let other = digit(number, count - 1 - i);
        let rest = 256 + block[i] as u16 - other as u16 - borrow;
        block[i] = (rest % 256) as u8;
        borrow = 1 - rest / 256;
    }
}

/// Adds a number to a block, or takes it from it, modulo 256 to the power of its length.
pub fn shift(block: &mut [u8], number: &[u8], takes: bool)
    ensures { (num block.new + cond takes (num number.now) 0) % 256 ^ length block.old
        ≡ (num block.old + cond takes 0 (num number.now)) % 256 ^ length block.old }
{
    if takes {
        take(block, number);
    } else {
        add(block, number);
    }
}

/// Returns the four bytes of a number.
pub fn number_bytes(number: u32) -> [u8; 4]
    ensures { num result ≡ number }
{
    [
        (number / 16_777_216) as u8,
        (number / 65_536 % 256) as u8,
        (number / 256 % 256) as u8,
        (number % 256) as u8,
    ]
}
