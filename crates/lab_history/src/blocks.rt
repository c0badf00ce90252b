// Blocks of static bytes that sums bind: the numbers that they are to be.
ghost use Rattle.std.specs.Prelude.{◌≡◌, ◌+◌, ◌*◌, ◌%◌, ◌^◌, bytes_eq, drop, length, take, IfOk};
ghost use Rattle.model_device.specs.Bytes.{num, zeros};
ghost use Rattle.lab_history.specs.Blocks.{added_by, count_of_added, count_of_taken, first_amount, taken_by};
ghost use Rattle.lab_history.specs.Moves.{AreMoved};

use crate::arithmetic::{number_bytes, shift};
use lab_app_rules::{Balance, Named, SignedSum};
use model_device::NoMemory;
use std::alloc::Global;

/// Returns the static bytes of a block.
pub fn block_in<'a>(fixed: &'a [u8], balance: &Balance) -> &'a [u8]
    ensures { result.now ≡ take balance.now.n (drop balance.now.at fixed.now) }
{
    let first = (balance.at as usize).min(fixed.len());
    let rest = &fixed[first..];
    let size = (balance.n as usize).min(rest.len());
    &rest[..size]
}

/// Returns whether a block of static bytes is these bytes.
pub fn is_block(fixed: &[u8], balance: &Balance, bytes: &[u8]) -> bool
    ensures { result ≡ bytes_eq (take balance.now.n (drop balance.now.at fixed.now)) bytes.now }
{
    block_in(fixed, balance) == bytes
}

/// Moves a sum by a number in a block, in which it is added or taken in some places.
pub fn move_in(block: &mut [u8], sums: &[SignedSum], sum: usize, takes: bool, number: &[u8])
    ensures { (num block.new + num number.now * count_of_taken sums.now sum takes) % 256 ^ length block.old
        ≡ (num block.old + num number.now * count_of_added sums.now sum takes) % 256 ^ length block.old }
{
    for signed in sums {
        if signed.sum == sum {
            shift(block, number, signed.minus != takes);
        }
    }
}

/// Moves a sum by a number in blocks, one after the other.
pub fn move_blocks(blocks: &mut [u8], balances: &[Balance], sum: usize, takes: bool, number: &[u8])
    ensures { AreMoved balances.now sum takes (num number.now) blocks.old blocks.new }
{
    let mut from = 0;
    for balance in balances {
        let to = blocks.len().min(from + balance.n as usize);
        move_in(
            &mut blocks[from..to],
            balance.sums.as_slice(),
            sum,
            takes,
            number,
        );
        from = to;
    }
}

// The amount of a sum as the application is created, 0 if there is none.
fn first_amount(sums: &[Named<'_>], sum: usize) -> u32
    ensures { result ≡ first_amount sums.now sum }
{
    match sums.get(sum) {
        Some(named) => named.amount,
        None => 0,
    }
}

// Adds the amounts of the sums to a block, as the application is created.
fn add_sums(block: &mut [u8], terms: &[SignedSum], sums: &[Named<'_>])
    ensures { (num block.new + taken_by sums.now terms.now) % 256 ^ length block.old
        ≡ (num block.old + added_by sums.now terms.now) % 256 ^ length block.old }
{
    for signed in terms {
        shift(
            block,
            &number_bytes(first_amount(sums, signed.sum)),
            signed.minus,
        );
    }
}

// A block of n zeros.
fn zero_block(alloc: Global, n: u16) -> Result<Vec<u8>, NoMemory>
    ensures size { IfOk result (λ block. length block.items ≡ n) }
    ensures zeros { IfOk result (λ block. block.items ≡ zeros n) }
{
    Ok(vec![in alloc; 0; n as usize]?)
}

/// Returns the number that a block is to be as the application is created.
///
/// # Errors
///
/// Returns `NoMemory` if it is out of memory.
pub fn first_block(
    alloc: Global,
    balance: &Balance,
    sums: &[Named<'_>],
) -> Result<Vec<u8>, NoMemory>
    ensures size { IfOk result (λ block. length block.items ≡ balance.now.n) }
    ensures number { IfOk result (λ block.
        (num block.items + taken_by sums.now balance.now.sums.items) % 256 ^ balance.now.n
        ≡ (balance.now.constant + added_by sums.now balance.now.sums.items) % 256 ^ balance.now.n) }
{
    let mut block = zero_block(alloc, balance.n)?;
    shift(block.as_mut_slice(), &number_bytes(balance.constant), false);
    add_sums(block.as_mut_slice(), balance.sums.as_slice(), sums);
    Ok(block)
}
