// What the rules of an application count.
ghost use Rattle.std.specs.Prelude.{◌≡◌, length, map, vec_len, IfOk};
ghost use Rattle.model_device.specs.Bytes.{num};
ghost use Rattle.lab_history.specs.Moves.{AreMoved};
ghost use Rattle.lab_history.specs.Standings.{blocks_of, first_of, is_within, AreFirst, IsFirstBlock, IsFirstBroken, IsFirstRange};

use crate::amounts::first_amounts;
use crate::blocks::{block_in, first_block, is_block, move_blocks};
use lab_app_rules::{Always, Balance, Rules};
use model_device::NoMemory;
use std::alloc::Global;

/// What is counted of an application: the amounts of its allowances, and of each block of static bytes that sums bind the
/// number that it is to be, one after the other: as power would leave the sums, and as the application has them with what
/// waits.
#[derive(Drop)]
pub struct Standing {
    pub amounts: Vec<u32>,
    pub kept: Vec<u8>,
    pub waiting: Vec<u8>,
}

/// What is broken: an `on` line, that no instruction abends, a range, or a block that sums bind, each by its number among
/// those of its kind.
#[derive(Clone, Copy, Debug, PartialEq, Eq)]
pub enum Break {
    On(usize),
    Abend,
    Range(usize),
    Block(usize),
}

// Makes bytes those of others, if they are as many.
fn assign(into: &mut [u8], from: &[u8])
    ensures { length into.old ≡ length from.now → into.new ≡ from.now }
{
    if into.len() == from.len() {
        into.copy_from_slice(from);
    }
}

// The numbers that all blocks are to be as the application is created.
fn first_blocks(alloc: Global, rules: &Rules<'_>) -> Result<Vec<u8>, NoMemory>
    ensures { IfOk result (λ blocks. AreFirst rules.now.sums.items rules.now.balances.items blocks.items) }
{
    let mut blocks = Vec::new(alloc);
    for balance in &rules.balances {
        let block = first_block(alloc, balance, rules.sums.as_slice())?;
        blocks.extend_from_slice(block.as_slice())?;
    }
    Ok(blocks)
}

// All blocks of static bytes.
fn blocks_in(alloc: Global, balances: &[Balance], fixed: &[u8]) -> Result<Vec<u8>, NoMemory>
    ensures { IfOk result (λ blocks. blocks.items ≡ blocks_of fixed.now balances.now) }
{
    let mut blocks = Vec::new(alloc);
    for balance in balances {
        blocks.extend_from_slice(block_in(fixed, balance))?;
    }
    Ok(blocks)
}

impl Standing {
    /// Returns what is counted as the application is created.
    ///
    /// # Errors
    ///
    /// Returns `NoMemory` if it is out of memory.
    pub fn first(alloc: Global, rules: &Rules<'_>) -> Result<Standing, NoMemory>
        ensures amounts { IfOk result (λ s. s.amounts.items ≡ map (λ a. a.amount) rules.now.allowances.items) }
        ensures kept { IfOk result (λ s. AreFirst rules.now.sums.items rules.now.balances.items s.kept.items) }
        ensures waiting { IfOk result (λ s. s.waiting.items ≡ s.kept.items) }
    {
        let amounts = first_amounts(alloc, rules)?;
        let kept = first_blocks(alloc, rules)?;
        let waiting = Vec::from_slice(alloc, kept.as_slice())?;
        Ok(Standing {
            amounts,
            kept,
            waiting,
        })
    }

    /// Returns what is counted between two lines, by the amounts and the static bytes: there each block is what it is to
    /// be.
    ///
    /// # Errors
    ///
    /// Returns `NoMemory` if it is out of memory.
    pub fn between(
        alloc: Global,
        rules: &Rules<'_>,
        amounts: &[u32],
        fixed: &[u8],
    ) -> Result<Standing, NoMemory>
        ensures amounts { IfOk result (λ s. s.amounts.items ≡ amounts.now) }
        ensures kept { IfOk result (λ s. s.kept.items ≡ blocks_of fixed.now rules.now.balances.items) }
        ensures waiting { IfOk result (λ s. s.waiting.items ≡ s.kept.items) }
    {
        let amounts = Vec::from_slice(alloc, amounts)?;
        let kept = blocks_in(alloc, rules.balances.as_slice(), fixed)?;
        let waiting = Vec::from_slice(alloc, kept.as_slice())?;
        Ok(Standing {
            amounts,
            kept,
            waiting,
        })
    }

    /// Keeps what waits.
    pub fn keep(&mut self)
        ensures kept { vec_len self.old.kept ≡ vec_len self.old.waiting → self.new.kept.items ≡ self.old.waiting.items }
        ensures waiting { self.new.waiting.items ≡ self.old.waiting.items }
        ensures amounts { self.new.amounts.items ≡ self.old.amounts.items }
    {
        assign(self.kept.as_mut_slice(), self.waiting.as_slice());
    }

    /// Drops what waits.
    pub fn drop_waiting(&mut self)
        ensures waiting { vec_len self.old.kept ≡ vec_len self.old.waiting → self.new.waiting.items
            ≡ self.old.kept.items }
        ensures kept { self.new.kept.items ≡ self.old.kept.items }
        ensures amounts { self.new.amounts.items ≡ self.old.amounts.items }
    {
        assign(self.waiting.as_mut_slice(), self.kept.as_slice());
    }

    /// Moves a sum by a number: each block that it binds moves with it, in what waits.
    pub fn move_sum(&mut self, balances: &[Balance], sum: usize, takes: bool, number: &[u8])
        ensures kept { self.new.kept.items ≡ self.old.kept.items }
        ensures amounts { self.new.amounts.items ≡ self.old.amounts.items }
        ensures size { vec_len self.new.waiting ≡ vec_len self.old.waiting }
        ensures waiting { AreMoved balances.now sum takes (num number.now) self.old.waiting.items
            self.new.waiting.items }
    {
        move_blocks(self.waiting.as_mut_slice(), balances, sum, takes, number);
    }
}

// Whether a static byte is in its range.
fn is_in(fixed: &[u8], range: &Always) -> bool
    ensures { result ≡ is_within fixed.now range.now }
{
    match fixed.get(range.at as usize) {
        Some(byte) => range.low <= *byte && *byte <= range.high,
        None => range.low == 0,
    }
}

// The first range that static bytes break, with the number of its line.
fn broken_range(ranges: &[Always], fixed: &[u8]) -> Option<(u32, Break)>
    ensures { IsFirstRange fixed.now ranges.now result }
{
    for (i, range) in ranges.iter().enumerate() {
        if !is_in(fixed, range) {
            return Some((range.line, Break::Range(i)));
        }
    }
    None
}

// The first block that is not these bytes, one block after the other, with the number of its line.
fn broken_block(balances: &[Balance], blocks: &[u8], fixed: &[u8]) -> Option<(u32, Break)>
    ensures { IsFirstBlock fixed.now balances.now blocks.now result }
{
    let mut rest = blocks;
    for (i, balance) in balances.iter().enumerate() {
        let size = (balance.n as usize).min(rest.len());
        if !is_block(fixed, balance, &rest[..size]) {
            return Some((balance.line, Break::Block(i)));
        }
        rest = &rest[size..];
    }
    None
}

// The one of the two whose line comes first.
fn first_of(one: Option<(u32, Break)>, other: Option<(u32, Break)>) -> Option<Break>
    ensures { result ≡ first_of one other }
{
    match (one, other) {
        (Some((line, range)), Some((number, block))) => {
            Some(if line < number { range } else { block })
        }
        (Some((_, range)), None) => Some(range),
        (None, Some((_, block))) => Some(block),
        (None, None) => None,
    }
}

/// Returns the first `always` line that static bytes break, by what is kept.
pub fn broken_always(rules: &Rules<'_>, standing: &Standing, fixed: &[u8]) -> Option<Break>
    ensures { IsFirstBroken rules.now.always.items rules.now.balances.items standing.now.kept.items fixed.now result }
{
    first_of(
        broken_range(rules.always.as_slice(), fixed),
        broken_block(rules.balances.as_slice(), standing.kept.as_slice(), fixed),
    )
}
