// What is asked: an application, its rules, and the classes of commands.
ghost use Rattle.std.specs.Prelude.{◌≡◌, ◌≤◌, length, IfOk};
ghost use Rattle.mc_isa.specs.model_device.specs.Limits.{most_code};

use lab_app_rules::{Load, Rules};
use model_device::NoMemory;
use prove_events::{Class, classes};
use prove_facts::{Block, push};
use prove_outcomes::Sizes;
use std::alloc::Global;

/// An application with its rules, and the classes of commands that they tell apart.
#[derive(Drop)]
pub struct Subject<'a> {
    pub sizes: Sizes<'a>,
    pub rules: &'a Rules<'a>,
    pub classes: Vec<Class>,
}

/// Returns the blocks of the lines of sums.
///
/// # Errors
///
/// Returns `NoMemory` if it is out of memory.
pub fn blocks_of(alloc: Global, rules: &Rules<'_>) -> Result<Vec<Block>, NoMemory> {
    let mut blocks = Vec::new(alloc);
    for balance in &rules.balances {
        push(
            &mut blocks,
            Block {
                at: balance.at,
                n: balance.n,
            },
        )?;
    }
    Ok(blocks)
}

/// Returns the code of an application, of which a card has at most 8,192 bytes.
pub fn code_of<'a>(load: &Load<'a>) -> &'a [u8]
    ensures { length result.now ≤ most_code }
{
    if load.code.len() > 8192 {
        return &load.code[..8192];
    }
    load.code
}

impl<'a> Subject<'a> {
    /// Returns the application of some rules, whose lines of sums have these blocks.
    ///
    /// # Errors
    ///
    /// Returns `NoMemory` if it is out of memory.
    pub fn new(
        alloc: Global,
        rules: &'a Rules<'a>,
        blocks: &'a [Block],
    ) -> Result<Subject<'a>, NoMemory>
        ensures { IfOk result (λ subject. subject.rules.now ≡ rules.now) }
    {
        let sizes = Sizes {
            code: code_of(&rules.load).len().min(8192) as u16,
            fixed: rules.load.fixed,
            session: rules.load.session,
            blocks,
        };
        let classes = classes(alloc, rules.ons.as_slice())?;
        Ok(Subject {
            sizes,
            rules,
            classes,
        })
    }
}
