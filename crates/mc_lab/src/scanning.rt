// The remarks of a deck's text.
ghost use Rattle.std.specs.Prelude.{◌≡◌, ◌^◌, ◌<◌, ◌++◌, length, IfOk, OnOk};
ghost use Rattle.law_explore.specs.model_play.specs.DeckGrammar.{deck_read};
ghost use Rattle.mc_lab.specs.Remarks.{just, remarks};
ghost use Rattle.mc_lab.specs.Remarked.{remark_values, some_value};

use crate::remark::{Mark, Remark, above_after, remark_at};
use lab_match::stays_inside;
use mc_asm::NumberedLine;
use mc_text::next_line;
use mc_words::NoMemory;
use std::alloc::Global;

// Adds a remark, if there is one.
#[tactic(auto, using(crate::proofs::RemarkLemmas::values_more))]
fn push_some<'a>(found: &mut Vec<Remark<'a>>, remark: Option<Remark<'a>>) -> Result<(), NoMemory>
    ensures { OnOk result
        (remark_values found.new.items ≡ remark_values found.old.items ++ just (some_value remark.entry)) }
{
    let Some(remark) = remark else {
        return Ok(());
    };
    match found.push(remark) {
        Ok(()) => Ok(()),
        Err(_) => Err(NoMemory),
    }
}

/// Returns the remarks of a deck's text with a mark, in order. A line inside a section is assembly, where `#` does
/// not begin a comment. If the text is not a deck the result is unspecified.
///
/// # Errors
///
/// Returns `NoMemory` if it is out of memory.
pub fn remarks(alloc: Global, text: &[u8], mark: Mark) -> Result<Vec<Remark<'_>>, NoMemory>
    requires { length text.now < 2 ^ 32 }
    ensures { IfOk result (λ v. OnOk (deck_read text.now) (remark_values v.items ≡ remarks mark text.now)) }
{
    let mut found = Vec::new(alloc);
    let mut inside = false;
    let mut above = NumberedLine {
        number: 0,
        text: &[],
    };
    let mut number = 0;
    let mut rest = text;
    while let Some((line, behind)) = next_line(rest) {
        number += 1;
        let here = NumberedLine { number, text: line };
        push_some(&mut found, remark_at(mark, inside, here, above))?;
        inside = stays_inside(inside, line);
        above = above_after(here, above);
        rest = behind;
    }
    Ok(found)
}
