// The values that primitives take from the stack.
ghost use Rattle.std.specs.Prelude.{◌≡◌, length, get_or, take, drop, slice_index};
ghost use Rattle.model_machine.specs.model_device.specs.Bytes.{num};
ghost use Rattle.model_machine.specs.Frame.{stack_bytes, top};
ghost use Rattle.model_machine.specs.Primitives.{number_below_top};
ghost use Rattle.mc_prims.specs.Acting.{Pops, PopsInto};

use mc_segs::{Frame, pop};
use model_machine::Abend;

/// Pops bytes into the slice.
///
/// # Errors
///
/// Returns abend 04 if the stack has fewer bytes; nothing of the frame changes then.
pub fn pop_into(frame: &mut Frame, into: &mut [u8]) -> Result<(), Abend>
    ensures { PopsInto result (length into.old) frame.old frame.new into.new }
{
    // DT is never past the end of the stack, so there is room to push as many bytes again.
    let _top = frame.dt();
    pop(frame, into)
}

/// Pops a byte.
pub fn pop_byte(frame: &mut Frame) -> Result<u8, Abend>
    ensures { Pops result (num (top frame.old.frame 1)) 1 frame.old frame.new }
{
    let mut byte = [0];
    pop_into(frame, &mut byte)?;
    Ok(byte[0])
}

/// Pops an address or a length, two bytes.
pub fn pop_word(frame: &mut Frame) -> Result<u16, Abend>
    ensures { Pops result (number_below_top frame.old.frame 2) 2 frame.old frame.new }
{
    let mut word = [0; 2];
    pop_into(frame, &mut word)?;
    Ok(u16::from_be_bytes(word))
}

/// Pops a byte and a word, which lies above it.
pub fn pop_byte_and_word(frame: &mut Frame) -> Result<(u8, u16), Abend>
    ensures { Pops result (num (stack_bytes frame.old.frame 3 1), number_below_top frame.old.frame 2) 3
        frame.old frame.new }
{
    let word = pop_word(frame)?;
    let byte = pop_byte(frame)?;
    Ok((byte, word))
}

/// Pops two words; the first lies deeper.
pub fn pop_two(frame: &mut Frame) -> Result<(u16, u16), Abend>
    ensures { Pops result (number_below_top frame.old.frame 4, number_below_top frame.old.frame 2) 4
        frame.old frame.new }
{
    let second = pop_word(frame)?;
    let first = pop_word(frame)?;
    Ok((first, second))
}

/// Pops three words; the first lies deepest.
pub fn pop_three(frame: &mut Frame) -> Result<(u16, u16, u16), Abend>
    ensures { Pops result (
      number_below_top frame.old.frame 6,
      number_below_top frame.old.frame 4,
      number_below_top frame.old.frame 2,
    ) 6 frame.old frame.new }
{
    let (second, third) = pop_two(frame)?;
    let first = pop_word(frame)?;
    Ok((first, second, third))
}

/// Pops four words; the first lies deepest.
pub fn pop_four(frame: &mut Frame) -> Result<(u16, u16, u16, u16), Abend>
    ensures { Pops result (
      number_below_top frame.old.frame 8,
      number_below_top frame.old.frame 6,
      number_below_top frame.old.frame 4,
      number_below_top
          frame.old.frame 2,
    ) 8 frame.old frame.new }
{
    let (second, third, fourth) = pop_three(frame)?;
    let first = pop_word(frame)?;
    Ok((first, second, third, fourth))
}
