// The fields of a line.
ghost use Rattle.std.specs.Prelude.{◌≡◌, ◌<◌, length, take};
ghost use Rattle.std.specs.List.{AllByRecursion};
ghost use Rattle.model_play.specs.model_text.specs.Text.{fields};
ghost use Rattle.mc_asm.specs.Items.{texts};

use arrayvec::ArrayVec;
use mc_text::cut_blank;

/// Returns the first five fields of a line: no statement has more than four.
pub fn fields<'a>(line: &'a [u8]) -> ArrayVec<&'a [u8], 5>
    ensures value { texts result.items ≡ take 5 (fields line.now) }
    ensures filled { AllByRecursion (λ t. 0 < length t.now) result.items }
{
    let mut parts = ArrayVec::new();
    let mut rest = Some(line);
    while let Some(left) = rest {
        let (part, behind) = cut_blank(left);
        if !part.is_empty() {
            if parts.is_full() {
                return parts;
            }
            parts.push(part);
        }
        rest = behind;
    }
    parts
}
