ghost use Rattle.std.specs.Prelude.{◌≡◌, ◌-◌, ◌≤◌, [], ◌∷◌};
ghost use Rattle.mc_words.specs.model_device.specs.Bytes.{zeros};
ghost use Rattle.mc_words.specs.model_device.specs.Image.{shut_word};
ghost use Rattle.mc_words.specs.model_device.specs.Card.{heap_start};
ghost use Rattle.mc_words.specs.model_device.specs.Layout.{root, hole_header};

use crate::header::{HEAP, hole_word, root_word};
use mc_gate::{HEAD, Layout, SHUT};
use mc_words::Word;

/// Returns words 0, 1, 2, 130 and 131 of an empty card of layout 2 on a device of `size` words, 256 to
/// 16,384: the root, the two gates, the head of the journal, and one hole over the whole heap.
pub fn format_words(size: u32) -> [(u16, Word); 5]
    requires low { 256 ≤ size }
    requires high { size ≤ 16384 }
    ensures { result ≡ (0, root 2 size heap_start) ∷ (1, shut_word) ∷ (2, zeros 8) ∷ (130, shut_word)
        ∷ (heap_start, hole_header (size - heap_start) 0) ∷ [] }
{
    [
        (0, root_word(2, size as u16, HEAP as u16)),
        (Layout::V1.gate() as u16, SHUT),
        (HEAD as u16, [0; 8]),
        (Layout::V2.gate() as u16, SHUT),
        (HEAP as u16, hole_word(size as u16 - HEAP as u16, 0)),
    ]
}
