#![tactic(auto, unfolding(model_events::specs::Matching::fits))]

// Worked rows: the texts that patterns hold for.
ghost use Rattle.std.specs.Prelude.{◌≡◌, [], codes, true, false};
ghost use Rattle.law_explore.specs.model_events.specs.Matching.{fits};

/// A pattern without `?` and `*` matches itself and nothing else.
pub fn plain()
    ensures same { fits (codes "9000") (codes "9000") ≡ true }
    ensures shorter { fits (codes "900") (codes "9000") ≡ false }
    ensures longer { fits (codes "90000") (codes "9000") ≡ false }
    ensures other { fits (codes "6A82") (codes "6A83") ≡ false }
{}

/// Letters match in either case.
pub fn either_case()
    ensures small { fits (codes "6a82") (codes "6A82") ≡ true }
    ensures capital { fits (codes "READY 0") (codes "ready 0") ≡ true }
    ensures last { fits (codes "Zz") (codes "zZ") ≡ true }
    ensures before_a { fits (codes "@") (codes "`") ≡ false }
    ensures after_z { fits (codes "[") (codes "{") ≡ false }
{}

/// `?` matches exactly one character.
pub fn any_one()
    ensures one { fits (codes "90?0") (codes "9000") ≡ true }
    ensures last { fits (codes "900?") (codes "9000") ≡ true }
    ensures none { fits (codes "9000?") (codes "9000") ≡ false }
    ensures itself { fits (codes "?") (codes "?") ≡ true }
{}

/// `*` matches any characters or none, and the rest of the pattern matches at any place after them.
pub fn any_or_none()
    ensures none { fits (codes "90*00") (codes "9000") ≡ true }
    ensures some { fits (codes "*9000") (codes "00019000") ≡ true }
    ensures empty { fits (codes "*") [] ≡ true }
    ensures back { fits (codes "*ab*b") (codes "aabab") ≡ true }
    ensures later { fits (codes "a*ab?c") (codes "aabxabbc") ≡ true }
    ensures not_there { fits (codes "a*ab?c") (codes "aabxabcb") ≡ false }
    ensures overlap { fits (codes "ab*ba") (codes "aba") ≡ false }
    ensures two { fits (codes "**") (codes "x") ≡ true }
    ensures star_for_itself { fits (codes "a*") (codes "a*b*") ≡ true }
{}

/// Blanks are ignored in a pattern and in a result; a pattern of blanks alone, or an empty one, never holds.
pub fn blanks()
    ensures pattern { fits (codes "0001 9000") (codes "00019000") ≡ true }
    ensures tab { fits (codes "0001\t90 00") (codes "00019000") ≡ true }
    ensures result { fits (codes "ready0") (codes "ready 0") ≡ true }
    ensures both { fits (codes "off at write ?") (codes "off at write 3") ≡ true }
    ensures empty { fits [] (codes "9000") ≡ false }
    ensures nothing { fits [] [] ≡ false }
    ensures star { fits (codes "*") (codes "absent") ≡ true }
    ensures part { fits (codes "static 03*") (codes "static 0400") ≡ false }
{}
