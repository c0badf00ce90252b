ghost use Rattle.law_explore_text.specs.TextSafety.{DepthTextLaw, TextLaw};

/// If the text of an exploration says `all`, no sequence of moves spends an allowance below zero.
pub fn a_text_that_says_all_is_safe()
    ensures { TextLaw }
{}

/// If the text of an exploration says `depth N` and fewer states than the most, no sequence of at most N moves does.
pub fn a_text_that_says_depth_is_safe()
    ensures { DepthTextLaw }
{}
