// Laws of drafts, over the definitions alone.
ghost use Rattle.desk_draft.specs.Laws.{CodeIsOfLines, LinesStay, TurnsAreOfSteps};

/// A draft and its deck have as many lines.
pub fn lines_stay()
    ensures { LinesStay }
{}

/// The code of a section is that of its lines, one after the other.
pub fn code_is_of_lines()
    ensures { CodeIsOfLines }
{}

/// The turns that are traced of a line are those of its step, with what surrounds them.
pub fn turns_are_of_steps()
    ensures { TurnsAreOfSteps }
{}
