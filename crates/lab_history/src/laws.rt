// What the counting of amounts by their places is, in the terms of the definition.
ghost use Rattle.lab_history.specs.Lines.{LineLaw, RangeLaw};
ghost use Rattle.lab_history.specs.Sums.{SumLaw};

/// What an `on` line does to the amounts of allowances, each at its place, is what it does to the allowances by their names.
pub fn places_are_names()
    ensures { LineLaw }
{}

/// A range as the code has it is one of the definition.
pub fn ranges_are_ranges()
    ensures { RangeLaw }
{}

/// What an `on` line about a sum does to a block, by the place of the sum, is what it does to the sum by its name.
pub fn blocks_are_sums()
    ensures { SumLaw }
{}
