// The property of accepted code in plays.
ghost use Rattle.mc_check.specs.Plays.{CheckedPlaysLaw};

/// In every play, whatever was cut and whichever write failed, no turn in a frame of an application with
/// accepted code ends with abend 01, 02, 04 or 05, and the top of its stack stays within the verdict. Code is
/// accepted here if it has the property of an accepting verdict with the session size of the application, and
/// `check` ensures that for each code that it accepts.
pub fn checked_plays()
    ensures { CheckedPlaysLaw }
{}
