#![tactic(auto)]

//! Laws of bytes, over the definitions alone: what begins as bytes stays so.

ghost use Rattle.law_bytes.specs.OfBytes.{RowBytesLaw};
ghost use Rattle.law_bytes.specs.OfChains.{RunBytesLaw, StartBytesLaw, TurnBytesLaw};
ghost use Rattle.law_bytes.specs.OfPlays.{PlayBytesLaw};

/// Each row of an instruction that was read from bytes, in a frame of bytes, writes bytes alone.
pub fn rows_write_bytes()
    ensures { RowBytesLaw }
{}

/// A chain of bytes stays one: its applications, its frames, the public segment, and the names of its applications,
/// which have 5 to 16 bytes; and a command of bytes begins such a chain.
pub fn chains_stay_bytes()
    ensures turn { TurnBytesLaw }
    ensures run { RunBytesLaw }
    ensures start { StartBytesLaw }
{}

/// Lines of bytes on an image of words of bytes play through states of bytes, whichever writes fail: the applications of
/// the card, their names, the session and the open load.
pub fn plays_stay_bytes()
    ensures { PlayBytesLaw }
{}
