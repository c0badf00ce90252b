#![tactic(auto, unfolding(crate::specs::Computed::answers_to_input, crate::specs::Frames::frames_within))]

// Worked rows: sessions from the text of a deck and the bytes of the host's frames to the bytes of the answers.
ghost use Rattle.std.specs.Prelude.{◌≡◌, ◌++◌, [], codes};
ghost use Rattle.model_examples.specs.Written.{hex, times};
ghost use Rattle.model_examples.specs.Played.{unit_line};
ghost use Rattle.mc_reader.specs.Frames.{frames_read};
ghost use Rattle.mc_reader.specs.SessionDeck.{session_text};
ghost use Rattle.mc_reader.specs.Computed.{answers_to_input};

/// The host requests the answer to reset: it does not depend on power.
pub fn answer_to_reset()
    ensures { answers_to_input (codes "format\n") (codes "0001 04 0001 01 0001 04")
        ≡ hex (codes "000C 3B878001 4D454C43415244 56 000C 3B878001 4D454C43415244 56") }
{}

/// A counter that the deck loaded is selected and counts twice; a reset ends the selection, and the count is
/// kept.
pub fn counts_and_a_reset()
    ensures { answers_to_input (
        codes "format\npower\n" ++
        unit_line (codes "a") (codes "A000000001") (codes "B9020000 39020000 46020000 060002") [] ++
        codes "load a 2 0\n") (
        codes "0001 01 000A 00A4040C05A000000001 0005 8001000002 0005 8001000002 " ++
        codes "0001 02 0005 8001000002 000A 00A4040C05A000000001 0005 8001000002")
        ≡ hex (codes "0002 9000 0004 00019000 0004 00029000 0002 6985 0002 9000 0004 00039000") }
{}

/// Before a power-on or a reset the card has no power and receives no command, whatever the deck did.
pub fn commands_without_power()
    ensures before { answers_to_input (codes "format\npower\n") (codes "0005 8001000002 0001 01 0005 8001000002")
        ≡ hex (codes "0000 0002 6985") }
    ensures off { answers_to_input (codes "format\n")
        (codes "0001 01 0001 00 0005 8001000002 0001 04 0001 02 0005 8001000002")
        ≡ hex (codes "0000 000C 3B878001 4D454C43415244 56 0002 6985") }
{}

/// Bytes without a meaning, and frames without a byte.
pub fn nothing()
    ensures { answers_to_input (codes "format\n") (codes "0000 0001 03 0001 FF 0001 05 0001 80 0000") ≡ [] }
{}

/// The refusals of commands to the reader: the first that applies. None of them is a line, and they need no
/// power.
pub fn refusals()
    ensures length { answers_to_input (codes "format\n") (
        codes "0002 FFC0 0004 FFC00000 0005 FFC000000C 0006 FFC000000C00 0006 FFC300000000 " ++
        codes "0009 FFC000000400000001 0009 FFC101000400000001")
        ≡ hex (codes "0002 6700 0002 6700 0002 6700 0002 6700 0002 6700 0002 6700 0002 6A86") }
    ensures instruction { answers_to_input (codes "format\n")
        (codes "0005 FFC3000000 0005 FFC3010000 0006 FF00000001AA")
        ≡ hex (codes "0002 6D00 0002 6D00 0002 6D00") }
    ensures parameters { answers_to_input (codes "format\n") (
        codes "0011 FFC001000C000000000000000000000000 0009 FFC100010400000000 0009 FFC201010400000000")
        ≡ hex (codes "0002 6A86 0002 6A86 0002 6A86") }
    ensures values { answers_to_input (codes "format\n") (
        codes "0011 FFC000000C000000000000000000000000 0009 FFC100000400000000 0009 FFC200000400000000 0009 FFC200000400010001")
        ≡ hex (codes "0002 6A80 0002 6A80 0002 6A80 0002 6A80") }
    ensures taken { answers_to_input (codes "format\n") (
        codes "0011 FFC000000C000000010000000000000000 0009 FFC1000004FFFFFFFF 0009 FFC200000400000001 0009 FFC200000400010000")
        ≡ hex (codes "0002 9000 0002 9000 0002 9000 0002 9000") }
{}

/// An application with an undefined instruction, and a command without a selected application.
pub fn an_abend()
    ensures { answers_to_input (
        codes "format\npower\n" ++
        unit_line (codes "a") (codes "A000000001") (codes "30") [] ++
        codes "load a 0 0\n") (codes "0001 01 000A 00A4040C05A000000001 0004 80010000 000A 00A4040C05A000000009")
        ≡ hex (codes "0002 9000 0002 6F01 0002 6A82") }
{}

/// A stop that is armed between two commands, with a budget after it: the command that it hits is not
/// answered, and no other is until the next reset. The card continues from what it kept. A failed write is
/// answered, and leaves the card mute.
pub fn stops()
    ensures cut { answers_to_input (
        codes "format\npower\n" ++
        unit_line (codes "a") (codes "A000000001") (codes "B9020000 39020000 46020000 060002") [] ++
        codes "load a 2 0\n") (
        codes "0001 01 000A 00A4040C05A000000001 0005 8001000002 0011 FFC000000C000000010000000000000000 0009 FFC200000400000100 " ++
        codes "0005 8001000002 0005 8001000002 0001 02 000A 00A4040C05A000000001 0005 8001000002")
        ≡ hex (codes "0002 9000 0004 00019000 0002 9000 0002 9000 0000 0000 0002 9000 0004 00029000") }
    ensures refused { answers_to_input (
        codes "format\npower\n" ++
        unit_line (codes "a") (codes "A000000001") (codes "B9020000 39020000 46020000 060002") [] ++
        codes "load a 2 0\n") (
        codes "0001 01 000A 00A4040C05A000000001 0009 FFC100000400000001 0005 8001000002 0005 8001000002")
        ≡ hex (codes "0002 9000 0002 9000 0002 6581 0000") }
{}

/// A command of 256 bytes, and one that is not received completely.
pub fn long_and_short_frames()
    ensures { answers_to_input (
        codes "format\npower\n" ++
        unit_line (codes "a") (codes "A000000001") (codes "B9020000 39020000 46020000 060002") [] ++
        codes "load a 2 0\n") (
        codes "0001 01 000A 00A4040C05A000000001 0100 80010000FA" ++ times 250 (codes "00") ++ codes "02 0005 80010000")
        ≡ hex (codes "0002 9000 0004 00019000") }
{}

/// The deck that a session is, as a text: a statement for each frame that represents a line, and none for another.
pub fn text_of_a_session()
    ensures { session_text (codes "format")
        ((frames_read (hex (codes "0001 01 0001 04 0001 00 0005 8001000002 0001 02 0005 8001000002"))).0)
        ≡ codes "format\npower\npower\napdu 8001000002\n" }
{}
