#![tactic(auto, unfolding(crate::specs::Played::deck_transcript, crate::specs::Played::deck_transcript_on))]

ghost use Rattle.std.specs.Prelude.{◌≡◌, ◌++◌, [], codes, Ok};
ghost use Rattle.model_examples.specs.Played.{deck_transcript, deck_transcript_on, unit_line};

/// A counter, loaded and selected, counts two commands.
pub fn ordinary_use()
    ensures { deck_transcript (
        codes "format\npower\n" ++
        codes "unit counter 0000000000000000000FB902000039020000460200000600020000000961074F05A0000000010" ++
        codes "0096F078405A00000000100000000\nload counter 2 0\nselect A000000001\napdu 8001000002\n" ++
        codes "apdu 8001000002\n")
        ≡ Ok (codes "1 formatted\n2 ready 0\n4 9000\n5 9000\n6 00019000\n7 00029000\n") }
{}

/// A counter that passes its end: C and Z are set.
pub fn carry_and_zero()
    ensures { deck_transcript (
        codes "format\npower\n" ++
        unit_line (codes "a") (codes "A000000001") (codes "B9020000 2802 46010000 060001") (codes "FFFF") ++
        codes "load a 2 0\nselect A000000001\napdu 8001000001\ndump A000000001\n")
        ≡ Ok (codes "1 formatted\n2 ready 0\n4 9000\n5 9000\n6 039000\n7 static 0000\n") }
{}

/// A device of 256 words: a load that finds no room finds it once another application is deleted.
pub fn room()
    ensures { deck_transcript_on 256 (
        codes "format\npower\n" ++
        unit_line (codes "a") (codes "A000000001") (codes "B9020000 39020000 46020000 060002") [] ++
        unit_line (codes "b") (codes "A000000002") (codes "B9020000 39020000 46020000 060002") [] ++
        unit_line (codes "c") (codes "A000000003") (codes "B9020000 39020000 46020000 060002") [] ++
        codes "load a 400 0\nload b 400 0\nload c 424 0\ndelete A000000002\nload c 424 0\n")
        ≡ Ok (codes "1 formatted\n2 ready 0\n6 9000\n7 9000\n8 6A84\n9 9000\n10 9000\n") }
{}

/// A load into the words of a deleted application finds zeros.
pub fn no_stale_byte()
    ensures { deck_transcript (
        codes "format\npower\n" ++
        unit_line (codes "old") (codes "A000000006") (codes "04") (codes "DEADBEEFDEADBEEF") ++
        unit_line (codes "new") (codes "A000000007") (codes "04") [] ++
        codes "load old 8 0\ndelete A000000006\nload new 8 0\ndump A000000007\n")
        ≡ Ok (codes "1 formatted\n2 ready 0\n5 9000\n6 9000\n7 9000\n8 static 0000000000000000\n") }
{}

/// A unit whose DIR has a label after the name.
pub fn label_behind_the_name()
    ensures { deck_transcript (
        codes "format\npower\n" ++
        codes "unit counter 0000000000000000000FB902000039020000460200000600020000000E610C4F05A0000000015" ++
        codes "00350555200096F078405A00000000100000000\nload counter 2 0\n")
        ≡ Ok (codes "1 formatted\n2 ready 0\n4 9000\n") }
{}

/// Credits, debits and the balance, a debit that is cut, and one that is refused.
pub fn purse()
    ensures { deck_transcript (
        codes "format\npower\n" ++
        unit_line (codes "purse") (codes "A000000002") (
        codes "7730FFF4 110023 7740FFF4 11002C 7750FFF4 110018 056D00 39040000 46040000 060004" ++
        codes "3E040000 D9040000 04 39040000 3E040000 E004 12004A 2404 290302 41040000 B9020008" ++
        codes "290301 04 056985") [] ++
        codes "load purse 10 0\nselect A000000002\napdu 803000000400000064\napdu 80400000040000001E\n" ++
        codes "apdu 8050000004\ncut 6 4F50454E2D322D2D\napdu 80400000040000000A\npower\ndump A000000002\n" ++
        codes "apdu 8050000004\nselect A000000002\napdu 804000000400000064\napdu 8050000004\napdu 80600000\n")
        ≡ Ok (
        codes "1 formatted\n2 ready 0\n4 9000\n5 9000\n6 9000\n7 9000\n8 000000469000\n10 off at write 6\n" ++
        codes "11 ready 3\n12 static 0000003C000000000002\n13 6985\n14 9000\n15 6985\n16 0000003C9000\n" ++
        codes "17 6D00\n") }
{}

/// Commands that no application is selected for.
pub fn routing()
    ensures { deck_transcript (
        codes "format\npower\napdu 8001\napdu 8001000002AA\napdu 800100000000\napdu FF010000\napdu BE990000\n" ++
        codes "apdu 00A40402\napdu 80010000\napdu BE1200000C000F00020000000000090009\napdu BE24000101B9\n")
        ≡ Ok (
        codes "1 formatted\n2 ready 0\n3 6700\n4 6700\n5 6700\n6 6E00\n7 6D00\n8 6A86\n9 6985\n10 9000\n" ++
        codes "11 6985\n") }
{}

/// A load whose access list denies delegation.
pub fn access_list()
    ensures { deck_transcript (
        codes "format\npower\napdu BE1200020C000600060006000000090000\napdu BE24000006220000280704\n" ++
        codes "apdu BE2600000605A000000001\napdu BE2000000961074F05A000000003\napdu BE160000\nselect A000000003\n" ++
        codes "apdu 80010000\n")
        ≡ Ok (codes "1 formatted\n2 ready 0\n3 9000\n4 9000\n5 9000\n6 9000\n7 9000\n8 9000\n9 abend 0A\n") }
{}

/// The same load, with an access list that denies nothing.
pub fn empty_access_list()
    ensures { deck_transcript (
        codes "format\npower\napdu BE1200000C000600060006000000090000\napdu BE24000006220000280704\n" ++
        codes "apdu BE2600000605A000000001\napdu BE2000000961074F05A000000003\napdu BE160000\nselect A000000003\n" ++
        codes "apdu 80010000\n")
        ≡ Ok (codes "1 formatted\n2 ready 0\n3 9000\n4 9000\n5 9000\n6 9000\n7 9000\n8 9000\n9 6A82\n") }
{}

/// An access list with a bit that denies nothing.
pub fn unknown_access_bit()
    ensures { deck_transcript (
        codes "format\npower\napdu BE1200100C000600060006000000090000\n")
        ≡ Ok (codes "1 formatted\n2 ready 0\n3 6A86\n") }
{}

/// Before the first power line, on a blank device, and after a stop no card answers.
pub fn states_without_a_card()
    ensures { deck_transcript (
        codes "select A000000001\ndump A000000001\napdu 80\npower\napdu 80010000\n")
        ≡ Ok (codes "1 off\n2 off\n3 off\n4 unusable NoRoot 0\n5 off\n") }
{}

/// Session bytes stay from command to command, and are zero after a selection.
pub fn session_bytes()
    ensures { deck_transcript (
        codes "format\npower\n" ++
        unit_line (codes "a") (codes "A000000008") (codes "BB020000 3B020000 46020000 060002") [] ++
        codes "load a 0 2\nselect A000000008\napdu 8001000002\napdu 8001000002\nselect A000000008\n" ++
        codes "apdu 8001000002\n")
        ≡ Ok (codes "1 formatted\n2 ready 0\n4 9000\n5 9000\n6 00019000\n7 00029000\n8 9000\n9 00019000\n") }
{}

/// A routine that is called, and returns with its result.
pub fn call_and_return()
    ensures { deck_transcript (
        codes "format\npower\n" ++
        unit_line (codes "a") (codes "A000000001") (codes "2105 1F000C 46010000 060001 3C01FFFB 7803 2F0101") [] ++
        codes "load a 0 0\nselect A000000001\napdu 8001000001\n")
        ≡ Ok (codes "1 formatted\n2 ready 0\n4 9000\n5 9000\n6 089000\n") }
{}

/// The last byte of a segment is written, the one after it is not.
pub fn last_static_byte()
    ensures { deck_transcript (
        codes "format\npower\n" ++
        unit_line (codes "a") (codes "A000000001") (codes "39010001 04") [] ++
        unit_line (codes "b") (codes "A000000002") (codes "39020001 04") [] ++
        unit_line (codes "c") (codes "A000000003") (codes "B9020000 39020000 46020000 060002") [] ++
        codes "load a 2 0\nload b 2 0\nload c 2 0\nselect A000000001\napdu 80010000\nselect A000000002\n" ++
        codes "apdu 80010000\n")
        ≡ Ok (codes "1 formatted\n2 ready 0\n6 9000\n7 9000\n8 9000\n9 9000\n10 9000\n11 9000\n12 abend 03\n") }
{}

/// Each decoded instruction counts; the fetch past the budget abends.
pub fn budgets()
    ensures { deck_transcript (
        codes "format\npower\n" ++
        unit_line (codes "a") (codes "A000000001") (codes "000004") [] ++
        codes "load a 0 0\nselect A000000001\nbudget 3\napdu 80010000\nbudget 2\napdu 80010000\n")
        ≡ Ok (codes "1 formatted\n2 ready 0\n4 9000\n5 9000\n7 9000\n9 abend 07\n") }
{}

/// A branch to itself abends at every budget.
pub fn endless()
    ensures { deck_transcript (
        codes "format\npower\n" ++
        unit_line (codes "a") (codes "A000000001") (codes "0FFE") [] ++
        codes "load a 0 0\nselect A000000001\nbudget 1\napdu 80010000\nbudget 100\napdu 80010000\n")
        ≡ Ok (codes "1 formatted\n2 ready 0\n4 9000\n5 9000\n7 abend 07\n9 abend 07\n") }
{}

/// A write before an abend stays.
pub fn abend_after_a_write()
    ensures { deck_transcript (
        codes "format\npower\n" ++
        unit_line (codes "a") (codes "A000000001") (codes "69110000 30") [] ++
        codes "load a 1 0\nselect A000000001\napdu 80010000\ndump A000000001\n")
        ≡ Ok (codes "1 formatted\n2 ready 0\n4 9000\n5 9000\n6 abend 01\n7 static 11\n") }
{}

/// An op with a tag that begins no instruction.
pub fn undefined_tag()
    ensures { deck_transcript (
        codes "format\npower\n" ++
        unit_line (codes "a") (codes "A000000001") (codes "23") [] ++
        codes "load a 0 0\nselect A000000001\napdu 80010000\n")
        ≡ Ok (codes "1 formatted\n2 ready 0\n4 9000\n5 9000\n6 abend 01\n") }
{}

/// The public segment begins with the data of the command, and zeros after them.
pub fn public_bytes()
    ensures { deck_transcript (
        codes "format\npower\n" ++
        unit_line (codes "a") (codes "A000000001") (codes "060004") [] ++
        codes "load a 0 0\nselect A000000001\napdu 80010000041122334404\napdu 8001000004\n")
        ≡ Ok (codes "1 formatted\n2 ready 0\n4 9000\n5 9000\n6 112233449000\n7 000000009000\n") }
{}

/// Commands in the extended form.
pub fn extended_commands()
    ensures { deck_transcript (
        codes "format\npower\n" ++
        unit_line (codes "a") (codes "A000000001") (codes "060004") [] ++
        codes "load a 0 0\nselect A000000001\napdu 8001000000000211220004\napdu 8001000000000211220000\n" ++
        codes "apdu 80010000000002\napdu 800100000000021122\n")
        ≡ Ok (codes "1 formatted\n2 ready 0\n4 9000\n5 9000\n6 112200009000\n7 112200009000\n8 00009000\n9 9000\n") }
{}

/// More than 1,024 bytes of data are a wrong length.
pub fn extended_command_too_long()
    ensures { deck_transcript (
        codes "format\npower\n" ++
        unit_line (codes "a") (codes "A000000001") (codes "060004") [] ++
        codes "load a 0 0\nselect A000000001\n" ++
        codes "apdu 8001000000040100000000000000000000000000000000000000000000000000000000000000000000000" ++
        codes "000000000000000000000000000000000000000000000000000000000000000000000000000000000000000000" ++
        codes "000000000000000000000000000000000000000000000000000000000000000000000000000000000000000000" ++
        codes "000000000000000000000000000000000000000000000000000000000000000000000000000000000000000000" ++
        codes "000000000000000000000000000000000000000000000000000000000000000000000000000000000000000000" ++
        codes "000000000000000000000000000000000000000000000000000000000000000000000000000000000000000000" ++
        codes "000000000000000000000000000000000000000000000000000000000000000000000000000000000000000000" ++
        codes "000000000000000000000000000000000000000000000000000000000000000000000000000000000000000000" ++
        codes "000000000000000000000000000000000000000000000000000000000000000000000000000000000000000000" ++
        codes "000000000000000000000000000000000000000000000000000000000000000000000000000000000000000000" ++
        codes "000000000000000000000000000000000000000000000000000000000000000000000000000000000000000000" ++
        codes "000000000000000000000000000000000000000000000000000000000000000000000000000000000000000000" ++
        codes "000000000000000000000000000000000000000000000000000000000000000000000000000000000000000000" ++
        codes "000000000000000000000000000000000000000000000000000000000000000000000000000000000000000000" ++
        codes "000000000000000000000000000000000000000000000000000000000000000000000000000000000000000000" ++
        codes "000000000000000000000000000000000000000000000000000000000000000000000000000000000000000000" ++
        codes "000000000000000000000000000000000000000000000000000000000000000000000000000000000000000000" ++
        codes "000000000000000000000000000000000000000000000000000000000000000000000000000000000000000000" ++
        codes "000000000000000000000000000000000000000000000000000000000000000000000000000000000000000000" ++
        codes "000000000000000000000000000000000000000000000000000000000000000000000000000000000000000000" ++
        codes "000000000000000000000000000000000000000000000000000000000000000000000000000000000000000000" ++
        codes "000000000000000000000000000000000000000000000000000000000000000000000000000000000000000000" ++
        codes "00000000000000000000000000000000000000000000000000000000000000000000000000000000000000000\n")
        ≡ Ok (codes "1 formatted\n2 ready 0\n4 9000\n5 9000\n6 6700\n") }
{}

/// A reply of 1,024 bytes.
pub fn longest_reply()
    ensures { deck_transcript (
        codes "format\npower\n" ++
        unit_line (codes "a") (codes "A000000001") (codes "060400") [] ++
        codes "load a 0 0\nselect A000000001\napdu 80010000000000\n")
        ≡ Ok (
        codes "1 formatted\n2 ready 0\n4 9000\n5 9000\n" ++
        codes "6 00000000000000000000000000000000000000000000000000000000000000000000000000000000000000000000" ++
        codes "0000000000000000000000000000000000000000000000000000000000000000000000000000000000000000000000" ++
        codes "0000000000000000000000000000000000000000000000000000000000000000000000000000000000000000000000" ++
        codes "0000000000000000000000000000000000000000000000000000000000000000000000000000000000000000000000" ++
        codes "0000000000000000000000000000000000000000000000000000000000000000000000000000000000000000000000" ++
        codes "0000000000000000000000000000000000000000000000000000000000000000000000000000000000000000000000" ++
        codes "0000000000000000000000000000000000000000000000000000000000000000000000000000000000000000000000" ++
        codes "0000000000000000000000000000000000000000000000000000000000000000000000000000000000000000000000" ++
        codes "0000000000000000000000000000000000000000000000000000000000000000000000000000000000000000000000" ++
        codes "0000000000000000000000000000000000000000000000000000000000000000000000000000000000000000000000" ++
        codes "0000000000000000000000000000000000000000000000000000000000000000000000000000000000000000000000" ++
        codes "0000000000000000000000000000000000000000000000000000000000000000000000000000000000000000000000" ++
        codes "0000000000000000000000000000000000000000000000000000000000000000000000000000000000000000000000" ++
        codes "0000000000000000000000000000000000000000000000000000000000000000000000000000000000000000000000" ++
        codes "0000000000000000000000000000000000000000000000000000000000000000000000000000000000000000000000" ++
        codes "0000000000000000000000000000000000000000000000000000000000000000000000000000000000000000000000" ++
        codes "0000000000000000000000000000000000000000000000000000000000000000000000000000000000000000000000" ++
        codes "0000000000000000000000000000000000000000000000000000000000000000000000000000000000000000000000" ++
        codes "0000000000000000000000000000000000000000000000000000000000000000000000000000000000000000000000" ++
        codes "0000000000000000000000000000000000000000000000000000000000000000000000000000000000000000000000" ++
        codes "0000000000000000000000000000000000000000000000000000000000000000000000000000000000000000000000" ++
        codes "00000000000000000000000000000000000000000000000000000000000000000000000000009000\n") }
{}

/// A reply of more bytes.
pub fn reply_too_long()
    ensures { deck_transcript (
        codes "format\npower\n" ++
        unit_line (codes "a") (codes "A000000001") (codes "060401") [] ++
        codes "load a 0 0\nselect A000000001\napdu 80010000\n")
        ≡ Ok (codes "1 formatted\n2 ready 0\n4 9000\n5 9000\n6 abend 09\n") }
{}
