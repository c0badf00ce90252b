#![tactic(auto, unfolding(crate::specs::Played::deck_transcript))]

ghost use Rattle.std.specs.Prelude.{◌≡◌, ◌++◌, [], codes, Ok};
ghost use Rattle.model_examples.specs.Played.{deck_transcript, unit_line};

/// A write that is cut before its gate leaves what was there, and no card runs.
pub fn cut_before_the_gate()
    ensures { deck_transcript (
        codes "format\npower\n" ++
        unit_line (codes "counter") (codes "A000000001") (codes "B9020000 39020000 46020000 060002") [] ++
        codes "load counter 2 0\nselect A000000001\ncut 3 0000000000000000\napdu 8001000002\napdu 8001000002\n" ++
        codes "power\ndump A000000001\n")
        ≡ Ok (codes "1 formatted\n2 ready 0\n4 9000\n5 9000\n7 off at write 3\n8 off\n9 ready 0\n10 static 0000\n") }
{}

/// A torn gate that holds the opening word stands.
pub fn torn_gate_that_opens()
    ensures { deck_transcript (
        codes "format\npower\n" ++
        unit_line (codes "counter") (codes "A000000001") (codes "B9020000 39020000 46020000 060002") [] ++
        codes "load counter 2 0\nselect A000000001\ncut 4 4F50454E2D322D2D\napdu 8001000002\npower\n" ++
        codes "dump A000000001\n")
        ≡ Ok (codes "1 formatted\n2 ready 0\n4 9000\n5 9000\n7 off at write 4\n8 ready 2\n9 static 0001\n") }
{}

/// A torn gate that holds another word does not.
pub fn torn_gate()
    ensures { deck_transcript (
        codes "format\npower\n" ++
        unit_line (codes "counter") (codes "A000000001") (codes "B9020000 39020000 46020000 060002") [] ++
        codes "load counter 2 0\nselect A000000001\ncut 4 0000000000000000\napdu 8001000002\npower\n" ++
        codes "dump A000000001\n")
        ≡ Ok (codes "1 formatted\n2 ready 0\n4 9000\n5 9000\n7 off at write 4\n8 ready 0\n9 static 0000\n") }
{}

/// A torn closing of the gate.
pub fn torn_closing()
    ensures { deck_transcript (
        codes "format\npower\n" ++
        unit_line (codes "counter") (codes "A000000001") (codes "B9020000 39020000 46020000 060002") [] ++
        codes "load counter 2 0\nselect A000000001\ncut 6 0000000000000000\napdu 8001000002\npower\n" ++
        codes "dump A000000001\n")
        ≡ Ok (codes "1 formatted\n2 ready 0\n4 9000\n5 9000\n7 off at write 6\n8 ready 0\n9 static 0001\n") }
{}

/// A torn closing that leaves the opening word is written again.
pub fn torn_closing_that_opens()
    ensures { deck_transcript (
        codes "format\npower\n" ++
        unit_line (codes "counter") (codes "A000000001") (codes "B9020000 39020000 46020000 060002") [] ++
        codes "load counter 2 0\nselect A000000001\ncut 6 4F50454E2D322D2D\napdu 8001000002\npower\n" ++
        codes "dump A000000001\n")
        ≡ Ok (codes "1 formatted\n2 ready 0\n4 9000\n5 9000\n7 off at write 6\n8 ready 2\n9 static 0001\n") }
{}

/// A recovery that is cut is made again.
pub fn cut_in_a_recovery()
    ensures { deck_transcript (
        codes "format\npower\n" ++
        unit_line (codes "counter") (codes "A000000001") (codes "B9020000 39020000 46020000 060002") [] ++
        codes "load counter 2 0\nselect A000000001\ncut 5 0000000000000000\napdu 8001000002\n" ++
        codes "cut 1 0000000000000000\npower\npower\ndump A000000001\n")
        ≡ Ok (
        codes "1 formatted\n2 ready 0\n4 9000\n5 9000\n7 off at write 5\n9 off at write 1\n10 ready 2\n" ++
        codes "11 static 0001\n") }
{}

/// A cut after the last write hits nothing, and is dropped.
pub fn no_cut()
    ensures { deck_transcript (
        codes "format\npower\n" ++
        unit_line (codes "counter") (codes "A000000001") (codes "B9020000 39020000 46020000 060002") [] ++
        codes "load counter 2 0\nselect A000000001\ncut 7 0000000000000000\napdu 8001000002\napdu 8001000002\n")
        ≡ Ok (codes "1 formatted\n2 ready 0\n4 9000\n5 9000\n7 00019000\n8 00029000\n") }
{}

/// Two words of one transaction, cut before and after its gate.
pub fn transaction_of_two_words()
    ensures { deck_transcript (
        codes "format\npower\n" ++
        unit_line (codes "a") (codes "A000000005") (codes "290302 69110000 69220008 290301 04") [] ++
        codes "load a 9 0\nselect A000000005\ncut 5 0000000000000000\napdu 80010000\npower\ndump A000000005\n" ++
        codes "select A000000005\ncut 6 4F50454E2D322D2D\napdu 80010000\npower\ndump A000000005\n")
        ≡ Ok (
        codes "1 formatted\n2 ready 0\n4 9000\n5 9000\n7 off at write 5\n8 ready 0\n" ++
        codes "9 static 000000000000000000\n10 9000\n12 off at write 6\n13 ready 3\n" ++
        codes "14 static 110000000000000022\n") }
{}

/// Two words of one transaction, whose torn gate holds the opening word.
pub fn transaction_with_a_torn_gate()
    ensures { deck_transcript (
        codes "format\npower\n" ++
        unit_line (codes "a") (codes "A000000005") (codes "290302 69110000 69220008 290301 04") [] ++
        codes "load a 9 0\nselect A000000005\ncut 5 4F50454E2D322D2D\napdu 80010000\npower\ndump A000000005\n")
        ≡ Ok (
        codes "1 formatted\n2 ready 0\n4 9000\n5 9000\n7 off at write 5\n8 ready 3\n" ++
        codes "9 static 110000000000000022\n") }
{}

/// A transaction that is not committed is dropped.
pub fn transaction_without_commit()
    ensures { deck_transcript (
        codes "format\npower\n" ++
        unit_line (codes "a") (codes "A000000005") (codes "290302 69330000 04") [] ++
        codes "load a 9 0\nselect A000000005\napdu 80010000\ndump A000000005\n")
        ≡ Ok (codes "1 formatted\n2 ready 0\n4 9000\n5 9000\n6 9000\n7 static 000000000000000000\n") }
{}

/// A commit of 64 words makes 147 device writes.
pub fn most_pending_words()
    ensures { deck_transcript (
        codes "format\npower\n" ++
        unit_line (codes "a") (codes "A000000005") (
        codes "290302 69010000 69010008 69010010 69010018 69010020 69010028 69010030 69010038" ++
        codes "69010040 69010048 69010050 69010058 69010060 69010068 69010070 69010078 69010080" ++
        codes "69010088 69010090 69010098 690100A0 690100A8 690100B0 690100B8 690100C0 690100C8" ++
        codes "690100D0 690100D8 690100E0 690100E8 690100F0 690100F8 69010100 69010108 69010110" ++
        codes "69010118 69010120 69010128 69010130 69010138 69010140 69010148 69010150 69010158" ++
        codes "69010160 69010168 69010170 69010178 69010180 69010188 69010190 69010198 690101A0" ++
        codes "690101A8 690101B0 690101B8 690101C0 690101C8 690101D0 690101D8 690101E0 690101E8" ++
        codes "690101F0 690101F8 290301 04") [] ++
        codes "load a 520 0\nselect A000000005\ncut 148 0000000000000000\napdu 80010000\n" ++
        codes "cut 147 0000000000000000\napdu 80010000\n")
        ≡ Ok (codes "1 formatted\n2 ready 0\n4 9000\n5 9000\n7 9000\n9 off at write 147\n") }
{}

/// One word more abends, and changes nothing.
pub fn too_many_pending_words()
    ensures { deck_transcript (
        codes "format\npower\n" ++
        unit_line (codes "a") (codes "A000000005") (
        codes "290302 69010000 69010008 69010010 69010018 69010020 69010028 69010030 69010038" ++
        codes "69010040 69010048 69010050 69010058 69010060 69010068 69010070 69010078 69010080" ++
        codes "69010088 69010090 69010098 690100A0 690100A8 690100B0 690100B8 690100C0 690100C8" ++
        codes "690100D0 690100D8 690100E0 690100E8 690100F0 690100F8 69010100 69010108 69010110" ++
        codes "69010118 69010120 69010128 69010130 69010138 69010140 69010148 69010150 69010158" ++
        codes "69010160 69010168 69010170 69010178 69010180 69010188 69010190 69010198 690101A0" ++
        codes "690101A8 690101B0 690101B8 690101C0 690101C8 690101D0 690101D8 690101E0 690101E8" ++
        codes "690101F0 690101F8 69010200 290301 04") [] ++
        codes "load a 520 0\nselect A000000005\napdu 80010000\ndump A000000005\n")
        ≡ Ok (
        codes "1 formatted\n2 ready 0\n4 9000\n5 9000\n6 abend 08\n" ++
        codes "7 static 0000000000000000000000000000000000000000000000000000000000000000000000000000000000000" ++
        codes "0000000000000000000000000000000000000000000000000000000000000000000000000000000000000000000000" ++
        codes "0000000000000000000000000000000000000000000000000000000000000000000000000000000000000000000000" ++
        codes "0000000000000000000000000000000000000000000000000000000000000000000000000000000000000000000000" ++
        codes "0000000000000000000000000000000000000000000000000000000000000000000000000000000000000000000000" ++
        codes "0000000000000000000000000000000000000000000000000000000000000000000000000000000000000000000000" ++
        codes "0000000000000000000000000000000000000000000000000000000000000000000000000000000000000000000000" ++
        codes "0000000000000000000000000000000000000000000000000000000000000000000000000000000000000000000000" ++
        codes "0000000000000000000000000000000000000000000000000000000000000000000000000000000000000000000000" ++
        codes "0000000000000000000000000000000000000000000000000000000000000000000000000000000000000000000000" ++
        codes "0000000000000000000000000000000000000000000000000000000000000000000000000000000000000000000000" ++
        codes "000000000000000\n") }
{}

/// A load of 21 writes that is cut before its gate.
pub fn cut_before_a_creation()
    ensures { deck_transcript (
        codes "format\npower\n" ++
        unit_line (codes "counter") (codes "A000000001") (codes "B9020000 39020000 46020000 060002") [] ++
        codes "cut 16 0000000000000000\nload counter 2 0\npower\ndump A000000001\n")
        ≡ Ok (codes "1 formatted\n2 ready 0\n5 off at write 16\n6 ready 0\n7 absent\n") }
{}

/// A load whose torn gate holds the opening word.
pub fn cut_behind_a_creation()
    ensures { deck_transcript (
        codes "format\npower\n" ++
        unit_line (codes "counter") (codes "A000000001") (codes "B9020000 39020000 46020000 060002") [] ++
        codes "cut 17 4F50454E2D322D2D\nload counter 2 0\npower\ndump A000000001\n")
        ≡ Ok (codes "1 formatted\n2 ready 0\n5 off at write 17\n6 ready 4\n7 static 0000\n") }
{}

/// A load makes 21 writes.
pub fn last_write_of_a_load()
    ensures { deck_transcript (
        codes "format\npower\n" ++
        unit_line (codes "counter") (codes "A000000001") (codes "B9020000 39020000 46020000 060002") [] ++
        codes "cut 21 0000000000000000\nload counter 2 0\ncut 22 0000000000000000\npower\ndump A000000001\n")
        ≡ Ok (codes "1 formatted\n2 ready 0\n5 off at write 21\n7 ready 0\n8 static 0000\n") }
{}

/// A write that the device refuses leaves a mute card.
pub fn refused_write()
    ensures { deck_transcript (
        codes "format\npower\n" ++
        unit_line (codes "counter") (codes "A000000001") (codes "B9020000 39020000 46020000 060002") [] ++
        codes "load counter 2 0\nselect A000000001\nfail 4\napdu 8001000002\napdu 8001000002\npower\n" ++
        codes "dump A000000001\n")
        ≡ Ok (codes "1 formatted\n2 ready 0\n4 9000\n5 9000\n7 6581\n8 mute\n9 ready 0\n10 static 0000\n") }
{}

/// A refused write after the gate is owed.
pub fn refused_target_write()
    ensures { deck_transcript (
        codes "format\npower\n" ++
        unit_line (codes "counter") (codes "A000000001") (codes "B9020000 39020000 46020000 060002") [] ++
        codes "load counter 2 0\nselect A000000001\nfail 5\napdu 8001000002\npower\ndump A000000001\n")
        ≡ Ok (codes "1 formatted\n2 ready 0\n4 9000\n5 9000\n7 6581\n8 ready 2\n9 static 0001\n") }
{}

/// A refused write of a recovery.
pub fn refused_recovery()
    ensures { deck_transcript (
        codes "format\npower\n" ++
        unit_line (codes "counter") (codes "A000000001") (codes "B9020000 39020000 46020000 060002") [] ++
        codes "load counter 2 0\nselect A000000001\ncut 5 0000000000000000\napdu 8001000002\nfail 1\npower\n" ++
        codes "dump A000000001\npower\n")
        ≡ Ok (codes "1 formatted\n2 ready 0\n4 9000\n5 9000\n7 off at write 5\n9 6581\n10 mute\n11 ready 2\n") }
{}

/// A later `fail` takes the place of a cut, and after the last write it hits nothing.
pub fn fail_behind_the_last_write()
    ensures { deck_transcript (
        codes "format\npower\n" ++
        unit_line (codes "counter") (codes "A000000001") (codes "B9020000 39020000 46020000 060002") [] ++
        codes "load counter 2 0\nselect A000000001\ncut 2 0000000000000000\nfail 7\napdu 8001000002\n")
        ≡ Ok (codes "1 formatted\n2 ready 0\n4 9000\n5 9000\n8 00019000\n") }
{}
