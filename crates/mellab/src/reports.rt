// The decks of `examples/` with a report, and the words of the job that it is of.

/// A deck, the words of a job, and its output.
pub struct Report {
    pub name: &'static str,
    pub words: &'static [&'static str],
    pub deck: &'static str,
    pub text: &'static str,
}

/// The reports.
pub const REPORTS: &[Report] = &[
    Report {
        name: "challenge.explore.txt",
        words: &["explore", "40"],
        deck: r"# A door that opens to whoever enciphers its challenge. A challenge serves one comparison, and opens once.
# `mellab explore 40` tries every sequence of the moves below, also with the answer to a challenge that is past; its text is
# challenge.explore.txt.
format
power
app door A000000330
DATA 000102030405060708090A0B0C0D0E0F
DATA F0E0D0C0B0A090807060504030201000





        CMPB PT[-12],0x84
        JUMP EQ,give
        CMPB PT[-12],0x82
        JUMP EQ,compare
        CMPB PT[-12],0x0E
        JUMP EQ,open
        EXITSW 0x6D00
give:   INCN SB[32],8             ; no number comes twice, whatever power does
        CLEARN PB[0],8
        LOAD SB[32],8
        STORE PB[8],8
        LOADA PB[0]
        LOADA PB[0]
        LOADA SB[16]
        PRIM 10,16              ; the challenge, in the reply
        LOADA PB[0]
        LOADA DB[0]
        LOADA SB[0]
        PRIM 10,16              ; and its answer, in the session
        SETB DB[16],1
        EXITLA 16
compare: CMPW PT[-8],16
        JUMP NE,length
        CMPB DB[16],1
        JUMP NE,order
        SETB DB[16],0            ; used up before the answer is looked at
        LOAD PB[0],16
        CMPN DB[0],16
        POPN 16
        JUMP NE,denied
        SETB DB[17],1
        EXIT
open:   CMPB DB[17],1
        JUMP NE,denied
        SETB DB[17],0
        EXIT
denied: EXITSW 0x6982
order:  EXITSW 0x6985
length: EXITSW 0x6700
end
load door 40 18
select A000000330
# the answer to the first challenge, another one, and what a terminal does besides
#@ move apdu 8084000010
#@ move apdu 80820000104B191C27F6CE2144F279813B07FCC5FF
#@ move apdu 808200001000000000000000000000000000000000
#@ move apdu 800E0000
#@ move select A000000330
#@ move power
# a challenge serves one comparison, in its own session
#@ allow fresh 0
#@ on apdu 8084* turns *SETB* allow fresh 1
#@ on apdu 8082* turns *CMPN* spend fresh 1
# the door opens once after a right one
#@ allow opens 0
#@ on apdu 8082* turns *CMPN*1 allow opens 1
#@ on apdu 800E* gives 9000 spend opens 1
#@ on select* gives * allow fresh 0
#@ on select* gives * allow opens 0
#@ on power gives * allow fresh 0
#@ on power gives * allow opens 0
#@ on * gives off* allow fresh 0
#@ on * gives off* allow opens 0
",
        text: r"depth 1 states 3
depth 2 states 5
depth 3 states 5
depth 4 states 6
depth 5 states 6
depth 6 states 6
depth 7 states 6
depth 8 states 6
depth 9 states 6
depth 10 states 6
depth 11 states 6
depth 12 states 6
depth 13 states 6
depth 14 states 6
depth 15 states 6
depth 16 states 6
depth 17 states 6
depth 18 states 6
depth 19 states 6
depth 20 states 6
depth 21 states 6
depth 22 states 6
depth 23 states 6
depth 24 states 6
depth 25 states 6
depth 26 states 6
depth 27 states 6
depth 28 states 6
depth 29 states 6
depth 30 states 6
depth 31 states 6
depth 32 states 6
depth 33 states 6
depth 34 states 6
depth 35 states 6
depth 36 states 6
depth 37 states 6
depth 38 states 6
depth 39 states 6
depth 40 states 6
explored states 236 tries 4800 depth 40
",
    },
    Report {
        name: "pin_late.explore.txt",
        words: &["explore", "40"],
        deck: r"# The purse of pin.deck, but a wrong guess is counted after the comparison: a cut between the two gives it back. `mellab explore 40` finds
# the seven lines that compare a fourth guess, in pin_late.explore.txt.
format
power
app purse A000000100
; static bytes: 0 the money (2), 2 the guesses that are left, 3 the PIN (2), 5 the number of debits (2). Session byte 0: the PIN was shown
; INS 20 shows the PIN, 40 debits two bytes, 50 tells the money
DATA 03E8
DATA 03
DATA 1234
        CMPB PT[-12],0x20
        JUMP EQ,show
        CMPB PT[-12],0x40
        JUMP EQ,debit
        CMPB PT[-12],0x50
        JUMP EQ,balance
        EXITSW 0x6D00
balance: LOAD SB[0],2
        STORE PB[0],2
        EXITLA 2
show:   CMPW PT[-8],2
        JUMP NE,length
        TESTN SB[2],1
        JUMP EQ,locked
        LOAD PB[0],2
        CMPN SB[3],2
        POPN 2
        JUMP NE,denied
        SETB SB[2],3
        SETB DB[0],1
        EXIT
debit:  CMPB DB[0],1
        JUMP NE,closed
        CMPW PT[-8],2
        JUMP NE,length
        LOAD PB[0],2
        CMPN SB[0],2
        JUMP LT,over
        PRIM 3,2                ; money and number change together
        SUBN SB[0],2
        POPN 2
        INCN SB[5],2
        PRIM 3,1
        JUMP ALL,balance
over:   POPN 2
        EXITSW 0x6985
denied: DECN SB[2],1            ; too late
        EXITSW 0x6982
closed: EXITSW 0x6982
locked: EXITSW 0x6983
length: EXITSW 0x6700
end
load purse 7 1
select A000000100
# what a terminal may send, a right PIN and a wrong one among it
#@ move select A000000100
#@ move apdu 80200000021234
#@ move apdu 80200000029999
#@ move apdu 8040000002006402
#@ move power
# a comparison spends a guess; a right one allows three again
#@ allow guesses 3
#@ on apdu 8020* turns *CMPN SB[3],2*0 spend guesses 1
#@ on apdu 8020* turns *CMPN SB[3],2*1 allow guesses 3
# a debit needs a right PIN since the last selection, power-up or cut
#@ allow debits 0
#@ on select* gives * allow debits 0
#@ on power gives * allow debits 0
#@ on apdu 8020* turns *CMPN SB[3],2*1 allow debits 1000
#@ on apdu 8040* gives ????9000 spend debits 1
#@ on * gives off* allow debits 0
",
        text: r"depth 1 states 5
depth 2 states 8
depth 3 states 15
depth 4 states 22
broken guesses after 7 lines
apdu 80200000029999
apdu 80200000029999
cut 1 0000000000000000
apdu 80200000029999
power
select A000000100
apdu 80200000029999
",
    },
    Report {
        name: "ring.explore.txt",
        words: &["explore", "40"],
        deck: r"# A log of the last eight records, of one byte each. Record and place change together, or not at all.
# `mellab explore 40` tries every sequence of the moves below; its text is ring.explore.txt.
format
power
app ring A000000340



        CMPB PT[-12],0x10
        JUMP EQ,log
        CMPB PT[-12],0x12
        JUMP EQ,last
        EXITSW 0x6D00
log:    CMPW PT[-8],1
        JUMP NE,length
        PRIM 3,2                ; from here on writes wait
        LOAD SB[8],1
        INDEX SB[0],1         ; the address of the record at that place
        LOAD PB[0],1
        STOREI 1
        POPW
        LOAD SB[8],1
        INCN 1
        PRIM 1,0,0xF8           ; modulo 8
        STORE SB[8],1
        PRIM 3,1                ; and here they are one
        EXIT
last:   LOAD SB[8],1               ; P1 records back from the newest one, 0 to 7
        LOAD PT[-11],1
        SUBN 1                  ; the place less P1, below the P1 that stays
        POPB
        DECN 1
        PRIM 1,0,0xF8
        INDEX SB[0],1
        LOADI 1
        STORE PB[0],1
        EXITLA 1
length: EXITSW 0x6700
end
load ring 9 0
select A000000340
apdu 8010000001AA
#! whole
#@ move apdu 8010000001AA
#@ move apdu 8012000001
#@ move power
#@ move select A000000340
# a command that was answered with 9000 has kept its record, once
#@ allow kept 0
#@ on apdu 8010* turns *PRIM 3,1* allow kept 1
#@ on apdu 8010* gives 9000 spend kept 1
# the place moves only over a record that was written
#@ allow written 0
#@ on apdu 8010* turns *STOREI 1* allow written 1
#@ on apdu 8010* turns *STORE SB[8],1* spend written 1
#@ on * gives off* allow kept 0
#@ on * gives off* allow written 0
",
        text: r"depth 1 states 3
depth 2 states 2
depth 3 states 2
depth 4 states 2
depth 5 states 2
depth 6 states 2
depth 7 states 2
depth 8 states 2
depth 9 states 2
depth 10 states 2
depth 11 states 2
depth 12 states 2
depth 13 states 2
depth 14 states 2
depth 15 states 0
explored states 30 tries 480 all
",
    },
    Report {
        name: "purse.sweep.txt",
        words: &["sweep"],
        deck: r"# A transaction: both halves of a transfer between two numbers are committed together, or not at all when the device refuses a write.
format
#> formatted
power
#> ready 0
app purse A000000002
DATA 0005
DATA 0000
PRIM 3,2                ; under protection writes wait until they are committed together
SUBW SB[0],0x0001
ADDW SB[2],0x0001
PRIM 3,1
LOAD SB[0],4            ; both numbers
STORE PB[0],4
EXITLA 4
end
load purse 4 0
#> 9000
select A000000002
#> 9000
apdu 8001000004
#> 00040001 9000
apdu 8001000004
#> 00030002 9000
fail 3
apdu 8001000004
#> 6581
select A000000002
#> mute
power
#> ready 0
dump A000000002
#> static 00030002
",
        text: r"line 17 writes 23: before 1-19 after 20-23
line 21 writes 6: before 1-4 after 5-6
line 23 writes 6: before 1-4 after 5-6
swept 3 writes 35 plays 102
",
    },
];
