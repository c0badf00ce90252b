// A whole draft, and its texts as another implementation writes them.

/// A purse with a PIN and a debit.
pub const DRAFT: &str = r"# A purse with a PIN and a protected debit.
format
power
app purse A000000100
STATIC balance 2 03E8
STATIC tries 1 03          ; tries that are left
STATIC pin 2 1234
STATIC debits 2
SESSION shown 1            ; 1 once the PIN was shown
PUBLIC amount 0 2
PUBLIC guess 0 2
CONST not_shown 0x6982
CONST blocked 0x6983
CONST poor 0x6985
CONST wrong_length 0x6700
        CMPB INS,0x20
        JUMP EQ,show
        CMPB INS,0x40
        JUMP EQ,debit
        CMPB INS,0x50
        JUMP EQ,balance
        EXITSW 0x6D00
balance: LOAD balance
        STORE PB[0],balance.size
        EXITLA balance.size
show:   CMPW Lc,2
        JUMP NE,length
        TESTN tries
        JUMP EQ,locked
        DECN tries              ; the try is spent before the PIN is looked at
        LOAD guess
        CMPN pin
        POPN guess.size         ; flags stay
        JUMP NE,denied
        SETB tries,3
        SETB shown,1
        EXIT
debit:  CMPB shown,1
        JUMP NE,denied
        CMPW Lc,amount.size
        JUMP NE,length
        LOAD amount
        CMPN balance
        JUMP LT,over
        PRIM 3,2
        SUBN balance
        INCN debits
        POPN amount.size
        PRIM 3,1
        JUMP ALL,balance
over:   POPN amount.size
        EXITSW poor
denied: EXITSW not_shown
locked: EXITSW blocked
length: EXITSW wrong_length
end
load purse
#> 9000
select purse
#> 9000
apdu 80 40 0000 (0064)
#> 6982
apdu 80 20 0000 (1234)
#> 9000
apdu 80 40 0000 (0064) 02
#> 0384 9000
dump purse
#> static 0384 03 1234 0001
";

/// Its deck.
pub const DECK: &str = r"# A purse with a PIN and a protected debit.
format
power
app purse A000000100
DATA 03E8
DATA 03
DATA 1234








        CMPB PT[-12],0x20
        JUMP EQ,show
        CMPB PT[-12],0x40
        JUMP EQ,debit
        CMPB PT[-12],0x50
        JUMP EQ,balance
        EXITSW 0x6D00
balance: LOAD SB[0],2
        STORE PB[0],2
        EXITLA 2
show:   CMPW PT[-8],2
        JUMP NE,length
        TESTN SB[2],1
        JUMP EQ,locked
        DECN SB[2],1              ; the try is spent before the PIN is looked at
        LOAD PB[0],2
        CMPN SB[3],2
        POPN 2         ; flags stay
        JUMP NE,denied
        SETB SB[2],3
        SETB DB[0],1
        EXIT
debit:  CMPB DB[0],1
        JUMP NE,denied
        CMPW PT[-8],2
        JUMP NE,length
        LOAD PB[0],2
        CMPN SB[0],2
        JUMP LT,over
        PRIM 3,2
        SUBN SB[0],2
        INCN SB[5],2
        POPN 2
        PRIM 3,1
        JUMP ALL,balance
over:   POPN 2
        EXITSW 0x6985
denied: EXITSW 0x6982
locked: EXITSW 0x6983
length: EXITSW 0x6700
end
load purse 7 1
#> 9000
select A000000100
#> 9000
apdu 80400000020064
#> 6982
apdu 80200000021234
#> 9000
apdu 8040000002006402
#> 0384 9000
dump A000000100
#> static 0384 03 1234 0001
";

/// Its listing.
pub const LISTING: &str = r"app purse A000000100 code 135 static 7 session 1
0000 7720FFF4 16 CMPB INS,0x20
0004 110023 17 JUMP EQ,show
0007 7740FFF4 18 CMPB INS,0x40
000B 11004C 19 JUMP EQ,debit
000E 7750FFF4 20 CMPB INS,0x50
0012 110018 21 JUMP EQ,balance
0015 056D00 22 EXITSW 0x6D00
0018 39020000 23 balance: LOAD balance
001C 46020000 24 STORE PB[0],balance.size
0020 060002 25 EXITLA balance.size
0023 970002FFF8 26 show:   CMPW Lc,2
0028 160084 27 JUMP NE,length
002B B1010002 28 TESTN tries
002F 110081 29 JUMP EQ,locked
0032 C1010002 30 DECN tries
0036 3E020000 31 LOAD guess
003A D1020003 32 CMPN pin
003E 2402 33 POPN guess.size
0040 16007E 34 JUMP NE,denied
0043 69030002 35 SETB tries,3
0047 6B010000 36 SETB shown,1
004B 04 37 EXIT
004C 73010000 38 debit:  CMPB shown,1
0050 16007E 39 JUMP NE,denied
0053 970002FFF8 40 CMPW Lc,amount.size
0058 160084 41 JUMP NE,length
005B 3E020000 42 LOAD amount
005F D1020000 43 CMPN balance
0063 120079 44 JUMP LT,over
0066 290302 45 PRIM 3,2
0069 E1020000 46 SUBN balance
006D B9020005 47 INCN debits
0071 2402 48 POPN amount.size
0073 290301 49 PRIM 3,1
0076 170018 50 JUMP ALL,balance
0079 2402 51 over:   POPN amount.size
007B 056985 52 EXITSW poor
007E 056982 53 denied: EXITSW not_shown
0081 056983 54 locked: EXITSW blocked
0084 056700 55 length: EXITSW wrong_length
";

/// The verdicts on it.
pub const VERDICTS: &str = r"57 accept 2
";

/// Its trace.
pub const TRACE: &str = r"2 formatted
3 ready 0
57 9000
59 9000
> 1 0000 CMPB PT[-12],32 8001 00 ; 16 CMPB INS,0x20 ; 40 -
> 1 0004 JUMP EQ,0x0023 8001 00 ; 17 JUMP EQ,show ; - -
> 1 0007 CMPB PT[-12],64 8001 01 ; 18 CMPB INS,0x40 ; 40 -
> 1 000B JUMP EQ,0x004C 8001 01 ; 19 JUMP EQ,debit ; - -
> 1 004C CMPB DB[0],1 8001 10 ; 38 debit:  CMPB shown,1 ; 00 -
> 1 0050 JUMP NE,0x007E 8001 10 ; 39 JUMP NE,denied ; - -
> 1 007E EXITSW 0x6982 8001 10 ; 53 denied: EXITSW not_shown ; - -
61 6982
> 1 0000 CMPB PT[-12],32 8001 01 ; 16 CMPB INS,0x20 ; 20 -
> 1 0004 JUMP EQ,0x0023 8001 01 ; 17 JUMP EQ,show ; - -
> 1 0023 CMPW PT[-8],0x0002 8001 01 ; 26 show:   CMPW Lc,2 ; 0002 -
> 1 0028 JUMP NE,0x0084 8001 01 ; 27 JUMP NE,length ; - -
> 1 002B TESTN SB[2],1 8001 00 ; 28 TESTN tries ; 03 -
> 1 002F JUMP EQ,0x0081 8001 00 ; 29 JUMP EQ,locked ; - -
> 1 0032 DECN SB[2],1 8001 00 ; 30 DECN tries ; 02 -
> 1 0036 LOAD PB[0],2 8003 00 ; 31 LOAD guess ; 1234 1234
> 1 003A CMPN SB[3],2 8003 01 ; 32 CMPN pin ; 1234 1234
> 1 003E POPN 2 8001 01 ; 33 POPN guess.size ; - -
> 1 0040 JUMP NE,0x007E 8001 01 ; 34 JUMP NE,denied ; - -
> 1 0043 SETB SB[2],3 8001 01 ; 35 SETB tries,3 ; 03 -
> 1 0047 SETB DB[0],1 8001 01 ; 36 SETB shown,1 ; 01 -
> 1 004B EXIT 8001 01 ; 37 EXIT ; - -
63 9000
> 1 0000 CMPB PT[-12],32 8001 00 ; 16 CMPB INS,0x20 ; 40 -
> 1 0004 JUMP EQ,0x0023 8001 00 ; 17 JUMP EQ,show ; - -
> 1 0007 CMPB PT[-12],64 8001 01 ; 18 CMPB INS,0x40 ; 40 -
> 1 000B JUMP EQ,0x004C 8001 01 ; 19 JUMP EQ,debit ; - -
> 1 004C CMPB DB[0],1 8001 01 ; 38 debit:  CMPB shown,1 ; 01 -
> 1 0050 JUMP NE,0x007E 8001 01 ; 39 JUMP NE,denied ; - -
> 1 0053 CMPW PT[-8],0x0002 8001 01 ; 40 CMPW Lc,amount.size ; 0002 -
> 1 0058 JUMP NE,0x0084 8001 01 ; 41 JUMP NE,length ; - -
> 1 005B LOAD PB[0],2 8003 01 ; 42 LOAD amount ; 0064 0064
> 1 005F CMPN SB[0],2 8003 00 ; 43 CMPN balance ; 03E8 0064
> 1 0063 JUMP LT,0x0079 8003 00 ; 44 JUMP LT,over ; - 0064
> 1 0066 PRIM 3,2 8003 00 ; 45 PRIM 3,2 ; - 0064
> 1 0069 SUBN SB[0],2 8003 00 ; 46 SUBN balance ; 0384 0064
> 1 006D INCN SB[5],2 8003 00 ; 47 INCN debits ; 0001 0064
> 1 0071 POPN 2 8001 00 ; 48 POPN amount.size ; - -
> 1 0073 PRIM 3,1 8001 00 ; 49 PRIM 3,1 ; - -
> 1 0076 JUMP ALL,0x0018 8001 00 ; 50 JUMP ALL,balance ; - -
> 1 0018 LOAD SB[0],2 8003 00 ; 23 balance: LOAD balance ; 0384 0384
> 1 001C STORE PB[0],2 8001 00 ; 24 STORE PB[0],balance.size ; 0384 -
> 1 0020 EXITLA 0x0002 8001 00 ; 25 EXITLA balance.size ; - -
65 03849000
67 static 03840312340001
";

/// Its record for the file `purse.draft`.
pub const RECORD: &str = r"TN:
SF:purse.draft
DA:16,3
DA:17,3
DA:18,2
DA:19,2
DA:20,0
DA:21,0
DA:22,0
DA:23,1
DA:24,1
DA:25,1
DA:26,1
DA:27,1
DA:28,1
DA:29,1
DA:30,1
DA:31,1
DA:32,1
DA:33,1
DA:34,1
DA:35,1
DA:36,1
DA:37,1
DA:38,2
DA:39,2
DA:40,1
DA:41,1
DA:42,1
DA:43,1
DA:44,1
DA:45,1
DA:46,1
DA:47,1
DA:48,1
DA:49,1
DA:50,1
DA:51,0
DA:52,0
DA:53,1
DA:54,0
DA:55,0
BRDA:17,0,0,1
BRDA:17,0,1,2
BRDA:19,0,0,2
BRDA:19,0,1,0
BRDA:21,0,0,-
BRDA:21,0,1,-
BRDA:27,0,0,0
BRDA:27,0,1,1
BRDA:29,0,0,0
BRDA:29,0,1,1
BRDA:34,0,0,0
BRDA:34,0,1,1
BRDA:39,0,0,1
BRDA:39,0,1,1
BRDA:41,0,0,0
BRDA:41,0,1,1
BRDA:44,0,0,0
BRDA:44,0,1,1
BRF:18
BRH:10
LF:40
LH:33
end_of_record
";
