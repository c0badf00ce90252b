// Decks with rules of one application, each of which an exploration decides by one thing that it looks at.

/// A deck: what it shows, the code of its application before the last instruction, the lines after its load and its `#@ app`
/// line, and the text and the status of its exploration, three moves deep.
pub struct RuledDeck {
    pub shows: &'static str,
    pub code: &'static str,
    pub lines: &'static str,
    pub text: &'static str,
    pub status: u8,
}

/// The decks. Where the text says `broken`, an exploration that passes over what the deck shows says `all` or `depth 3`.
pub const RULED_DECKS: &[RuledDeck] = &[
    RuledDeck {
        shows: "a line of the deck breaks a range that the next one mends",
        code: "NOTN SB[0],1\n",
        lines: "#@ always SB[0] 0 0\nselect A000000001\napdu 8001000000\napdu 8001000000\n#@ move power\n",
        text: "broken SB[0] after 0 lines\n",
        status: 1,
    },
    RuledDeck {
        shows: "a line of the deck breaks a block that the next one mends",
        code: "CMPB PT[-11],0\nJUMP EQ,up\nDECN SB[0],1\nEXIT\nup: INCN SB[0],1\n",
        lines: "#@ sum s 0\n#@ always SB[0..0] = 0 + s\nselect A000000001\napdu 8001000000\napdu 8001010000\n\
                   #@ move power\n",
        text: "broken SB[0..0] after 0 lines\n",
        status: 1,
    },
    RuledDeck {
        shows: "the power after the deck shows what a stop left",
        code: "NOTN SB[0],1\n",
        lines: "#@ always SB[0] 0 0\nselect A000000001\ncut 5 0000000000000000\napdu 8001000000\n\
                   #@ move select A000000001\n",
        text: "broken SB[0] after 0 lines\n",
        status: 1,
    },
    RuledDeck {
        shows: "a load that a stop hits ends the session",
        code: "NOTN SB[0],1\n",
        lines: "#@ allow n 1\n#@ on session spend n 1\nselect A000000001\ncut 1 0000000000000000\nload a 2 0\n\
                   power\n#@ move power\n",
        text: "broken n after 0 lines\n",
        status: 1,
    },
    RuledDeck {
        shows: "a command that a stop hits ends the session",
        code: "NOTN SB[0],1\n",
        lines: "#@ allow n 1\n#@ on session spend n 1\nselect A000000001\ncut 1 0000000000000000\napdu 8001000000\n\
                   power\n#@ move power\n",
        text: "broken n after 0 lines\n",
        status: 1,
    },
    RuledDeck {
        shows: "a turn before a stop of the deck counts",
        code: "SETB SB[0],1\nSETB SB[1],1\n",
        lines: "#@ allow n 0\n#@ on turn *SETB SB[0]* spend n 1\nselect A000000001\ncut 7 0000000000000000\n\
                   apdu 8001000000\npower\n#@ move power\n",
        text: "broken n after 0 lines\n",
        status: 1,
    },
    RuledDeck {
        shows: "a write that a stop of the deck tears does not count",
        code: "NOTN SB[0],1\n",
        lines: "#@ allow n 0\n#@ on turn *NOTN* spend n 1\nselect A000000001\ncut 4 0000000000000000\n\
                   apdu 8001000000\npower\n#@ move power\n",
        text: "depth 1 states 0\nsilent line 10\nexplored states 1 tries 1 all\n",
        status: 0,
    },
    RuledDeck {
        shows: "a stop of the deck leaves the word that commits a write",
        code: "SETB SB[1],0\nNOTN SB[0],1\n",
        lines: "#@ allow n 0\n#@ on turn *NOTN* spend n 1\nselect A000000001\ncut 10 4F50454E2D322D2D\n\
                   apdu 8001000000\npower\n#@ move power\n",
        text: "broken n after 0 lines\n",
        status: 1,
    },
    RuledDeck {
        shows: "a stop of the deck comes after the word that commits a write",
        code: "NOTN SB[0],1\n",
        lines: "#@ allow n 0\n#@ on turn *NOTN* spend n 1\nselect A000000001\ncut 5 0000000000000000\n\
                   apdu 8001000000\npower\n#@ move power\n",
        text: "broken n after 0 lines\n",
        status: 1,
    },
    RuledDeck {
        shows: "a new creation in the deck has all allowances",
        code: "NOTN SB[0],1\n",
        lines: "#@ allow n 1\n#@ on turn *NOTN* spend n 1\nselect A000000001\napdu 8001000000\npower\n\
                   delete A000000001\nload a 2 0\nselect A000000001\n#@ move apdu 8001000000\n",
        text: "depth 1 states 3\nbroken n after 2 lines\napdu 8001000000\napdu 8001000000\n",
        status: 1,
    },
    RuledDeck {
        shows: "only a cut ends the session",
        code: "NOTN SB[0],1\n",
        lines: "#@ allow n 1\n#@ on session spend n 1\nselect A000000001\n#@ move apdu 8001000000\n",
        text: "broken n after 3 lines\ncut 1 0000000000000000\napdu 8001000000\npower\n",
        status: 1,
    },
    RuledDeck {
        shows: "a command counts though it is cut",
        code: "NOTN SB[0],1\n",
        lines: "#@ allow n 1\n#@ on command 8001* allow n 0\n#@ on answer * gives * allow n 1\n\
                   #@ on session need n 1\nselect A000000001\n#@ move apdu 8001000000\n",
        text: "broken n after 3 lines\ncut 1 0000000000000000\napdu 8001000000\npower\n",
        status: 1,
    },
    RuledDeck {
        shows: "a turn before a cut counts",
        code: "NOP\nLOAD SB[0],1\nPOPN 1\nNOTN SB[0],1\n",
        lines: "#@ allow n 1\n#@ on turn *LOAD* allow n 0\n#@ on answer * gives * allow n 1\n\
                   #@ on session need n 1\nselect A000000001\n#@ move apdu 8001000000\n",
        text: "broken n after 3 lines\ncut 1 0000000000000000\napdu 8001000000\npower\n",
        status: 1,
    },
    RuledDeck {
        shows: "a cut leaves the word that commits a write",
        code: "NOTN SB[0],1\n",
        lines: "#@ allow n 1\n#@ on turn *NOTN* allow n 0\n#@ on answer * gives * allow n 1\n\
                   #@ on session need n 1\nselect A000000001\n#@ move apdu 8001000000\n",
        text: "broken n after 3 lines\ncut 4 4F50454E2D322D2D\napdu 8001000000\npower\n",
        status: 1,
    },
    RuledDeck {
        shows: "a cut in the second write commits it",
        code: "SETB SB[1],0\nNOTN SB[0],1\n",
        lines: "#@ allow n 1\n#@ on turn *NOTN* allow n 0\n#@ on answer * gives * allow n 1\n\
                   #@ on session need n 1\nselect A000000001\n#@ move apdu 8001000000\n",
        text: "broken n after 3 lines\ncut 10 4F50454E2D322D2D\napdu 8001000000\npower\n",
        status: 1,
    },
    RuledDeck {
        shows: "a write that a cut tears does not count",
        code: "NOTN SB[0],1\n",
        lines: "#@ allow n 1\n#@ on command * allow n 0\n#@ on turn *NOTN* allow n 1\n#@ on session need n 1\n\
                   select A000000001\n#@ move apdu 8001000000\n",
        text: "broken n after 3 lines\ncut 1 0000000000000000\napdu 8001000000\npower\n",
        status: 1,
    },
    RuledDeck {
        shows: "a move breaks a range",
        code: "NOTN SB[0],1\n",
        lines: "#@ always SB[0] 0 0\nselect A000000001\n#@ move apdu 8001000000\n",
        text: "broken SB[0] after 1 lines\napdu 8001000000\n",
        status: 1,
    },
    RuledDeck {
        shows: "only a cut breaks a range",
        code: "SETB SB[0],1\nSETB SB[0],0\n",
        lines: "#@ always SB[0] 0 0\nselect A000000001\n#@ move apdu 8001000000\n",
        text: "broken SB[0] after 3 lines\ncut 4 4F50454E2D322D2D\napdu 8001000000\npower\n",
        status: 1,
    },
    RuledDeck {
        shows: "a move breaks a block that a sum binds",
        code: "NOTN SB[0],1\n",
        lines: "#@ sum s 0\n#@ on turn *NOTN* add s 1\n#@ always SB[0..0] = 0 + s\nselect A000000001\n\
                   #@ move apdu 8001000000\n",
        text: "broken SB[0..0] after 1 lines\napdu 8001000000\n",
        status: 1,
    },
    RuledDeck {
        shows: "only a cut breaks a block that a sum binds",
        code: "PRIM 3,2\nINCN SB[0],1\nPRIM 3,1\nDECN SB[0],1\n",
        lines: "#@ sum s 0\n#@ on turn *INCN* add s 2\n#@ on turn *DECN* take s 2\n#@ always SB[0..0] = 0 + s\n\
                   select A000000001\n#@ move apdu 8001000000\n",
        text: "broken SB[0..0] after 3 lines\ncut 4 4F50454E2D322D2D\napdu 8001000000\npower\n",
        status: 1,
    },
    RuledDeck {
        shows: "the second of two moves has what the first one left",
        code: "NOTN SB[0],1\n",
        lines: "#@ allow n 1\n#@ on turn *NOTN* spend n 1\nselect A000000001\n#@ move apdu 8001000000\n",
        text: "depth 1 states 3\nbroken n after 2 lines\napdu 8001000000\napdu 8001000000\n",
        status: 1,
    },
    RuledDeck {
        shows: "an answer spends",
        code: "NOTN SB[0],1\n",
        lines: "#@ allow n 0\n#@ on answer 8001* gives 9000 spend n 1\nselect A000000001\n#@ move apdu 8001000000\n",
        text: "broken n after 1 lines\napdu 8001000000\n",
        status: 1,
    },
    RuledDeck {
        shows: "a selection is a session",
        code: "NOTN SB[0],1\n",
        lines: "#@ allow n 1\n#@ on session spend n 1\nselect A000000001\n#@ move select A000000001\n",
        text: "broken n after 1 lines\nselect A000000001\n",
        status: 1,
    },
    RuledDeck {
        shows: "an instruction abends",
        code: "ADDB DB[0],1\n",
        lines: "#@ never abend\nselect A000000001\n#@ move apdu 8001000000\n",
        text: "broken abend after 1 lines\napdu 8001000000\n",
        status: 1,
    },
    RuledDeck {
        shows: "a deletion gives all allowances back",
        code: "NOTN SB[0],1\n",
        lines: "#@ allow n 1\n#@ on turn *NOTN* allow n 0\nselect A000000001\n#@ move apdu 8001000000\n\
                   #@ move delete A000000001\n",
        text: "depth 1 states 3\ndepth 2 states 3\ndepth 3 states 0\nexplored states 7 tries 140 all\n",
        status: 0,
    },
    RuledDeck {
        shows: "a sum that is kept",
        code: "INCN SB[0],1\nDECN SB[0],1\n",
        lines: "#@ sum s 0\n#@ on turn *INCN* add s 1\n#@ on turn *DECN* take s 1\n#@ on turn *ADDN* add s 1\n\
                   #@ always SB[0..0] = 0 + s\nselect A000000001\n#@ move apdu 8001000000\n",
        text: "depth 1 states 2\ndepth 2 states 0\nsilent line 13\nexplored states 3 tries 39 all\n",
        status: 0,
    },
];
