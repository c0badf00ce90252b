// The worked rows of commands to single applications, and of chains of them.
use crate::machines::card::Fault;
use crate::machines::rows::{Answer, App, Row, lone, wrong_at};
use mc_machine::Outcome;
use mc_segs::Abend;
use mc_words::NoMemory;
use std::alloc::Global;
use std::marker::Brand;
use std::sync::ledger::Blank;

// Whether a row is as due.
fn goes(alloc: Global, row: &Row<'_>) -> bool {
    matches!(wrong_at::<Brand>(alloc, Blank::new(1), row), Ok(None))
}

// The outcome of a command to a single application, and the static bytes that it leaves.
fn ended(
    alloc: Global,
    code: &[u8],
    fixed: u16,
    bytes: &[u8],
    budget: u32,
) -> Result<(Outcome, Vec<u8>), Fault> {
    lone::<Brand>(alloc, Blank::new(1), code, fixed, bytes, budget)
}

const CALL: &str = "80010000";

// A command to a single application: its code, data and static size, the budget, the answer, and the static bytes that
// are left.
#[derive(Clone, Copy)]
struct Case {
    title: &'static str,
    code: &'static str,
    data: &'static str,
    fixed: u16,
    budget: u32,
    command: &'static str,
    answer: Answer<'static>,
    left: &'static str,
}

// An application without static bytes, and a command without data that is answered by 9000 alone.
const PLAIN: Case = Case {
    title: "",
    code: "",
    data: "",
    fixed: 0,
    budget: 65536,
    command: "80010000",
    answer: Answer::Reply("9000"),
    left: "",
};

// Static bytes, arithmetic and calls.
const ACCESSES: &[Case] = &[
    Case {
        title: "carry and zero",
        code: "B9020000280246010000060001",
        data: "FFFF",
        fixed: 2,
        command: "8001000001",
        answer: Answer::Reply("039000"),
        left: "0000",
        ..PLAIN
    },
    Case {
        title: "last static byte",
        code: "3901000104",
        fixed: 2,
        left: "0000",
        ..PLAIN
    },
    Case {
        title: "past the last static byte",
        code: "3902000104",
        fixed: 2,
        answer: Answer::Abend(Abend::A03),
        left: "0000",
        ..PLAIN
    },
    Case {
        title: "call and return",
        code: "21051F000C460100000600013C01FFFB78032F0101",
        command: "8001000001",
        answer: Answer::Reply("089000"),
        ..PLAIN
    },
    Case {
        title: "abend after a write",
        code: "6911000030",
        fixed: 1,
        answer: Answer::Abend(Abend::A01),
        left: "11",
        ..PLAIN
    },
    Case {
        title: "undefined byte",
        code: "23",
        answer: Answer::Abend(Abend::A01),
        ..PLAIN
    },
];

// Budgets that are sufficient, and budgets that are not.
const BUDGETS: &[Case] = &[
    Case {
        title: "budget of 3",
        code: "000004",
        budget: 3,
        ..PLAIN
    },
    Case {
        title: "budget of 2",
        code: "000004",
        budget: 2,
        answer: Answer::Abend(Abend::A07),
        ..PLAIN
    },
    Case {
        title: "a loop, budget of 1",
        code: "0FFE",
        budget: 1,
        answer: Answer::Abend(Abend::A07),
        ..PLAIN
    },
    Case {
        title: "a loop, budget of 65,536",
        code: "0FFE",
        answer: Answer::Abend(Abend::A07),
        ..PLAIN
    },
];

// Primitives without a key.
const PRIMITIVES: &[Case] = &[
    Case {
        title: "lookup",
        code: "210B220000280446010000060001",
        data: "030A0B0C",
        fixed: 4,
        command: "8001000001",
        answer: Answer::Reply("019000"),
        left: "030A0B0C",
        ..PLAIN
    },
    Case {
        title: "bit word",
        code: "2240012A02020246020000060002",
        command: "8001000002",
        answer: Answer::Reply("00049000"),
        ..PLAIN
    },
    Case {
        title: "nothing under Check Case",
        code: "2801",
        answer: Answer::Abend(Abend::A04),
        ..PLAIN
    },
    Case {
        title: "no case 5",
        code: "21052801",
        answer: Answer::Abend(Abend::A06),
        ..PLAIN
    },
    Case {
        title: "no primitive FF",
        code: "28FF",
        answer: Answer::Abend(Abend::A06),
        ..PLAIN
    },
];

// Ciphers and digests.
const CIPHERS: &[Case] = &[
    Case {
        title: "DES",
        code: "22C00022C000220000290408060008",
        data: "133457799BBCDFF1",
        fixed: 8,
        command: "80010000080123456789ABCDEF08",
        answer: Answer::Reply("85E813540F0AB4059000"),
        left: "133457799BBCDFF1",
        ..PLAIN
    },
    Case {
        title: "no block of 7",
        code: "22C00022C000220000290407060008",
        data: "133457799BBCDFF1",
        fixed: 8,
        command: "80010000080123456789ABCDEF08",
        answer: Answer::Abend(Abend::A06),
        left: "133457799BBCDFF1",
        ..PLAIN
    },
    Case {
        title: "AES",
        code: "22C00022C000220000290A10060010",
        data: "000102030405060708090A0B0C0D0E0F",
        fixed: 16,
        command: "800100001000112233445566778899AABBCCDDEEFF10",
        answer: Answer::Reply("69C4E0D86A7B0430D8CDB78070B4C55A9000"),
        left: "000102030405060708090A0B0C0D0E0F",
        ..PLAIN
    },
    Case {
        title: "no block of 24",
        code: "22C00022C000220000290A18060010",
        data: "000102030405060708090A0B0C0D0E0F",
        fixed: 16,
        command: "800100001000112233445566778899AABBCCDDEEFF10",
        answer: Answer::Abend(Abend::A06),
        left: "000102030405060708090A0B0C0D0E0F",
        ..PLAIN
    },
    Case {
        title: "SHA-1",
        code: "22000322C00022C0002809060014",
        command: "800100000361626314",
        answer: Answer::Reply("A9993E364706816ABA3E25717850C26C9CD0D89D9000"),
        ..PLAIN
    },
];

// Transactions.
const TRANSACTIONS: &[Case] = &[
    Case {
        title: "transaction of two words",
        code: "290302691100006922000829030104",
        fixed: 9,
        left: "110000000000000022",
        ..PLAIN
    },
    Case {
        title: "a transaction that is not committed",
        code: "2903026933000004",
        fixed: 9,
        left: "000000000000000000",
        ..PLAIN
    },
];

// Extended commands, and a reply that is too long.
const COMMANDS: &[Case] = &[
    Case {
        title: "extended case 4",
        code: "060004",
        command: "8001000000000211220004",
        answer: Answer::Reply("112200009000"),
        ..PLAIN
    },
    Case {
        title: "extended case 4 with Le 0000",
        code: "060004",
        command: "8001000000000211220000",
        answer: Answer::Reply("112200009000"),
        ..PLAIN
    },
    Case {
        title: "extended case 2",
        code: "060004",
        command: "80010000000002",
        answer: Answer::Reply("00009000"),
        ..PLAIN
    },
    Case {
        title: "extended case 3",
        code: "060004",
        command: "800100000000021122",
        ..PLAIN
    },
    Case {
        title: "a reply above 1,024 bytes",
        code: "060401",
        answer: Answer::Abend(Abend::A09),
        ..PLAIN
    },
];

// The title of the first case that is not as due.
fn wrong_case(alloc: Global, cases: &[Case]) -> Option<&'static str> {
    for case in cases {
        let app = App {
            name: "A000000001",
            code: case.code,
            data: case.data,
            fixed: case.fixed,
            deny: 0,
        };
        let row = Row {
            apps: &[app],
            budget: case.budget,
            commands: &[(case.command, case.answer)],
            left: case.left,
        };
        if !goes(alloc, &row) {
            return Some(case.title);
        }
    }
    None
}

#[test]
fn accesses(rt: HostRuntime) {
    assert_eq!(rt; wrong_case(rt.alloc(), ACCESSES), None);
}

#[test]
fn budgets(rt: HostRuntime) {
    assert_eq!(rt; wrong_case(rt.alloc(), BUDGETS), None);
}

#[test]
fn primitives(rt: HostRuntime) {
    assert_eq!(rt; wrong_case(rt.alloc(), PRIMITIVES), None);
}

#[test]
fn ciphers(rt: HostRuntime) {
    assert_eq!(rt; wrong_case(rt.alloc(), CIPHERS), None);
}

#[test]
fn transactions(rt: HostRuntime) {
    assert_eq!(rt; wrong_case(rt.alloc(), TRANSACTIONS), None);
}

#[test]
fn extended_commands(rt: HostRuntime) {
    assert_eq!(rt; wrong_case(rt.alloc(), COMMANDS), None);
}

// Public bytes do not stay from one command to the next.
#[test]
fn public_bytes(rt: HostRuntime) {
    let row = Row {
        apps: &[App {
            name: "A000000001",
            code: "060004",
            data: "",
            fixed: 0,
            deny: 0,
        }],
        budget: 65536,
        commands: &[
            ("80010000041122334404", Answer::Reply("112233449000")),
            ("8001000004", Answer::Reply("000000009000")),
        ],
        left: "",
    };
    assert!(rt; goes(rt.alloc(), &row));
}

// A delegation that succeeds, one to a running application and one to a missing one.
#[test]
fn delegation(rt: HostRuntime) {
    let row = Row {
        apps: &[
            App {
                name: "A000000001",
                code: "22000028073F02FFFE22000628073F02FFFE460400000790000004",
                data: "05A00000000205A000000009",
                fixed: 12,
                deny: 0,
            },
            App {
                name: "A000000002",
                code: "220000280704",
                data: "05A000000001",
                fixed: 6,
                deny: 0,
            },
        ],
        budget: 65536,
        commands: &[("8001000004", Answer::Reply("69856A829000"))],
        left: "05A00000000205A000000009",
    };
    assert!(rt; goes(rt.alloc(), &row));
}

// The fourth frame's delegation is refused.
#[test]
fn full_chain(rt: HostRuntime) {
    let relay = App {
        name: "",
        code: "220000280704",
        data: "",
        fixed: 6,
        deny: 0,
    };
    let row = Row {
        apps: &[
            App {
                name: "A000000201",
                data: "05A000000202",
                ..relay
            },
            App {
                name: "A000000202",
                data: "05A000000203",
                ..relay
            },
            App {
                name: "A000000203",
                data: "05A000000204",
                ..relay
            },
            App {
                name: "A000000204",
                data: "05A000000205",
                ..relay
            },
            App {
                name: "A000000205",
                data: "05A000000201",
                ..relay
            },
        ],
        budget: 65536,
        commands: &[(CALL, Answer::Reply("6985"))],
        left: "05A000000202",
    };
    assert!(rt; goes(rt.alloc(), &row));
}

// The access list denies Delegate by its last line.
#[test]
fn access_list(rt: HostRuntime) {
    for (deny, answer) in [(2, Answer::Abend(Abend::A0A)), (0, Answer::Reply("6A82"))] {
        let row = Row {
            apps: &[App {
                name: "A000000003",
                code: "220000280704",
                data: "05A000000001",
                fixed: 6,
                deny,
            }],
            budget: 65536,
            commands: &[(CALL, answer)],
            left: "05A000000001",
        };
        assert!(rt; goes(rt.alloc(), &row), "access list {deny}");
    }
}

// The code that writes the first byte of `words` words under protection, and commits them.
fn writes(alloc: Global, words: u16) -> Result<Vec<u8>, NoMemory> {
    let mut code = Vec::from_slice(alloc, &[0x29, 0x03, 0x02])?;
    for word in 0..words {
        let at = (word % 256) * 8;
        code.extend_from_slice(&[0x69, 1, (at / 256) as u8, (at % 256) as u8])?;
    }
    code.extend_from_slice(&[0x29, 0x03, 0x01, 0x04])?;
    Ok(code)
}

// The outcome of a command that runs it, and the static bytes that it leaves.
fn written(alloc: Global, words: u16) -> Result<(Outcome, Vec<u8>), Fault> {
    let Ok(code) = writes(alloc, words) else {
        return Err(Fault::NoMemory);
    };
    ended(alloc, code.as_slice(), 520, &[0x80, 1, 0, 0], 65536)
}

// Whether a command was answered by this reply, and left these static bytes.
fn is_reply(end: &Result<(Outcome, Vec<u8>), Fault>, sw: u16, body: &[u8], left: &[u8]) -> bool {
    match end {
        Ok((Outcome::Reply(reply), bytes)) => {
            reply.sw == sw && reply.body.as_slice() == body && bytes.as_slice() == left
        }
        Ok((Outcome::Abend(_abend), _bytes)) => false,
        Err(_fault) => false,
    }
}

// Whether a command ended with this abend, and left these static bytes.
fn is_abend(end: &Result<(Outcome, Vec<u8>), Fault>, abend: Abend, left: &[u8]) -> bool {
    match end {
        Ok((Outcome::Reply(_reply), _bytes)) => false,
        Ok((Outcome::Abend(cause), bytes)) => *cause == abend && bytes.as_slice() == left,
        Err(_fault) => false,
    }
}

// At most 64 words are pending: with one more nothing is written.
#[test]
fn pending_limit(rt: HostRuntime) {
    let mut marked = [0; 520];
    for word in 0..64 {
        marked[8 * word] = 1;
    }
    assert!(rt; is_reply(&written(rt.alloc(), 64), 0x9000, &[], &marked));
    assert!(rt; is_abend(&written(rt.alloc(), 65), Abend::A08, &[0; 520]));
}

// Every code of one byte ends.
#[test]
fn codes_of_one_byte(rt: HostRuntime) {
    for byte in 0..=255 {
        let end = ended(rt.alloc(), &[byte], 0, &[0x80, 1, 0, 0], 10);
        assert!(rt; end.is_ok(), "code {byte}");
    }
}

// A reply of 1,024 bytes, and not one more.
#[test]
fn long_reply(rt: HostRuntime) {
    let end = ended(
        rt.alloc(),
        &[0x06, 0x04, 0x00],
        0,
        &[0x80, 1, 0, 0, 0, 0, 0],
        65536,
    );
    assert!(rt; is_reply(&end, 0x9000, &[0; 1024], &[]));
}
