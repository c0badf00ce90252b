// Lines of traces, tested against lines that were written by another program.
ghost use Rattle.std.specs.Prelude.{◌≤◌};
ghost use Rattle.model_text.specs.model_machine.specs.Code.{Shaped};

use crate::line::line_of;
use mc_arith::Flags;
use mc_isa::Ins;
use mc_machine::Turn;

// Whether this is the line of a turn of a first frame that does not end.
fn shows(at: u16, ins: Ins, dt: u16, c: bool, z: bool, line: &[u8]) -> bool
    requires { Shaped ins }
{
    let turn = Turn {
        depth: 1,
        at,
        ins: Some(ins),
        dt,
        flags: Flags { c, z },
        end: None,
    };
    line_of(&turn).as_slice() == line
}

#[test]
fn lines(rt: HostRuntime) {
    let push = Ins::Pushw { w: 0xC000 };
    assert!(rt;
        shows(
            0x009A,
            push,
            0x800E,
            false,
            false,
            b"> 1 009A PUSHW 0xC000 800E 00\n"
        )
    );
    let compare = Ins::Cmpw {
        tag: 1,
        off: 21,
        w: 0x66AB,
    };
    assert!(rt;
        shows(
            0x0094,
            compare,
            0x8008,
            true,
            false,
            b"> 1 0094 CMPW SB[21],0x66AB 8008 10\n"
        )
    );
    let test = Ins::Cmpb {
        tag: 7,
        off: -12,
        b: 1,
    };
    assert!(rt;
        shows(
            0,
            test,
            0x8001,
            false,
            true,
            b"> 1 0000 CMPB PT[-12],1 8001 01\n"
        )
    );
    let jump = Ins::Jump {
        cond: 6,
        to: 0x0011,
    };
    assert!(rt;
        shows(
            0x0004,
            jump,
            0x8010,
            false,
            true,
            b"> 1 0004 JUMP NE,0x0011 8010 01\n"
        )
    );
    let delegate = Ins::Prim {
        set: 0,
        number: 7,
        args: [0, 0, 0],
    };
    assert!(rt;
        shows(
            0x000A,
            delegate,
            0x8001,
            false,
            true,
            b"> 1 000A PRIM 7 8001 01\n"
        )
    );
    assert!(rt;
        shows(
            0x0034,
            Ins::Exit,
            0x8001,
            false,
            true,
            b"> 1 0034 EXIT 8001 01\n"
        )
    );
}
