// What is explained of small drafts.

use desk_explain::explain;
use std::alloc::Global;

// Whether what is explained of a draft is a text, and whether the draft passes as it should.
fn explains(alloc: Global, draft: &[u8], passes: bool, text: &[u8]) -> bool {
    match explain(alloc, b"a.draft", draft) {
        Ok(explained) => explained.passes == passes && explained.text.as_slice() == text,
        Err(_) => false,
    }
}

#[test]
fn nothing_is_wrong(rt: HostRuntime) {
    let draft =
        b"format\npower\napp a A000000001\nSTATIC x 2\nagain: CLEARN x\n JUMP EQ,again\n EXIT\nend\nload a\n";
    assert!(rt; explains(rt.alloc(), draft, true, b""));
}

#[test]
fn a_refused_line_is_left_out(rt: HostRuntime) {
    let draft =
        b"format\npower\napp a A000000001\n\xC3\xA9: FOO\n LOAD SB[0]\n EXIT\nend\nload a\nload b\n";
    let text =
        b"a.draft:9:6: UnknownName: `b` stands here; expected the name of a unit or section above; move the section above this line, or mend the name\n\
a.draft:4:1: UnknownWord: `\xC3\xA9` stands here; expected an instruction in upper case, or a label of letters, digits and underscores before a colon; look the word up in docs/MACHINE.md, or write a colon after the label\n\
a.draft:5:7: BadNumber: `SB[0]` stands here; expected a number, decimal or 0x and 1 to 4 digits; add the length or the comma that is missing, or declare the name above\n";
    assert!(rt; explains(rt.alloc(), draft, false, text));
}

#[test]
fn columns_count_characters(rt: HostRuntime) {
    let draft =
        b"app a A000000001\n EXIT\nend\nselect \xC3\xA9\xC3\xA9 A000000001\nselect A0000000 # \xC3\xA9\napdu \xC3\xA9 00\n";
    let text =
        b"a.draft:6:6: BadHex: `\xC3\xA9` stands here; expected bytes as pairs of hexadecimal digits, or the name of a section above; count the digits, or mend the name\n\
a.draft:4:1: BadLine: `select` stands here; expected a statement in lower case with as many fields as it takes, and a comment on a line of its own; look the statement up in docs/DECKS.md\n\
a.draft:5:1: BadLine: `select` stands here; expected a statement in lower case with as many fields as it takes, and a comment on a line of its own; look the statement up in docs/DECKS.md\n";
    assert!(rt; explains(rt.alloc(), draft, false, text));
}

#[test]
fn what_follows_is_not_told(rt: HostRuntime) {
    let draft =
        b"app a A000000001\n LOAD y\nend\nload a 0 0\napp get-b A000000002\n EXIT\nend\nunit c 00\nload c 0 0\n";
    let text =
        b"a.draft:2:7: BadNumber: `y` stands here; expected a number, decimal or 0x and 1 to 4 digits; add the length or the comma that is missing, or declare the name above\n\
a.draft:5:5: BadName: `get-b` stands here; expected a name of 1 to 32 letters, digits and underscores; write the name without other characters\n\
a.draft:8:8: Short: `00` stands here; expected all fields of a load unit, each after its length; look for a length that is too great, or a field that is missing\n";
    assert!(rt; explains(rt.alloc(), draft, false, text));
}

#[test]
fn a_section_without_end(rt: HostRuntime) {
    let draft = b"format\napp a A000000001\n FOO\nload a\n";
    let text =
        b"a.draft:2:1: NoEnd: `app` stands here; expected a line `end` alone below this line; end the section; its `end` has no comment\n";
    assert!(rt; explains(rt.alloc(), draft, false, text));
}

#[test]
fn both_ways_to_refused_code(rt: HostRuntime) {
    let draft =
        b"app a A000000001\n CMPB INS,0\n BRANCH EQ,x\n PUSHB 1\nx: NOP\n EXIT\nend\nload a\nload a\n";
    let text =
        b"a.draft:5:4: Heights: `x: NOP` stands here; the code comes here from line 3 with a stack of 0 and from line 4 with a stack of 1; expected one routine and one height of the stack on all ways that lead here; take the bytes off before the jump, by POPN; end the main code before a routine by an EXIT\n";
    assert!(rt; explains(rt.alloc(), draft, false, text));
}

#[test]
fn two_routines_to_refused_code(rt: HostRuntime) {
    let draft = b"app a A000000001\n CALL ALL,r\nr: NOP\n RET\nend\nload a\n";
    let text =
        b"a.draft:3:4: Heights: `r: NOP` stands here; the code comes here from line 2 in the routine at line 3 with a stack of 0 and from line 2 in the main code with a stack of 0; expected one routine and one height of the stack on all ways that lead here; take the bytes off before the jump, by POPN; end the main code before a routine by an EXIT\n";
    assert!(rt; explains(rt.alloc(), draft, false, text));
}

#[test]
fn warnings(rt: HostRuntime) {
    let draft =
        b"app a A000000001\nSTATIC x 1\nSTATIC y 4\nCONST z 3\n SETW x,1\n SETW y,1\n SETW y+2,1\n SETW y+3,1\n INCN y,20\n EXIT\nl: NOP\n EXIT\nend\nload a\n";
    let text =
        b"a.draft:4:7: warning: `z` stands here; expected an instruction or a rule that has the name; take the declaration away if nothing is to be read or written there\n\
a.draft:5:7: warning: `x` stands here; expected a name of two bytes: the instruction takes a word; write the word for one byte, the one with a length, or the place with a plus sign\n\
a.draft:6:7: warning: `y` stands here; expected a name of two bytes: the instruction takes a word; write the word for one byte, the one with a length, or the place with a plus sign\n\
a.draft:8:7: warning: `y+3` stands here; expected a name of two bytes: the instruction takes a word; write the word for one byte, the one with a length, or the place with a plus sign\n\
a.draft:9:2: warning: `INCN` stands here; expected a length of at least 1, for INCN, DECN, ADDN and SUBN at most 16, or a primitive that there is; mend the length: the instruction abends with 06 whenever it runs\n\
a.draft:10:2: warning: `EXIT` stands here; expected a way from the first instruction to this one; take the code away, or give it a label and go there\n\
a.draft:11:1: warning: `l` stands here; expected a BRANCH, JUMP or CALL to the label; take the label away, or go there\n";
    assert!(rt; explains(rt.alloc(), draft, true, text));
}

#[test]
fn rules_that_name_nothing(rt: HostRuntime) {
    let draft =
        b"app a A000000001\nSTATIC x 2\n CLEARN x\n EXIT\nend\nload a\n#@ app a\n#@ always {x} 0 {y.size}\n#@ always {x+2} 0 1\n#@ always {x 0 1\n#@ move  select b\n#@ move apdu 80 (1)\n#@ move select a\n";
    let text =
        b"a.draft:8:18: UnknownName: `y.size` stands here; expected a name that the section of the last `#@ app` line above declares, or one with a plus sign or a point and size; name the section in an `#@ app` line above, or mend the name\n\
a.draft:9:12: OutOfRange: `x+2` stands here; expected a place among the bytes of the name, and at most 255 bytes in round brackets; write a number after the plus sign that is less than the size of the name\n\
a.draft:10:12: BadLine: `x 0 1` stands here; expected a closing brace after the name; write the brace\n\
a.draft:11:17: BadHex: `b` stands here; expected bytes as pairs of hexadecimal digits, or the name of a section above; count the digits, or mend the name\n\
a.draft:12:17: BadHex: `(1)` stands here; expected bytes as pairs of hexadecimal digits, or the name of a section above; count the digits, or mend the name\n";
    assert!(rt; explains(rt.alloc(), draft, false, text));
}

#[test]
fn the_brace_that_is_meant(rt: HostRuntime) {
    let draft =
        b"app a A000000001\nSTATIC x 2\nPUBLIC p 3 4\nCONST n 7\n CLEARN x\n CLEARN p\n EXITSW n\nend\nload a\n#@ on turn *{INS}* need n 1\n#@ on turn {x}* need n 1\n#@ app a\n#@ on turn {x+1},{p+4} need n 1\n#@ on turn {Lc+1},{n.size} need n 1\n#@ on turn {p.size},{n+1} need n 1\n#@ on turn {n},{x.length}{ need n 1\n#@ on turn {x},{p+3},{x need n 1\n";
    let text =
        b"a.draft:11:13: UnknownName: `x` stands here; expected a name that the section of the last `#@ app` line above declares, or one with a plus sign or a point and size; name the section in an `#@ app` line above, or mend the name\n\
a.draft:13:19: OutOfRange: `p+4` stands here; expected a place among the bytes of the name, and at most 255 bytes in round brackets; write a number after the plus sign that is less than the size of the name\n\
a.draft:14:20: UnknownName: `n.size` stands here; expected a name that the section of the last `#@ app` line above declares, or one with a plus sign or a point and size; name the section in an `#@ app` line above, or mend the name\n\
a.draft:15:22: UnknownName: `n+1` stands here; expected a name that the section of the last `#@ app` line above declares, or one with a plus sign or a point and size; name the section in an `#@ app` line above, or mend the name\n\
a.draft:16:17: UnknownName: `x.length` stands here; expected a name that the section of the last `#@ app` line above declares, or one with a plus sign or a point and size; name the section in an `#@ app` line above, or mend the name\n\
a.draft:17:23: BadLine: `x need n 1` stands here; expected a closing brace after the name; write the brace\n";
    assert!(rt; explains(rt.alloc(), draft, false, text));
}
