// Declarations, and the lines that they leave in the deck.
use crate::drafts::{first_unmade, makes};

#[test]
fn whole_draft(rt: HostRuntime) {
    assert!(rt;
        makes(
            rt.alloc(),
            b"format\npower\napp purse A000000100\nSTATIC balance 2 03E8\nSTATIC tries 1\nSTATIC pin 2 1234\nSTATIC log 4\nSESSION shown 1        ; 1 once the PIN was shown\nPUBLIC amount 0 2\nCONST poor 0x6985\nbalance: CMPB INS,0x40\n LOAD balance\n CMPN pin\n SETB shown,3\n LOAD amount+1\n STORE PB[0],balance.size\n EXITSW poor\nend\nload purse\nselect purse\napdu 80 40 0000 (0064) 02\n",
            b"format\npower\napp purse A000000100\nDATA 03E8\nDATA 00\nDATA 1234\n\n\n\n\nbalance: CMPB PT[-12],0x40\n LOAD SB[0],2\n CMPN SB[3],2\n SETB DB[0],3\n LOAD PB[1],1\n STORE PB[0],2\n EXITSW 0x6985\nend\nload purse 9 1\nselect A000000100\napdu 8040000002006402\n"
        )
    );
}

const ZEROS_BETWEEN: &[(&[u8], &[u8])] = &[
    (
        b"app a A000000100\nSTATIC x 1\nSTATIC y 3\nSTATIC z 2 ABcd\nSTATIC w 2\nend\n",
        b"app a A000000100\nDATA 00\nDATA 000000\nDATA ABcd\n\nend\n",
    ),
    (
        b"app a A000000100\nSTATIC x 1\nSTATIC y 3\nend\nload a",
        b"app a A000000100\n\n\nend\nload a 4 0",
    ),
    (
        b"app a A000000100\nSTATIC x 1\n NOP\nSTATIC y 1 FF\n LOAD y\nend\n",
        b"app a A000000100\nDATA 00\n NOP\nDATA FF\n LOAD SB[1],1\nend\n",
    ),
    (
        b"app a A000000100\nSTATIC x 1\nend\napp b A000000101\nSTATIC y 1 01\nend\n",
        b"app a A000000100\n\nend\napp b A000000101\nDATA 01\nend\n",
    ),
];

#[test]
fn zeros_between(rt: HostRuntime) {
    assert_eq!(rt; first_unmade(rt.alloc(), ZEROS_BETWEEN), None);
}

#[test]
fn places(rt: HostRuntime) {
    assert!(rt;
        makes(
            rt.alloc(),
            b"app a A000000100\nSTATIC x 2\nSESSION s 3\nSTATIC y 04\nSESSION t 1\nPUBLIC p 7 2\nPUBLIC q 7 1\n LOAD x\n LOAD y\n LOAD s\n LOAD t\n LOAD p\n LOAD q\nend\nload a\n",
            b"app a A000000100\n\n\n\n\n\n\n LOAD SB[0],2\n LOAD SB[2],4\n LOAD DB[0],3\n LOAD DB[3],1\n LOAD PB[7],2\n LOAD PB[7],1\nend\nload a 6 4\n"
        )
    );
}

#[test]
fn numbers(rt: HostRuntime) {
    assert!(rt;
        makes(
            rt.alloc(),
            b"app a A000000100\nCONST low -32768\nCONST high 0xFFFF\nCONST seven 007\nCONST none -0\nCONST six 0xa\n PUSHW low\n PUSHW high\n PUSHB seven\n PUSHB none\n PRIM six,seven\nend\n",
            b"app a A000000100\n\n\n\n\n\n PUSHW -32768\n PUSHW 0xFFFF\n PUSHB 007\n PUSHB -0\n PRIM 0xa,007\nend\n"
        )
    );
}

#[test]
fn header(rt: HostRuntime) {
    assert!(rt;
        makes(
            rt.alloc(),
            b"app a A000000100\n LOAD CLA\n LOAD INS\n LOAD P1\n LOAD P2\n LOAD P3\n LOAD Lc\n LOAD Le\n LOAD La\n LOAD SW\nend\n",
            b"app a A000000100\n LOAD PT[-13],1\n LOAD PT[-12],1\n LOAD PT[-11],1\n LOAD PT[-10],1\n LOAD PT[-9],1\n LOAD PT[-8],2\n LOAD PT[-6],2\n LOAD PT[-4],2\n LOAD PT[-2],2\nend\n"
        )
    );
}

const IN_FORCE: &[(&[u8], &[u8])] = &[
    (
        b"app a A000000100\n LOAD x\nSTATIC x 1\n LOAD x\nend\n",
        b"app a A000000100\n LOAD x\n\n LOAD SB[0],1\nend\n",
    ),
    (
        b"app a A000000100\nSTATIC x 1\nend\napp b A000000101\n LOAD x\nend\n",
        b"app a A000000100\n\nend\napp b A000000101\n LOAD x\nend\n",
    ),
    (
        b"app a A000000100\nSTATIC x 1\nend\napp b A000000101\nSESSION x 2\n LOAD x\nend\n",
        b"app a A000000100\n\nend\napp b A000000101\n\n LOAD DB[0],2\nend\n",
    ),
];

#[test]
fn in_force(rt: HostRuntime) {
    assert_eq!(rt; first_unmade(rt.alloc(), IN_FORCE), None);
}

const FORMS: &[(&[u8], &[u8])] = &[
    (
        b"app a A000000100\n\tSTATIC \t x  1;c\n LOAD x\nend\n",
        b"app a A000000100\n\n LOAD SB[0],1\nend\n",
    ),
    (
        b"app a A000000100\n  STATIC x 1 0a ; c\nend\n",
        b"app a A000000100\nDATA 0a\nend\n",
    ),
    (
        b"app a A000000100\nSTATIC: NOP\nCONST : NOP\nSESSION :NOP\nPUBLIC\t: \nend\n",
        b"app a A000000100\nSTATIC: NOP\nCONST : NOP\nSESSION :NOP\nPUBLIC\t: \nend\n",
    ),
    (
        b"app a A000000100\nstatic x 1\nend\n",
        b"app a A000000100\nstatic x 1\nend\n",
    ),
    (b"STATIC x 1\n LOAD CLA\n", b"STATIC x 1\n LOAD CLA\n"),
    (
        b"app a A000000100\nSTATIC x 1 01\nSESSION y 1",
        b"app a A000000100\nDATA 01\n",
    ),
];

#[test]
fn forms(rt: HostRuntime) {
    assert_eq!(rt; first_unmade(rt.alloc(), FORMS), None);
}
