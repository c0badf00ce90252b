// Names in instructions.
use crate::drafts::{first_unmade, makes};

const SIZES: &[(&[u8], &[u8])] = &[
    (
        b"app a A000000100\nPUBLIC x 3 2\n LOAD x\n STORE x\n CLEARN x\n TESTN x\n INCN x\n DECN x\n NOTN x\n CMPN x\n ADDN x\n SUBN x\n ANDN x\n ORN x\n XORN x\nend\n",
        b"app a A000000100\n\n LOAD PB[3],2\n STORE PB[3],2\n CLEARN PB[3],2\n TESTN PB[3],2\n INCN PB[3],2\n DECN PB[3],2\n NOTN PB[3],2\n CMPN PB[3],2\n ADDN PB[3],2\n SUBN PB[3],2\n ANDN PB[3],2\n ORN PB[3],2\n XORN PB[3],2\nend\n",
    ),
    (
        b"app a A000000100\nPUBLIC x 3 2\n LOADI x\n STOREI x\n INDEX x\n LOADA x\n SETB x\n CMPB x\n ADDB x\n SUBB x\n SETW x\n CMPW x\n ADDW x\n SUBW x\nend\n",
        b"app a A000000100\n\n LOADI PB[3]\n STOREI PB[3]\n INDEX PB[3]\n LOADA PB[3]\n SETB PB[3]\n CMPB PB[3]\n ADDB PB[3]\n SUBB PB[3]\n SETW PB[3]\n CMPW PB[3]\n ADDW PB[3]\n SUBW PB[3]\nend\n",
    ),
    (
        b"app a A000000100\nPUBLIC x 3 2\n LOAD x,1\n CMPN x,x.size\n STORE x,\n LOAD ,x\nend\n",
        b"app a A000000100\n\n LOAD PB[3],1\n CMPN PB[3],2\n STORE PB[3],\n LOAD ,PB[3]\nend\n",
    ),
    (
        b"app a A000000100\nCONST n 4\n LOAD n\n LOAD SB[0],n\nend\n",
        b"app a A000000100\n\n LOAD 4\n LOAD SB[0],4\nend\n",
    ),
    (
        b"app a A000000100\nLOAD: LOAD CLA\n LOAD SB[0],1\nend\n",
        b"app a A000000100\nLOAD: LOAD PT[-13],1\n LOAD SB[0],1\nend\n",
    ),
];

#[test]
fn sizes(rt: HostRuntime) {
    assert_eq!(rt; first_unmade(rt.alloc(), SIZES), None);
}

const PLACES_FURTHER: &[(&[u8], &[u8])] = &[
    (
        b"app a A000000100\nSTATIC x 5\n LOAD x+0\n LOAD x+4\n LOAD x+02\nend\n",
        b"app a A000000100\n\n LOAD SB[0],5\n LOAD SB[4],1\n LOAD SB[2],3\nend\n",
    ),
    (
        b"app a A000000100\n LOAD Lc+1\n SETB SW+1,0\nend\n",
        b"app a A000000100\n LOAD PT[-7],1\n SETB PT[-1],0\nend\n",
    ),
    (
        b"app a A000000100\nSTATIC x 5\n LOAD x+2,3\nend\n",
        b"app a A000000100\n\n LOAD SB[2],3\nend\n",
    ),
    (
        b"app a A000000100\nSTATIC x 5\nCONST n 1\n LOAD x+\n LOAD x+n\n LOAD x+0x1\n LOAD x+-1\n LOAD x+1+1\n LOAD x +1\n LOAD x-1\n LOAD n+0\nend\n",
        b"app a A000000100\n\n\n LOAD x+\n LOAD x+n\n LOAD x+0x1\n LOAD x+-1\n LOAD x+1+1\n LOAD x +1\n LOAD x-1\n LOAD n+0\nend\n",
    ),
];

#[test]
fn places_further(rt: HostRuntime) {
    assert_eq!(rt; first_unmade(rt.alloc(), PLACES_FURTHER), None);
}

#[test]
fn sizes_alone(rt: HostRuntime) {
    assert!(rt;
        makes(
            rt.alloc(),
            b"app a A000000100\nSTATIC x 05\n PUSHB x.size\n STORE PB[0],x.size\n LOAD x.size\n PRIM x.size,Lc.size\nend\n",
            b"app a A000000100\n\n PUSHB 5\n STORE PB[0],5\n LOAD 5\n PRIM 5,2\nend\n"
        )
    );
    assert!(rt;
        makes(
            rt.alloc(),
            b"app a A000000100\nSTATIC x 5\nCONST n 1\n PUSHB n.size\n PUSHB x.SIZE\n PUSHB x.\n PUSHB x.size.size\n PUSHB x+1.size\n PUSHB y.size\nend\n",
            b"app a A000000100\n\n\n PUSHB n.size\n PUSHB x.SIZE\n PUSHB x.\n PUSHB x.size.size\n PUSHB x+1.size\n PUSHB y.size\nend\n"
        )
    );
}

const NOT_A_NAME: &[(&[u8], &[u8])] = &[
    (
        b"app a A000000100\nCONST EQ1 1\nCONST x 0\n BRANCH ALL,x\n JUMP x,EQ1\n CALL EQ1,x\nend\n",
        b"app a A000000100\n\n\n BRANCH ALL,x\n JUMP x,EQ1\n CALL EQ1,x\nend\n",
    ),
    (
        b"app a A000000100\nCONST x 1\nx: PUSHB x\nx : PUSHB x\nx:PUSHB x\nx:\nend\n",
        b"app a A000000100\n\nx: PUSHB 1\nx : PUSHB 1\nx:PUSHB 1\nx:\nend\n",
    ),
    (
        b"app a A000000100\nCONST x 1\n PUSHB x ;PUSHB x\n PUSHB x; x: x,x\n; x\nend\n",
        b"app a A000000100\n\n PUSHB 1 ;PUSHB x\n PUSHB 1; x: x,x\n; x\nend\n",
    ),
    (
        b"app a A000000100\nCONST x 1\n PUSHB xx\n PUSHB x1\n PUSHB X\n PUSHB x x\n LOAD SB[x],1\nend\n",
        b"app a A000000100\n\n PUSHB xx\n PUSHB x1\n PUSHB X\n PUSHB x x\n LOAD SB[x],1\nend\n",
    ),
    (
        b"app a A000000100\nCONST x 1\n x\n x x\nend\n",
        b"app a A000000100\n\n x\n x 1\nend\n",
    ),
];

#[test]
fn not_a_name(rt: HostRuntime) {
    assert_eq!(rt; first_unmade(rt.alloc(), NOT_A_NAME), None);
}

#[test]
fn blanks(rt: HostRuntime) {
    assert!(rt;
        makes(
            rt.alloc(),
            b"app a A000000100\nSTATIC x 2\n\t x:  SETB \tx\t, 3 \t; c \n  LOAD\t x  \n NOP  \n \t\n SETB x ,x.size,\t\nend\n",
            b"app a A000000100\n\n\t x:  SETB \tSB[0]\t, 3 \t; c \n  LOAD\t SB[0],2  \n NOP  \n \t\n SETB SB[0] ,2,\t\nend\n"
        )
    );
}
