// Assembly texts and codes, and the output of the jobs `asm` and `list` for them.

/// An input of a job, with the status and the text due.
pub struct Sample {
    pub word: &'static str,
    pub input: &'static [u8],
    pub status: u8,
    pub text: &'static [u8],
}

/// The samples that are tested.
pub const SAMPLES: [Sample; 26] = [
    Sample {
        word: "asm",
        input: b"POPW\nEXITSWLA 0x0000,0x0002\nRETO 1 ",
        status: 0,
        text: b"2607000000022E01\n",
    },
    Sample {
        word: "asm",
        input: b"l0: BRANCH LE , l0;,:[\r\nPUSHB 0\r\nl2: CALL LE,l4\r",
        status: 1,
        text: b"line 3 BadNumber\n",
    },
    Sample {
        word: "asm",
        input: b"l4: CALL\nLOADI LB[0],255\nRET\n",
        status: 0,
        text: b"184CFF00002C\n",
    },
    Sample {
        word: "asm",
        input: b"l0: SUBN 216\nl1: SUBN DT[1],1\nl2: NOP\nl3: LOADI DT[-1],3\nEXITLA 0x0000 \nJUMP  LT  ,  l5\nSUBW DT[1],0x0001\nPOPB\nl0: BRANCH ALL,l4\nTESTN LB[-1],16\nDECN LB[-1] , 143 \nRETIO 3,3\nEXIT\nCLEARN 8\nPUSHW 0x8000\nANDN DB[-1],255\nl0: STORE PT[32767],126\nl1: ANDN 24\nSTORE DB[1],255\nINDEX LB[11],16\nLOADI DT[-2],255\nPUSHB 16\nJUMP NE,l5\nl7: TESTN SB[0],255\nl0: ADDW PT[-32768],0x0002\nCALL LT,l7\nl2: CALL GT,0x0001\nPUSHW 0x0002\nSTORE PB[-6],16\nTESTN DB[32767],3\nPOPW\nANDN ST[0],2\nANDN PB[32767],17\nl1: ADDW DT[0],0xFFFF\nSETSWLA 0xBE13,0xA315\nl3: LOAD DB[0],16\nBRANCH LT,l0\nANDN DB[32767],98\nl6: SUBB PT[6],16\nl7: ADDN SB[-1],17\n",
        status: 1,
        text: b"line 9 LabelTwice\n",
    },
    Sample {
        word: "asm",
        input: b"\n\n",
        status: 0,
        text: b"\n",
    },
    Sample {
        word: "asm",
        input: b"l0: JUMP ALL,0x0002\r\nl1:  SUBN  255 \r\nCALL\tLT\t,\tl7 ; c\r\nEXITSWLA 0x7F26,0x0001\r\nLOADI ST[-32768],3\r\nl5: EXIT\r\nl6: POPB\r\nSUBN ST[-32768],16\r\nLOAD  DB[32767]  ,  2 \r\nRETIO 3,17\r\nNOP\r\nSUBW DB[5],0x8000\r\nEXITSW 0x24A7\r\nSTORE PB[-16],3\r\nADDW DB[-32768],0x8000\r\nRETIO 2,3\r\nl0: PUSHB 16\r\nRETO 255\r\nl2:\tJUMP\r\nCMPN 1\r\nPUSHZ 16\r\nPUSHW 0x0002\r\nEXITSW 0x1B12\r\nl7: ADDW DT[-32768],0x8000\r\nBRANCH ALL,l6\r\nPUSHB 17\r\nPUSHB 0x100\r\nSUBW  ST[1]  ,  0x0001;,:[\r\nPOPN 1\r\nPOPN 16\r\nCALL LT,l1\r\nCLEARN SB[32767],16\r\nADDW ST[-1] , 0x8000 \r\nCLEARN SB[-32768],1\r\nSUBN  PT[-15]  ,  81;,:[\r\nRETIO 1,1\r\nTESTN DT[-32768],16\r\nl4: LOADA ST[0]\r\nORN ST[-5],0\r\nINCN DT[0],8\r\nPOPN 17\n\n",
        status: 1,
        text: b"line 17 LabelTwice\n",
    },
    Sample {
        word: "asm",
        input: b"\n",
        status: 0,
        text: b"\n",
    },
    Sample {
        word: "asm",
        input: b"CMPB PT[-12],1\r\nJUMP NE,no0\r\nPUSHW 0\r\nPRIM 7\r\nPUSHW 255\r\nPUSHW 0xC000\r\nPUSHW 49152\r\nPRIM 9\r\nPUSHW 0\r\nPUSHW 0xC000\r\nPUSHW 49152\r\nPRIM 9\r\nEXIT\r\nno0: NOP\r\nCMPB PT[-12],2\r\nJUMP NE,no1\r\nINCN DB[0],1\r\nLOAD DB[0],1\r\nSTORE PB[0],1\r\nPRIM 3,3\r\nSETB SB[3],62\r\nLOAD PB[0],8\r\nSTORE SB[0],8\r\nINCN SB[0],8\r\nPRIM 3,3\r\nCMPB SB[3],176\r\nLOAD SB[0],4\r\nSTORE PB[0],4\r\nEXITSW 0x6A80\r\nno1: NOP\r\nCMPB PT[-12],3\r\nJUMP NE,no2\r\nINCN DB[0],1\r\nLOAD DB[0],1\r\nSTORE PB[0],1\r\nPUSHW 0\r\nPRIM 7\r\nLOAD PT[-2],2\r\nSTORE PB[1],2\r\nINCN SB[0],9\r\nEXITLA 4\r\nno2: NOP\r\nCMPB PT[-12],4\r\nJUMP NE,no3\r\nPUSHW 0\r\nPRIM 7\r\nPRIM 3,2\r\nSETW SB[0],0x1C9B\r\nINCN SB[0],4\r\nSETB SB[3],202\r\nINCN SB[0],4\r\nINCN SB[0],4\r\nPRIM 3,1\r\nCLEARN SB[0],4\r\nPRIM 3,3\r\nINCN SB[0],8\r\nLOAD PB[0],8\r\nSTORE SB[0],8\r\nSETSWLA 0x6581,1025\r\nPUSHW 3\r\nPUSHW 0xC000\r\nPUSHW 49152\r\nPRIM 9\r\nEXITSWLA 0x9001,3\r\nno3: NOP\r\nPUSHW 0\r\nPRIM 7\r\nLOAD PT[-2],2\r\nSTORE PB[5],2\r\nEXITLA 2\r",
        status: 1,
        text: b"line 70 BadNumber\n",
    },
    Sample {
        word: "asm",
        input: b"NOP\nCALL GT,0x0001\nCMPW  LB[-1]  ,  0x8A12\n\n",
        status: 0,
        text: b"001C0001948A12FFFF\n",
    },
    Sample {
        word: "asm",
        input: b"PUSHB -0\nINCN SB[ 0 ],1",
        status: 1,
        text: b"line 1 BadNumber\n",
    },
    Sample {
        word: "asm",
        input: b"",
        status: 0,
        text: b"\n",
    },
    Sample {
        word: "asm",
        input: b"PUSHW 0x12345\nEXITSWLA 0x0000,0x2716\nRETIO 1,\n\n",
        status: 1,
        text: b"line 1 BadNumber\n",
    },
    Sample {
        word: "asm",
        input: b"TESTN ST[0],255\nRETI 1\nORN SB[-32768],8",
        status: 0,
        text: b"B2FF00002D01F1088000\n",
    },
    Sample {
        word: "asm",
        input: b"l0: RETIO 1,17\r",
        status: 1,
        text: b"line 1 BadNumber\n",
    },
    Sample {
        word: "list",
        input: b"",
        status: 0,
        text: b"",
    },
    Sample {
        word: "list",
        input: b"93\r\n00017fffc18f566d605e6a",
        status: 1,
        text: b"place 11 Past\n",
    },
    Sample {
        word: "list",
        input: b"24003a8f00\n\n003\tc5\n\n5000097ffff\n\n000006000126\t2601ffff77020\n\n003\n\n2\n\n092f900\r\nffff2c25880\r\n0\n\n02cf08ffffce03fff\n\nfb6117fff22\r\n00012eff\tbbff00017\r\n40\n20001fb027fffdc100001cf080001\taf02fff5af027fff07ec1b588467030001e\r\n308fffb7b10\t7fff",
        status: 0,
        text: b"POPN 0\nLOAD ST[0],143\nLOAD LB[0],85\nCMPW PT[0],0xFFFF\nEXITLA 0x0001\nPOPW\nPOPW\nSETSW 0xFFFF\nCMPB PT[3],2\nPUSHZ 146\nXORN SB[-1],0\nRET\nPOPB\nSETW 0x0002\nNOTN PT[-1],8\nNOTN PB[-1],3\nTESTN PB[32767],17\nPUSHW 0x0001\nRETO 255\nINCN DB[1],255\nCMPB LB[1],2\nXORN DB[32767],2\nADDN LB[1],16\nNOTN PT[1],8\nCLEARN PT[-11],2\nCLEARN PT[32767],2\nEXITSWLA 0xEC1B,0x5884\nINDEX PT[1],3\nSUBN DB[-5],8\nADDB DB[32767],16\n",
    },
    Sample {
        word: "list",
        input: b"g",
        status: 1,
        text: b"line 1 BadHex\n",
    },
    Sample {
        word: "list",
        input: b"",
        status: 0,
        text: b"",
    },
    Sample {
        word: "list",
        input: b"\0",
        status: 1,
        text: b"line 1 BadHex\n",
    },
    Sample {
        word: "list",
        input: b"3e0\t1fff90d19253f08ffff058000",
        status: 0,
        text: b"LOAD PB[-7],1\nBRANCH GE,25\nPOPB\nLOAD PT[-1],8\nEXITSW 0x8000\n",
    },
    Sample {
        word: "list",
        input: b"8608000221010044FF7FFF2EC\n9CF03FFFF0\r\n1FFFF6410FFEE2E10200\t8220001\n058000\r\nC3\n0080\r\n000 50000AC0380001F000204 D401FFFF2F\r\n020EC6037FF\nF8710FFFF2\r\n103DDFF7FFF5C000005000004BA\r\n1000006501800062037FFF048\t38DDE45 E\n9",
        status: 1,
        text: b"place 94 Past\n",
    },
    Sample {
        word: "list",
        input: b"a\n\n4\r\n00\t02ffffa70001fff\t78d00\n010000e00324c0",
        status: 0,
        text: b"SUBW LB[-1],0x0002\nSUBW PT[-9],0x0001\nSETW DT[0],0x0001\nSUBN 3\nPOPN 192\n",
    },
    Sample {
        word: "list",
        input: b"ae0200007208000\r\n11180c48\r\n601\t7fff5a7fff6e107fffa70001fff46e10ffff\0020002b9ff8000a68000ffff2\t20001f c08fff7 24001900007511fff0 2eff0004d603f\n\nfff010001f80100fbf57\tfff1b0002500804831100106b1\r\n10001fe00000090c4a4dc\n\n",
        status: 1,
        text: b"line 3 BadHex\n",
    },
    Sample {
        word: "list",
        input: b"b108000a64e7\n7d\tc40bb1",
        status: 0,
        text: b"TESTN SB[10],8\nINDEX LB[32196],231\nBRANCH LE,-79\n",
    },
    Sample {
        word: "list",
        input: b"7910ffff2801c0\n10c81121b9b30\n30001b3110000241138082\n\ne08\n4f01\n\n00012\r\ne0\n\n32d010\n\n7000200004a01ffff2002c3\r\n08f fff25010\n00\r\n1 2e01c5\r\n0\n0000\t1198000200\n\n1d610ffff5\r\n8c4ff80\n\n005b00007a110000d501fff387020000\n94e\n\n7d2\n\n",
        status: 1,
        text: b"place 88 Past\n",
    },
];
