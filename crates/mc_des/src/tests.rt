use crate::{
    des_decipher, des_encipher, des_signature, tdes_decipher, tdes_encipher, tdes_signature,
};

// Keys, blocks and enciphered blocks of NIST SP 800-17 (its table 4, and rows of tables 1 to 3), after two
// worked examples.
const ROWS: [(u64, u64, u64); 41] = [
    (
        0x1334_5779_9BBC_DFF1,
        0x0123_4567_89AB_CDEF,
        0x85E8_1354_0F0A_B405,
    ),
    (
        0x0101_0101_0101_0101,
        0x95F8_A5E5_DD31_D900,
        0x8000_0000_0000_0000,
    ),
    (
        0x0000_0000_0000_0000,
        0x0000_0000_0000_0000,
        0x8CA6_4DE9_C1B1_23A7,
    ),
    (
        0x7CA1_1045_4A1A_6E57,
        0x01A1_D6D0_3977_6742,
        0x690F_5B0D_9A26_939B,
    ),
    (
        0x0131_D961_9DC1_376E,
        0x5CD5_4CA8_3DEF_57DA,
        0x7A38_9D10_354B_D271,
    ),
    (
        0x07A1_133E_4A0B_2686,
        0x0248_D438_06F6_7172,
        0x868E_BB51_CAB4_599A,
    ),
    (
        0x3849_674C_2602_319E,
        0x5145_4B58_2DDF_440A,
        0x7178_876E_01F1_9B2A,
    ),
    (
        0x04B9_15BA_43FE_B5B6,
        0x42FD_4430_5957_7FA2,
        0xAF37_FB42_1F8C_4095,
    ),
    (
        0x0113_B970_FD34_F2CE,
        0x059B_5E08_51CF_143A,
        0x86A5_60F1_0EC6_D85B,
    ),
    (
        0x0170_F175_468F_B5E6,
        0x0756_D8E0_7747_61D2,
        0x0CD3_DA02_0021_DC09,
    ),
    (
        0x4329_7FAD_38E3_73FE,
        0x7625_14B8_29BF_486A,
        0xEA67_6B2C_B7DB_2B7A,
    ),
    (
        0x07A7_1370_45DA_2A16,
        0x3BDD_1190_4937_2802,
        0xDFD6_4A81_5CAF_1A0F,
    ),
    (
        0x0468_9104_C2FD_3B2F,
        0x2695_5F68_35AF_609A,
        0x5C51_3C9C_4886_C088,
    ),
    (
        0x37D0_6BB5_16CB_7546,
        0x164D_5E40_4F27_5232,
        0x0A2A_EEAE_3FF4_AB77,
    ),
    (
        0x1F08_260D_1AC2_465E,
        0x6B05_6E18_759F_5CCA,
        0xEF1B_F03E_5DFA_575A,
    ),
    (
        0x5840_2364_1ABA_6176,
        0x004B_D6EF_0917_6062,
        0x88BF_0DB6_D70D_EE56,
    ),
    (
        0x0258_1616_4629_B007,
        0x480D_3900_6EE7_62F2,
        0xA1F9_9155_4102_0B56,
    ),
    (
        0x4979_3EBC_79B3_258F,
        0x4375_40C8_698F_3CFA,
        0x6FBF_1CAF_CFFD_0556,
    ),
    (
        0x4FB0_5E15_15AB_73A7,
        0x072D_43A0_7707_5292,
        0x2F22_E49B_AB7C_A1AC,
    ),
    (
        0x49E9_5D6D_4CA2_29BF,
        0x02FE_5577_8117_F12A,
        0x5A6B_612C_C26C_CE4A,
    ),
    (
        0x0183_10DC_409B_26D6,
        0x1D9D_5C50_18F7_28C2,
        0x5F4C_038E_D12B_2E41,
    ),
    (
        0x1C58_7F1C_1392_4FEF,
        0x3055_3228_6D6F_295A,
        0x63FA_C0D0_34D9_F793,
    ),
    (
        0x1046_9134_8998_0131,
        0x0000_0000_0000_0000,
        0x88D5_5E54_F54C_97B4,
    ),
    (
        0x1007_1034_8998_8020,
        0x0000_0000_0000_0000,
        0x0C0C_C00C_83EA_48FD,
    ),
    (
        0x1007_1034_C898_0120,
        0x0000_0000_0000_0000,
        0x83BC_8EF3_A657_0183,
    ),
    (
        0x1046_1034_8998_8020,
        0x0000_0000_0000_0000,
        0xDF72_5DCA_D94E_A2E9,
    ),
    (
        0x1086_9115_1919_0101,
        0x0000_0000_0000_0000,
        0xE652_B53B_550B_E8B0,
    ),
    (
        0x1086_9115_1958_0101,
        0x0000_0000_0000_0000,
        0xAF52_7120_C485_CBB0,
    ),
    (
        0x5107_B015_1958_0101,
        0x0000_0000_0000_0000,
        0x0F04_CE39_3DB9_26D5,
    ),
    (
        0x1007_B015_1919_0101,
        0x0000_0000_0000_0000,
        0xC9F0_0FFC_7407_9067,
    ),
    (
        0x0101_0101_0101_0101,
        0x8000_0000_0000_0000,
        0x95F8_A5E5_DD31_D900,
    ),
    (
        0x0101_0101_0101_0101,
        0x4000_0000_0000_0000,
        0xDD7F_121C_A501_5619,
    ),
    (
        0x0101_0101_0101_0101,
        0x2000_0000_0000_0000,
        0x2E86_5310_4F38_34EA,
    ),
    (
        0x0101_0101_0101_0101,
        0x1000_0000_0000_0000,
        0x4BD3_88FF_6CD8_1D4F,
    ),
    (
        0x0101_0101_0101_0101,
        0x0800_0000_0000_0000,
        0x20B9_E767_B2FB_1456,
    ),
    (
        0x0101_0101_0101_0101,
        0x0400_0000_0000_0000,
        0x5557_9380_D771_38EF,
    ),
    (
        0x8001_0101_0101_0101,
        0x0000_0000_0000_0000,
        0x95A8_D728_13DA_A94D,
    ),
    (
        0x4001_0101_0101_0101,
        0x0000_0000_0000_0000,
        0x0EEC_1487_DD8C_26D5,
    ),
    (
        0x2001_0101_0101_0101,
        0x0000_0000_0000_0000,
        0x7AD1_6FFB_79C4_5926,
    ),
    (
        0x1001_0101_0101_0101,
        0x0000_0000_0000_0000,
        0xD374_6294_CA6A_6CF3,
    ),
    (
        0x0801_0101_0101_0101,
        0x0000_0000_0000_0000,
        0x809F_5F87_3C1F_D761,
    ),
];

#[test]
fn known_answers(rt: HostRuntime) {
    for (key, block, enciphered) in ROWS {
        let plain = block.to_be_bytes();
        let cipher = enciphered.to_be_bytes();
        let half = key.to_be_bytes();
        let twice = ((key as u128) << 64 | key as u128).to_be_bytes();
        assert_eq!(rt; des_encipher(&half, &plain), cipher);
        assert_eq!(rt; des_decipher(&half, &cipher), plain);
        assert_eq!(rt; tdes_encipher(&twice, &plain), cipher);
        assert_eq!(rt; tdes_decipher(&twice, &cipher), plain);
    }
    // The printed example of CBC in FIPS 81.
    let key: u64 = 0x0123_4567_89AB_CDEF;
    let start: u64 = 0x1234_5678_90AB_CDEF;
    let last: u64 = 0x6837_8849_9A7C_05F6;
    let twice = ((key as u128) << 64 | key as u128).to_be_bytes();
    let message = b"Now is the time for all ";
    assert_eq!(rt;
        des_signature(&key.to_be_bytes(), &start.to_be_bytes(), message),
        last.to_be_bytes()
    );
    assert_eq!(rt;
        tdes_signature(&twice, &start.to_be_bytes(), message),
        last.to_be_bytes()
    );
}
