//! What follows of each value of a byte, computed while the crate is compiled: entry i of `TABLE_n` is
//! the register i behind 8 * (n + 1) zero bits. The register is linear, so a table's entries are the sums
//! of eight of them, those of the powers of two, and these are the register 1 behind fewer bits.
//!
//! A constant can't loop or call a function, and no chain of constants is longer than 64. So each row of
//! eight begins anew, eight bits behind the begin of the row before it.

// The polynomial of CRC-32C without its leading term, the coefficient of the highest degree as the
// lowest bit.
const POLYNOMIAL: u32 = 0x82f6_3b78;

// The register behind one more zero bit.
macro_rules! turned {
    ($register:expr) => { ($register >> 1) ^ (POLYNOMIAL * ($register & 1)) };
}

// The register behind eight more zero bits: its low bits add what stands at 1 to 8.
macro_rules! turned_by_eight {
    ($register:expr) => {
        ($register >> 8)
            ^ (RESIDUE_8 * ($register & 1))
            ^ (RESIDUE_7 * (($register >> 1) & 1))
            ^ (RESIDUE_6 * (($register >> 2) & 1))
            ^ (RESIDUE_5 * (($register >> 3) & 1))
            ^ (RESIDUE_4 * (($register >> 4) & 1))
            ^ (RESIDUE_3 * (($register >> 5) & 1))
            ^ (RESIDUE_2 * (($register >> 6) & 1))
            ^ (RESIDUE_1 * (($register >> 7) & 1))
    };
}

// All sums of the given numbers: the sum at i has those that the bits of i name.
macro_rules! sums {
    ([$($sum:expr),*]) => { [$($sum),*] };
    ([$($sum:expr),*], $bit:expr $(, $rest:expr)*) => {
        sums!([$($sum),* $(, $sum ^ $bit)*] $(, $rest)*)
    };
}

// The register 1 behind 8 * n zero bits.
const ROW_0: u32 = 1;

const ROW_1: u32 = turned_by_eight!(ROW_0);

const ROW_2: u32 = turned_by_eight!(ROW_1);

const ROW_3: u32 = turned_by_eight!(ROW_2);

const ROW_4: u32 = turned_by_eight!(ROW_3);

const ROW_5: u32 = turned_by_eight!(ROW_4);

const ROW_6: u32 = turned_by_eight!(ROW_5);

const ROW_7: u32 = turned_by_eight!(ROW_6);

const ROW_8: u32 = turned_by_eight!(ROW_7);

const ROW_9: u32 = turned_by_eight!(ROW_8);

const ROW_10: u32 = turned_by_eight!(ROW_9);

const ROW_11: u32 = turned_by_eight!(ROW_10);

const ROW_12: u32 = turned_by_eight!(ROW_11);

const ROW_13: u32 = turned_by_eight!(ROW_12);

const ROW_14: u32 = turned_by_eight!(ROW_13);

const ROW_15: u32 = turned_by_eight!(ROW_14);

// The register 1 behind n zero bits.
const RESIDUE_1: u32 = turned!(ROW_0);

const RESIDUE_2: u32 = turned!(RESIDUE_1);

const RESIDUE_3: u32 = turned!(RESIDUE_2);

const RESIDUE_4: u32 = turned!(RESIDUE_3);

const RESIDUE_5: u32 = turned!(RESIDUE_4);

const RESIDUE_6: u32 = turned!(RESIDUE_5);

const RESIDUE_7: u32 = turned!(RESIDUE_6);

const RESIDUE_8: u32 = turned!(RESIDUE_7);

const RESIDUE_9: u32 = turned!(ROW_1);

const RESIDUE_10: u32 = turned!(RESIDUE_9);

const RESIDUE_11: u32 = turned!(RESIDUE_10);

const RESIDUE_12: u32 = turned!(RESIDUE_11);

const RESIDUE_13: u32 = turned!(RESIDUE_12);

const RESIDUE_14: u32 = turned!(RESIDUE_13);

const RESIDUE_15: u32 = turned!(RESIDUE_14);

const RESIDUE_16: u32 = turned!(RESIDUE_15);

const RESIDUE_17: u32 = turned!(ROW_2);

const RESIDUE_18: u32 = turned!(RESIDUE_17);

const RESIDUE_19: u32 = turned!(RESIDUE_18);

const RESIDUE_20: u32 = turned!(RESIDUE_19);

const RESIDUE_21: u32 = turned!(RESIDUE_20);

const RESIDUE_22: u32 = turned!(RESIDUE_21);

const RESIDUE_23: u32 = turned!(RESIDUE_22);

const RESIDUE_24: u32 = turned!(RESIDUE_23);

const RESIDUE_25: u32 = turned!(ROW_3);

const RESIDUE_26: u32 = turned!(RESIDUE_25);

const RESIDUE_27: u32 = turned!(RESIDUE_26);

const RESIDUE_28: u32 = turned!(RESIDUE_27);

const RESIDUE_29: u32 = turned!(RESIDUE_28);

const RESIDUE_30: u32 = turned!(RESIDUE_29);

const RESIDUE_31: u32 = turned!(RESIDUE_30);

const RESIDUE_32: u32 = turned!(RESIDUE_31);

const RESIDUE_33: u32 = turned!(ROW_4);

const RESIDUE_34: u32 = turned!(RESIDUE_33);

const RESIDUE_35: u32 = turned!(RESIDUE_34);

const RESIDUE_36: u32 = turned!(RESIDUE_35);

const RESIDUE_37: u32 = turned!(RESIDUE_36);

const RESIDUE_38: u32 = turned!(RESIDUE_37);

const RESIDUE_39: u32 = turned!(RESIDUE_38);

const RESIDUE_40: u32 = turned!(RESIDUE_39);

const RESIDUE_41: u32 = turned!(ROW_5);

const RESIDUE_42: u32 = turned!(RESIDUE_41);

const RESIDUE_43: u32 = turned!(RESIDUE_42);

const RESIDUE_44: u32 = turned!(RESIDUE_43);

const RESIDUE_45: u32 = turned!(RESIDUE_44);

const RESIDUE_46: u32 = turned!(RESIDUE_45);

const RESIDUE_47: u32 = turned!(RESIDUE_46);

const RESIDUE_48: u32 = turned!(RESIDUE_47);

const RESIDUE_49: u32 = turned!(ROW_6);

const RESIDUE_50: u32 = turned!(RESIDUE_49);

const RESIDUE_51: u32 = turned!(RESIDUE_50);

const RESIDUE_52: u32 = turned!(RESIDUE_51);

const RESIDUE_53: u32 = turned!(RESIDUE_52);

const RESIDUE_54: u32 = turned!(RESIDUE_53);

const RESIDUE_55: u32 = turned!(RESIDUE_54);

const RESIDUE_56: u32 = turned!(RESIDUE_55);

const RESIDUE_57: u32 = turned!(ROW_7);

const RESIDUE_58: u32 = turned!(RESIDUE_57);

const RESIDUE_59: u32 = turned!(RESIDUE_58);

const RESIDUE_60: u32 = turned!(RESIDUE_59);

const RESIDUE_61: u32 = turned!(RESIDUE_60);

const RESIDUE_62: u32 = turned!(RESIDUE_61);

const RESIDUE_63: u32 = turned!(RESIDUE_62);

const RESIDUE_64: u32 = turned!(RESIDUE_63);

const RESIDUE_65: u32 = turned!(ROW_8);

const RESIDUE_66: u32 = turned!(RESIDUE_65);

const RESIDUE_67: u32 = turned!(RESIDUE_66);

const RESIDUE_68: u32 = turned!(RESIDUE_67);

const RESIDUE_69: u32 = turned!(RESIDUE_68);

const RESIDUE_70: u32 = turned!(RESIDUE_69);

const RESIDUE_71: u32 = turned!(RESIDUE_70);

const RESIDUE_72: u32 = turned!(RESIDUE_71);

const RESIDUE_73: u32 = turned!(ROW_9);

const RESIDUE_74: u32 = turned!(RESIDUE_73);

const RESIDUE_75: u32 = turned!(RESIDUE_74);

const RESIDUE_76: u32 = turned!(RESIDUE_75);

const RESIDUE_77: u32 = turned!(RESIDUE_76);

const RESIDUE_78: u32 = turned!(RESIDUE_77);

const RESIDUE_79: u32 = turned!(RESIDUE_78);

const RESIDUE_80: u32 = turned!(RESIDUE_79);

const RESIDUE_81: u32 = turned!(ROW_10);

const RESIDUE_82: u32 = turned!(RESIDUE_81);

const RESIDUE_83: u32 = turned!(RESIDUE_82);

const RESIDUE_84: u32 = turned!(RESIDUE_83);

const RESIDUE_85: u32 = turned!(RESIDUE_84);

const RESIDUE_86: u32 = turned!(RESIDUE_85);

const RESIDUE_87: u32 = turned!(RESIDUE_86);

const RESIDUE_88: u32 = turned!(RESIDUE_87);

const RESIDUE_89: u32 = turned!(ROW_11);

const RESIDUE_90: u32 = turned!(RESIDUE_89);

const RESIDUE_91: u32 = turned!(RESIDUE_90);

const RESIDUE_92: u32 = turned!(RESIDUE_91);

const RESIDUE_93: u32 = turned!(RESIDUE_92);

const RESIDUE_94: u32 = turned!(RESIDUE_93);

const RESIDUE_95: u32 = turned!(RESIDUE_94);

const RESIDUE_96: u32 = turned!(RESIDUE_95);

const RESIDUE_97: u32 = turned!(ROW_12);

const RESIDUE_98: u32 = turned!(RESIDUE_97);

const RESIDUE_99: u32 = turned!(RESIDUE_98);

const RESIDUE_100: u32 = turned!(RESIDUE_99);

const RESIDUE_101: u32 = turned!(RESIDUE_100);

const RESIDUE_102: u32 = turned!(RESIDUE_101);

const RESIDUE_103: u32 = turned!(RESIDUE_102);

const RESIDUE_104: u32 = turned!(RESIDUE_103);

const RESIDUE_105: u32 = turned!(ROW_13);

const RESIDUE_106: u32 = turned!(RESIDUE_105);

const RESIDUE_107: u32 = turned!(RESIDUE_106);

const RESIDUE_108: u32 = turned!(RESIDUE_107);

const RESIDUE_109: u32 = turned!(RESIDUE_108);

const RESIDUE_110: u32 = turned!(RESIDUE_109);

const RESIDUE_111: u32 = turned!(RESIDUE_110);

const RESIDUE_112: u32 = turned!(RESIDUE_111);

const RESIDUE_113: u32 = turned!(ROW_14);

const RESIDUE_114: u32 = turned!(RESIDUE_113);

const RESIDUE_115: u32 = turned!(RESIDUE_114);

const RESIDUE_116: u32 = turned!(RESIDUE_115);

const RESIDUE_117: u32 = turned!(RESIDUE_116);

const RESIDUE_118: u32 = turned!(RESIDUE_117);

const RESIDUE_119: u32 = turned!(RESIDUE_118);

const RESIDUE_120: u32 = turned!(RESIDUE_119);

const RESIDUE_121: u32 = turned!(ROW_15);

const RESIDUE_122: u32 = turned!(RESIDUE_121);

const RESIDUE_123: u32 = turned!(RESIDUE_122);

const RESIDUE_124: u32 = turned!(RESIDUE_123);

const RESIDUE_125: u32 = turned!(RESIDUE_124);

const RESIDUE_126: u32 = turned!(RESIDUE_125);

const RESIDUE_127: u32 = turned!(RESIDUE_126);

const RESIDUE_128: u32 = turned!(RESIDUE_127);

pub static TABLE_0: [u32; 256] = sums!(
    [0],
    RESIDUE_8,
    RESIDUE_7,
    RESIDUE_6,
    RESIDUE_5,
    RESIDUE_4,
    RESIDUE_3,
    RESIDUE_2,
    RESIDUE_1
);

pub static TABLE_1: [u32; 256] = sums!(
    [0],
    RESIDUE_16,
    RESIDUE_15,
    RESIDUE_14,
    RESIDUE_13,
    RESIDUE_12,
    RESIDUE_11,
    RESIDUE_10,
    RESIDUE_9
);

pub static TABLE_2: [u32; 256] = sums!(
    [0],
    RESIDUE_24,
    RESIDUE_23,
    RESIDUE_22,
    RESIDUE_21,
    RESIDUE_20,
    RESIDUE_19,
    RESIDUE_18,
    RESIDUE_17
);

pub static TABLE_3: [u32; 256] = sums!(
    [0],
    RESIDUE_32,
    RESIDUE_31,
    RESIDUE_30,
    RESIDUE_29,
    RESIDUE_28,
    RESIDUE_27,
    RESIDUE_26,
    RESIDUE_25
);

pub static TABLE_4: [u32; 256] = sums!(
    [0],
    RESIDUE_40,
    RESIDUE_39,
    RESIDUE_38,
    RESIDUE_37,
    RESIDUE_36,
    RESIDUE_35,
    RESIDUE_34,
    RESIDUE_33
);

pub static TABLE_5: [u32; 256] = sums!(
    [0],
    RESIDUE_48,
    RESIDUE_47,
    RESIDUE_46,
    RESIDUE_45,
    RESIDUE_44,
    RESIDUE_43,
    RESIDUE_42,
    RESIDUE_41
);

pub static TABLE_6: [u32; 256] = sums!(
    [0],
    RESIDUE_56,
    RESIDUE_55,
    RESIDUE_54,
    RESIDUE_53,
    RESIDUE_52,
    RESIDUE_51,
    RESIDUE_50,
    RESIDUE_49
);

pub static TABLE_7: [u32; 256] = sums!(
    [0],
    RESIDUE_64,
    RESIDUE_63,
    RESIDUE_62,
    RESIDUE_61,
    RESIDUE_60,
    RESIDUE_59,
    RESIDUE_58,
    RESIDUE_57
);

pub static TABLE_8: [u32; 256] = sums!(
    [0],
    RESIDUE_72,
    RESIDUE_71,
    RESIDUE_70,
    RESIDUE_69,
    RESIDUE_68,
    RESIDUE_67,
    RESIDUE_66,
    RESIDUE_65
);

pub static TABLE_9: [u32; 256] = sums!(
    [0],
    RESIDUE_80,
    RESIDUE_79,
    RESIDUE_78,
    RESIDUE_77,
    RESIDUE_76,
    RESIDUE_75,
    RESIDUE_74,
    RESIDUE_73
);

pub static TABLE_10: [u32; 256] = sums!(
    [0],
    RESIDUE_88,
    RESIDUE_87,
    RESIDUE_86,
    RESIDUE_85,
    RESIDUE_84,
    RESIDUE_83,
    RESIDUE_82,
    RESIDUE_81
);

pub static TABLE_11: [u32; 256] = sums!(
    [0],
    RESIDUE_96,
    RESIDUE_95,
    RESIDUE_94,
    RESIDUE_93,
    RESIDUE_92,
    RESIDUE_91,
    RESIDUE_90,
    RESIDUE_89
);

pub static TABLE_12: [u32; 256] = sums!(
    [0],
    RESIDUE_104,
    RESIDUE_103,
    RESIDUE_102,
    RESIDUE_101,
    RESIDUE_100,
    RESIDUE_99,
    RESIDUE_98,
    RESIDUE_97
);

pub static TABLE_13: [u32; 256] = sums!(
    [0],
    RESIDUE_112,
    RESIDUE_111,
    RESIDUE_110,
    RESIDUE_109,
    RESIDUE_108,
    RESIDUE_107,
    RESIDUE_106,
    RESIDUE_105
);

pub static TABLE_14: [u32; 256] = sums!(
    [0],
    RESIDUE_120,
    RESIDUE_119,
    RESIDUE_118,
    RESIDUE_117,
    RESIDUE_116,
    RESIDUE_115,
    RESIDUE_114,
    RESIDUE_113
);

pub static TABLE_15: [u32; 256] = sums!(
    [0],
    RESIDUE_128,
    RESIDUE_127,
    RESIDUE_126,
    RESIDUE_125,
    RESIDUE_124,
    RESIDUE_123,
    RESIDUE_122,
    RESIDUE_121
);
