// The words of the lines for people, run together, and where each begins (specs/Words.antt has them one by one). A name
// that stands for several (as SPACE) is the number of the first; the others follow it.

pub const COUNT: usize = 163;

pub const STARTS: [u16; 164] = [
    0, 0, 4, 6, 7, 15, 17, 22, 35, 37, 38, 39, 40, 43, 46, 49, 53, 66, 81, 84, 87, 90, 93, 96, 99,
    104, 109, 115, 120, 134, 150, 157, 160, 163, 170, 178, 181, 184, 187, 191, 201, 209, 216, 225,
    232, 239, 245, 254, 266, 277, 297, 306, 310, 315, 325, 336, 347, 359, 365, 371, 385, 396, 402,
    410, 426, 439, 445, 464, 472, 474, 476, 478, 482, 488, 495, 502, 508, 514, 521, 528, 536, 544,
    552, 559, 566, 573, 580, 588, 596, 604, 613, 623, 633, 642, 651, 661, 672, 684, 697, 704, 712,
    720, 729, 739, 749, 760, 770, 780, 791, 799, 807, 816, 825, 836, 847, 854, 872, 894, 931, 940,
    964, 972, 992, 1013, 1030, 1051, 1072, 1094, 1114, 1147, 1186, 1203, 1240, 1287, 1295, 1316,
    1337, 1366, 1375, 1381, 1401, 1428, 1459, 1476, 1493, 1517, 1525, 1530, 1532, 1539, 1552, 1589,
    1624, 1656, 1693, 1741, 1750, 1756, 1763, 1781, 1798, 1810, 1814, 1831,
];

pub const NONE: u64 = 0;

pub const ROW: u64 = 1;

pub const GAP: u64 = 2;

pub const FEED: u64 = 3;

pub const NUMBERED: u64 = 4;

pub const ENDS: u64 = 5;

pub const TYPE: u64 = 6;

pub const UNKNOWN: u64 = 7;

pub const COMMA: u64 = 8;

pub const LESS: u64 = 9;

pub const MORE: u64 = 10;

pub const X: u64 = 11;

pub const SAMPLED: u32 = 12;

pub const I32: u64 = 12;

pub const U32: u64 = 13;

pub const F32: u64 = 14;

pub const BOOL: u64 = 15;

pub const ABSTRACT_INT: u64 = 16;

pub const ABSTRACT_FLOAT: u64 = 17;

pub const I16: u64 = 18;

pub const I64: u64 = 19;

pub const U16: u64 = 20;

pub const U64: u64 = 21;

pub const F16: u64 = 22;

pub const F64: u64 = 23;

pub const PLAIN: u32 = 24;

pub const BYTES: u64 = 30;

pub const VEC: u64 = 31;

pub const MAT: u64 = 32;

pub const ATOMIC: u64 = 33;

pub const COOPERATIVE: u64 = 34;

pub const ROLE: u32 = 35;

pub const POINTER: u64 = 38;

pub const VALUE: u64 = 39;

pub const SPACE: u32 = 40;

pub const ACCESS: u32 = 50;

pub const ARRAY: u64 = 58;

pub const BINDINGS: u64 = 59;

pub const OVERRIDE: u64 = 60;

pub const STRUCT: u64 = 61;

pub const TEXTURE: u64 = 62;

pub const EXTERNAL: u64 = 63;

pub const MULTISAMPLED: u64 = 64;

pub const DEPTH: u64 = 65;

pub const DEEP_MULTI: u64 = 66;

pub const STORAGE: u64 = 67;

pub const DIMENSION: u32 = 68;

pub const ARRAYED: u64 = 72;

pub const FORMAT: u32 = 73;

pub const SAMPLER: u32 = 114;

pub const STRUCTURE: u32 = 116;

pub const QUERY: u32 = 118;

pub const REFUSED: u64 = 120;

pub const REASON: u32 = 121;

pub const MISMATCH: u64 = 132;

pub const INDEX: u64 = 133;

pub const COMPUTED: u64 = 134;

pub const CONSTANT: u64 = 135;

pub const NEWER: u64 = 136;

pub const VERDICT: u64 = 137;

pub const PASSES: u64 = 138;

pub const NEWER_PART: u64 = 139;

pub const NEWER_WHOLE: u64 = 140;

pub const JUDGED: u32 = 141;

pub const GIVEN: u64 = 145;

pub const LINE: u64 = 146;

pub const COLON: u64 = 147;

pub const NUMBER: u64 = 148;

pub const FAULT: u32 = 149;

pub const FRAMES_OF: u64 = 155;

pub const ALIGN: u64 = 156;

pub const SIZE: u64 = 157;

pub const UNMEASURED: u32 = 158;

pub const TO: u64 = 161;

pub const SPAN: u64 = 162;
