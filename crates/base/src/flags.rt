// The 25 flag bits of a class word. Bits 0 to 23 are the crate's MessDetectorCharFlags (md/structs.rs), under its names; bit 24 is
// document 01's own: `char::is_alphabetic`. Bits 25 to 31 are clear in every good table.
pub const WHITESPACE: u32 = 0x1;

pub const UNPRINTABLE: u32 = 0x2;

pub const SYMBOL: u32 = 0x4;

pub const EMOTICON: u32 = 0x8;

pub const COMMON_SAFE: u32 = 0x10;

pub const WEIRD_SAFE: u32 = 0x20;

pub const PUNCTUATION: u32 = 0x40;

pub const SEPARATOR: u32 = 0x80;

pub const ASCII: u32 = 0x100;

pub const ASCII_ALPHABETIC: u32 = 0x200;

pub const ASCII_GRAPHIC: u32 = 0x400;

pub const ASCII_DIGIT: u32 = 0x800;

pub const LATIN: u32 = 0x1000;

pub const ALPHABETIC: u32 = 0x2000;

pub const ACCENTUATED: u32 = 0x4000;

pub const CJK: u32 = 0x8000;

pub const HANGUL: u32 = 0x10000;

pub const KATAKANA: u32 = 0x20000;

pub const HIRAGANA: u32 = 0x40000;

pub const THAI: u32 = 0x80000;

pub const CASE_VARIABLE: u32 = 0x100000;

pub const LOWERCASE: u32 = 0x200000;

pub const UPPERCASE: u32 = 0x400000;

pub const NUMERIC: u32 = 0x800000;
// Added by 01: whether `char::is_alphabetic` holds. The layers take by it; ALPHABETIC above is what the detectors read.
pub const CHAR_ALPHABETIC: u32 = 0x1000000;

// The first number that has a bit past the 25: a flag word is below it.
pub const FLAGS_END: u32 = 0x2000000;
