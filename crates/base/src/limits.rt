// The limits and sizes of document 01, by name. The same names stand in specs/Limits.antt.

// bytes that the reader takes (01, refusal 1)
pub const LONGEST_BYTES: usize = 262144;

// code points of a text that is read or scored (01, refusal 1)
pub const LONGEST_TEXT: usize = 65536;

// code points of a text that is ranked (01, refusal 1 in coherence)
pub const LONGEST_RANKED: usize = 8192;

// letters of a layer: one for each code point, and two for U+0130 (02 [4])
pub const LONGEST_LAYER: usize = 16384;

// distinct letters of a layer: one for each code point, and U+0307
pub const MOST_LETTERS: usize = 8193;

// the built-in table classes the code points below this; a lent record starts at it or past it
pub const BUILTIN_END: u32 = 0x250;

// the last code point
pub const LAST_POINT: u32 = 0x10FFFF;

// the first surrogate code point
pub const SURROGATE_FIRST: u32 = 0xD800;

// the last surrogate code point
pub const SURROGATE_LAST: u32 = 0xDFFF;

// bytes of a class record
pub const CLASS_RECORD: usize = 24;

// class records in a table
pub const MOST_CLASSES: usize = 8192;

// the largest number of a range
pub const LAST_RANGE: u32 = 511;

// range numbers, 0 (none) among them: the pair table has RANGES rows of RANGES bits
pub const RANGES: u32 = 512;

// bytes of a pair table
pub const PAIR_BYTES: usize = 32768;

// bytes of a language record
pub const LANGUAGE_RECORD: usize = 1032;

// letters that a language record has room for
pub const LANGUAGE_LETTERS: usize = 256;

// language records in a table
pub const MOST_LANGUAGES: usize = 63;

// above every record's place, whether counted from 0 or from 1: a key that ranks records keeps the record below this
pub const RECORDS: u64 = 64;

// the largest marks of a language record: 1 accents, 2 pure Latin, or both
pub const MOST_MARKS: u32 = 3;

// included language numbers
pub const MOST_INCLUDED: usize = 64;

// u32 of the work area for each code point that is ranked (02 [4])
pub const WORK_PER_POINT: usize = 8;

// U+000A, which is fed after every text
pub const NEWLINE: u32 = 10;
