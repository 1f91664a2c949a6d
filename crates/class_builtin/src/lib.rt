// The built-in table: what each of the 592 code points U+0000 to U+024F is (document 01, "Tables"). The words stand in words.rt, which
// the oracle writes.
#![tactic(auto)]

ghost use Rattle.std.specs.Prelude.{◌≡◌, ◌<◌};
ghost use Rattle.base.specs.Limits.{BUILTIN_END};
ghost use Rattle.class_builtin.specs.Inner.Packed.{unpack};
ghost use Rattle.class_builtin.specs.Table.{entry_at};
ghost use Rattle.class_builtin.specs.Inner.Words.{packed_words};

use crate::words::WORDS;
use base::flags::FLAGS_END;
use base::limits::BUILTIN_END;

pub mod words;

// What the table says of a code point, as a lent class record says it: a base or lower of 0 means the character itself.
#[derive(Clone, Copy)]
pub struct Entry {
    pub flags: u32,
    pub range: u32,
    pub base: u32,
    pub lower: u32,
}

// Where a word's fields begin, each a power of two: the flags lowest, then the range, the base and the lower-case letter.
const RANGE_AT: u64 = FLAGS_END as u64;

const BASE_AT: u64 = 0x1_0000_0000;

const LOWER_AT: u64 = 0x1_0000_0000_0000;

// One word for each code point below BUILTIN_END.
pub type Table = [u64; BUILTIN_END as usize];

// The table. Rattle makes it anew, word by word, wherever it is named: a caller with a loop makes it once and lends it to `entry_in`.
pub fn table() -> Table
    ensures { result ≡ packed_words }
{
    WORDS
}

fn unpacked(word: u64) -> Entry
    ensures { result ≡ unpack word }
{
    Entry {
        flags: (word % RANGE_AT) as u32,
        range: (word / RANGE_AT % (BASE_AT / RANGE_AT)) as u32,
        base: (word / BASE_AT % (LOWER_AT / BASE_AT)) as u32,
        lower: (word / LOWER_AT) as u32,
    }
}

// The entry of a code point, of the table that a caller has made.
pub fn entry_in(table: &Table, point: u32) -> Entry
    requires { (point < BUILTIN_END) × (table.now ≡ packed_words) }
    ensures { result ≡ entry_at point }
{
    unpacked(table[point as usize])
}
