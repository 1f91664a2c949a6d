// The compact form: a record's place, the letters, and bytes laid where they belong.
ghost use Rattle.std.specs.Prelude.{◌≡◌, ◌+◌, ◌≤◌, ◌<◌, length};
ghost use Rattle.base.specs.First.{first};
ghost use Rattle.base.specs.Put.{put};
ghost use Rattle.class_compact_meaning.specs.Form as form;
ghost use Rattle.class_compact_meaning.specs.Check.{letters_are};
ghost use Rattle.class_compact_meaning.specs.Inner.Form.{Place};

use crate::{COMPACT_RECORD, LETTERS_RECORD};
use base::u32_at;

// Where range and place stand in a compact record, the halves of one word.
const RANGE_AT: usize = 12;

// What the upper half of a word is counted in.
pub const HALF: u32 = 65536;

// Where the lower-case letter stands in a record of letters, the base at its front.
const LOWER_AT: usize = 4;

// The place of the letters that the record i uses, or 0.
pub fn place_of(records: &[u8], i: usize) -> u32
    requires { i < form.compact_records records.now }
    ensures { Place records.now i result }
{
    u32_at(records, i * COMPACT_RECORD + RANGE_AT) / HALF
}

pub fn base_at(letters: &[u8], k: usize) -> u32
    requires { k < form.letters_in letters.now }
    ensures { result ≡ form.base_at letters.now k }
{
    u32_at(letters, k * LETTERS_RECORD)
}

pub fn lower_at(letters: &[u8], k: usize) -> u32
    requires { k < form.letters_in letters.now }
    ensures { result ≡ form.lower_at letters.now k }
{
    u32_at(letters, k * LETTERS_RECORD + LOWER_AT)
}

// The first of the letters before `end` that are these, or `end`.
pub fn find_letters(letters: &[u8], end: usize, base: u32, lower: u32) -> usize
    requires { end ≤ form.letters_in letters.now }
    ensures { result ≡ first (letters_are letters.now base lower) end }
{
    for k in 0..end {
        if (base_at(letters, k) == base) & (lower_at(letters, k) == lower) {
            return k;
        }
    }
    end
}

// Lays bytes into out from a place on.
pub fn lay(bytes: &[u8], out: &mut [u8], at: usize)
    requires { at + length bytes.now ≤ length out.old }
    ensures { out.new ≡ put out.old at bytes.now }
{
    out[at..at + bytes.len()].copy_from_slice(bytes);
}
