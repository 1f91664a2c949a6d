// What a code point is: its class, found in the built-in table or in a lent one; the check of a lent class table; and the pair table.
#![tactic(auto)]

ghost use Rattle.std.specs.Prelude.{◌≡◌, true, ◌≤◌, ◌<◌, length};
ghost use Rattle.base.specs.Limits.{BUILTIN_END, LAST_RANGE, PAIR_BYTES};
ghost use Rattle.class_builtin.specs.Inner.Words.{packed_words};
ghost use Rattle.class_records.specs.Records.{good_table, holder};
ghost use Rattle.classes.specs.Lookup.{or_self, builtin_class, lent_class, class_of};
ghost use Rattle.classes.specs.Check.{bad_classes, checked};
ghost use Rattle.classes.specs.Pairs.{bad_pairs, suspicious};

use base::limits::{BUILTIN_END, CLASS_RECORD, MOST_CLASSES, PAIR_BYTES, RANGES};
use base::{Cause, Refusal, refuse};
use class_builtin::Table;

// A code point and what the tables say of it. `base` is the letter without accent and `lower` the lower-case letter, the character itself
// where a table has 0. (md/structs.rs: MessDetectorChar, its character, flags and unicode_range.)
#[derive(Clone, Copy)]
pub struct Class {
    pub point: u32,
    pub flags: u32,
    pub range: u32,
    pub base: u32,
    pub lower: u32,
}

// How many hints a lookup is lent: the letters of an alphabet have a place each, and kana one beside the kanji between them.
pub const HINTS: usize = 1024;

// 0 in a table means the character itself.
fn or_self(n: u32, point: u32) -> u32
    ensures { result ≡ or_self n point }
{
    if n == 0 { point } else { n }
}

pub fn builtin_class(point: u32, table: &Table) -> Class
    requires { (point < BUILTIN_END) × (table.now ≡ packed_words) }
    ensures { result ≡ builtin_class point }
{
    let e = class_builtin::entry_in(table, point);
    Class {
        point,
        flags: e.flags,
        range: e.range,
        base: or_self(e.base, point),
        lower: or_self(e.lower, point),
    }
}

// The class that the lent record `at` gives a code point that it holds; nothing where `at` is the number of records, since none does.
pub fn class_in(point: u32, at: usize, classes: &[u8]) -> Option<Class>
    requires { at ≡ holder classes.now point }
    ensures { result ≡ lent_class classes.now point }
{
    if at < classes.len() / CLASS_RECORD {
        let r = class_records::record_at(classes, at);
        return Some(Class {
            point,
            flags: r.flags,
            range: r.range as u32,
            base: or_self(r.base, point),
            lower: or_self(r.lower, point),
        });
    }
    None
}

// The class that the lent records give a code point.
fn lent_class(point: u32, classes: &[u8]) -> Option<Class>
    requires { good_table classes.now ≡ true }
    ensures { result ≡ lent_class classes.now point }
{
    class_in(point, class_records::search::find(classes, point), classes)
}

// The class of a code point: below BUILTIN_END the built-in table's, past it that of the lent record that holds it. The built-in table is lent
// too, so that a caller's loop makes it once (`class_builtin::table`); and the test of the code point stands here, apart from the search, so that such a
// loop has it in line.
pub fn look_up_in(point: u32, table: &Table, classes: &[u8]) -> Option<Class>
    requires { (good_table classes.now ≡ true) × (table.now ≡ packed_words) }
    ensures { result ≡ class_of classes.now point }
{
    if point < BUILTIN_END {
        return Some(builtin_class(point, table));
    }
    lent_class(point, classes)
}

// The record that holds a code point, or the number of records, for the code points of a text, one after the other. `hints` are the records found
// last, a place for each remainder of a code point, so that most are found without a search; whatever stands there, the answer is the same.
pub fn held_near(point: u32, hints: &mut [usize; HINTS], classes: &[u8]) -> usize
    requires { good_table classes.now ≡ true }
    ensures { result ≡ holder classes.now point }
{
    let k = point as usize % HINTS;
    let at = class_records::search::find_near(classes, point, hints[k]);
    hints[k] = at;
    at
}

// The class of a code point, found by hints.
pub fn look_up_near(
    point: u32,
    hints: &mut [usize; HINTS],
    table: &Table,
    classes: &[u8],
) -> Option<Class>
    requires { (good_table classes.now ≡ true) × (table.now ≡ packed_words) }
    ensures { result ≡ class_of classes.now point }
{
    if BUILTIN_END <= point {
        return class_in(point, held_near(point, hints, classes), classes);
    }
    Some(builtin_class(point, table))
}

// Why a class table is not good, if it is not: a length or a number of records that is not allowed, at 0, then the first bad record.
pub fn bad_classes(classes: &[u8]) -> Result<(), Refusal>
    ensures { result ≡ bad_classes classes.now }
{
    if classes.len() % CLASS_RECORD != 0 {
        return refuse(Cause::BadClasses, 0);
    }
    if classes.len() / CLASS_RECORD > MOST_CLASSES {
        return refuse(Cause::BadClasses, 0);
    }
    if !class_records::none_bad(classes) {
        return refuse(Cause::BadClasses, class_records::first_bad(classes) as u32);
    }
    Ok(())
}

// The number of records of a class table, or why it is not good.
pub fn check_classes(classes: &[u8]) -> Result<u32, Refusal>
    ensures { result ≡ checked classes.now }
{
    bad_classes(classes)?;
    Ok((classes.len() / CLASS_RECORD) as u32)
}

// Why a pair table is refused, if it is: it has not its size.
pub fn bad_pairs(pairs: &[u8]) -> Result<(), Refusal>
    ensures { result ≡ bad_pairs pairs.now }
{
    if pairs.len() != PAIR_BYTES {
        return refuse(Cause::BadPairs, 0);
    }
    Ok(())
}

// Whether range b after range a is suspicious.
pub fn is_suspicious(pairs: &[u8], a: u32, b: u32) -> bool
    requires { (length pairs.now ≡ PAIR_BYTES) × (a ≤ LAST_RANGE) × (b ≤ LAST_RANGE) }
    ensures { result ≡ suspicious pairs.now a b }
{
    let bit = RANGES * a + b;
    let byte = pairs[(bit / 8) as usize];
    (byte >> (bit % 8)) % 2 == 1
}
