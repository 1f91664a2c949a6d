// Which characters of a text are taken into layers, and what the work area holds of them (cd.rs: alpha_unicode_split's filter and lowering).
#![tactic(auto)]

ghost use Rattle.std.specs.Prelude.{◌≡◌, true, ◌+◌, ◌≤◌, ◌<◌, length, replicate, set};
ghost use Rattle.base.specs.Limits.{LONGEST_RANKED};
ghost use Rattle.base.specs.Put.{put};
ghost use Rattle.class_builtin.specs.Inner.Words.{packed_words};
ghost use Rattle.class_records.specs.Records.{good_table};
ghost use Rattle.classes.specs.Lookup.{class_of, missing};
ghost use Rattle.cd_work.specs.Inner.Layout.{lacks_start};
ghost use Rattle.cd_taken_meaning.specs.Taken.{DOT_ABOVE, is_taken, lowered};
ghost use Rattle.cd_taken_meaning.specs.Unclassed.{some_missing, unclassed, first_unclassed};
ghost use Rattle.cd_taken_meaning.specs.Accents.{is_accentuated, some_accented};
ghost use Rattle.cd_taken_meaning.specs.Inner.Area.{slots_of, letter_of, filled};

use base::flags::{ACCENTUATED, CHAR_ALPHABETIC};
use base::{is_set, pick};
use cd_letters::size;
use cd_taken_meaning::Letter;
use cd_work::letters_start;
use class_builtin::Table;
use classes::{Class, HINTS, look_up_near};

// U+0130, which lowers to two letters: the one that its class has, U+0069, and the dot above behind it.
const CAPITAL_I_WITH_DOT: u32 = 0x130;

const DOT_ABOVE: u32 = 0x307;

// Whether a character of this class is taken.
fn is_taken(c: Class) -> bool
    ensures { result ≡ is_taken c }
{
    is_set(c.flags, CHAR_ALPHABETIC) & (c.range != 0)
}

fn is_missing(point: u32, hints: &mut [usize; HINTS], table: &Table, classes: &[u8]) -> bool
    requires { (good_table classes.now ≡ true) × (table.now ≡ packed_words) }
    ensures { result ≡ missing (class_of classes.now point) }
{
    look_up_near(point, hints, table, classes).is_none()
}

// Whether some letter of those that a character of this class lowers to has no class.
fn some_missing(c: Class, hints: &mut [usize; HINTS], table: &Table, classes: &[u8]) -> bool
    requires { (good_table classes.now ≡ true) × (table.now ≡ packed_words) }
    ensures { result ≡ some_missing classes.now (lowered c) }
{
    if is_missing(c.lower, hints, table, classes) {
        return true;
    }
    if c.point == CAPITAL_I_WITH_DOT {
        return is_missing(DOT_ABOVE, hints, table, classes);
    }
    false
}

// Whether 6 is given for a character. One that is its own lower case is not looked up again.
#[tactic(auto, using(cd_taken_meaning::proofs::Laws::Unclassed::unclassed_taken, cd_taken_meaning::proofs::Laws::Unclassed::unclassed_not_taken))]
fn is_unclassed(point: u32, hints: &mut [usize; HINTS], table: &Table, classes: &[u8]) -> bool
    requires { (good_table classes.now ≡ true) × (table.now ≡ packed_words) }
    ensures { result ≡ unclassed classes.now (class_of classes.now point) }
{
    let Some(c) = look_up_near(point, hints, table, classes) else {
        return true;
    };
    if c.lower == point {
        return false;
    }
    if is_taken(c) {
        return some_missing(c, hints, table, classes);
    }
    false
}

// The first character for which 6 is given, or the number of characters.
pub fn first_unclassed(text: &[u32], classes: &[u8]) -> usize
    requires { good_table classes.now ≡ true }
    ensures { result ≡ first_unclassed classes.now text.now }
{
    let table = class_builtin::table();
    let mut hints = [0; HINTS];
    for (i, point) in text.iter().enumerate() {
        if is_unclassed(*point, &mut hints, &table, classes) {
            return i;
        }
    }
    text.len()
}

fn letter_of(point: u32, hints: &mut [usize; HINTS], table: &Table, classes: &[u8]) -> Letter
    requires { (good_table classes.now ≡ true) × (table.now ≡ packed_words) }
    ensures { result ≡ letter_of (class_of classes.now point) }
{
    let Some(c) = look_up_near(point, hints, table, classes) else {
        return Letter { range: 0, lower: 0 };
    };
    let taken = is_taken(c);
    Letter {
        range: pick(taken, c.range, 0),
        lower: pick(taken, c.lower, 0),
    }
}

// How many slots of the work area a text needs: one for each letter, which is one for each code point and one more for each U+0130.
pub fn slots(text: &[u32]) -> usize
    requires { length text.now ≤ LONGEST_RANKED }
    ensures { result ≡ slots_of text.now }
{
    text.len() + size(text, CAPITAL_I_WITH_DOT)
}

// Puts a range and a letter into the slot k; the letters' part starts at `letters`.
fn put_slot(work: &mut [u32], letters: usize, k: usize, range: u32, letter: u32)
    requires { (k < length work.old) × (letters + k < length work.old) }
    ensures { work.new ≡ set (set work.old k range) (letters + k) letter }
{
    work[k] = range;
    work[letters + k] = letter;
}

// Puts the range and the two letters of U+0130 into the slots k and k + 1.
fn put_two(work: &mut [u32], letters: usize, k: usize, first: Letter)
    requires { letters + (k + 1) < length work.old }
    ensures { work.new ≡ set (set (set (set work.old k first.range) (letters + k) first.lower) (k + 1) first.range) (letters + (k + 1)) DOT_ABOVE }
{
    put_slot(work, letters, k, first.range, first.lower);
    put_slot(work, letters, k + 1, first.range, DOT_ABOVE);
}

// Puts the ranges of a text and its lower-case letters into their parts of the work area.
pub fn fill_area(text: &[u32], slots: usize, classes: &[u8], work: &mut [u32])
    requires { (good_table classes.now ≡ true) × (slots ≡ slots_of text.now) × (lacks_start slots ≤ length work.old) }
    ensures { work.new ≡ filled classes.now text.now work.old }
{
    if slots == text.len() {
        fill_single(text, slots, classes, work)
    } else {
        fill_each(text, slots, classes, work)
    }
}

// The same of a text without U+0130, which most are: the slot of a code point has its place.
fn fill_single(text: &[u32], slots: usize, classes: &[u8], work: &mut [u32])
    requires { (good_table classes.now ≡ true) × (slots ≡ slots_of text.now) × (lacks_start slots ≤ length work.old) × (slots ≡ length text.now) }
    ensures { work.new ≡ filled classes.now text.now work.old }
{
    let letters = letters_start(slots);
    let table = class_builtin::table();
    let mut hints = [0; HINTS];
    for (i, point) in text.iter().enumerate() {
        let letter = letter_of(*point, &mut hints, &table, classes);
        put_slot(work, letters, i, letter.range, letter.lower);
    }
}

// The same of any text.
fn fill_each(text: &[u32], slots: usize, classes: &[u8], work: &mut [u32])
    requires { (good_table classes.now ≡ true) × (slots ≡ slots_of text.now) × (lacks_start slots ≤ length work.old) }
    ensures { work.new ≡ filled classes.now text.now work.old }
{
    let letters = letters_start(slots);
    let table = class_builtin::table();
    let mut hints = [0; HINTS];
    let mut k = 0;
    for point in text {
        let letter = letter_of(*point, &mut hints, &table, classes);
        if *point == CAPITAL_I_WITH_DOT {
            put_two(work, letters, k, letter);
            k += 2;
        } else {
            put_slot(work, letters, k, letter.range, letter.lower);
            k += 1;
        }
    }
}

// Makes the first n words of the work area zero again.
pub fn clear(work: &mut [u32], n: usize)
    requires { n ≤ length work.old }
    ensures { work.new ≡ put work.old 0 (replicate n 0) }
{
    work[..n].fill(0);
}

fn is_accentuated(point: u32, hints: &mut [usize; HINTS], table: &Table, classes: &[u8]) -> bool
    requires { (good_table classes.now ≡ true) × (table.now ≡ packed_words) }
    ensures { result ≡ is_accentuated (class_of classes.now point) }
{
    let Some(c) = look_up_near(point, hints, table, classes) else {
        return false;
    };
    is_set(c.flags, ACCENTUATED)
}

// Whether some of the letters is accentuated.
pub fn some_accented(letters: &[u32], classes: &[u8]) -> bool
    requires { good_table classes.now ≡ true }
    ensures { result ≡ some_accented classes.now letters.now }
{
    let table = class_builtin::table();
    let mut hints = [0; HINTS];
    for letter in letters {
        if is_accentuated(*letter, &mut hints, &table, classes) {
            return true;
        }
    }
    false
}
