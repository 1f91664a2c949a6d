// What the characters of a text are: each is looked up, and its code point, flags, range and base are laid into a list each.
ghost use Rattle.std.specs.Prelude.{◌≡◌, true, ℕ, ◌≤◌, ◌<◌, length, get_or};
ghost use Rattle.class_builtin.specs.Inner.Words.{packed_words};
ghost use Rattle.class_records.specs.Records.{good_table};
ghost use Rattle.md_meaning.specs.Text.{char_at, total};
ghost use Rattle.md_meaning.specs.Scan.{first_unclassed};
ghost use Rattle.md_second.specs.Second.{SECOND_LONGEST};
ghost use Rattle.md_second.specs.Inner.Lists.{class_here, point_at, flags_at, range_at, base_at, Laid};

use crate::ROOM;
use base::limits::NEWLINE;
use class_builtin::Table;
use classes::{Class, look_up_in};

// The character at i; behind the text stands the newline.
fn point_here(text: &[u32], i: usize) -> u32
    ensures { result ≡ char_at text.now i }
{
    if i < text.len() { text[i] } else { NEWLINE }
}

// The class of the character at i; one that has none is nothing but itself.
fn class_here(text: &[u32], i: usize, table: &Table, classes: &[u8]) -> Class
    requires { (good_table classes.now ≡ true) × (table.now ≡ packed_words) }
    ensures { result ≡ class_here classes.now text.now i }
{
    let point = point_here(text, i);
    look_up_in(point, table, classes).unwrap_or(Class {
        point,
        flags: 0,
        range: 0,
        base: point,
        lower: point,
    })
}

// The first character that has no class, or the number of characters, the newline counted.
pub fn first_classless(text: &[u32], table: &Table, classes: &[u8]) -> usize
    requires { (good_table classes.now ≡ true) × (table.now ≡ packed_words) × (length text.now ≤ SECOND_LONGEST) }
    ensures { result ≡ first_unclassed classes.now text.now }
{
    let n = text.len() + 1;
    for i in 0..n {
        let Some(_) = look_up_in(point_here(text, i), table, classes) else {
            return i;
        };
    }
    n
}

// One number of each character's class, in a list.
fn list_of<F: Fn(Class) -> u32>(part: F, text: &[u32], table: &Table, classes: &[u8]) -> [u32; ROOM]
    requires part { F.IsAlwaysCallable part }
    requires lent { (good_table classes.now ≡ true) × (table.now ≡ packed_words) × (length text.now ≤ SECOND_LONGEST) }
    ensures { (length result ≡ ROOM) × ((j : ℕ) → j < total text.now → F.post part (class_here classes.now text.now j) (get_or result j 0)) }
{
    let mut list = [0; ROOM];
    let n = text.len() + 1;
    for i in 0..n {
        list[i] = part(class_here(text, i, table, classes));
    }
    list
}

pub fn points_of(text: &[u32], table: &Table, classes: &[u8]) -> [u32; ROOM]
    requires { (good_table classes.now ≡ true) × (table.now ≡ packed_words) × (length text.now ≤ SECOND_LONGEST) }
    ensures { Laid (point_at classes.now text.now) (total text.now) result }
{
    list_of(|c| c.point, text, table, classes)
}

pub fn flags_of(text: &[u32], table: &Table, classes: &[u8]) -> [u32; ROOM]
    requires { (good_table classes.now ≡ true) × (table.now ≡ packed_words) × (length text.now ≤ SECOND_LONGEST) }
    ensures { Laid (flags_at classes.now text.now) (total text.now) result }
{
    list_of(|c| c.flags, text, table, classes)
}

pub fn ranges_of(text: &[u32], table: &Table, classes: &[u8]) -> [u32; ROOM]
    requires { (good_table classes.now ≡ true) × (table.now ≡ packed_words) × (length text.now ≤ SECOND_LONGEST) }
    ensures { Laid (range_at classes.now text.now) (total text.now) result }
{
    list_of(|c| c.range, text, table, classes)
}

pub fn bases_of(text: &[u32], table: &Table, classes: &[u8]) -> [u32; ROOM]
    requires { (good_table classes.now ≡ true) × (table.now ≡ packed_words) × (length text.now ≤ SECOND_LONGEST) }
    ensures { Laid (base_at classes.now text.now) (total text.now) result }
{
    list_of(|c| c.base, text, table, classes)
}
