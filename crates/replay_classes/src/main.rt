// Replays class tables, code points and pair bits with their answers (oracle/lists/classes.py): what the check says of a table, what the lookup
// finds in it, and what the pair table says of two ranges.
#![tactic(auto)]

ghost use Rattle.std.specs.Prelude.{true, ◌≡◌, length};
ghost use Rattle.base.specs.Limits.{PAIR_BYTES};
ghost use Rattle.class_records.specs.Records.{good_table};
ghost use Rattle.replay_classes.specs.Inner.Sizes.{CASE_BYTES, MADE_BYTES};

use base::limits::{BUILTIN_END, CLASS_RECORD, LAST_RANGE, PAIR_BYTES};
use base::one;
use classes::{Class, check_classes, is_suspicious, look_up_in};
use replay::{WORD, replay_cases, same_counted, same_words, word};
use std::io;

// The first word of a case: a table that stands there, one that is made here, code points and a table, or ranges and a pair table.
const TABLE: u32 = 1;

const MADE: u32 = 2;

const POINTS: u32 = 3;

const PAIRS: u32 = 4;

// The bytes before a table in a case of the first kind, in one of the third, and before the ranges in one of the fourth.
const TABLE_AT: usize = 16;

const POINTS_AT: usize = 8;

const PAIRS_AT: usize = 8;

// The words of a code point with its class, and of two ranges with their bit.
const POINT_WORDS: usize = 6;

const PAIR_WORDS: usize = 3;

// The bytes of the longest case, and of the largest table that is made here: 8,193 records.
const CASE_BYTES: usize = 262144;

const MADE_BYTES: usize = 196632;

// Where the answer of a check stands.
const ANSWER: usize = 1;

fn same_table(buf: &[u8]) -> bool {
    let Some(table) = buf.get(TABLE_AT..) else {
        return false;
    };
    same_counted(check_classes(table), buf, ANSWER)
}

fn low(p: usize) -> u8 {
    (p % 256) as u8
}

// The record of one code point.
fn point_record(p: usize) -> [u8; CLASS_RECORD] {
    let mut record = [0u8; CLASS_RECORD];
    record[0] = low(p);
    record[1] = low(p / 256);
    record[WORD] = low(p);
    record[WORD + 1] = low(p / 256);
    record
}

// Makes records of one code point each, from U+0250 on.
fn make(table: &mut [u8]) {
    let (records, _) = table.as_chunks_mut::<CLASS_RECORD>();
    for (i, record) in records.iter_mut().enumerate() {
        *record = point_record(BUILTIN_END as usize + i);
    }
}

// Checks a table that is made in the room lent, with a byte of it changed.
fn same_made_table(buf: &[u8], table: &mut [u8]) -> bool {
    make(table);
    if let Some(byte) = table.get_mut(word(buf, 5) as usize) {
        *byte = low(word(buf, 6) as usize);
    }
    same_counted(check_classes(&table[..]), buf, ANSWER)
}

fn same_made(buf: &[u8]) -> bool {
    let size = word(buf, 4) as usize * CLASS_RECORD;
    if size > MADE_BYTES {
        return false;
    }
    let mut made = made_room();
    same_made_table(buf, &mut made[..size])
}

// Whether the words of a code point say this of it.
fn same_found(found: Option<Class>, told: &[u8]) -> bool {
    match found {
        Some(c) => same_words(&[c.point, 1, c.flags, c.range, c.base, c.lower], told, 0),
        None => word(told, 1) == 0,
    }
}

// Whether each code point has its class.
fn same_classes(table: &[u8], points: &[u8]) -> bool
    requires { good_table table.now ≡ true }
{
    let builtins = class_builtin::table();
    let whole = points.len() / WORD * WORD;
    points[..whole].chunks(POINT_WORDS * WORD).all(|told| same_found(
        look_up_in(word(told, 0), &builtins, table),
        told,
    ))
}

fn same_points(buf: &[u8]) -> bool {
    let end = POINTS_AT + word(buf, 1) as usize;
    if end > buf.len() {
        return false;
    }
    let table = &buf[POINTS_AT..end];
    let Ok(_) = check_classes(table) else {
        return false;
    };
    same_classes(table, &buf[end..])
}

// Whether two ranges have their bit.
fn same_bit(pairs: &[u8], told: &[u8]) -> bool
    requires { length pairs.now ≡ PAIR_BYTES }
{
    let a = word(told, 0);
    let b = word(told, 1);
    if (a > LAST_RANGE) | (b > LAST_RANGE) {
        return false;
    }
    one(is_suspicious(pairs, a, b)) == word(told, 2)
}

fn same_pairs(buf: &[u8]) -> bool {
    let end = WORD * (2 + word(buf, 1) as usize * PAIR_WORDS);
    if end > buf.len() {
        return false;
    }
    let pairs = &buf[end..];
    if pairs.len() != PAIR_BYTES {
        return false;
    }
    buf[PAIRS_AT..end]
        .chunks(PAIR_WORDS * WORD)
        .all(|told| same_bit(pairs, told))
}

fn same_case(buf: &[u8]) -> bool {
    match word(buf, 0) {
        TABLE => same_table(buf),
        MADE => same_made(buf),
        POINTS => same_points(buf),
        PAIRS => same_pairs(buf),
        _ => false,
    }
}

// Room for a case, and for a table that is made. The contracts give only the lengths: the prover need not look at the zeros.
fn case_room() -> [u8; CASE_BYTES]
    ensures { CASE_BYTES ≡ length result }
{
    [0; CASE_BYTES]
}

fn made_room() -> [u8; MADE_BYTES]
    ensures { MADE_BYTES ≡ length result }
{
    [0; MADE_BYTES]
}

fn main(rt: HostRuntime) -> io::Result<()> {
    let mut buf = case_room();
    replay_cases(&rt, &mut buf, same_case)
}
