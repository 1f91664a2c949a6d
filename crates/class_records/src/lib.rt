// The lent class table: its records, and whether they are good.
#![tactic(auto)]

ghost use Rattle.std.specs.Prelude.{◌≡◌, ◌+◌, ◌≤◌, ◌<◌, eqb, length};
ghost use Rattle.class_records.specs.Records.{records, record_at, none_or_scalar, good_fields, first_bad};
ghost use Rattle.class_records.specs.Inner.InOrder.{span_after};

use crate::flag_rule::flags_good;
use base::limits::{
    BUILTIN_END, CLASS_RECORD, LAST_POINT, LAST_RANGE, SURROGATE_FIRST, SURROGATE_LAST,
};
use base::u32_at;

pub mod flag_rule;
pub mod search;

// Where the fields of a record stand in it; the first is at 0. Range and zero are the halves of one word.
pub const LAST_AT: usize = 4;

const FLAGS_AT: usize = 8;

const RANGE_AT: usize = 12;

const BASE_AT: usize = 16;

const LOWER_AT: usize = 20;

// what the high half of a word is counted in
const HALF: u32 = 65536;

// A record as 01 lays it out: the code points first to last, and what holds of each of them.
#[derive(Clone, Copy)]
pub struct Record {
    pub first: u32,
    pub last: u32,
    pub flags: u32,
    pub range: u16,
    pub zero: u16,
    pub base: u32,
    pub lower: u32,
}

pub fn record_at(t: &[u8], i: usize) -> Record
    requires { i < records t.now }
    ensures { result ≡ record_at t.now i }
{
    let at = i * CLASS_RECORD;
    let word = u32_at(t, at + RANGE_AT);
    Record {
        first: u32_at(t, at),
        last: u32_at(t, at + LAST_AT),
        flags: u32_at(t, at + FLAGS_AT),
        range: (word % HALF) as u16,
        zero: (word / HALF) as u16,
        base: u32_at(t, at + BASE_AT),
        lower: u32_at(t, at + LOWER_AT),
    }
}

// 0 is a scalar value itself.
fn none_or_scalar(p: u32) -> bool
    ensures { result ≡ none_or_scalar p }
{
    (p <= LAST_POINT) & !((SURROGATE_FIRST <= p) & (p <= SURROGATE_LAST))
}

// Range and zero are tested as the word that they make, which is one load and one test.
fn fields_good(r: Record) -> bool
    ensures { result ≡ good_fields r }
{
    ((r.range as u32) + HALF * (r.zero as u32) <= LAST_RANGE)
        & none_or_scalar(r.base)
        & none_or_scalar(r.lower)
        & flags_good(r.flags)
}

// Whether a record starts past `end`, ends where it starts or later, and has no surrogate inside.
fn span_after(end: u32, r: Record) -> bool
    ensures { result ≡ span_after end r }
{
    (end < r.first)
        & (r.first <= r.last)
        & ((r.last < SURROGATE_FIRST) | (SURROGATE_LAST < r.first))
}

// Whether no record is bad. With no early exit, so that the compiler takes several records at a time; and since the records of a good table
// ascend, only the last of them is held to the last code point.
pub fn none_bad(t: &[u8]) -> bool
    ensures { result ≡ eqb (first_bad t.now) (records t.now) }
{
    let mut end = BUILTIN_END - 1;
    let mut good = true;
    for i in 0..t.len() / CLASS_RECORD {
        let r = record_at(t, i);
        good = good & (span_after(end, r) & fields_good(r));
        end = r.last;
    }
    good & (end <= LAST_POINT)
}

// The first bad record, or the number of records.
pub fn first_bad(t: &[u8]) -> usize
    ensures { result ≡ first_bad t.now }
{
    let n = t.len() / CLASS_RECORD;
    let mut end = BUILTIN_END - 1;
    for i in 0..n {
        let r = record_at(t, i);
        if !(span_after(end, r) & (r.last <= LAST_POINT) & fields_good(r)) {
            return i;
        }
        end = r.last;
    }
    n
}
