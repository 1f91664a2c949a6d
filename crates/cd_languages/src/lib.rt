// The lent language table: its records, whether they are good, and the first record with a number.
#![tactic(auto)]

ghost use Rattle.std.specs.Prelude.{true, ◌≡◌, ◌<◌, ◌≤◌, get_or};
ghost use Rattle.base.specs.First.{each};
ghost use Rattle.base.specs.Limits.{LANGUAGE_LETTERS};
ghost use Rattle.base.specs.Tests.{scalar};
ghost use Rattle.cd_languages.specs.Languages.{languages, number_of, letter_count, marks_of, slot_at, has_accents, pure_latin, slot_good, good_slots, good_record, first_bad, first_record};
ghost use Rattle.cd_languages.specs.Inner.Languages.{good_languages};
ghost use Rattle.cd_languages.specs.Letters.{letters_of};
ghost use Rattle.cd_languages.specs.Check.{bad_languages, checked};

use base::limits::{
    LANGUAGE_LETTERS, LANGUAGE_RECORD, LAST_POINT, MOST_LANGUAGES, MOST_MARKS, SURROGATE_FIRST,
    SURROGATE_LAST,
};
use base::{Cause, Refusal, is_set, refuse, u32_at};

pub mod included;
pub mod slots;

// the mark of a language with accents
const ACCENTS: u32 = 1;

// the mark of a pure Latin language
const PURE_LATIN: u32 = 2;

// where the letter count of a record stands, and behind it its marks: the halves of one word
const COUNT_AT: usize = 4;

const HALF: u32 = 65536;

// where the slots of a record begin
const SLOTS_AT: usize = 8;

// bytes of a slot
const SLOT: usize = 4;

pub fn number_at(t: &[u8], i: usize) -> u32
    requires { i < languages t.now }
    ensures { result ≡ number_of t.now i }
{
    u32_at(t, i * LANGUAGE_RECORD)
}

// How many letters the record i has: the low half of its second word.
pub fn count_at(t: &[u8], i: usize) -> usize
    requires { i < languages t.now }
    ensures { result ≡ letter_count t.now i }
{
    (u32_at(t, i * LANGUAGE_RECORD + COUNT_AT) % HALF) as usize
}

// The marks of the record i: the high half of its second word.
fn marks_at(t: &[u8], i: usize) -> u32
    requires { i < languages t.now }
    ensures { result ≡ marks_of t.now i }
{
    u32_at(t, i * LANGUAGE_RECORD + COUNT_AT) / HALF
}

pub fn has_accents(t: &[u8], i: usize) -> bool
    requires { i < languages t.now }
    ensures { result ≡ has_accents t.now i }
{
    is_set(marks_at(t, i), ACCENTS)
}

pub fn pure_latin(t: &[u8], i: usize) -> bool
    requires { i < languages t.now }
    ensures { result ≡ pure_latin t.now i }
{
    is_set(marks_at(t, i), PURE_LATIN)
}

fn slot_at(t: &[u8], i: usize, k: usize) -> u32
    requires { (i < languages t.now) × (k < LANGUAGE_LETTERS) }
    ensures { result ≡ slot_at t.now i k }
{
    u32_at(t, i * LANGUAGE_RECORD + SLOTS_AT + SLOT * k)
}

// The letter k of the record i, the most popular at 0.
pub fn letter_at(t: &[u8], i: usize, k: usize) -> u32
    requires { (good_languages t.now ≡ true) × (i < languages t.now) × (k < letter_count t.now i) }
    ensures { result ≡ get_or (letters_of t.now i) k 0 }
{
    slot_at(t, i, k)
}

fn is_scalar(x: u32) -> bool
    ensures { result ≡ scalar x }
{
    (x <= LAST_POINT) & !((SURROGATE_FIRST <= x) & (x <= SURROGATE_LAST))
}

// Whether the n used slots are good. As in the next function there is no early exit, so that the compiler takes several slots at a time.
fn used_good(t: &[u8], i: usize, n: usize) -> bool
    requires { (i < languages t.now) × (n ≡ letter_count t.now i) × (n ≤ LANGUAGE_LETTERS) }
    ensures { result ≡ each (slot_good t.now i) n }
{
    let mut good = true;
    for k in 0..n {
        good = good & is_scalar(slot_at(t, i, k));
    }
    good
}

// Whether all slots are good, where `used` says it of the used ones.
fn slots_good(t: &[u8], i: usize, n: usize, used: bool) -> bool
    requires { (i < languages t.now) × (n ≡ letter_count t.now i) × (n ≤ LANGUAGE_LETTERS) × (used ≡ each (slot_good t.now i) n) }
    ensures { result ≡ good_slots t.now i }
{
    let mut good = used;
    for k in n..LANGUAGE_LETTERS {
        good = good & (slot_at(t, i, k) == 0);
    }
    good
}

fn record_good(t: &[u8], i: usize) -> bool
    requires { i < languages t.now }
    ensures { result ≡ good_record t.now i }
{
    let n = count_at(t, i);
    if n > LANGUAGE_LETTERS {
        return false;
    }
    (number_at(t, i) != 0)
        & (1 <= n)
        & (marks_at(t, i) <= MOST_MARKS)
        & slots_good(t, i, n, used_good(t, i, n))
}

// The first bad record, or the number of records.
fn first_bad(t: &[u8]) -> usize
    ensures { result ≡ first_bad t.now }
{
    let n = t.len() / LANGUAGE_RECORD;
    for i in 0..n {
        if !record_good(t, i) {
            return i;
        }
    }
    n
}

// Refusal 8: a length or a number of records that is not allowed at 0, then the first bad record.
pub fn bad_languages(t: &[u8]) -> Result<(), Refusal>
    ensures { result ≡ bad_languages t.now }
{
    let n = t.len() / LANGUAGE_RECORD;
    if t.len() % LANGUAGE_RECORD != 0 {
        return refuse(Cause::BadLanguages, 0);
    }
    if n > MOST_LANGUAGES {
        return refuse(Cause::BadLanguages, 0);
    }
    let bad = first_bad(t);
    if bad < n {
        return refuse(Cause::BadLanguages, bad as u32);
    }
    Ok(())
}

// How many records a good language table has, or why it is refused.
pub fn check_languages(languages: &[u8]) -> Result<u32, Refusal>
    ensures { result ≡ checked languages.now }
{
    bad_languages(languages)?;
    Ok((languages.len() / LANGUAGE_RECORD) as u32)
}

// The first record with the number x, or the number of records.
pub fn first_record(t: &[u8], x: u32) -> usize
    ensures { result ≡ first_record t.now x }
{
    let n = t.len() / LANGUAGE_RECORD;
    for i in 0..n {
        if number_at(t, i) == x {
            return i;
        }
    }
    n
}
