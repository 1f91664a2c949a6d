// Whether a page is good: its size, and each of its entries.
ghost use Rattle.std.specs.Prelude.{false, ◌≡◌, ◌%◌, ◌<◌, length, get_or, take};
ghost use Rattle.base.specs.Among.{among};
ghost use Rattle.page_meaning.specs.Answer.{bad_page};
ghost use Rattle.page_meaning.specs.Page.{bad_entry, first_bad, PAGE_ENTRIES};
ghost use Rattle.page.specs.Inner.Marks.{MARKS};

use base::limits::{SURROGATE_FIRST, SURROGATE_LAST};
use base::{Cause, Refusal, refuse};

// entries of a page
pub const PAGE_ENTRIES: usize = 128;

// the first byte that has an entry; the bytes below it stand for themselves
pub const FIRST_HIGH: usize = 0x80;

// what an entry holds that is not used
pub const UNUSED: u32 = 0xFFFF;

// how many marks there are: 2 KiB of stack, and in the three pages of tables/pages at most one entry has the mark of another
const MARKS: usize = 2048;

pub fn wide(entry: u16) -> u32
    ensures { (result ≡ entry) × (result < 65536) }
{
    entry as u32
}

// Whether x stands in the list. It looks at all of it, so that the compiler can compare several at once.
pub fn holds(list: &[u16], x: u16) -> bool
    ensures { result ≡ among x list.now }
{
    let mut held = false;
    for y in list {
        held = held | (*y == x);
    }
    held
}

// Whether an entry equal to the entry i stands before it. Where no entry before it has its mark, there is none to look for.
fn is_repeated(page: &[u16], i: usize, marked: bool) -> bool
    requires { (i < length page.now) × (marked ≡ false → among (get_or page.now i 0) (take i page.now) ≡ false) }
    ensures { result ≡ among (get_or page.now i 0) (take i page.now) }
{
    if !marked {
        return false;
    }
    holds(&page[..i], page[i])
}

// Whether the entry i is bad. An unused one never is; of two equal ones the later is.
fn is_bad(page: &[u16], i: usize, marked: bool) -> bool
    requires { (i < length page.now) × (marked ≡ false → among (get_or page.now i 0) (take i page.now) ≡ false) }
    ensures { result ≡ bad_entry page.now i }
{
    let x = wide(page[i]);
    (x != UNUSED)
        & ((x < FIRST_HIGH as u32)
            | is_repeated(page, i, marked)
            | ((SURROGATE_FIRST <= x) & (x <= SURROGATE_LAST)))
}

// The mark of an entry: what is left of it over MARKS. Equal entries have one mark.
fn mark_of(entry: u16) -> usize
    ensures { (result ≡ entry % MARKS) × (result < MARKS) }
{
    wide(entry) as usize % MARKS
}

// The first bad entry, or 128. Each entry that is passed leaves its mark, so that few entries are compared with those before them.
fn first_bad(page: &[u16]) -> usize
    requires { length page.now ≡ PAGE_ENTRIES }
    ensures { result ≡ first_bad page.now }
{
    let mut marks = [false; MARKS];
    for (i, entry) in page.iter().enumerate() {
        let mark = mark_of(*entry);
        if is_bad(page, i, marks[mark]) {
            return i;
        }
        marks[mark] = true;
    }
    PAGE_ENTRIES
}

// Refusal 10: a wrong number of entries at 0, then the first bad entry.
pub fn bad_page(page: &[u16]) -> Result<(), Refusal>
    ensures { result ≡ bad_page page.now }
{
    if page.len() != PAGE_ENTRIES {
        return refuse(Cause::BadPage, 0);
    }
    let bad = first_bad(page);
    if bad < PAGE_ENTRIES {
        return refuse(Cause::BadPage, bad as u32);
    }
    Ok(())
}
