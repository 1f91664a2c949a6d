// The search for the record that holds a code point, by halving.
ghost use Rattle.std.specs.Prelude.{true, ◌≡◌, ◌<◌};
ghost use Rattle.class_records.specs.Records.{records, record_at, good_table, holds, holder};
ghost use Rattle.class_records.specs.Inner.Halving.{ending};

use crate::LAST_AT;
use base::limits::CLASS_RECORD;
use base::u32_at;

fn is_holder(t: &[u8], p: u32, i: usize) -> bool
    requires { i < records t.now }
    ensures { result ≡ holds t.now p i }
{
    let at = i * CLASS_RECORD;
    (u32_at(t, at) <= p) & (p <= u32_at(t, at + LAST_AT))
}

pub fn first_of(t: &[u8], i: usize) -> u32
    requires { i < records t.now }
    ensures { result ≡ (record_at t.now i).first }
{
    u32_at(t, i * CLASS_RECORD)
}

pub fn last_of(t: &[u8], i: usize) -> u32
    requires { i < records t.now }
    ensures { result ≡ (record_at t.now i).last }
{
    u32_at(t, i * CLASS_RECORD + LAST_AT)
}

// The first record of a good table that ends at p or past it, or the number of records. Those before `low` end before p, those from `low + size` on do
// not. How often it halves does not hang on p, so that the processor foresees it.
fn first_ending(t: &[u8], p: u32) -> usize
    requires { good_table t.now ≡ true }
    ensures { result ≡ ending t.now p }
{
    let mut low = 0;
    let mut size = t.len() / CLASS_RECORD;
    // Stays a while: a search by halving, whose step is half of what is left.
    while 1 < size {
        let half = size / 2;
        if last_of(t, low + half - 1) < p {
            low += half;
            size -= half;
        } else {
            size -= half;
        }
    }
    if size == 0 {
        return low;
    }
    if last_of(t, low) < p {
        return low + 1;
    }
    low
}

// The record of a good table that holds p, or the number of records.
pub fn find(t: &[u8], p: u32) -> usize
    requires { good_table t.now ≡ true }
    ensures { result ≡ holder t.now p }
{
    let none = t.len() / CLASS_RECORD;
    let i = first_ending(t, p);
    if none <= i {
        return none;
    }
    if first_of(t, i) <= p {
        return i;
    }
    none
}

// The same, the record `hint` looked at before the search: the code points of a text mostly stand in a record that held one before. Any number may
// be the hint.
pub fn find_near(t: &[u8], p: u32, hint: usize) -> usize
    requires { good_table t.now ≡ true }
    ensures { result ≡ holder t.now p }
{
    if hint < t.len() / CLASS_RECORD {
        if is_holder(t, p, hint) {
            return hint;
        }
    }
    find(t, p)
}
