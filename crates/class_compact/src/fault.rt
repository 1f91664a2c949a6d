// Where the fault of a compact table lies: what is looked for once the quick test has failed.
ghost use Rattle.std.specs.Prelude.{◌≡◌, ◌+◌, ◌<◌};
ghost use Rattle.class_compact_meaning.specs.Form.{letters_in};
ghost use Rattle.class_compact_meaning.specs.Check as checks;
ghost use Rattle.class_compact_meaning.specs.Inner.Form.{Filled};
ghost use Rattle.class_compact_meaning.specs.Inner.Sound as inner;

use crate::form::{base_at, find_letters, lower_at, place_of};
use crate::sound::is_sound;
use crate::{COMPACT_RECORD, LETTERS_RECORD};
use base::{Cause, Refusal, refuse};

// The first record whose letters are missing, or the number of records.
fn first_unlettered(records: &[u8], letters: &[u8]) -> usize
    ensures { result ≡ inner.first_missing records.now letters.now }
{
    let n = records.len() / COMPACT_RECORD;
    let m = letters.len() / LETTERS_RECORD;
    for i in 0..n {
        if m < place_of(records, i) as usize {
            return i;
        }
    }
    n
}

// The first record that uses the letters at a place, or the number of records.
fn first_use(records: &[u8], place: usize) -> usize
    ensures { inner.Use records.now place result }
{
    let n = records.len() / COMPACT_RECORD;
    for i in 0..n {
        if place_of(records, i) as usize == place {
            return i;
        }
    }
    n
}

// The first bad record, or the number of records.
fn first_bad_record(records: &[u8], letters: &[u8], table: &[u8]) -> usize
    requires { Filled records.now letters.now table.now }
    ensures { result ≡ checks.first_bad_record records.now letters.now }
{
    let missing = first_unlettered(records, letters);
    let bad = class_records::first_bad(table);
    if missing < bad { missing } else { bad }
}

// Whether the letters k are used before the letters in front of them; `here` is where they are used first.
fn is_early(records: &[u8], k: usize, here: usize) -> bool
    requires { here ≡ checks.first_use records.now (k + 1) }
    ensures { result ≡ checks.early records.now k }
{
    if k == 0 {
        return false;
    }
    here < first_use(records, k)
}

fn bad_letters(records: &[u8], letters: &[u8], k: usize) -> bool
    requires { k < letters_in letters.now }
    ensures { inner.Told records.now letters.now k result }
{
    let base = base_at(letters, k);
    let lower = lower_at(letters, k);
    let here = first_use(records, k + 1);
    (here == records.len() / COMPACT_RECORD)
        | (((base == 0) & (lower == 0))
            | ((find_letters(letters, k, base, lower) < k) | is_early(records, k, here)))
}

// The first bad letters, or their number. Each of those before them is used by a record, so that there are not more than the places.
fn first_bad_letters(records: &[u8], letters: &[u8]) -> usize
    ensures { inner.FirstBad records.now letters.now result }
{
    let m = letters.len() / LETTERS_RECORD;
    for k in 0..m {
        if bad_letters(records, letters, k) {
            return k;
        }
    }
    m
}

// Why a compact table is not good, if it is not; `table` is its expansion.
fn fault(records: &[u8], letters: &[u8], table: &[u8]) -> Result<(), Refusal>
    requires { Filled records.now letters.now table.now }
    ensures { result ≡ checks.bad_compact records.now letters.now }
{
    let bad = first_bad_record(records, letters, table);
    if bad < records.len() / COMPACT_RECORD {
        return refuse(Cause::BadClasses, bad as u32);
    }
    if letters.len() % LETTERS_RECORD != 0 {
        return refuse(Cause::BadClasses, 0);
    }
    let k = first_bad_letters(records, letters);
    if k < letters.len() / LETTERS_RECORD {
        return refuse(Cause::BadClasses, k as u32);
    }
    Ok(())
}

// The same, but for what the check of the expansion finds: a caller that has the expansion checked need not have it checked twice. `ordered` is what
// `unpack_into` answered.
pub fn beyond_table(
    records: &[u8],
    letters: &[u8],
    table: &[u8],
    ordered: bool,
) -> Result<(), Refusal>
    requires { inner.Expanded records.now letters.now table.now ordered }
    ensures { result ≡ inner.beyond_table records.now letters.now }
{
    if is_sound(records, letters, ordered) {
        return Ok(());
    }
    fault(records, letters, table)
}
