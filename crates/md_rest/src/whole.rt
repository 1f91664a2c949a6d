// The rest of a long text that has stopped, where the lent records hold every scalar value past the built-in table: then a character has a class if it
// is a scalar value, and nothing need be looked up.
ghost use Rattle.std.specs.Prelude.{◌≡◌, true, ◌≤◌, length};
ghost use Rattle.base.specs.Inner.First.{first_from};
ghost use Rattle.base.specs.Limits.{LONGEST_TEXT};
ghost use Rattle.class_records.specs.Records.{records, good_table};
ghost use Rattle.md_meaning.specs.Text.{total};
ghost use Rattle.md_meaning.specs.Scan.{unclassed};
ghost use Rattle.md_rest.specs.Inner.Whole.{sizes_before, Valued, Classed, Passed};

use crate::rest::{all_builtin, block_end, unclassed_from};
use base::limits::{BUILTIN_END, CLASS_RECORD, LAST_POINT, SURROGATE_FIRST, SURROGATE_LAST};
use class_records::search::{first_of, last_of};
use classes::HINTS;

// The scalar values past the built-in table.
const PAST_BUILTIN: u32 = LAST_POINT + 1 - BUILTIN_END - (SURROGATE_LAST + 1 - SURROGATE_FIRST);

// From so many characters on, adding up the sizes of some thousand records costs less than it saves.
const LONG_REST: usize = 1536;

// How many code points the records of a good table hold.
fn sizes(classes: &[u8]) -> u32
    requires { good_table classes.now ≡ true }
    ensures { result ≡ sizes_before classes.now (records classes.now) }
{
    let mut sum = 0;
    for i in 0..classes.len() / CLASS_RECORD {
        sum += last_of(classes, i) + 1 - first_of(classes, i);
    }
    sum
}

// Whether all characters from `from` on are scalar values. With no early exit, so that the compiler takes several at a time.
fn all_valued(text: &[u32], from: usize) -> bool
    ensures { Valued result text.now from (length text.now) }
{
    let mut all = true;
    for i in from..text.len() {
        let p = text[i];
        all = all & ((p < SURROGATE_FIRST) | ((SURROGATE_LAST < p) & (p <= LAST_POINT)));
    }
    all
}

// Whether it is known without a lookup that all characters from `from` on have a class.
fn all_known(text: &[u32], from: usize, classes: &[u8]) -> bool
    requires { (good_table classes.now ≡ true) × (from ≤ total text.now) × (length text.now ≤ LONGEST_TEXT) }
    ensures { Classed result classes.now text.now from }
{
    if text.len() < from + LONG_REST {
        return false;
    }
    if sizes(classes) == PAST_BUILTIN {
        return all_valued(text, from);
    }
    false
}

// Past the characters from `from` on that the built-in table has, by whole blocks.
fn past_builtin(text: &[u32], from: usize) -> usize
    requires { (length text.now ≤ LONGEST_TEXT) × (from ≤ total text.now) }
    ensures { Passed text.now from result }
{
    let mut i = from;
    // Stays a while: a turn passes a block, and what is left of the text may be shorter than one.
    while i < text.len() {
        let end = block_end(text.len(), i);
        if !all_builtin(text, i, end) {
            return i;
        }
        i = end;
    }
    i
}

// The first index from `from` on whose character has no class, or the number of characters, the newline counted.
pub fn unclassed_rest(
    text: &[u32],
    from: usize,
    hints: &mut [usize; HINTS],
    classes: &[u8],
) -> usize
    requires { (good_table classes.now ≡ true) × (length text.now ≤ LONGEST_TEXT) × (from ≤ total text.now) }
    ensures { result ≡ first_from (unclassed classes.now text.now) (total text.now) from }
{
    if text.len() < from + LONG_REST {
        return unclassed_from(text, from, hints, classes);
    }
    let i = past_builtin(text, from);
    if all_known(text, i, classes) {
        return text.len() + 1;
    }
    unclassed_from(text, i, hints, classes)
}
