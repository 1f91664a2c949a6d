// The rest of a text that has stopped: only whether each character has a class. It is gone through by blocks and by spans of characters.
ghost use Rattle.std.specs.Prelude.{◌≡◌, true, ◌≤◌, ◌<◌, length};
ghost use Rattle.base.specs.Inner.First.{first_from};
ghost use Rattle.base.specs.Limits.{LONGEST_TEXT};
ghost use Rattle.class_records.specs.Records.{good_table};
ghost use Rattle.md_meaning.specs.Text.{total};
ghost use Rattle.md_meaning.specs.Scan.{unclassed};
ghost use Rattle.md_rest.specs.Inner.Rest.{Past, Builtin, Stepped, Walked};

use base::limits::{BUILTIN_END, CLASS_RECORD};
use class_records::search::{first_of, last_of};
use classes::{HINTS, held_near};

// Characters that are looked at together.
const BLOCK: usize = 64;

// Past the characters from `from` on that lie from low to high, as far as `end`.
pub fn past_within(text: &[u32], from: usize, end: usize, low: u32, high: u32) -> usize
    requires { (from ≤ end) × (end ≤ length text.now) }
    ensures { Past text.now low high from end result }
{
    for i in from..end {
        let p = text[i];
        if (p < low) | (high < p) {
            return i;
        }
    }
    end
}

// Whether the built-in table has all characters from `from` to `end`. With no early exit, so that the compiler takes several at a time.
pub fn all_builtin(text: &[u32], from: usize, end: usize) -> bool
    requires { end ≤ length text.now }
    ensures { Builtin result text.now from end }
{
    let mut all = true;
    for i in from..end {
        all = all & (text[i] < BUILTIN_END);
    }
    all
}

// Past the character at i, and past those behind it that its record holds too, as far as `end`; i itself where it has no class.
fn past_classed(
    text: &[u32],
    i: usize,
    end: usize,
    hints: &mut [usize; HINTS],
    classes: &[u8],
) -> usize
    requires { (good_table classes.now ≡ true) × (i < end) × (end ≤ length text.now) }
    ensures { Stepped classes.now text.now i end result }
{
    let p = text[i];
    if p < BUILTIN_END {
        return i + 1;
    }
    let at = held_near(p, hints, classes);
    if at < classes.len() / CLASS_RECORD {
        return past_within(
            text,
            i + 1,
            end,
            first_of(classes, at),
            last_of(classes, at),
        );
    }
    i
}

// The first index from `from` to `end` whose character has no class, or `end`.
fn unclassed_within(
    text: &[u32],
    from: usize,
    end: usize,
    hints: &mut [usize; HINTS],
    classes: &[u8],
) -> usize
    requires { (good_table classes.now ≡ true) × (from ≤ end) × (end ≤ length text.now) }
    ensures { Walked classes.now text.now from end result }
{
    let mut i = from;
    // Stays a while: a turn passes as many characters as one record holds, one or all.
    while i < end {
        let next = past_classed(text, i, end, hints, classes);
        if next == i {
            return i;
        }
        i = next;
    }
    i
}

// The same, the whole block looked at first.
fn unclassed_in(
    text: &[u32],
    from: usize,
    end: usize,
    hints: &mut [usize; HINTS],
    classes: &[u8],
) -> usize
    requires { (good_table classes.now ≡ true) × (from ≤ end) × (end ≤ length text.now) }
    ensures { Walked classes.now text.now from end result }
{
    if all_builtin(text, from, end) {
        return end;
    }
    unclassed_within(text, from, end, hints, classes)
}

// Where the block from i on ends.
pub fn block_end(n: usize, i: usize) -> usize
    requires { (i < n) × (n ≤ LONGEST_TEXT) }
    ensures { (i < result) × (result ≤ n) }
{
    if n - i < BLOCK {
        return n;
    }
    i + BLOCK
}

// The first index from `from` on whose character has no class, or the number of characters, the newline counted.
pub fn unclassed_from(
    text: &[u32],
    from: usize,
    hints: &mut [usize; HINTS],
    classes: &[u8],
) -> usize
    requires { (good_table classes.now ≡ true) × (length text.now ≤ LONGEST_TEXT) × (from ≤ total text.now) }
    ensures { result ≡ first_from (unclassed classes.now text.now) (total text.now) from }
{
    let mut i = from;
    // Stays a while: a turn passes a block, and what is left of the text may be shorter than one.
    while i < text.len() {
        let end = block_end(text.len(), i);
        let bad = unclassed_in(text, i, end, hints, classes);
        if bad < end {
            return bad;
        }
        i = end;
    }
    text.len() + 1
}
