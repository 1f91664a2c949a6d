// Characters of one kind in a row, fed at once: each step comes to what the characters come to one by one. A run ends at a checkpoint at the latest, and
// before the newline, U+4E04 and U+4E05.
#![tactic(auto)]

ghost use Rattle.std.specs.Prelude.{◌≡◌, ◌<◌, ◌≤◌, true, length};
ghost use Rattle.base.specs.Limits.{BUILTIN_END, LONGEST_TEXT};
ghost use Rattle.class_records.specs.Records.{records};
ghost use Rattle.classes.specs.Lookup.{or_self};
ghost use Rattle.md_eight.specs.Inner.Runs as kinds;
ghost use Rattle.md_meaning.specs.Text.{total};
ghost use Rattle.md_runs.specs.Inner.Runs.{Low, High, AlikeOf, Run, Before, Lent, HeldAt, Spaced, Advanced};

use ahead::past_letters;
use base::limits::BUILTIN_END;
use class_records::record_at;
use class_records::search::{first_of, last_of};
use classes::{Class, is_suspicious};
use md_counts::cjk_invalid_stop::{STOP_DOWN, STOP_UP, wrong_stop};
use md_eight::Detectors;
use md_eight::runs::{SPACE, is_cased, is_uncased};
use md_rest::rest::past_within;
use md_text::{at_checkpoint, fed, piece_end};

mod ahead;

// What a step of the scan comes to: the state, and the index of the character that comes next.
#[derive(Clone, Copy)]
pub struct Fed {
    pub state: Detectors,
    pub next: usize,
}

// The code points around one, low to high, that its record holds, with no wrong stop among them; and the record's base, 0 for the character itself.
#[derive(Clone, Copy)]
pub struct Alike {
    pub low: u32,
    pub high: u32,
    pub base: u32,
}

// Where the characters from low to high behind the one at i end, or the piece of the text that it stands in.
pub fn run_end(text: &[u32], i: usize, low: u32, high: u32) -> usize
    requires { (i < length text.now) × (length text.now ≤ LONGEST_TEXT) }
    ensures { Run text.now low high i result }
{
    past_within(text, i + 1, piece_end(text.len(), i), low, high)
}

// The same for letters with case.
fn letters_end(text: &[u32], i: usize, low: u32, high: u32) -> usize
    requires { (i < length text.now) × (length text.now ≤ LONGEST_TEXT) }
    ensures { Run text.now low high i result }
{
    past_letters(text, i + 1, piece_end(text.len(), i), low, high)
}

// The first of a record, or the code point past the wrong stops where p stands past them.
fn past_stops(first: u32, p: u32) -> u32
    ensures { Low first p result }
{
    if (first <= STOP_DOWN) & (STOP_DOWN < p) {
        return STOP_DOWN + 1;
    }
    first
}

// The last of a record, or the code point before the wrong stops where p stands before them.
fn before_stops(last: u32, p: u32) -> u32
    ensures { High last p result }
{
    if (STOP_UP <= last) & (p < STOP_UP) {
        return STOP_UP - 1;
    }
    last
}

// The characters that are as p is, which a record holds.
fn kin_of(p: u32, held: usize, classes: &[u8]) -> Alike
    requires { Lent classes.now p held }
    ensures { AlikeOf classes.now p result }
{
    let r = record_at(classes, held);
    Alike {
        low: past_stops(r.first, p),
        high: before_stops(r.last, p),
        base: r.base,
    }
}

// The base of a letter: itself where its record has none.
fn own_base(base: u32, point: u32) -> u32
    ensures { result ≡ or_self base point }
{
    if base == 0 {
        return point;
    }
    base
}

// Letters of one case that one record holds, from i on. The first of them is of class c; the base of the last is its own where the record has none.
fn fed_cased(
    s: Detectors,
    c: Class,
    text: &[u32],
    i: usize,
    held: usize,
    classes: &[u8],
    pairs: &[u8],
) -> Fed
    requires { Before classes.now pairs.now text.now s c i × Lent classes.now c.point held × (kinds.is_cased c.flags ≡ true) }
    ensures { Advanced classes.now pairs.now text.now i result }
{
    let near = kin_of(c.point, held, classes);
    let next = letters_end(text, i, near.low, near.high);
    let last = text[next - 1];
    let suspicious = is_suspicious(pairs, s.last_range(), c.range);
    let again = is_suspicious(pairs, c.range, c.range);
    Fed {
        state: s.cased_run(
            c,
            (next - i) as u32,
            last,
            own_base(near.base, last),
            suspicious,
            again,
        ),
        next,
    }
}

// The same for characters without case.
fn fed_uncased(
    s: Detectors,
    c: Class,
    text: &[u32],
    i: usize,
    held: usize,
    classes: &[u8],
    pairs: &[u8],
) -> Fed
    requires { Before classes.now pairs.now text.now s c i × Lent classes.now c.point held × (kinds.is_uncased c.flags ≡ true) }
    ensures { Advanced classes.now pairs.now text.now i result }
{
    let near = kin_of(c.point, held, classes);
    let next = run_end(text, i, near.low, near.high);
    let suspicious = is_suspicious(pairs, s.last_range(), c.range);
    let again = is_suspicious(pairs, c.range, c.range);
    Fed {
        state: s.uncased_run(c, (next - i) as u32, text[next - 1], suspicious, again),
        next,
    }
}

// Whether the lent record that holds p, the character at i, holds the one behind it too. Where it does not there is no run, and p is fed by itself, whatever its kind.
fn runs_on(p: u32, text: &[u32], i: usize, held: usize, classes: &[u8]) -> bool
    requires { (i < total text.now) × (length text.now ≤ LONGEST_TEXT) × (BUILTIN_END ≤ p → held < records classes.now) }
    ensures { result ≡ true → BUILTIN_END ≤ p }
{
    if p < BUILTIN_END {
        return false;
    }
    if text.len() <= i + 1 {
        return false;
    }
    let q = text[i + 1];
    (first_of(classes, held) <= q) & (q <= last_of(classes, held))
}

// The character at i, which is of class c and which the lent record `held` holds if any does, and those behind it that the record holds too.
pub fn fed_word(
    s: Detectors,
    c: Class,
    text: &[u32],
    i: usize,
    held: usize,
    classes: &[u8],
    pairs: &[u8],
) -> Fed
    requires { Before classes.now pairs.now text.now s c i × HeldAt classes.now c.point held }
    ensures { Advanced classes.now pairs.now text.now i result }
{
    if runs_on(c.point, text, i, held, classes) & !wrong_stop(c.point) {
        if is_uncased(c.flags) {
            return fed_uncased(s, c, text, i, held, classes, pairs);
        }
        if is_cased(c.flags) {
            return fed_cased(s, c, text, i, held, classes, pairs);
        }
    }
    Fed {
        state: fed(s, c, pairs),
        next: i + 1,
    }
}

// Whether a space stands at i, and no checkpoint before it. The checkpoint is asked first, since the loop asks the same after the step.
pub fn before_space(text: &[u32], i: usize) -> bool
    requires { 0 < i }
    ensures { result ≡ true → Spaced text.now i }
{
    if at_checkpoint(text.len(), i - 1) {
        return false;
    }
    if i < text.len() {
        return text[i] == SPACE;
    }
    false
}
