// The scan over checked tables: each character is classed once and fed to the eight detectors, until a checkpoint's sum reaches the limit.
ghost use Rattle.std.specs.Prelude.{◌≡◌, true, ◌&&◌, ◌+◌, ◌≤◌, ◌<◌, length};
ghost use Rattle.base.specs.Limits.{LONGEST_TEXT};
ghost use Rattle.class_builtin.specs.Inner.Words.{packed_words};
ghost use Rattle.class_records.specs.Records.{good_table};
ghost use Rattle.classes.specs.Inner.Tables.{Tables};
ghost use Rattle.ratio.specs.Inner.Eight.{EachSmall};
ghost use Rattle.md_eight.specs.Inner.Detectors as detectors;
ghost use Rattle.md_meaning.specs.Text.{checkpoint, total};
ghost use Rattle.md_meaning.specs.Scan as scans;
ghost use Rattle.md_meaning.specs.Inner.Scan.{scan};
ghost use Rattle.md_meaning.specs.Inner.Scan as scanned;
ghost use Rattle.md.specs.Inner.Going as going;
ghost use Rattle.md.specs.Inner.Looked.{LookedAt};
ghost use Rattle.md.specs.Inner.Ready.{Ready};

use crate::step::fed_run;
use base::limits::BUILTIN_END;
use base::{Cause, Refusal, refuse};
use class_builtin::Table;
use classes::{Class, HINTS, builtin_class, class_in, held_near};
use md_eight::Detectors;
use md_meaning::Score;
use md_rest::whole::unclassed_rest;
use md_text::{at_checkpoint, char_at};
use ratio::{EightCounts, rounding, telling};

// What the lookup finds for a character, and the lent record that it found it in; below the built-in table's end there is none, and `held` says nothing.
#[derive(Clone, Copy)]
pub struct Looked {
    pub found: Option<Class>,
    pub held: usize,
}

// What the lookup finds for the character at i, the built-in table and the hints being lent.
fn class_at(
    text: &[u32],
    i: usize,
    hints: &mut [usize; HINTS],
    table: &Table,
    classes: &[u8],
) -> Looked
    requires { (good_table classes.now ≡ true) × (table.now ≡ packed_words) }
    ensures { LookedAt classes.now text.now i result }
{
    let p = char_at(text, i);
    if p < BUILTIN_END {
        return Looked {
            found: Some(builtin_class(p, table)),
            held: 0,
        };
    }
    let held = held_near(p, hints, classes);
    Looked {
        found: class_in(p, held, classes),
        held,
    }
}

fn sum_of(s: Detectors) -> f32
    requires { detectors.Countable s }
    ensures { result ≡ scans.sum_of s }
{
    rounding::sum(s.ratios())
}

// Whether a sum makes the scan stop.
fn reaches(limit: Option<f32>, sum: f32) -> bool
    ensures { result ≡ scans.reaches limit sum }
{
    match limit {
        Some(t) => t <= sum,
        None => false,
    }
}

// Whether the scan stops after the character at i, in a text of n characters.
pub fn is_over(s: Detectors, n: usize, i: usize, limit: Option<f32>) -> bool
    requires { detectors.Countable s }
    ensures { result ≡ (checkpoint n i && scans.reaches limit (scans.sum_of s)) }
{
    if at_checkpoint(n, i) {
        return reaches(limit, sum_of(s));
    }
    false
}

// The answer that these counts make. The scan calls it at two places, so that it stays out of line and the state in registers: with the state itself
// handed over, each character costs half as much again.
fn answered(c: EightCounts, fed: u32, stopped: bool) -> Result<Score, Refusal>
    requires { EachSmall c }
    ensures { result ≡ scanned.answered c fed stopped }
{
    let ratios = rounding::ratios(c);
    Ok(Score {
        ratios,
        sum: rounding::sum(ratios),
        fed,
        stopped,
        counts: telling::eight_shown(c, ratios),
    })
}

// The answer after `fed` characters.
pub fn scored(s: Detectors, fed: u32, stopped: bool) -> Result<Score, Refusal>
    requires { detectors.Countable s }
    ensures { result ≡ scans.scored s fed stopped }
{
    answered(s.counts(), fed, stopped)
}

// The answer of a scan that stops after the character at i. The whole text is classed, past the stop too.
fn stopped_after(
    s: Detectors,
    text: &[u32],
    i: usize,
    hints: &mut [usize; HINTS],
    classes: &[u8],
) -> Result<Score, Refusal>
    requires { (good_table classes.now ≡ true) × (length text.now ≤ LONGEST_TEXT) × (i < total text.now) × detectors.Countable s }
    ensures { result ≡ going.stopped_after classes.now text.now s i }
{
    let bad = unclassed_rest(text, i + 1, hints, classes);
    if bad <= text.len() {
        return refuse(Cause::Unclassed, bad as u32);
    }
    answered(s.counts(), (i + 1) as u32, true)
}

// The scan goes on only where the lookup found a class; the characters behind one that are of its kind are fed with it. The built-in table and the hints are lent, so that a caller with many texts makes them once;
// whatever the hints are, the answer is the same.
pub fn scan_text_in(
    text: &[u32],
    limit: Option<f32>,
    hints: &mut [usize; HINTS],
    table: &Table,
    classes: &[u8],
    pairs: &[u8],
) -> Result<Score, Refusal>
    requires { Ready table.now classes.now pairs.now text.now }
    ensures { result ≡ scan classes.now pairs.now text.now limit }
{
    let n = text.len() + 1;
    let mut s = Detectors::start();
    let mut i = 0;
    // Stays a while: a turn feeds as many characters as stand in a run of one kind, one or more.
    while i < n {
        let looked = class_at(text, i, hints, table, classes);
        let Some(c) = looked.found else {
            return refuse(Cause::Unclassed, i as u32);
        };
        let f = fed_run(s, c, text, i, looked.held, classes, pairs);
        i = f.next;
        s = f.state.recounted(i as u32);
        if is_over(s, text.len(), i - 1, limit) {
            return stopped_after(s, text, i - 1, hints, classes);
        }
    }
    answered(s.counts(), n as u32, false)
}

// The same for one text.
pub fn scan_text(
    text: &[u32],
    limit: Option<f32>,
    classes: &[u8],
    pairs: &[u8],
) -> Result<Score, Refusal>
    requires { Tables classes.now pairs.now × (length text.now ≤ LONGEST_TEXT) }
    ensures { result ≡ scan classes.now pairs.now text.now limit }
{
    let table = class_builtin::table();
    let mut hints = [0; HINTS];
    scan_text_in(text, limit, &mut hints, &table, classes, pairs)
}
