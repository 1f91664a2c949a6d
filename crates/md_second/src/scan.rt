// The scan over the lists: at each checkpoint the eight detectors are counted over all characters fed so far, from the first on.
ghost use Rattle.base.specs.Causes.{refused_at};
ghost use Rattle.std.specs.Prelude.{◌≡◌, ◌&&◌, ◌+◌, ◌≤◌, ◌<◌, length, Some};
ghost use Rattle.std.specs.Float.Ieee.{le};
ghost use Rattle.classes.specs.Inner.Tables.{Tables};
ghost use Rattle.ratio.specs.Inner.Eight.{EachSmall};
ghost use Rattle.md_meaning.specs.Text.{checkpoint};
ghost use Rattle.md_meaning.specs.Scan as scans;
ghost use Rattle.md_meaning.specs.Inner.Scan.{scan};
ghost use Rattle.md_eight.specs.Detectors as detectors;
ghost use Rattle.md_second.specs.Second.{SECOND_LONGEST};
ghost use Rattle.md_second.specs.Inner.After.{eight_after};
ghost use Rattle.md_second.specs.Inner.Listed as listed;

use crate::classed::{bases_of, first_classless, flags_of, points_of, ranges_of};
use crate::counting::{
    count_accents, count_doubled, count_ranges, count_stops, count_symbols, count_unprintable,
};
use crate::readers::{count_case, count_words, read_words};
use base::{Cause, Refusal, refuse};
use md_meaning::Score;
use ratio::{EightCounts, rounding, telling};

// Up to this many characters SHORT_PERIOD is used, then up to MIDDLE_LENGTH MIDDLE_PERIOD, else LONG_PERIOD.
const SHORT_LENGTH: usize = 510;

const MIDDLE_LENGTH: usize = 1023;

const SHORT_PERIOD: usize = 32;

const MIDDLE_PERIOD: usize = 64;

const LONG_PERIOD: usize = 128;

// "The period is 32 for up to 510 characters, 64 for 511 to 1,023, else 128, counted before the newline is appended."
fn period_of(length: usize) -> usize
    ensures { listed.Period length result }
{
    if length <= SHORT_LENGTH {
        return SHORT_PERIOD;
    }
    if length <= MIDDLE_LENGTH {
        return MIDDLE_PERIOD;
    }
    LONG_PERIOD
}

// "At index mod period = period - 1 the sum is compared."
fn is_compared(length: usize, i: usize) -> bool
    ensures { result ≡ checkpoint length i }
{
    let period = period_of(length);
    i % period == period - 1
}

// The eight detectors' counts over the first n characters: six by themselves, two as the readers bring them.
fn eight_after(
    points: &[u32],
    flags: &[u32],
    ranges: &[u32],
    bases: &[u32],
    pairs: &[u8],
    n: usize,
) -> EightCounts
    requires { listed.Listed points.now flags.now ranges.now bases.now pairs.now n }
    ensures { result ≡ detectors.counts (eight_after points.now flags.now ranges.now bases.now pairs.now n) }
{
    let read = read_words(flags, n);
    EightCounts {
        symbols: count_symbols(points, flags, n),
        accents: count_accents(flags, n),
        unprintable: count_unprintable(flags, n),
        ranges: count_ranges(flags, ranges, pairs, n),
        doubled: count_doubled(flags, bases, n),
        words: count_words(read.words),
        stops: count_stops(points, flags, n),
        archaic: count_case(read.case, n),
    }
}

// The answer that these counts make.
fn second_answer(counts: EightCounts, fed: u32, stopped: bool) -> Result<Score, Refusal>
    requires { EachSmall counts }
    ensures { result ≡ listed.answered counts fed stopped }
{
    let ratios = rounding::ratios(counts);
    Ok(Score {
        ratios,
        sum: rounding::sum(ratios),
        fed,
        stopped,
        counts: telling::eight_shown(counts, ratios),
    })
}

// The answer after n characters.
fn answer_after(
    points: &[u32],
    flags: &[u32],
    ranges: &[u32],
    bases: &[u32],
    pairs: &[u8],
    n: usize,
    stopped: bool,
) -> Result<Score, Refusal>
    requires { listed.Listed points.now flags.now ranges.now bases.now pairs.now n }
    ensures { result ≡ scans.scored (eight_after points.now flags.now ranges.now bases.now pairs.now n) n stopped }
{
    second_answer(
        eight_after(points, flags, ranges, bases, pairs, n),
        n as u32,
        stopped,
    )
}

// Whether the scan stops after the character at i, in a text of so many characters.
fn stops_after(
    points: &[u32],
    flags: &[u32],
    ranges: &[u32],
    bases: &[u32],
    pairs: &[u8],
    length: usize,
    i: usize,
    threshold: f32,
) -> bool
    requires { listed.Listed points.now flags.now ranges.now bases.now pairs.now (i + 1) }
    ensures { result ≡ listed.stops_there points.now flags.now ranges.now bases.now pairs.now length threshold i }
{
    if is_compared(length, i) {
        let counts = eight_after(points, flags, ranges, bases, pairs, i + 1);
        return threshold <= rounding::sum(rounding::ratios(counts));
    }
    false
}

// "At or above the threshold the scan stops"; without a stop the newline is the last character fed.
fn compare_all(
    points: &[u32],
    flags: &[u32],
    ranges: &[u32],
    bases: &[u32],
    pairs: &[u8],
    length: usize,
    threshold: f32,
) -> Result<Score, Refusal>
    requires { listed.Listed points.now flags.now ranges.now bases.now pairs.now (length + 1) }
    ensures { result ≡ listed.list_score points.now flags.now ranges.now bases.now pairs.now length threshold }
{
    let total = length + 1;
    for i in 0..total {
        if stops_after(points, flags, ranges, bases, pairs, length, i, threshold) {
            return answer_after(points, flags, ranges, bases, pairs, i + 1, true);
        }
    }
    answer_after(points, flags, ranges, bases, pairs, total, false)
}

// The scan over checked tables. "The whole text is classed first, so 6 is given also for a character past the stopping place."
pub fn second_scan(
    text: &[u32],
    threshold: f32,
    classes: &[u8],
    pairs: &[u8],
) -> Result<Score, Refusal>
    requires { Tables classes.now pairs.now × (length text.now ≤ SECOND_LONGEST) }
    ensures { result ≡ scan classes.now pairs.now text.now (Some threshold) }
{
    let table = class_builtin::table();
    let bad = first_classless(text, &table, classes);
    if bad <= text.len() {
        return refuse(Cause::Unclassed, bad as u32);
    }
    let points = points_of(text, &table, classes);
    let flags = flags_of(text, &table, classes);
    let ranges = ranges_of(text, &table, classes);
    let bases = bases_of(text, &table, classes);
    compare_all(
        &points,
        &flags,
        &ranges,
        &bases,
        pairs,
        text.len(),
        threshold,
    )
}
