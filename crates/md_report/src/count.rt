// The lines counted: those of each bin of a detector, and those of each number.
ghost use Rattle.std.specs.Prelude.{◌≡◌, ◌+◌, ◌<◌, ◌≤◌, length, get_or, set};
ghost use Rattle.ratio.specs.Eight.{DETECTORS};
ghost use Rattle.md_report_meaning.specs.Rows.{WORDS, lines_in, word};
ghost use Rattle.md_report_meaning.specs.Bins.{LAST_BIN, OTHER, sum_to, zero_bits, bin_of, bin_at, kind_of};
ghost use Rattle.md_report_meaning.specs.Report.{MOST_LINES};
ghost use Rattle.md_report_meaning.specs.Inner.Counts.{Few, Line, Place, Counts, bins_after, kinds_after};

use crate::{BINS, WORDS};
use base::refusals::ACCEPTED;
use ratio::DETECTORS;

// where a detector's ratio and its numbers stand in a row
const NUMBER_AT: usize = 0;

const RATIOS_AT: usize = 2;

const SHOWN_AT: usize = DETECTORS + 5;

// numbers of a detector: its numerator, its denominator and the mark of a cut-off
const NUMBERS: usize = 3;

// the bits of -0.0
const SIGN_BIT: u32 = 0x8000_0000;

// the last bin, and the parts that a whole is cut into
const LAST_BIN: u64 = 512;

const PARTS: u64 = 64;

// the last number of a refusal, and the place of all numbers above it
const LAST_NUMBER: u32 = 19;

const OTHER: usize = 20;

// the places of the numbers 0 to 19 and of all others
pub const KINDS: usize = OTHER + 1;

// How many lines are given: words past the last whole row are no line.
pub fn lines_in(rows: &[u32]) -> usize
    ensures { result ≡ lines_in rows.now }
{
    rows.len() / WORDS
}

// A word of the line i.
fn word_of(rows: &[u32], i: usize, at: usize) -> u32
    requires { Line rows.now i × (at < WORDS) }
    ensures { result ≡ word rows.now i at }
{
    rows[i * WORDS + at]
}

// Whether the bits are those of +0.0 or of -0.0.
fn is_nil(bits: u32) -> bool
    ensures { result ≡ zero_bits bits }
{
    (bits == 0) | (bits == SIGN_BIT)
}

// The bin that a detector's numbers name. The product is of 64 bits, so that none is too large.
fn bin_of(ratio: u32, numerator: u32, denominator: u32) -> usize
    ensures { Place (bin_of ratio numerator denominator) LAST_BIN result }
{
    if is_nil(ratio) {
        return 0;
    }
    if denominator == 0 {
        return 0;
    }
    let b = PARTS * (numerator as u64) / (denominator as u64);
    if LAST_BIN < b {
        LAST_BIN as usize
    } else {
        b as usize
    }
}

// The bin of the detector d in the line i.
fn bin_at(rows: &[u32], d: usize, i: usize) -> usize
    requires { Line rows.now i × (d < DETECTORS) }
    ensures { Place (bin_at rows.now d i) LAST_BIN result }
{
    let shown = SHOWN_AT + d * NUMBERS;
    bin_of(
        word_of(rows, i, RATIOS_AT + d),
        word_of(rows, i, shown),
        word_of(rows, i, shown + 1),
    )
}

// One more at a place of the counts.
fn add_one(counts: &mut [u32], k: usize)
    requires { (k < length counts.old) × (get_or counts.old k 0 < MOST_LINES) }
    ensures { counts.new ≡ set counts.old k (get_or counts.old k 0 + 1) }
{
    counts[k] = counts[k] + 1;
}

// Adds the line i to the bins of the detector d, where it was accepted.
fn add_line(counts: &mut [u32], rows: &[u32], d: usize, i: usize)
    requires { Line rows.now i × (d < DETECTORS) × (counts.old ≡ bins_after rows.now d i) }
    ensures { counts.new ≡ bins_after rows.now d (i + 1) }
{
    if word_of(rows, i, NUMBER_AT) == ACCEPTED {
        add_one(counts, bin_at(rows, d, i));
    }
}

// The bins of the detector d, all zero at the start and filled line by line.
pub fn bins_of(rows: &[u32], d: usize) -> [u32; BINS]
    requires { Few rows.now × (d < DETECTORS) }
    ensures { result ≡ bins_after rows.now d (lines_in rows.now) }
{
    let lines = lines_in(rows);
    let mut counts = [0u32; BINS];
    for i in 0..lines {
        add_line(&mut counts, rows, d, i);
    }
    counts
}

// The place at which lines with this number are counted.
fn kind_of(number: u32) -> usize
    ensures { Place (kind_of number) OTHER result }
{
    if LAST_NUMBER < number {
        OTHER
    } else {
        number as usize
    }
}

// Adds the line i to those of its number.
fn add_kind(counts: &mut [u32], rows: &[u32], i: usize)
    requires { Line rows.now i × (counts.old ≡ kinds_after rows.now i) }
    ensures { counts.new ≡ kinds_after rows.now (i + 1) }
{
    add_one(counts, kind_of(word_of(rows, i, NUMBER_AT)));
}

// The lines of each number, at 0 those that were accepted.
pub fn kinds_of(rows: &[u32]) -> [u32; KINDS]
    requires { Few rows.now }
    ensures { result ≡ kinds_after rows.now (lines_in rows.now) }
{
    let lines = lines_in(rows);
    let mut counts = [0u32; KINDS];
    for i in 0..lines {
        add_kind(&mut counts, rows, i);
    }
    counts
}

// The refused lines: those of every number but 0.
pub fn refused_in(kinds: &[u32; KINDS]) -> u32
    requires { Counts kinds.now }
    ensures { result ≡ sum_to (λ k. get_or kinds.now (k + 1) 0) OTHER }
{
    let mut sum = 0;
    for n in &kinds[1..] {
        sum += *n;
    }
    sum
}
