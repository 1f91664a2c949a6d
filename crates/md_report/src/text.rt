// The text, piece by piece.
ghost use Rattle.std.specs.Prelude.{◌+◌, ◌≤◌, length};
ghost use Rattle.pieces.specs.Inner.Pieces.{Goes};
ghost use Rattle.pieces.specs.Numerals.{MOST_DIGITS};
ghost use Rattle.ratio.specs.Eight.{DETECTORS};
ghost use Rattle.md_report_meaning.specs.Report.{LONGEST_REPORT};
ghost use Rattle.md_report_meaning.specs.Text.{joined, bin_line, detector_text, total_line, report_text};
ghost use Rattle.md_report_meaning.specs.Inner.Counts.{Few};
ghost use Rattle.md_report_meaning.specs.Inner.Written.{bin_lines, totals, Ended, SPARE};

use crate::BINS;
use crate::count::{bins_of, kinds_of, lines_in, refused_in};
use pieces::{put_number, put_piece};
use ratio::DETECTORS;

// Puts the line of a bin, and nothing where the bin is empty.
fn put_bin(out: &mut [u8], at: usize, detector: u32, bin: u32, count: u32) -> usize
    requires { at + SPARE ≤ length out.old }
    ensures { Goes out.old out.new at (bin_line detector bin count) result }
{
    if count == 0 {
        return at;
    }
    let a = put_number(out, at, b"", detector);
    let b = put_number(out, a, b" ", bin);
    let c = put_number(out, b, b" ", count);
    put_piece(out, c, b"\n")
}

// Puts the lines of a detector's bins, rising.
fn put_bins(out: &mut [u8], at: usize, detector: u32, counts: &[u32; BINS]) -> usize
    requires { at + length (bin_lines detector counts.now) + SPARE ≤ length out.old }
    ensures { Goes out.old out.new at (bin_lines detector counts.now) result }
{
    let mut next = at;
    for (k, n) in counts.iter().enumerate() {
        next = put_bin(out, next, detector, k as u32, *n);
    }
    next
}

// Puts the lines of all detectors, rising.
fn put_detectors(out: &mut [u8], rows: &[u32]) -> usize
    requires { Few rows.now × (length (joined (detector_text rows.now) DETECTORS) + SPARE ≤ length out.old) }
    ensures { Goes out.old out.new 0 (joined (detector_text rows.now) DETECTORS) result }
{
    let mut at = 0;
    for d in 0..DETECTORS {
        let counts = bins_of(rows, d);
        at = put_bins(out, at, d as u32 + 1, &counts);
    }
    at
}

// Puts a total, behind its word.
fn put_total(out: &mut [u8], at: usize, word: &[u8], n: u32) -> usize
    requires { at + length word.now + MOST_DIGITS + 1 ≤ length out.old }
    ensures { Ended out.old out.new at word.now n result }
{
    let a = put_number(out, at, word, n);
    put_piece(out, a, b"\n")
}

// Puts the three totals.
fn put_totals(out: &mut [u8], at: usize, lines: u32, accepted: u32, refused: u32) -> usize
    requires { at + SPARE ≤ length out.old }
    ensures { Goes out.old out.new at (totals lines accepted refused) result }
{
    let a = put_total(out, at, b"lines ", lines);
    let b = put_total(out, a, b"accepted ", accepted);
    put_total(out, b, b"refused ", refused)
}

// Puts the whole text into the first places of an array that has room for every text, and answers its bytes.
pub fn write_report(rows: &[u32], out: &mut [u8]) -> usize
    requires { Few rows.now × (LONGEST_REPORT ≤ length out.old) }
    ensures { Goes out.old out.new 0 (report_text rows.now) result }
{
    let at = put_detectors(out, rows);
    let kinds = kinds_of(rows);
    let refused = refused_in(&kinds);
    put_totals(out, at, lines_in(rows) as u32, kinds[0], refused)
}
