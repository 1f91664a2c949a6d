// The monthly report: for each detector how many lines fall into each bin, and how many lines there were, as text. The rows are those that `score_lines` leaves.
// The text is made in an array of the call's own first, so that an output that cannot hold it is left alone.
#![tactic(auto)]

mod count;
mod text;

ghost use Rattle.std.specs.Prelude.{◌≡◌, length};
ghost use Rattle.md_report_meaning.specs.Report.{report_answer, report_into};

use base::{Cause, Refusal, refuse};
use count::lines_in;
use pieces::put_piece;
use ratio::DETECTORS;
use text::write_report;

// bins of a detector
pub const BINS: usize = 513;

// u32 of a row: a number and a place, the ratios, their sum, the characters fed, the mark of having stopped, and three numbers of each detector
pub const WORDS: usize = DETECTORS * 4 + 5;

// lines of a month
pub const MOST_LINES: usize = 65535;

// bytes that hold every text: 5,035 for each detector, since 65,535 lines cannot give all bins long counts, and 56 for the totals
pub const LONGEST_REPORT: usize = 40336;

// The text of the rows in the first places of out; the rest of out stays, and all of it in a refusal. Answers the bytes of the text.
pub fn report(rows: &[u32], out: &mut [u8]) -> Result<u32, Refusal>
    ensures value { result ≡ report_answer rows.now (length out.old) }
    ensures out_after { out.new ≡ report_into rows.now out.old }
{
    if MOST_LINES < lines_in(rows) {
        return refuse(Cause::ManyLines, 0);
    }
    let mut text = [0u8; LONGEST_REPORT];
    let n = write_report(rows, &mut text);
    if out.len() < n {
        return refuse(Cause::NoRoom, 0);
    }
    put_piece(out, 0, &text[..n]);
    Ok(n as u32)
}
