// The monthly report of the lines of standard input: up to 4,096 bytes, scored at 0.2 with no class records and no suspicious pair, as the program scores its input,
// and reported. Run here on some lines. No contract can say what is read or written; the report's own stands in md_report.
#![tactic(auto)]

ghost use Rattle.std.specs.Prelude.{◌≤◌, ◌≡◌, length};
ghost use Rattle.program.specs.Inner.Line.{LONGEST_LINE};

use base::limits::PAIR_BYTES;
use base::{Cause, Refusal};
use md_lines::{NUMBERS_PER_LINE, score_lines};
use md_report::{LONGEST_REPORT, report};
use program::line::put_refused;
use program::{LONGEST_INPUT, read_input};
use std::io;

// One byte more than is scored, so that a longer input is seen to be longer.
const ROOM: usize = LONGEST_INPUT + 1;

// Numbers of as many lines as the longest input can have.
const ROWS: usize = LONGEST_INPUT * NUMBERS_PER_LINE;

// f32 0.2, at which the program scores.
const THRESHOLD: f32 = 0.2;

// Room for the rows. The contract gives only the length: the prover need not look at the zeros.
fn no_rows() -> [u32; ROWS]
    ensures { 151552 ≡ length result }
{
    [0; ROWS]
}

// The text of the rows, or the line of the refusal; answers its bytes.
fn report_rows(rows: &[u32], out: &mut [u8]) -> usize
    requires { LONGEST_LINE ≤ length out.old }
    ensures { result ≤ length out.old }
{
    match report(rows, out) {
        Err(why) => put_refused(out, why),
        Ok(n) => n as usize,
    }
}

// The text of the lines of some bytes, or the line of the refusal; answers its bytes.
fn report_lines(bytes: &[u8], out: &mut [u8]) -> usize
    requires { LONGEST_LINE ≤ length out.old }
    ensures { result ≤ length out.old }
{
    if LONGEST_INPUT < bytes.len() {
        return put_refused(
            out,
            Refusal {
                cause: Cause::TooLong,
                place: 0,
            },
        );
    }
    let classes: [u8; 0] = [];
    let pairs = [0u8; PAIR_BYTES];
    let mut rows = no_rows();
    match score_lines(bytes, THRESHOLD, &classes, &pairs, &mut rows) {
        Err(why) => put_refused(out, why),
        Ok(lines) => report_rows(&rows[..lines as usize * NUMBERS_PER_LINE], out),
    }
}

fn main(rt: HostRuntime) -> io::Result<()> {
    let mut input = [0u8; ROOM];
    let n = read_input(&rt, &mut input);
    let mut out = [0u8; LONGEST_REPORT];
    let k = report_lines(&input[..n], &mut out);
    rt.write_all(&out[..k])
}
