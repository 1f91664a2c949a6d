// Many lines scored in one call: the tables are checked once, so that a burst of short lines costs what its characters cost.
#![tactic(auto)]

ghost use Rattle.std.specs.Prelude.{◌≡◌, length};
ghost use Rattle.md_lines_meaning.specs.Burst as bursts;

use base::{Cause, Refusal, refuse};
use md::tables::check_lent;
use ratio::DETECTORS;
use ratio::telling::NUMBERS_SHOWN;
use rows::put_rows;
use split::count_lines;

mod row;
mod rows;
mod split;

// u32 of the output for each line: a refusal's number and place, the eight ratios and their sum as bits, the characters fed, 1 where the scan
// stopped early, and the counts of each ratio.
pub const NUMBERS_PER_LINE: usize = DETECTORS + 5 + NUMBERS_SHOWN;

// Bytes of a burst.
pub const LONGEST_BURST: usize = 16777216;

// The scores of the lines, each in its place in out; the rest of out stays, and all of it in a refusal. Answers the number of lines.
pub fn score_lines(
    bytes: &[u8],
    threshold: f32,
    classes: &[u8],
    pairs: &[u8],
    out: &mut [u32],
) -> Result<u32, Refusal>
    ensures value { result ≡ bursts.answer bytes.now threshold classes.now pairs.now (length out.old) }
    ensures out_after { out.new ≡ bursts.out_after bytes.now threshold classes.now pairs.now out.old }
{
    if LONGEST_BURST < bytes.len() {
        return refuse(Cause::TooLong, 0);
    }
    check_lent(threshold, classes, pairs)?;
    let count = count_lines(bytes);
    if out.len() < NUMBERS_PER_LINE * count {
        return refuse(Cause::NoRoom, 0);
    }
    put_rows(bytes, threshold, classes, pairs, out);
    Ok(count as u32)
}
