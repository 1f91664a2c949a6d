// The numbers of one line's answer, and their place in the output.
ghost use Rattle.std.specs.Prelude.{◌≡◌, ◌+◌, ◌≤◌, length, Ok, Err};
ghost use Rattle.base.specs.Put.{put};
ghost use Rattle.md_meaning.specs.Inner.Plain.{PlainScore, PlainAnswer};
ghost use Rattle.md_lines_meaning.specs.Burst as bursts;

use crate::NUMBERS_PER_LINE;
use base::Refusal;
use base::refusals::ACCEPTED;
use md_meaning::Score;
use ratio::DETECTORS;
use ratio::rounding::bits;
use ratio::telling::shown_numbers;

// Where the numbers stand in a row: the refusal's number and place, the ratios, their sum, the characters fed, the mark of having stopped, and
// the counts of each ratio.
const NUMBER_AT: usize = 0;

const PLACE_AT: usize = 1;

const RATIOS_AT: usize = 2;

const SUM_AT: usize = RATIOS_AT + DETECTORS;

const FED_AT: usize = SUM_AT + 1;

const STOPPED_AT: usize = SUM_AT + 2;

const COUNTS_AT: usize = SUM_AT + 3;

// The numbers of a score, whose floats are no NaN and so have bits.
fn row_of_score(s: Score) -> [u32; NUMBERS_PER_LINE]
    requires { PlainScore s }
    ensures { result ≡ bursts.row_numbers (Ok s) }
{
    let mut row = [0; NUMBERS_PER_LINE];
    row[NUMBER_AT] = ACCEPTED;
    let ratios = bits(s.ratios);
    put_row(&ratios, &mut row, RATIOS_AT);
    row[SUM_AT] = s.sum.to_bits();
    row[FED_AT] = s.fed;
    row[STOPPED_AT] = u32::from(s.stopped);
    let counts = shown_numbers(s.counts);
    put_row(&counts, &mut row, COUNTS_AT);
    row
}

// The numbers of a refusal.
fn row_of_refusal(why: Refusal) -> [u32; NUMBERS_PER_LINE]
    ensures { result ≡ bursts.row_numbers (Err why) }
{
    let mut row = [0; NUMBERS_PER_LINE];
    row[NUMBER_AT] = why.cause.number();
    row[PLACE_AT] = why.place;
    row
}

// The numbers of an answer.
pub fn row_of(answer: Result<Score, Refusal>) -> [u32; NUMBERS_PER_LINE]
    requires { PlainAnswer answer }
    ensures { result ≡ bursts.row_numbers answer }
{
    match answer {
        Err(why) => row_of_refusal(why),
        Ok(score) => row_of_score(score),
    }
}

// Puts a row into out from a place on.
pub fn put_row(row: &[u32], out: &mut [u32], at: usize)
    requires { at + length row.now ≤ length out.old }
    ensures { out.new ≡ put out.old at row.now }
{
    out[at..at + row.len()].copy_from_slice(row);
}
