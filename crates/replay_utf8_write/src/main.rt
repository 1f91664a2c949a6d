// Replays a list of texts with what writing them answers (oracle/lists/utf8_write.py): Table 3-6 at the edges of each row, numbers that are no scalar
// value, runs of ASCII, and the limits of code points and room. Each case compares the answer and every byte of the output.
#![tactic(auto)]

ghost use Rattle.std.specs.Prelude.{◌*◌, ◌≤◌, ◌<◌};
ghost use Rattle.replay_utf8_write.specs.Inner.Sizes.{SMALL, INPUT, OUTPUT};

use base::limits::{LONGEST_BYTES, LONGEST_TEXT};
use replay::{WORD, byte, least, replay_cases, same_counted, word};
use std::io;
use utf8_write::write_utf8;

// The words at the head of a case.
const ROOM: usize = 0;

const CYCLED: usize = 1;

const UNIT: usize = 2;

const TAIL: usize = 3;

const NUMBER: usize = 4;

const COUNT: usize = 6;

const RUN: usize = 7;

const FORM: usize = 8;

const HEAD_WORDS: usize = 9;

// More than any unit, tail or case has.
const SMALL: usize = 1024;

const CASE_BYTES: usize = 1024;

// The longest input, one code point over the limit, and the largest output, one byte over what the longest text takes.
const INPUT: usize = LONGEST_TEXT + 1;

const OUTPUT: usize = LONGEST_BYTES + 1;

// What stands in the output before a call: a byte that is in no form.
const MARK: u8 = 0xFF;

// The k-th word of the head, where it is a small number.
fn short_word(case: &[u8], k: usize) -> usize
    ensures { result < SMALL }
{
    word(case, k) as usize % SMALL
}

// The i-th number of the input: the unit over and over, then the tail.
fn input_point(case: &[u8], i: usize) -> u32 {
    let cycled = word(case, CYCLED) as usize;
    let unit = short_word(case, UNIT);
    if i < cycled {
        if unit == 0 {
            return 0;
        }
        return word(case, HEAD_WORDS + i % unit);
    }
    word(case, HEAD_WORDS + unit + (i - cycled) % SMALL)
}

// The byte at which the forms begin: past the numbers.
fn forms_from(case: &[u8]) -> usize
    ensures { result < 9 * SMALL }
{
    (HEAD_WORDS + short_word(case, UNIT) + short_word(case, TAIL)) * WORD
}

// The i-th byte that the output must have: a byte of the unit's form over and over, then of the tail's, then what stood there.
fn output_byte(case: &[u8], i: usize) -> u8 {
    let run = word(case, RUN) as usize;
    let form = short_word(case, FORM);
    let from = forms_from(case);
    if word(case, COUNT) as usize <= i {
        return MARK;
    }
    if i < run {
        if form == 0 {
            return 0;
        }
        return byte(case, from + i % form);
    }
    byte(case, from + form + (i - run) % SMALL)
}

fn put_points(case: &[u8], input: &mut [u32]) {
    for (i, x) in input.iter_mut().enumerate() {
        *x = input_point(case, i);
    }
}

fn same_output(case: &[u8], out: &[u8]) -> bool {
    out.iter()
        .enumerate()
        .all(|(i, x)| *x == output_byte(case, i))
}

fn points_size(case: &[u8]) -> usize
    ensures { result ≤ INPUT }
{
    least(word(case, CYCLED) as usize + short_word(case, TAIL), INPUT)
}

fn bytes_room(case: &[u8]) -> usize
    ensures { result ≤ OUTPUT }
{
    least(word(case, ROOM) as usize, OUTPUT)
}

// Whether the writing of the case's numbers, into an output of its room, answers what the list says.
fn same_writing(case: &[u8], input: &mut [u32], out: &mut [u8]) -> bool {
    put_points(case, input);
    let answer = write_utf8(&input[..], out);
    same_counted(answer, case, NUMBER) & same_output(case, &out[..])
}

// The rooms are lent, so that a case costs what it has and not what they hold.
fn same_case(case: &[u8], input: &mut [u32; INPUT], out: &mut [u8; OUTPUT]) -> bool {
    let size = points_size(case);
    let room = bytes_room(case);
    out[..room].fill(MARK);
    same_writing(case, &mut input[..size], &mut out[..room])
}

fn main(rt: HostRuntime) -> io::Result<()> {
    let mut buf = [0u8; CASE_BYTES];
    let mut input = [0u32; INPUT];
    let mut out = [0u8; OUTPUT];
    replay_cases(&rt, &mut buf, |case| same_case(case, &mut input, &mut out))
}
