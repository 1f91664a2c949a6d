// Replays a list of byte strings with what reading them answers (oracle/lists/utf8.py): Table 3-7 at every bound, sequences that the end
// cuts off, runs of ASCII, and the limits of bytes, code points and room. Each case compares the answer and every element of the output.
#![tactic(auto)]

ghost use Rattle.std.specs.Prelude.{◌≤◌, ◌<◌};
ghost use Rattle.replay_utf8.specs.Inner.Sizes.{SMALL, INPUT, OUTPUT};

use base::limits::{LONGEST_BYTES, LONGEST_TEXT};
use replay::{WORD, byte, least, replay_cases, same_counted, word};
use std::io;
use utf8::read_utf8;

// The words at the head of a case.
const ROOM: usize = 0;

const CYCLED: usize = 1;

const UNIT: usize = 2;

const TAIL: usize = 3;

const NUMBER: usize = 4;

const COUNT: usize = 6;

const RUN: usize = 7;

const POINTS: usize = 8;

const HEAD_WORDS: usize = 9;

// More than any unit, tail or case has.
const SMALL: usize = 1024;

const CASE_BYTES: usize = 1024;

// The longest input, one byte over the limit, and the largest output, one element over it.
const INPUT: usize = LONGEST_BYTES + 1;

const OUTPUT: usize = LONGEST_TEXT + 1;

// What stands in the output before a call: no code point.
const UNTOUCHED: u32 = 0xFFFF_FFFF;

// The k-th word of the head, where it is a small number.
fn small(case: &[u8], k: usize) -> usize
    ensures { result < SMALL }
{
    word(case, k) as usize % SMALL
}

// The i-th byte of the input: the unit over and over, then the tail.
fn input_byte(case: &[u8], i: usize) -> u8 {
    let cycled = word(case, CYCLED) as usize;
    let unit = small(case, UNIT);
    if i < cycled {
        if unit == 0 {
            return 0;
        }
        return byte(case, HEAD_WORDS * WORD + i % unit);
    }
    byte(case, HEAD_WORDS * WORD + unit + (i - cycled) % SMALL)
}

// The word at which the code points begin: past the bytes, rounded up.
fn points_from(case: &[u8]) -> usize
    ensures { result < SMALL }
{
    HEAD_WORDS + (small(case, UNIT) + small(case, TAIL) + (WORD - 1)) / WORD
}

// The i-th element that the output must have: a code point of the unit over and over, then of the tail, then what stood there.
fn output_word(case: &[u8], i: usize) -> u32 {
    let run = word(case, RUN) as usize;
    let points = small(case, POINTS);
    let from = points_from(case);
    if word(case, COUNT) as usize <= i {
        return UNTOUCHED;
    }
    if i < run {
        if points == 0 {
            return 0;
        }
        return word(case, from + i % points);
    }
    word(case, from + points + (i - run) % SMALL)
}

fn put_input(case: &[u8], input: &mut [u8]) {
    for (i, x) in input.iter_mut().enumerate() {
        *x = input_byte(case, i);
    }
}

fn same_output(case: &[u8], out: &[u32]) -> bool {
    out.iter()
        .enumerate()
        .all(|(i, x)| *x == output_word(case, i))
}

fn input_size(case: &[u8]) -> usize
    ensures { result ≤ INPUT }
{
    least(word(case, CYCLED) as usize + small(case, TAIL), INPUT)
}

fn room_of(case: &[u8]) -> usize
    ensures { result ≤ OUTPUT }
{
    least(word(case, ROOM) as usize, OUTPUT)
}

// Whether the reading of the case's input, into an output of its room, answers what the list says.
fn same_reading(case: &[u8], input: &mut [u8], out: &mut [u32]) -> bool {
    put_input(case, input);
    let answer = read_utf8(&input[..], out);
    same_counted(answer, case, NUMBER) & same_output(case, &out[..])
}

// The rooms are lent, so that a case costs what it has and not what they hold.
fn same_case(case: &[u8], input: &mut [u8; INPUT], out: &mut [u32; OUTPUT]) -> bool {
    let size = input_size(case);
    let room = room_of(case);
    out[..room].fill(UNTOUCHED);
    same_reading(case, &mut input[..size], &mut out[..room])
}

fn main(rt: HostRuntime) -> io::Result<()> {
    let mut buf = [0u8; CASE_BYTES];
    let mut input = [0u8; INPUT];
    let mut out = [0u32; OUTPUT];
    replay_cases(&rt, &mut buf, |case| same_case(case, &mut input, &mut out))
}
