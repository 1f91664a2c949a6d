// Replays a list of calls over a ring with what each answers and leaves (oracle/lists/ring.py): histories of small rings, wrong sizes, heads and counts, short
// outputs, and the largest ring. Each case compares the answer, every byte of the ring and every byte of the output.
#![tactic(auto)]

ghost use Rattle.std.specs.Prelude.{◌≤◌, ◌<◌};
ghost use Rattle.replay_ring.specs.Inner.Sizes.{SMALL, RING, OUTPUT};

use base::Refusal;
use base::refusals::ACCEPTED;
use replay::{WORD, byte, least, replay_cases, same_words, word};
use ring::{MOST_SLOTS, RECORD, flush_records, open_ring, put_record};
use ring_meaning::{Kept, Verdict};
use std::io;

// The words at the head of a case: which call, its arguments, its answer, and how many bytes of the ring and of the output are told.
const CALL: usize = 0;

const SIZE: usize = 1;

const HEAD: usize = 2;

const COUNT: usize = 3;

const LINE_LOW: usize = 4;

const LINE_HIGH: usize = 5;

const BITS: usize = 6;

const FED: usize = 7;

const STOPPED: usize = 8;

const REFUSAL: usize = 9;

const MOST: usize = 10;

const ROOM: usize = 11;

const NUMBER: usize = 12;

const TOLD: usize = 16;

const WRITTEN: usize = 17;

const HEAD_WORDS: usize = 18;

// The calls.
const OPEN: u32 = 0;

const PUT: u32 = 1;

// More than a case tells of a ring or of an output.
const SMALL: usize = 1024;

const CASE_BYTES: usize = 4096;

// The largest ring, a slot over the limit, and the largest output.
const RING: usize = RECORD * MOST_SLOTS + RECORD;

const OUTPUT: usize = 1024;

// What stands in the output before a call.
const UNTOUCHED: u8 = 0xEE;

// The k-th word of the head, where it says how many bytes are told.
fn told_size(case: &[u8], k: usize) -> usize
    ensures { result < SMALL }
{
    word(case, k) as usize % SMALL
}

// The i-th byte of the ring before the call: those told, then zeros.
fn byte_before(case: &[u8], i: usize) -> u8 {
    let told = told_size(case, TOLD);
    if i < told {
        return byte(case, HEAD_WORDS * WORD + i);
    }
    0
}

// The same after the call.
fn byte_after(case: &[u8], i: usize) -> u8 {
    let told = told_size(case, TOLD);
    if i < told {
        return byte(case, HEAD_WORDS * WORD + told + i);
    }
    0
}

// The i-th byte of the output after the call: those told, then what stood there.
fn byte_out(case: &[u8], i: usize) -> u8 {
    let told = told_size(case, TOLD);
    let written = told_size(case, WRITTEN);
    if i < written {
        return byte(case, HEAD_WORDS * WORD + told + told + i);
    }
    UNTOUCHED
}

fn put_ring(case: &[u8], ring: &mut [u8]) {
    for (i, x) in ring.iter_mut().enumerate() {
        *x = byte_before(case, i);
    }
}

fn same_ring(case: &[u8], ring: &[u8]) -> bool {
    ring.iter()
        .enumerate()
        .all(|(i, x)| *x == byte_after(case, i))
}

fn same_output(case: &[u8], out: &[u8]) -> bool {
    out.iter().enumerate().all(|(i, x)| *x == byte_out(case, i))
}

fn line_of(case: &[u8]) -> u64 {
    word(case, LINE_HIGH) as u64 * 4294967296 + word(case, LINE_LOW) as u64
}

fn verdict_of(case: &[u8]) -> Verdict {
    Verdict {
        line: line_of(case),
        bits: word(case, BITS),
        fed: word(case, FED),
        stopped: word(case, STOPPED),
        refusal: word(case, REFUSAL),
    }
}

// The answer of the case's call.
fn ring_answer(case: &[u8], ring: &mut [u8], out: &mut [u8]) -> Result<Kept, Refusal> {
    let call = word(case, CALL);
    let head = word(case, HEAD);
    let count = word(case, COUNT);
    if call == OPEN {
        return open_ring(&ring[..]);
    }
    if call == PUT {
        return put_record(ring, head, count, verdict_of(case));
    }
    flush_records(&ring[..], head, count, word(case, MOST), out)
}

// Whether number, place, head and count are those of the case.
fn same_answer(case: &[u8], answer: Result<Kept, Refusal>) -> bool {
    let told = match answer {
        Ok(kept) => [ACCEPTED, 0, kept.head, kept.count],
        Err(why) => [why.cause.number(), why.place, 0, 0],
    };
    same_words(&told, case, NUMBER)
}

fn ring_size(case: &[u8]) -> usize
    ensures { result ≤ RING }
{
    least(word(case, SIZE) as usize, RING)
}

fn output_room(case: &[u8]) -> usize
    ensures { result ≤ OUTPUT }
{
    least(word(case, ROOM) as usize, OUTPUT)
}

// Whether the case's call answers and leaves what the list says.
fn same_call(case: &[u8], ring: &mut [u8], out: &mut [u8]) -> bool {
    put_ring(case, ring);
    let answer = ring_answer(case, ring, out);
    same_answer(case, answer) & same_ring(case, &ring[..]) & same_output(case, &out[..])
}

// The rooms are lent, so that a case costs what it has and not what they hold.
fn same_case(case: &[u8], ring: &mut [u8; RING], out: &mut [u8; OUTPUT]) -> bool {
    let size = ring_size(case);
    let room = output_room(case);
    out[..room].fill(UNTOUCHED);
    same_call(case, &mut ring[..size], &mut out[..room])
}

fn main(rt: HostRuntime) -> io::Result<()> {
    let mut buf = [0u8; CASE_BYTES];
    let mut ring = [0u8; RING];
    let mut out = [0u8; OUTPUT];
    replay_cases(&rt, &mut buf, |case| same_case(case, &mut ring, &mut out))
}
