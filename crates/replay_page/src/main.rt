// Replays a list of readings and writings under code pages with what they answer (oracle/lists/page.py): every byte of the three tables both ways, pages
// bad in every way, code points that a page lacks, and the limits of length and room. Each case compares the answer and every element of the output.
#![tactic(auto)]

ghost use Rattle.std.specs.Prelude.{◌≤◌};
ghost use Rattle.replay_page.specs.Inner.Sizes.{PAGE_ROOM, LONGEST};

use page::{read_page, write_page};
use replay::{least, replay_cases, same_counted, word};
use std::io;

// The words at the head of a case.
const WRITING: usize = 0;

const ENTRIES: usize = 1;

const ROOM: usize = 2;

const LENGTH: usize = 3;

const UNIT: usize = 4;

const NUMBER: usize = 5;

const COUNT: usize = 7;

// Behind the head the page, two entries to a word; then the unit of the input, and what stands for it in the output.
const PAGE_FROM: usize = 8;

const PAGE_ROOM: usize = 132;

const UNIT_FROM: usize = 74;

// More than a unit has, and bytes of the longest case.
const SMALL: usize = 1024;

const CASE_BYTES: usize = 4096;

// The longest input and output: one over the limit.
const LONGEST: usize = 65537;

// What stands in an output before a call: no code point, and a byte.
const UNTOUCHED: u32 = 0xFFFF_FFFF;

const UNTOUCHED_BYTE: u8 = 0xA5;

// The entry i of the page: the low half of a word, then its high half.
fn entry(case: &[u8], i: usize) -> u16 {
    let two = word(case, PAGE_FROM + i % PAGE_ROOM / 2);
    if i % 2 == 0 {
        return (two % 65536) as u16;
    }
    (two / 65536) as u16
}

// The place of the element i in the unit, which stands over and over.
fn in_unit(case: &[u8], i: usize) -> usize
    ensures { result ≤ 1024 }
{
    let unit = word(case, UNIT) as usize % SMALL;
    if unit == 0 {
        return 0;
    }
    i % unit
}

// The element i of the input.
fn given(case: &[u8], i: usize) -> u32 {
    word(case, UNIT_FROM + in_unit(case, i))
}

// The element i that the output must have, where it is below the count.
fn told_element(case: &[u8], i: usize) -> u32 {
    let unit = word(case, UNIT) as usize % SMALL;
    word(case, UNIT_FROM + unit + in_unit(case, i))
}

fn put_page(case: &[u8], page: &mut [u16]) {
    for (i, x) in page.iter_mut().enumerate() {
        *x = entry(case, i);
    }
}

fn put_page_bytes(case: &[u8], bytes: &mut [u8]) {
    for (i, x) in bytes.iter_mut().enumerate() {
        *x = (given(case, i) % 256) as u8;
    }
}

fn put_text(case: &[u8], text: &mut [u32]) {
    for (i, x) in text.iter_mut().enumerate() {
        *x = given(case, i);
    }
}

// The element i that an output must have, where `untouched` stood there.
fn left(case: &[u8], i: usize, untouched: u32) -> u32 {
    if word(case, COUNT) as usize <= i {
        return untouched;
    }
    told_element(case, i)
}

fn same_text(case: &[u8], out: &[u32]) -> bool {
    out.iter()
        .enumerate()
        .all(|(i, x)| *x == left(case, i, UNTOUCHED))
}

fn same_bytes(case: &[u8], out: &[u8]) -> bool {
    out.iter().enumerate().all(|(i, x)| u32::from(*x) == left(case, i, u32::from(UNTOUCHED_BYTE)))
}

fn page_size(case: &[u8]) -> usize
    ensures { result ≤ PAGE_ROOM }
{
    least(word(case, ENTRIES) as usize, PAGE_ROOM)
}

// A word of the head that is a length.
fn length_of(case: &[u8], k: usize) -> usize
    ensures { result ≤ LONGEST }
{
    least(word(case, k) as usize, LONGEST)
}

fn same_reading(case: &[u8], page: &mut [u16], bytes: &mut [u8], out: &mut [u32]) -> bool {
    put_page(case, page);
    put_page_bytes(case, bytes);
    let answer = read_page(&page[..], &bytes[..], out);
    same_counted(answer, case, NUMBER) & same_text(case, &out[..])
}

fn same_writing(case: &[u8], page: &mut [u16], text: &mut [u32], out: &mut [u8]) -> bool {
    put_page(case, page);
    put_text(case, text);
    let answer = write_page(&page[..], &text[..], out);
    same_counted(answer, case, NUMBER) & same_bytes(case, &out[..])
}

fn reading(case: &[u8]) -> bool {
    let mut page = [0u16; PAGE_ROOM];
    let mut bytes = [0u8; LONGEST];
    let mut out = [UNTOUCHED; LONGEST];
    let entries = page_size(case);
    let n = length_of(case, LENGTH);
    let room = length_of(case, ROOM);
    same_reading(
        case,
        &mut page[..entries],
        &mut bytes[..n],
        &mut out[..room],
    )
}

fn writing(case: &[u8]) -> bool {
    let mut page = [0u16; PAGE_ROOM];
    let mut text = [0u32; LONGEST];
    let mut out = [UNTOUCHED_BYTE; LONGEST];
    let entries = page_size(case);
    let n = length_of(case, LENGTH);
    let room = length_of(case, ROOM);
    same_writing(case, &mut page[..entries], &mut text[..n], &mut out[..room])
}

// Whether the call of the case answers what the list says.
fn same_case(case: &[u8]) -> bool {
    if word(case, WRITING) == 0 {
        return reading(case);
    }
    writing(case)
}

fn main(rt: HostRuntime) -> io::Result<()> {
    let mut buf = [0u8; CASE_BYTES];
    replay_cases(&rt, &mut buf, same_case)
}
