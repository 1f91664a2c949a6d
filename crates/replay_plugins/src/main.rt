// Replays the oracle's answers of the eight detectors to short texts of raw flag words (oracle/lists/plugins.py, whose head says what a
// case holds).
#![tactic(auto)]

ghost use Rattle.std.specs.Prelude.{◌≤◌, length};
ghost use Rattle.base.specs.Inner.Limits.{LARGEST};
ghost use Rattle.md_eight.specs.Inner.Detectors.{Countable};
ghost use Rattle.replay_plugins.specs.Inner.Numbers.{Numbers};

use classes::Class;
use md_eight::Detectors;
use ratio::rounding::{bits, sum};
use ratio::telling::{NUMBERS_SHOWN, eight_shown, shown_numbers};
use ratio::{DETECTORS, Ratios};
use replay::{WORD, byte, replay_cases, same_words, word};
use std::io;

// The words before the letters: the sum, eight ratios, their counts, and the number of letters.
const COUNTS_AT: usize = DETECTORS + 1;

const HEAD: usize = COUNTS_AT + NUMBERS_SHOWN + 1;

// The words of a letter: code point, flags, range and base, and two words of bytes for the pairs.
const LETTER: usize = 6;

const PAIRS: usize = 4;

// The longest case is shorter than this.
const LONGEST_CASE: usize = 2048;

// The letter at the place k of the alphabet.
fn letter_class(case: &[u8], k: u8) -> Class {
    let at = HEAD + LETTER * (k as usize);
    Class {
        point: word(case, at),
        flags: word(case, at + 1),
        range: word(case, at + 2),
        base: word(case, at + 3),
        lower: 0,
    }
}

// Whether the letter at the place k is suspicious after the range `last`.
fn suspicious(case: &[u8], k: u8, last: u32) -> bool {
    let at = HEAD + LETTER * (k as usize) + PAIRS;
    byte(case, at * WORD + last as usize) == 1
}

// The detectors fed the text.
fn fed_all(case: &[u8], text: &[u8]) -> Detectors
    requires { length text.now ≤ LARGEST }
    ensures { Countable result }
{
    let mut s = Detectors::start();
    for k in text {
        s = s.feed(letter_class(case, *k), suspicious(case, *k, s.last_range()));
    }
    s
}

fn ratios_of(s: Detectors) -> Ratios
    requires { Countable s }
    ensures { Numbers result }
{
    s.ratios()
}

fn sum_bits(r: Ratios) -> u32
    requires { Numbers r }
{
    f32::to_bits(sum(r))
}

fn same_ratios(case: &[u8], r: Ratios) -> bool
    requires { Numbers r }
{
    (sum_bits(r) == word(case, 0)) & same_words(&bits(r), case, 1)
}

// The counts as an answer shows them.
fn same_counts(case: &[u8], s: Detectors) -> bool
    requires { Countable s }
{
    let shown = eight_shown(s.counts(), s.ratios());
    same_words(&shown_numbers(shown), case, COUNTS_AT)
}

// Whether the detectors, fed the text, answer as the case says.
fn same_text(case: &[u8], text: &[u8]) -> bool
    requires { length text.now ≤ LARGEST }
{
    let s = fed_all(case, text);
    same_ratios(case, ratios_of(s)) & same_counts(case, s)
}

fn same_case(case: &[u8]) -> bool {
    let letters = word(case, HEAD - 1) as usize;
    let from = (HEAD + LETTER * letters) * WORD;
    if from > case.len() {
        return false;
    }
    let text = &case[from..];
    (text.len() <= LONGEST_CASE) && same_text(case, text)
}

fn main(rt: HostRuntime) -> io::Result<()> {
    let mut buf = [0u8; LONGEST_CASE];
    replay_cases(&rt, &mut buf, same_case)
}
