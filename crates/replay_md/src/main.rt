// Replays mess_ratio's whole answers (oracle/lists/md.py): texts over the crate's tables, every cause of refusal and every pair of causes.
#![tactic(auto)]

ghost use Rattle.std.specs.Prelude.{◌≡◌, ◌≤◌, length};
ghost use Rattle.md_meaning.specs.Inner.Plain.{PlainAnswer, PlainScore};

use base::limits::{CLASS_RECORD, LONGEST_TEXT, MOST_CLASSES, PAIR_BYTES};
use base::{Refusal, one};
use md::mess_ratio;
use md_meaning::Score;
use ratio::DETECTORS;
use ratio::rounding::bits;
use ratio::telling::{NUMBERS_SHOWN, shown_numbers};
use replay::{WORD, float_of, least, read_case, replay_cases, same_words, word, words};
use std::io;

// The first word of a case: a text over the class table of the list's front, one with a class table of its own, and one character repeated.
const TEXT: u32 = 1;

const OWN: u32 = 2;

const REPEATED: u32 = 3;

// Where a case's words begin: the threshold, the bytes of the pair table and of the class table, the answer, and what is left.
const THRESHOLD_AT: usize = 1;

const PAIRS_AT: usize = 2;

const CLASSES_AT: usize = 3;

const ANSWER_AT: usize = 4;

const RATIOS_AT: usize = ANSWER_AT + 2;

const SUM_AT: usize = RATIOS_AT + DETECTORS;

const COUNTS_AT: usize = SUM_AT + 3;

const REST_AT: usize = COUNTS_AT + NUMBERS_SHOWN;

const CASE_BYTES: usize = 8192;

// The most bytes of the class table at the list's front, and those of the pair table there, which has a word of 0 behind it.
const CLASS_BYTES: usize = MOST_CLASSES * CLASS_RECORD;

const PAIR_ROOM: usize = PAIR_BYTES + WORD;

// The most code points of a text that stands in a case, and of one character repeated: one over the limit.
const SHORT_TEXT: usize = 2048;

const LONG_TEXT: usize = LONGEST_TEXT + 1;

fn same_ratios(s: Score, buf: &[u8]) -> bool
    requires { PlainScore s }
{
    same_words(&bits(s.ratios), buf, RATIOS_AT)
}

fn same_score(s: Score, buf: &[u8]) -> bool
    requires { PlainScore s }
{
    (word(buf, ANSWER_AT) == 0)
        & (word(buf, ANSWER_AT + 1) == 0)
        & same_ratios(s, buf)
        & (f32::to_bits(s.sum) == word(buf, SUM_AT))
        & (s.fed == word(buf, SUM_AT + 1))
        & (one(s.stopped) == word(buf, SUM_AT + 2))
        & same_words(&shown_numbers(s.counts), buf, COUNTS_AT)
}

// Whether an answer is the one that a case has.
fn same_answer(a: Result<Score, Refusal>, buf: &[u8]) -> bool
    requires { PlainAnswer a }
{
    match a {
        Ok(s) => same_score(s, buf),
        Err(r) => (r.cause.number() == word(buf, ANSWER_AT))
            & (r.place == word(buf, ANSWER_AT + 1)),
    }
}

// Whether the text is answered as the case says, over these tables cut to the case's sizes.
fn same(text: &[u32], buf: &[u8], classes: &[u8], pairs: &[u8]) -> bool {
    let c = least(word(buf, CLASSES_AT) as usize, classes.len());
    let p = least(word(buf, PAIRS_AT) as usize, pairs.len());
    same_answer(
        mess_ratio(
            text,
            float_of(word(buf, THRESHOLD_AT)),
            &classes[..c],
            &pairs[..p],
        ),
        buf,
    )
}

// A text that stands in the case from the word `from` on.
fn same_text(buf: &[u8], from: usize, classes: &[u8], pairs: &[u8]) -> bool {
    let mut text = [0u32; SHORT_TEXT];
    let all = buf.len() / WORD;
    let Some(n) = all.checked_sub(from) else {
        return false;
    };
    words(buf, from, &mut text);
    let Some(text) = text.get(..n) else {
        return false;
    };
    same(text, buf, classes, pairs)
}

// A text behind a class table of its own.
fn same_own(buf: &[u8], pairs: &[u8]) -> bool {
    let at = REST_AT * WORD;
    if buf.len() < at {
        return false;
    }
    let size = least(word(buf, CLASSES_AT) as usize, buf.len() - at);
    same_text(buf, REST_AT + (size + 3) / WORD, &buf[at..], pairs)
}

fn same_repeated(buf: &[u8], classes: &[u8], pairs: &[u8]) -> bool {
    let text = [word(buf, REST_AT + 1); LONG_TEXT];
    let n = least(word(buf, REST_AT) as usize, LONG_TEXT);
    same(&text[..n], buf, classes, pairs)
}

fn same_case(buf: &[u8], classes: &[u8], pairs: &[u8]) -> bool {
    match word(buf, 0) {
        TEXT => same_text(buf, REST_AT, classes, pairs),
        OWN => same_own(buf, pairs),
        REPEATED => same_repeated(buf, classes, pairs),
        _ => false,
    }
}

// The cases stand behind the two tables.
fn main(rt: HostRuntime) -> io::Result<()> {
    let mut classes = [0u8; CLASS_BYTES];
    let mut pairs = [0u8; PAIR_ROOM];
    let mut buf = [0u8; CASE_BYTES];
    let classes = read_case(&rt, &mut classes).unwrap_or(&[]);
    let pairs = read_case(&rt, &mut pairs).unwrap_or(&[]);
    replay_cases(&rt, &mut buf, |case| same_case(case, classes, pairs))
}
