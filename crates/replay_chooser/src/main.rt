// Replays verdicts on pairs of texts, and the parts that the chooser hands back (oracle/lists/chooser.py).
#![tactic(auto)]

ghost use Rattle.std.specs.Prelude.{◌≤◌, length};

use base::limits::{CLASS_RECORD, MOST_CLASSES, PAIR_BYTES};
use md_chooser::{choose, verdict};
use md_chooser_meaning::{Side, Unjudged};
use replay::{WORD, least, read_case, replay_cases, same_words, word, words};
use std::io;

// Where a case's words begin: the bytes of the pair table and of the class table, the verdict, the length of the part handed back, the
// length of the first text, and the two texts.
const PAIRS_AT: usize = 0;

const CLASSES_AT: usize = 1;

const TAKEN_AT: usize = 2;

const PART_AT: usize = 6;

const FIRST_AT: usize = 7;

const TEXTS_AT: usize = 8;

const MOST_POINTS: usize = 1024;

const CASE_BYTES: usize = 8192;

// The most bytes of the class table at the list's front, and those of the pair table there, which has a word of 0 behind it.
const CLASS_BYTES: usize = MOST_CLASSES * CLASS_RECORD;

const PAIR_ROOM: usize = PAIR_BYTES + WORD;

// Whether the verdict is that of the case: the text taken, or the text refused with number and place.
fn same_verdict(judged: Result<Side, Unjudged>, buf: &[u8]) -> bool {
    let told = match judged {
        Ok(side) => [side as u32, 0, 0, 0],
        Err(u) => [0, u.side as u32, u.why.cause.number(), u.why.place],
    };
    same_words(&told, buf, TAKEN_AT)
}

// Whether both calls answer on the two texts as the case says.
fn same_texts<'a>(
    first: &'a [u32],
    second: &'a [u32],
    buf: &[u8],
    classes: &[u8],
    pairs: &[u8],
) -> bool {
    let part = choose(first, second, classes, pairs);
    let length = part.len() == word(buf, PART_AT) as usize;
    let whole = if word(buf, TAKEN_AT) == Side::Second as u32 {
        second
    } else {
        first
    };
    length & whole.starts_with(part) & same_verdict(verdict(first, second, classes, pairs), buf)
}

// The two texts stand one behind the other, the first of k code points.
fn same_cut(texts: &[u32], k: usize, buf: &[u8], classes: &[u8], pairs: &[u8]) -> bool
    requires { k ≤ length texts.now }
{
    same_texts(&texts[..k], &texts[k..], buf, classes, pairs)
}

fn same_case(buf: &[u8], classes: &[u8], pairs: &[u8]) -> bool {
    let mut text = [0u32; MOST_POINTS];
    let all = buf.len() / WORD;
    let Some(n) = all.checked_sub(TEXTS_AT) else {
        return false;
    };
    if n > MOST_POINTS {
        return false;
    }
    let k = least(word(buf, FIRST_AT) as usize, n);
    let c = least(word(buf, CLASSES_AT) as usize, classes.len());
    let p = least(word(buf, PAIRS_AT) as usize, pairs.len());
    words(buf, TEXTS_AT, &mut text);
    same_cut(&text[..n], k, buf, &classes[..c], &pairs[..p])
}

// The cases stand behind the two tables.
fn main(rt: HostRuntime) -> io::Result<()> {
    let mut classes = [0u8; CLASS_BYTES];
    let mut pairs = [0u8; PAIR_ROOM];
    let mut buf = [0u8; CASE_BYTES];
    let classes = read_case(&rt, &mut classes).unwrap_or(&[]);
    let pairs = read_case(&rt, &mut pairs).unwrap_or(&[]);
    replay_cases(&rt, &mut buf, |case| same_case(case, classes, pairs))
}
