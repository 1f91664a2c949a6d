// Replays a list of texts with the oracle's layers (oracle/lists/layers.py): the letters of each layer, in making order and in text order,
// how many they are, and its different letters by count falling, then code point rising.
#![tactic(auto)]

ghost use Rattle.std.specs.Prelude.{◌+◌, ◌≤◌, ◌≡◌, length};
ghost use Rattle.base.specs.Limits.{LAST_RANGE, PAIR_BYTES};
ghost use Rattle.cd_work.specs.Inner.Layout as layout;
ghost use Rattle.replay_layers.specs.Inner.Filling.{LONGEST, LAST_WORD, Filled};

use base::limits::{PAIR_BYTES, RANGES, WORK_PER_POINT};
use cd_layers::alpha_unicode_split;
use cd_letters::{rank, size};
use cd_work::{lacks_start, letters_start, order_start};
use replay::{flip_bits, replay_cases, same_words, word, words};
use std::io;

// The characters of the longest text, and the words of the work area for it.
const LONGEST: usize = 1024;

const WORK: usize = WORK_PER_POINT * LONGEST;

const CASE_BYTES: usize = 32768;

// No word of a case stands past this one.
const LAST_WORD: usize = 8192;

// The first words of a case: how many characters, how many pairs, how many layers, and the byte that fills the pair table before the bits of
// the pairs are flipped. Then come the pairs, each as 512a + b; the characters' ranges, 0 for one that is not taken; the lowered letters; and
// for each layer how many letters it has, these letters, how many different ones it has, and these by popularity.
const HEAD: usize = 4;

// Puts the ranges that stand from the word `from` on into the first n words of the work area.
fn set_ranges(buf: &[u8], from: usize, n: usize, work: &mut [u32])
    requires { (from ≤ LAST_WORD) × (n ≤ length work.old) × (n ≤ LONGEST) }
    ensures { Filled n work.old work.new }
{
    for i in 0..n {
        work[i] = word(buf, from + i) % RANGES;
    }
}

// Whether the letters of the layer k stand from the word `at` on.
fn same_letters(buf: &[u8], at: usize, work: &[u32], n: usize, k: u32) -> bool
    requires { (at ≤ LAST_WORD + 1) × (layout.words n ≤ length work.now) × (n ≤ LONGEST) }
{
    let letters = letters_start(n);
    let mut same = true;
    let mut j = at;
    for i in 0..n {
        if work[i] == k {
            same = same & (work[letters + i] == word(buf, j));
            j += 1;
        }
    }
    same
}

// Whether the d words from the word `at` on are the ranked letters.
fn same_ranking(buf: &[u8], at: usize, work: &[u32], n: usize, d: usize) -> bool
    requires { (at ≤ LAST_WORD + LONGEST + 2) × (d ≤ n) × (layout.words n ≤ length work.now) × (n ≤ LONGEST) }
{
    let order = order_start(n);
    same_words(&work[order..order + d], buf, at)
}

// The word behind the layer k, if it is as it stands from the word `at` on.
fn past_layer(buf: &[u8], at: usize, work: &mut [u32], n: usize, k: u32) -> Option<usize>
    requires { (at ≤ LAST_WORD) × (layout.words n ≤ length work.old) × (n ≤ LONGEST) }
{
    let c = size(&work[..n], k);
    if !same_letters(buf, at + 1, work, n, k) {
        return None;
    }
    let d = rank(work, n, k);
    let next = at + 1 + c;
    let same = (word(buf, at) as usize == c) & (word(buf, next) as usize == d);
    if same & same_ranking(buf, next + 1, work, n, d) {
        Some(next + 1 + d)
    } else {
        None
    }
}

fn same_layers(buf: &[u8], from: usize, work: &mut [u32], n: usize, count: usize) -> bool
    requires { (from ≤ LAST_WORD) × (layout.words n ≤ length work.old) × (n ≤ LONGEST) × (count ≤ LAST_RANGE) }
{
    let mut at = from;
    for k in 0..count {
        let Some(next) = past_layer(buf, at, work, n, (k + 1) as u32) else {
            return false;
        };
        if next > LAST_WORD {
            return false;
        }
        at = next;
    }
    true
}

// Whether the text of n characters that stands behind p pairs has the layers that stand behind it.
fn same_text(buf: &[u8], n: usize, p: usize, pairs: &[u8], work: &mut [u32]) -> bool
    requires { (n ≤ LONGEST) × (p ≤ LONGEST) × (layout.words n ≤ length work.old) × (length pairs.now ≡ PAIR_BYTES) }
{
    let ranges = HEAD + p;
    let letters = ranges + n;
    let start = letters_start(n);
    let end = lacks_start(n);
    words(buf, letters, &mut work[start..end]);
    set_ranges(buf, ranges, n, work);
    let count = alpha_unicode_split(work, n, pairs);
    (count == word(buf, 2) as usize) & same_layers(buf, letters + n, work, n, count)
}

fn same_case(buf: &[u8]) -> bool {
    let n = word(buf, 0) as usize;
    let p = word(buf, 1) as usize;
    if n > LONGEST || p > LONGEST {
        return false;
    }
    let fill = (word(buf, 3) % 256) as u8;
    let mut pairs = [fill; PAIR_BYTES];
    let mut work = [0u32; WORK];
    flip_bits(buf, HEAD, p, &mut pairs);
    same_text(buf, n, p, &pairs, &mut work)
}

fn main(rt: HostRuntime) -> io::Result<()> {
    let mut buf = [0u8; CASE_BYTES];
    replay_cases(&rt, &mut buf, same_case)
}
