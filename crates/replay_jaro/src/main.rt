// Replays a list of pairs of letters with their Jaro measure, the f32 by the oracle, and of f64s with their nearest f32
// (oracle/lists/jaro.py).
#![tactic(auto)]

ghost use Rattle.std.specs.Prelude.{◌≡◌, ◌<◌, ◌≤◌, ◌^◌, length};
ghost use Rattle.base.specs.Inner.Limits.{MOST_LETTERS};
ghost use Rattle.base.specs.Limits.{LANGUAGE_LETTERS};
ghost use Rattle.f32_nearest.specs.Inner.Nearest.{Narrowable};
ghost use Rattle.replay.specs.Inner.Sizes.{MOST_WORDS};

use base::limits::{LANGUAGE_LETTERS, MOST_LETTERS};
use cd_jaro::{jaro, matched, similarity};
use f32_nearest::nearest_f32;
use replay::{WORD, replay_cases, word, words};
use std::io;

// The first word of a case: two lists of letters, or a number.
const LISTS: u32 = 1;

const NUMBER: u32 = 2;

// The words before the letters: the kind, two lengths, m, t, the f64 and the f32.
const HEAD: usize = 8;

// The bytes of the longest case.
const CASE_BYTES: usize = WORD * (HEAD + MOST_LETTERS + LANGUAGE_LETTERS);

// The bits of 1.0: up to them no pattern is a NaN's.
const ONE_BITS: u64 = 0x3FF0_0000_0000_0000;

// What a one of the high word counts.
const HIGH: u64 = 0x1_0000_0000;

fn to_u64(x: u32) -> u64
    ensures { result < 2 ^ 32 }
{
    x as u64
}

// The f64's bits that stand from the word `at` on, the low word first.
fn bits_at(buf: &[u8], at: usize) -> u64
    requires { at ≤ MOST_WORDS }
{
    to_u64(word(buf, at)) + HIGH * to_u64(word(buf, at + 1))
}

// The f64 of these bits, if it is one that `nearest_f32` takes; 0 for any other.
fn number_of(u: u64) -> f64
    ensures { Narrowable result }
{
    if u > ONE_BITS {
        return 0.0;
    }
    let x = f64::from_bits(u);
    if 0.125 <= x {
        if x <= 1.0 {
            return x;
        }
    }
    0.0
}

fn nearest_bits(x: f64) -> u32
    requires { Narrowable x }
{
    f32::to_bits(nearest_f32(x))
}

fn same_number(buf: &[u8]) -> bool {
    nearest_bits(number_of(bits_at(buf, 1))) == word(buf, 3)
}

fn jaro_bits(layer: &[u32], language: &[u32]) -> u64
    requires { (length layer.now ≤ MOST_LETTERS) × (length language.now ≤ LANGUAGE_LETTERS) }
{
    f64::to_bits(jaro(layer, language))
}

fn similarity_bits(layer: &[u32], language: &[u32]) -> u32
    requires { (length layer.now ≤ MOST_LETTERS) × (length language.now ≤ LANGUAGE_LETTERS) }
{
    f32::to_bits(similarity(layer, language))
}

// Whether m, t, the f64 and the f32 of two lists are those that the case has.
fn same_measure(buf: &[u8], layer: &[u32], language: &[u32]) -> bool
    requires { (length layer.now ≤ MOST_LETTERS) × (length language.now ≤ LANGUAGE_LETTERS) }
{
    let counts = matched(layer, language);
    (counts.matches == word(buf, 3) as usize)
        & (counts.transpositions == word(buf, 4) as usize)
        & (jaro_bits(layer, language) == bits_at(buf, 5))
        & (similarity_bits(layer, language) == word(buf, 7))
}

// The letters are put at the front of the two lent lists.
fn same_lists(
    buf: &[u8],
    layer: &mut [u32; MOST_LETTERS],
    language: &mut [u32; LANGUAGE_LETTERS],
) -> bool {
    let a = word(buf, 1) as usize;
    let b = word(buf, 2) as usize;
    if a > MOST_LETTERS || b > LANGUAGE_LETTERS {
        return false;
    }
    words(buf, HEAD, &mut layer[..a]);
    words(buf, HEAD + a, &mut language[..b]);
    same_measure(buf, &layer[..a], &language[..b])
}

fn same_case(
    buf: &[u8],
    layer: &mut [u32; MOST_LETTERS],
    language: &mut [u32; LANGUAGE_LETTERS],
) -> bool {
    match word(buf, 0) {
        LISTS => same_lists(buf, layer, language),
        NUMBER => same_number(buf),
        _ => false,
    }
}

fn main(rt: HostRuntime) -> io::Result<()> {
    let mut buf = [0u8; CASE_BYTES];
    let mut layer = [0u32; MOST_LETTERS];
    let mut language = [0u32; LANGUAGE_LETTERS];
    replay_cases(
        &rt,
        &mut buf,
        |case| same_case(case, &mut layer, &mut language),
    )
}
