// Replays a list of fractions and thresholds with the answers of f32 arithmetic (oracle/lists/ratio.py): the quotient rounded once, the
// five cut-offs, what a cut-off leaves, the sum of eight, and the finite test.
#![tactic(auto)]

ghost use Rattle.std.specs.Prelude.{◌≤◌};
ghost use Rattle.ratio.specs.Inner.Fraction.{Small, Proper};
ghost use Rattle.ratio.specs.Fraction.{share_of};
ghost use Rattle.ratio.specs.Inner.Eight.{EachSmall};
ghost use Rattle.replay.specs.Inner.Sizes.{MOST_WORDS};

use base::one;
use ratio::finite::is_finite;
use ratio::rounding::{ratios, rounded, sum};
use ratio::{Counts, DETECTORS, EightCounts, Fraction, at_least, counts_of, fraction_of};
use replay::{float_of, replay_cases, word};
use std::io;

// The first word of a case: eight fractions, each with its answers, and the sum; or a threshold.
const FRACTIONS: u32 = 1;

const THRESHOLD: u32 = 2;

// The words of a fraction: num, den, the ratio's bits, the bits of what is left by the cut-off 3/10, and a bit for each cut-off reached.
const WORDS: usize = 5;

// The bytes of the longest case: its kind, eight fractions and the sum.
const CASE_BYTES: usize = 168;

// The bounds for which the laws of ratio are stated: MOST-NUM and MOST-DEN of its specs.
const MOST_NUM: u32 = 0x20_0000;

const MOST_DEN: u32 = 0x4_0002;

fn bounded(f: Fraction) -> Fraction
    ensures { Small result }
{
    if (f.num <= MOST_NUM) & (f.den <= MOST_DEN) {
        f
    } else {
        Fraction { num: 0, den: 1 }
    }
}

// The fraction that stands from the word `at` on; 0 over 1 where it is over 0.
fn fraction_at(buf: &[u8], at: usize) -> Fraction
    requires { at ≤ MOST_WORDS }
    ensures { Proper result }
{
    fraction_of(counts_of(
        bounded(Fraction {
            num: word(buf, at),
            den: word(buf, at + 1),
        }),
        true,
    ))
}

fn ratio_bits(f: Fraction) -> u32
    requires { Proper f }
{
    f32::to_bits(rounded(f))
}

// The cut-offs that f reaches: 3/10, 7/20, 1/10, 17/50 and 1/5, from the lowest bit on.
fn reached(f: Fraction) -> u32
    requires { Proper f }
{
    one(at_least(f, 3, 10))
        + 2 * one(at_least(f, 7, 20))
        + 4 * one(at_least(f, 1, 10))
        + 8 * one(at_least(f, 17, 50))
        + 16 * one(at_least(f, 1, 5))
}

// Whether the fraction from the word `at` on has the answers that stand behind it.
fn same_ratio(buf: &[u8], at: usize) -> bool
    requires { at ≤ MOST_WORDS }
{
    let f = fraction_at(buf, at);
    (ratio_bits(f) == word(buf, at + 2))
        & (ratio_bits(fraction_of(counts_of(f, at_least(f, 3, 10)))) == word(buf, at + 3))
        & (reached(f) == word(buf, at + 4))
}

fn counts_at(buf: &[u8], at: usize) -> Counts
    requires { at ≤ MOST_WORDS }
    ensures { Small (share_of result) }
{
    counts_of(fraction_at(buf, at), true)
}

fn counts_in(buf: &[u8]) -> EightCounts
    ensures { EachSmall result }
{
    EightCounts {
        symbols: counts_at(buf, 1),
        accents: counts_at(buf, 1 + WORDS),
        unprintable: counts_at(buf, 1 + 2 * WORDS),
        ranges: counts_at(buf, 1 + 3 * WORDS),
        doubled: counts_at(buf, 1 + 4 * WORDS),
        words: counts_at(buf, 1 + 5 * WORDS),
        stops: counts_at(buf, 1 + 6 * WORDS),
        archaic: counts_at(buf, 1 + 7 * WORDS),
    }
}

fn sum_bits(c: EightCounts) -> u32
    requires { EachSmall c }
{
    f32::to_bits(sum(ratios(c)))
}

fn same_fractions(buf: &[u8]) -> bool {
    (sum_bits(counts_in(buf)) == word(buf, 1 + DETECTORS * WORDS))
        & (0..DETECTORS).all(|i| same_ratio(buf, 1 + i * WORDS))
}

fn same_case(buf: &[u8]) -> bool {
    match word(buf, 0) {
        FRACTIONS => same_fractions(buf),
        THRESHOLD => one(is_finite(float_of(word(buf, 1)))) == word(buf, 2),
        _ => false,
    }
}

fn main(rt: HostRuntime) -> io::Result<()> {
    let mut buf = [0u8; CASE_BYTES];
    replay_cases(&rt, &mut buf, same_case)
}
