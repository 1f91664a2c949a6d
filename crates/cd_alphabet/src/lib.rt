// How much of a language's alphabet a layer has (cd.rs: alphabet_languages).
#![tactic(auto)]

ghost use Rattle.std.specs.Prelude.{◌≡◌, ◌≤◌, ◌<◌, length};
ghost use Rattle.base.specs.Limits.{LANGUAGE_LETTERS, MOST_LANGUAGES};
ghost use Rattle.ratio.specs.Inner.Fraction.{Small};
ghost use Rattle.base.specs.Among.{among};
ghost use Rattle.cd_alphabet.specs.Alphabet.{alphabet_share, is_candidate};
ghost use Rattle.cd_alphabet.specs.Inner.Sieve as spec;
ghost use Rattle.cd_alphabet.specs.Inner.Sieve.{Sieved};
ghost use Rattle.cd_alphabet.specs.Inner.Key.{Share, key_of};

use base::limits::RECORDS;
use base::{holds, one};
use ratio::{Fraction, at_least};

// places of a sieve; with more of them fewer letters share one, but each layer's sieve starts clear
pub const SIEVE: usize = 16384;

// Marks the place of each of the layer's letters in the sieve, so that a letter whose place is not marked need not be looked for.
pub fn mark(layer: &[u32], sieve: &mut [bool])
    requires { spec.SIEVE ≤ length sieve.old }
    ensures { Sieved layer.now sieve.new }
{
    for x in layer {
        sieve[*x as usize % SIEVE] = true;
    }
}

// Whether x is among the layer's letters.
fn in_layer(layer: &[u32], sieve: &[bool], x: u32) -> bool
    requires { Sieved layer.now sieve.now }
    ensures { result ≡ among x layer.now }
{
    if !sieve[x as usize % SIEVE] {
        return false;
    }
    holds(layer, x)
}

// The distinct letters that an alphabet shares with a layer over its distinct letters. A letter is counted where it stands last.
pub fn share(layer: &[u32], sieve: &[bool], alphabet: &[u32]) -> Fraction
    requires { Sieved layer.now sieve.now × (length alphabet.now ≤ LANGUAGE_LETTERS) }
    ensures { result ≡ alphabet_share layer.now alphabet.now }
{
    let mut num = 0;
    let mut den = 0;
    for (i, x) in alphabet.iter().enumerate() {
        let last = !holds(&alphabet[i + 1..], *x);
        num = num + one(last & in_layer(layer, sieve, *x));
        den = den + one(last);
    }
    Fraction { num, den }
}

// The least share of a candidate is LEAST / PARTS.
const LEAST: u32 = 1;

const PARTS: u32 = 5;

pub fn is_candidate(f: Fraction) -> bool
    requires { Small f }
    ensures { result ≡ is_candidate f }
{
    at_least(f, LEAST, PARTS)
}

// Shares of up to LANGUAGE_LETTERS letters that differ still differ as whole numbers of this many parts.
const WHOLE: u32 = 65536;

// The whole number that candidates are ordered by: a larger share has a smaller one, and of equal shares the earlier record has.
pub fn key(f: Fraction, i: u32) -> u64
    requires { Share f × (i ≤ MOST_LANGUAGES) }
    ensures { result ≡ key_of f i }
{
    (WHOLE - f.num * WHOLE / f.den) as u64 * RECORDS + i as u64
}
