// How alike a layer's letters and a language's are: the Jaro measure in f64, and its nearest f32. (strsim's `jaro`, and `as f32`, in cd.rs.)
#![tactic(auto)]

ghost use Rattle.std.specs.Prelude.{◌≡◌, ◌-◌, ◌≤◌, length};
ghost use Rattle.base.specs.Inner.Limits.{MOST_LETTERS};
ghost use Rattle.base.specs.Limits.{LANGUAGE_LETTERS};
ghost use Rattle.cd_jaro_meaning.specs.Jaro as spec;
ghost use Rattle.cd_jaro_meaning.specs.Inner.Jaro.{Counted};
ghost use Rattle.cd_jaro.specs.Inner.OutOfOrder.{Paired};
ghost use Rattle.cd_jaro.specs.Inner.Place as found;
ghost use Rattle.cd_jaro_meaning.specs.Similarity.{similarity};

use base::limits::LANGUAGE_LETTERS;
use base::{holds, one};

// m and t of the measure.
#[derive(Clone, Copy)]
pub struct Counts {
    pub matches: usize,
    pub transpositions: usize,
}

// Up to so many letters of a window are compared one by one.
const FEW: usize = 32;

// n - k, at least 0.
fn less(n: usize, k: usize) -> usize
    ensures { result ≡ n - k }
{
    if n < k { 0 } else { n - k }
}

// The smaller of two numbers.
fn least(a: usize, b: usize) -> usize
    ensures { found.Least a b result }
{
    if a < b { a } else { b }
}

// How far from its own place a letter may be matched: half the longer length less 1.
fn window(a: usize, b: usize) -> usize
    ensures { result ≡ spec.window a b }
{
    if a < b {
        return less(b / 2, 1);
    }
    less(a / 2, 1)
}

// The first letter of the language that x, at i of the layer, may take; the language's length where there is none. Only the places in
// the window are looked at, and where those are many, only if x is among them at all.
fn place(language: &[u32], taken: &[bool], x: u32, i: usize, w: usize) -> usize
    requires { found.Reach language.now taken.now i w }
    ensures { result ≡ spec.place language.now taken.now x i w }
{
    let n = language.len();
    let start = less(i, w);
    let end = least(i + w + 1, n);
    if start + FEW < end {
        if !holds(&language[start..end], x) {
            return n;
        }
    }
    for j in start..end {
        if language[j] == x && !taken[j] {
            return j;
        }
    }
    n
}

// How many of the layer's matched letters differ from the language's taken letter of the same rank.
fn out_of_order(language: &[u32], taken: &[bool], letters: &[u32]) -> usize
    requires { Paired language.now taken.now letters.now }
    ensures { result ≡ spec.differing letters.now (spec.picked language.now taken.now) }
{
    let mut out = 0;
    let mut k = 0;
    for (j, y) in language.iter().enumerate() {
        if taken[j] {
            out += one(letters[k] != *y) as usize;
            k += 1;
        }
    }
    out
}

// How many letters match, and half of those that are out of order.
pub fn matched(layer: &[u32], language: &[u32]) -> Counts
    requires { (length layer.now ≤ MOST_LETTERS) × (length language.now ≤ LANGUAGE_LETTERS) }
    ensures { Counted layer.now language.now result.matches result.transpositions }
{
    let n = language.len();
    let w = window(layer.len(), n);
    let mut taken = [false; LANGUAGE_LETTERS];
    let mut letters = [0u32; LANGUAGE_LETTERS];
    let mut m = 0;
    for (i, x) in layer.iter().enumerate() {
        let j = place(language, &taken[..n], *x, i, w);
        if j < n {
            taken[j] = true;
            letters[m] = *x;
            m += 1;
        }
    }
    let out = out_of_order(language, &taken[..n], &letters[..m]);
    Counts {
        matches: m,
        transpositions: out / 2,
    }
}

// p / q
fn over(p: usize, q: usize) -> f64
    requires { (p ≤ MOST_LETTERS) × (q ≤ MOST_LETTERS) }
    ensures { result ≡ spec.over p q }
{
    p as f64 / q as f64
}

// The Jaro measure: (m/a + m/b + (m-t)/m)/3, left to right; 0 where nothing matches.
pub fn jaro(layer: &[u32], language: &[u32]) -> f64
    requires { (length layer.now ≤ MOST_LETTERS) × (length language.now ≤ LANGUAGE_LETTERS) }
    ensures { result ≡ spec.jaro layer.now language.now }
{
    let counts = matched(layer, language);
    let m = counts.matches;
    let t = counts.transpositions;
    if m == 0 {
        return 0.0;
    }
    (over(m, layer.len()) + over(m, language.len()) + over(m - t, m)) / 3.0
}

// The Jaro measure as the nearest f32.
pub fn similarity(layer: &[u32], language: &[u32]) -> f32
    requires { (length layer.now ≤ MOST_LETTERS) × (length language.now ≤ LANGUAGE_LETTERS) }
    ensures { result ≡ similarity layer.now language.now }
{
    f32_nearest::nearest_f32(jaro(layer, language))
}
