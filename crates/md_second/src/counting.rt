// Six detectors of document 01, each a count by itself over the first n characters. The lists say what a character is: its flags, and where a detector
// asks for it its code point, its range, its base.
ghost use Rattle.std.specs.Prelude.{◌≡◌, ◌&&◌, ◌<◌, length};
ghost use Rattle.base.specs.Flags.{has};
ghost use Rattle.base.specs.Limits.{PAIR_BYTES};
ghost use Rattle.md_counts.specs.TooManySymbolOrPunctuation as symbols;
ghost use Rattle.md_counts.specs.TooManyAccentuated as accents;
ghost use Rattle.md_counts.specs.Unprintable as unprintable;
ghost use Rattle.md_counts.specs.CjkInvalidStop as stops;
ghost use Rattle.md_neighbours.specs.SuspiciousRange as neighbours;
ghost use Rattle.md_neighbours.specs.SuspiciousDuplicateAccent as doubled;
ghost use Rattle.md_second.specs.Inner.After as after;
ghost use Rattle.md_second.specs.Inner.Lists.{Fits, Known};

use base::flags::{
    ACCENTUATED, ALPHABETIC, CJK, COMMON_SAFE, EMOTICON, LATIN, NUMERIC, PUNCTUATION, SYMBOL,
    UNPRINTABLE, UPPERCASE, WHITESPACE,
};
use base::{is_set, one, pick};
use classes::is_suspicious;
use ratio::{Counts, Fraction, at_least, counts_of};

// Symbols: a symbol is worth so many of punctuation; below 3/10 the answer is 0
const SYMBOL_WORTH: u32 = 2;

const SYMBOLS_PART: u32 = 3;

const SYMBOLS_WHOLE: u32 = 10;

// Accents: below so many letters, or below 7/20, the answer is 0
const FEWEST_LETTERS: u32 = 8;

const ACCENTS_PART: u32 = 7;

const ACCENTS_WHOLE: u32 = 20;

// Unprintable: one is worth so many
const UNPRINTABLE_WORTH: u32 = 8;

// Ranges: a suspicious pair is worth so many; below 1/10 the answer is 0
const PAIR_WORTH: u32 = 2;

const PAIRS_PART: u32 = 1;

const PAIRS_WHOLE: u32 = 10;

// Doubled accents: what two neighbours add is worth so many
const DOUBLED_WORTH: u32 = 2;

// CJK stops: the two code points; below so many CJK characters the answer is 0
const FEWEST_CJK: u32 = 16;

const STOP_UP: u32 = 0x4E04;

const STOP_DOWN: u32 = 0x4E05;

// Whether a printable character adds to more than n: it is not the last printable one again, and not COMMON_SAFE.
fn is_mark(printed: u32, last: u32, point: u32, f: u32) -> bool
    ensures { result ≡ after.is_mark printed last point f }
{
    !is_set(f, UNPRINTABLE) & (!((0 < printed) & (point == last)) & !is_set(f, COMMON_SAFE))
}

fn is_plain_symbol(f: u32) -> bool
    ensures { result ≡ symbols.counted_symbol f }
{
    !is_set(f, PUNCTUATION) & !is_set(f, NUMERIC) & is_set(f, SYMBOL) & !is_set(f, EMOTICON)
}

// Symbols: "printable characters. (punctuation + 2 per symbol)/n, 0 if below 3/10. A character equal to the last printable one adds only to n."
pub fn count_symbols(points: &[u32], flags: &[u32], n: usize) -> Counts
    requires { Fits points.now n × Fits flags.now n }
    ensures { result ≡ symbols.counts (after.symbols_after points.now flags.now n) }
{
    let mut printed = 0;
    let mut punctuation = 0;
    let mut symbols = 0;
    let mut last = 0;
    for i in 0..n {
        let f = flags[i];
        let point = points[i];
        let printable = !is_set(f, UNPRINTABLE);
        let mark = is_mark(printed, last, point, f);
        punctuation += one(mark & is_set(f, PUNCTUATION));
        symbols += one(mark & is_plain_symbol(f));
        printed += one(printable);
        last = pick(printable, point, last);
    }
    let share = Fraction {
        num: punctuation + SYMBOL_WORTH * symbols,
        den: printed,
    };
    counts_of(share, at_least(share, SYMBOLS_PART, SYMBOLS_WHOLE))
}

// Accents: "ALPHABETIC ones. accented/n, 0 if n < 8 or below 7/20."
pub fn count_accents(flags: &[u32], n: usize) -> Counts
    requires { Fits flags.now n }
    ensures { result ≡ accents.counts (after.accents_after flags.now n) }
{
    let mut letters = 0;
    let mut accented = 0;
    for f in &flags[..n] {
        let letter = is_set(*f, ALPHABETIC);
        letters += one(letter);
        accented += one(letter & is_set(*f, ACCENTUATED));
    }
    let share = Fraction {
        num: accented,
        den: letters,
    };
    counts_of(
        share,
        (FEWEST_LETTERS <= letters) & at_least(share, ACCENTS_PART, ACCENTS_WHOLE),
    )
}

// Unprintable: "8u/n."
pub fn count_unprintable(flags: &[u32], n: usize) -> Counts
    requires { Fits flags.now n }
    ensures { result ≡ unprintable.counts (after.unprintable_after flags.now n) }
{
    let mut unprintable = 0;
    for f in &flags[..n] {
        unprintable += one(is_set(*f, UNPRINTABLE));
    }
    let share = Fraction {
        num: UNPRINTABLE_WORTH * unprintable,
        den: n as u32,
    };
    counts_of(share, true)
}

// Whitespace, punctuation and COMMON_SAFE forget the last character.
fn is_forgetful(f: u32) -> bool
    ensures { result ≡ neighbours.forgets f }
{
    is_set(f, WHITESPACE) | is_set(f, PUNCTUATION) | is_set(f, COMMON_SAFE)
}

// Ranges: "printable ones. 2s/n, 0 if below 1/10. Whitespace, punctuation and COMMON_SAFE forget the last character."
pub fn count_ranges(flags: &[u32], ranges: &[u32], pairs: &[u8], n: usize) -> Counts
    requires { Fits flags.now n × Fits ranges.now n × (length pairs.now ≡ PAIR_BYTES) × Known ranges.now n }
    ensures { result ≡ neighbours.counts (after.ranges_after flags.now ranges.now pairs.now n) }
{
    let mut printed = 0;
    let mut suspicious = 0;
    let mut seen = false;
    let mut last = 0;
    for i in 0..n {
        let f = flags[i];
        let range = ranges[i];
        let printable = !is_set(f, UNPRINTABLE);
        let follows = printable & !is_forgetful(f);
        suspicious += one(follows & (seen & is_suspicious(pairs, last, range)));
        printed += one(printable);
        seen = follows | (!printable & seen);
        last = pick(follows, range, pick(printable, 0, last));
    }
    let share = Fraction {
        num: PAIR_WORTH * suspicious,
        den: printed,
    };
    counts_of(share, at_least(share, PAIRS_PART, PAIRS_WHOLE))
}

// Whether two letters both have the flag.
fn is_shared(f: u32, last: u32, bit: u32) -> bool
    requires { 0 < bit }
    ensures { result ≡ (has f bit && has last bit) }
{
    is_set(f, bit) & is_set(last, bit)
}

// Doubled accents: "ALPHABETIC and LATIN. 2s/n; of two accented neighbours, both upper-case add 1, and equal bases add 1."
pub fn count_doubled(flags: &[u32], bases: &[u32], n: usize) -> Counts
    requires { Fits flags.now n × Fits bases.now n }
    ensures { result ≡ doubled.counts (after.doubled_after flags.now bases.now n) }
{
    let mut letters = 0;
    let mut doubled = 0;
    let mut last = 0;
    let mut last_base = 0;
    for i in 0..n {
        let f = flags[i];
        let base = bases[i];
        let letter = is_set(f, ALPHABETIC) & is_set(f, LATIN);
        let accents = letter & is_shared(f, last, ACCENTUATED);
        doubled += one(accents & is_shared(f, last, UPPERCASE));
        doubled += one(accents & (base == last_base));
        letters += one(letter);
        last = pick(letter, f, last);
        last_base = pick(letter, base, last_base);
    }
    let share = Fraction {
        num: DOUBLED_WORTH * doubled,
        den: letters,
    };
    counts_of(share, true)
}

// CJK stops: "U+4E04 and U+4E05 over CJK characters, 0 below 16."
pub fn count_stops(points: &[u32], flags: &[u32], n: usize) -> Counts
    requires { Fits points.now n × Fits flags.now n }
    ensures { result ≡ stops.counts (after.stops_after points.now flags.now n) }
{
    let mut wrong = 0;
    let mut cjk = 0;
    for i in 0..n {
        let point = points[i];
        let stop = (point == STOP_UP) | (point == STOP_DOWN);
        wrong += one(stop);
        cjk += one(!stop & is_set(flags[i], CJK));
    }
    let share = Fraction {
        num: wrong,
        den: cjk,
    };
    counts_of(share, FEWEST_CJK <= cjk)
}
