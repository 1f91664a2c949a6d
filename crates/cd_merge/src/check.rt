// The entries of a list, and what is checked of it: the lengths of its rankings, and its scores.
ghost use Rattle.std.specs.Prelude.{true, false, ◌≡◌, ◌<◌, ◌≤◌, length};
ghost use Rattle.std.specs.Float.Ieee.{of_bits};
ghost use Rattle.std.specs.Float.{binary32};
ghost use Rattle.cd_merge_meaning.specs.Entries.{entries, language_at, score_at};
ghost use Rattle.cd_merge_meaning.specs.Answer.{MOST_RANKINGS, over, total, unfit, is_score, first_bad};

// rankings that are merged
const MOST_RANKINGS: usize = 64;

// entries of a ranking
const LONGEST_RANKING: u32 = 63;

// the bits of +infinity, and the bit of a minus sign
const INFINITY_BITS: u32 = 0x7F80_0000;

const SIGN_BIT: u32 = 0x8000_0000;

// How many entries a list has.
pub fn entries(list: &[u32]) -> usize
    ensures { result ≡ entries list.now }
{
    list.len() / 2
}

// The language of the entry i.
pub fn language_at(list: &[u32], i: usize) -> u32
    requires { i < entries list.now }
    ensures { result ≡ language_at list.now i }
{
    list[i * 2]
}

// The score of the entry i, which is no NaN.
pub fn score_of(list: &[u32], i: usize) -> f32
    requires { (i < entries list.now) × (is_score (score_at list.now i) ≡ true) }
    ensures { result ≡ score_at list.now i }
{
    f32::from_bits(list[i * 2 + 1])
}

// Whether a length is over 63.
fn any_over(lengths: &[u32]) -> bool
    ensures { result ≡ over lengths.now }
{
    lengths.iter().any(|length| LONGEST_RANKING < *length)
}

// What the lengths add up to.
fn total(lengths: &[u32]) -> usize
    requires { (length lengths.now ≤ MOST_RANKINGS) × (over lengths.now ≡ false) }
    ensures { result ≡ total lengths.now }
{
    let mut sum = 0;
    for length in lengths {
        sum += *length as usize;
    }
    sum
}

// Whether the lengths are not those of rankings laid end to end in the list.
pub fn is_unfit(list: &[u32], lengths: &[u32]) -> bool
    ensures { result ≡ unfit list.now lengths.now }
{
    if MOST_RANKINGS < lengths.len() {
        return true;
    }
    if any_over(lengths) {
        return true;
    }
    total(lengths) * 2 != list.len()
}

// Whether bits are those of a score from 0 to 1. A NaN's are not: past the sign they are above those of an infinity.
fn is_score(bits: u32) -> bool
    ensures { result ≡ is_score (of_bits binary32 bits) }
{
    if INFINITY_BITS < bits % SIGN_BIT {
        return false;
    }
    let x = f32::from_bits(bits);
    (0.0 <= x) & (x <= 1.0)
}

// The first entry whose score is not from 0 to 1, or how many entries there are.
pub fn first_bad(list: &[u32]) -> usize
    ensures { result ≡ first_bad list.now }
{
    let n = entries(list);
    for i in 0..n {
        if !is_score(list[i * 2 + 1]) {
            return i;
        }
    }
    n
}
