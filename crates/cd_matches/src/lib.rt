// The matches of one layer: the languages that its letters are compared with, in order, their scores, and what comes of them (cd.rs: the loop of
// coherence_ratio over one layer).
#![tactic(auto)]

ghost use Rattle.std.specs.Prelude.{true, map, ◌≡◌, ◌≤◌, ◌<◌, length};
ghost use Rattle.base.specs.Limits.{LANGUAGE_LETTERS, MOST_INCLUDED};
ghost use Rattle.base.specs.Inner.Limits.{MOST_LETTERS};
ghost use Rattle.cd_languages.specs.Languages.{languages, first_record};
ghost use Rattle.cd_languages.specs.Inner.Languages.{good_languages};
ghost use Rattle.cd_languages.specs.Inner.Permitted.{Permitted};
ghost use Rattle.cd_best.specs.Inner.Standing.{MOST_BEFORE, walk};
ghost use Rattle.cd_matches.specs.Matches.{score_at, match_records, scores_of};
ghost use Rattle.cd_matches.specs.Inner.LayerRead.{layer_read};
ghost use Rattle.cd_matches.specs.Inner.Put.{Put};
ghost use Rattle.cd_matches.specs.Inner.Records.{Records};

use crate::search::alphabet_languages;
use base::limits::{LANGUAGE_LETTERS, MOST_INCLUDED};
use cd_best::{ENOUGH, Standing};
use cd_jaro::similarity;
use cd_languages::first_record;
use cd_languages::included::lone_zero;
use cd_languages::slots::read_letters;

pub mod search;

// Puts the first record with each included number into the first places of out; how many there are.
fn included_records(t: &[u8], included: &[u32], out: &mut [u32]) -> usize
    requires { (good_languages t.now ≡ true) × (length included.now ≤ length out.old) }
    ensures { Put (map (first_record t.now) included.now) out.old out.new result }
{
    for (k, x) in included.iter().enumerate() {
        out[k] = first_record(t, *x) as u32;
    }
    included.len()
}

// Puts the first records of the languages that the layer is compared with, in order, into the first places of out; how many there are.
pub fn match_records(
    order: &[u32],
    languages: &[u8],
    included: &[u32],
    accented: bool,
    out: &mut [u32],
) -> usize
    requires { (good_languages languages.now ≡ true) × Permitted included.now languages.now × (MOST_INCLUDED ≤ length out.old) }
    ensures { Put (match_records languages.now included.now accented order.now) out.old out.new result }
{
    let latin = lone_zero(included);
    if latin | (included.len() == 0) {
        return alphabet_languages(order, languages, latin, accented, out);
    }
    included_records(languages, included, out)
}

// How alike the layer's letters and those of the record i are. The record's letters go into the lent `letters`.
fn score_at(order: &[u32], t: &[u8], i: usize, letters: &mut [u32]) -> f32
    requires { (good_languages t.now ≡ true) × (i < languages t.now) × (length order.now ≤ MOST_LETTERS) × (LANGUAGE_LETTERS ≤ length letters.old) }
    ensures { result ≡ score_at t.now order.now i }
{
    let n = read_letters(t, i, letters);
    similarity(order, &letters[..n])
}

// The matches of a layer with these records, one after the other; past the end of the layer none is scored.
fn compare(
    standing: Standing,
    order: &[u32],
    languages: &[u8],
    records: &[u32],
    threshold: f32,
) -> Standing
    requires { (good_languages languages.now ≡ true) × Records languages.now records.now × (length records.now ≤ MOST_INCLUDED) × (length order.now ≤ MOST_LETTERS) × (standing.sufficient ≤ MOST_BEFORE) }
    ensures { result ≡ walk threshold standing records.now (scores_of languages.now order.now records.now) }
{
    let mut letters = [0u32; LANGUAGE_LETTERS];
    let mut s = standing;
    for record in records {
        let at = *record as usize;
        let score = score_at(order, languages, at, &mut letters);
        if score < threshold {
            continue;
        }
        s = s.keep(at, score);
        let n = s.sufficient;
        if ENOUGH <= n {
            return s;
        }
    }
    s
}

// The matches of a layer with the letters `order`, by popularity, counted into what stands; `accented` says whether one of its lowered letters
// is ACCENTUATED.
pub fn read_matches(
    standing: Standing,
    order: &[u32],
    languages: &[u8],
    included: &[u32],
    accented: bool,
    threshold: f32,
) -> Standing
    requires { (good_languages languages.now ≡ true) × Permitted included.now languages.now × (length order.now ≤ MOST_LETTERS) × (standing.sufficient ≤ MOST_BEFORE) }
    ensures { result ≡ layer_read threshold languages.now included.now accented order.now standing }
{
    let mut records = [0u32; MOST_INCLUDED];
    let n = match_records(order, languages, included, accented, &mut records);
    compare(standing, order, languages, &records[..n], threshold)
}
