// When coherence_ratio refuses: 01's causes, in its order.
ghost use Rattle.std.specs.Prelude.{◌≡◌, true, ◌≤◌, length};
ghost use Rattle.base.specs.Limits.{LONGEST_RANKED};
ghost use Rattle.base.specs.Causes.{first_of};
ghost use Rattle.class_records.specs.Records.{good_table};
ghost use Rattle.cd_meaning.specs.Causes as spec;

use base::limits::{LANGUAGE_RECORD, LONGEST_RANKED, WORK_PER_POINT};
use base::{Cause, Refusal, refuse};
use ratio::finite::is_finite;

// The first of all causes: `work` and `room` are how many words and matches the caller lends.
pub fn first_cause(
    text: &[u32],
    threshold: f32,
    classes: &[u8],
    pairs: &[u8],
    languages: &[u8],
    included: &[u32],
    work: usize,
    room: usize,
) -> Result<(), Refusal>
    ensures { result ≡ spec.causes text.now threshold classes.now pairs.now languages.now included.now work room }
{
    if text.len() > LONGEST_RANKED {
        return refuse(Cause::TooLong, 0);
    }
    if !is_finite(threshold) {
        return refuse(Cause::NotFinite, 0);
    }
    of_tables(text, classes, pairs, languages, included, work, room)
}

// 5, 7, and those behind them.
fn of_tables(
    text: &[u32],
    classes: &[u8],
    pairs: &[u8],
    languages: &[u8],
    included: &[u32],
    work: usize,
    room: usize,
) -> Result<(), Refusal>
    requires { length text.now ≤ LONGEST_RANKED }
    ensures { result ≡ first_of (spec.of_tables text.now classes.now pairs.now languages.now included.now work room) }
{
    classes::bad_classes(classes)?;
    classes::bad_pairs(pairs)?;
    of_languages(text, classes, languages, included, work, room)
}

// 8, 9, and those behind them.
fn of_languages(
    text: &[u32],
    classes: &[u8],
    languages: &[u8],
    included: &[u32],
    work: usize,
    room: usize,
) -> Result<(), Refusal>
    requires { (length text.now ≤ LONGEST_RANKED) × (good_table classes.now ≡ true) }
    ensures { result ≡ first_of (spec.of_languages text.now classes.now languages.now included.now work room) }
{
    cd_languages::bad_languages(languages)?;
    cd_languages::included::bad_included(included, languages)?;
    of_text(text, classes, languages, work, room)
}

// 3 and 6.
fn of_text(
    text: &[u32],
    classes: &[u8],
    languages: &[u8],
    work: usize,
    room: usize,
) -> Result<(), Refusal>
    requires { (length text.now ≤ LONGEST_RANKED) × (good_table classes.now ≡ true) }
    ensures { result ≡ first_of (spec.of_text text.now classes.now languages.now work room) }
{
    let n = text.len();
    if (room < languages.len() / LANGUAGE_RECORD) | (work < WORK_PER_POINT * n) {
        return refuse(Cause::NoRoom, 0);
    }
    let place = cd_taken::first_unclassed(text, classes);
    if place < n {
        return refuse(Cause::Unclassed, place as u32);
    }
    Ok(())
}
