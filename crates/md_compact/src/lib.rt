// Scoring with a class table in the compact form. It is expanded once a call, in a room of EXPANSION_ROOM bytes, and then scored as the expansion is: that
// checks the records, so that here only the letters are checked.
#![tactic(auto)]

ghost use Rattle.std.specs.Prelude.{◌≡◌};
ghost use Rattle.class_compact_meaning.specs.Inner.Form.{Sized};
ghost use Rattle.class_compact_meaning.specs.Inner.Sound.{Expanded};
ghost use Rattle.md_compact.specs.Scoring.{mess_ratio_compact, mess_ratio_compact_default};

use base::limits::CLASS_RECORD;
use base::{Cause, Refusal, refuse};
use class_compact::expand::unpack_into;
use class_compact::fault::beyond_table;
use class_compact::{COMPACT_RECORD, EXPANSION_ROOM, wrong_list};
use first::first_of_text;
use md::{DEFAULT_THRESHOLD, mess_ratio};
use md_meaning::Score;

mod first;
pub mod lines;
pub mod utf8_bytes;

// The score of a text, the expansion at hand.
fn score_table(
    text: &[u32],
    threshold: f32,
    records: &[u8],
    letters: &[u8],
    table: &[u8],
    ordered: bool,
    pairs: &[u8],
) -> Result<Score, Refusal>
    requires { Expanded records.now letters.now table.now ordered }
    ensures { result ≡ mess_ratio_compact records.now letters.now pairs.now text.now threshold }
{
    if let Err(why) = beyond_table(records, letters, table, ordered) {
        first_of_text(text, threshold)?;
        return Err(why);
    }
    mess_ratio(text, threshold, table, pairs)
}

// The same through a room for the expansion.
fn score_expanded(
    text: &[u32],
    threshold: f32,
    records: &[u8],
    letters: &[u8],
    pairs: &[u8],
) -> Result<Score, Refusal>
    requires { Sized records.now }
    ensures { result ≡ mess_ratio_compact records.now letters.now pairs.now text.now threshold }
{
    let mut room = [0u8; EXPANSION_ROOM];
    let ordered = unpack_into(records, letters, &mut room);
    let n = records.len() / COMPACT_RECORD;
    score_table(
        text,
        threshold,
        records,
        letters,
        &room[..n * CLASS_RECORD],
        ordered,
        pairs,
    )
}

// The mess ratio of a text with a compact class table.
pub fn mess_ratio_compact(
    text: &[u32],
    threshold: f32,
    records: &[u8],
    letters: &[u8],
    pairs: &[u8],
) -> Result<Score, Refusal>
    ensures { result ≡ mess_ratio_compact records.now letters.now pairs.now text.now threshold }
{
    if wrong_list(records) {
        first_of_text(text, threshold)?;
        return refuse(Cause::BadClasses, 0);
    }
    score_expanded(text, threshold, records, letters, pairs)
}

// The same at the default threshold.
pub fn mess_ratio_compact_default(
    text: &[u32],
    records: &[u8],
    letters: &[u8],
    pairs: &[u8],
) -> Result<Score, Refusal>
    ensures { result ≡ mess_ratio_compact_default records.now letters.now pairs.now text.now }
{
    mess_ratio_compact(text, DEFAULT_THRESHOLD, records, letters, pairs)
}
