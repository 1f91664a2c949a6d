// The same of UTF-8 bytes.
ghost use Rattle.std.specs.Prelude.{◌≡◌};
ghost use Rattle.class_compact_meaning.specs.Inner.Form.{Sized};
ghost use Rattle.class_compact_meaning.specs.Inner.Sound.{Expanded};
ghost use Rattle.md_compact.specs.Scoring.{mess_ratio_utf8_compact, mess_ratio_utf8_compact_default};

use crate::first::first_of_bytes;
use base::limits::CLASS_RECORD;
use base::{Cause, Refusal, refuse};
use class_compact::expand::unpack_into;
use class_compact::fault::beyond_table;
use class_compact::{COMPACT_RECORD, EXPANSION_ROOM, wrong_list};
use md::DEFAULT_THRESHOLD;
use md_meaning::Score;
use md_utf8::mess_ratio_utf8;

fn score_utf8_table(
    bytes: &[u8],
    threshold: f32,
    records: &[u8],
    letters: &[u8],
    table: &[u8],
    ordered: bool,
    pairs: &[u8],
) -> Result<Score, Refusal>
    requires { Expanded records.now letters.now table.now ordered }
    ensures { result ≡ mess_ratio_utf8_compact records.now letters.now pairs.now bytes.now threshold }
{
    if let Err(why) = beyond_table(records, letters, table, ordered) {
        first_of_bytes(bytes, threshold)?;
        return Err(why);
    }
    mess_ratio_utf8(bytes, threshold, table, pairs)
}

fn score_utf8_expanded(
    bytes: &[u8],
    threshold: f32,
    records: &[u8],
    letters: &[u8],
    pairs: &[u8],
) -> Result<Score, Refusal>
    requires { Sized records.now }
    ensures { result ≡ mess_ratio_utf8_compact records.now letters.now pairs.now bytes.now threshold }
{
    let mut room = [0u8; EXPANSION_ROOM];
    let ordered = unpack_into(records, letters, &mut room);
    let n = records.len() / COMPACT_RECORD;
    score_utf8_table(
        bytes,
        threshold,
        records,
        letters,
        &room[..n * CLASS_RECORD],
        ordered,
        pairs,
    )
}

// The mess ratio of the text that the bytes are, with a compact class table.
pub fn mess_ratio_utf8_compact(
    bytes: &[u8],
    threshold: f32,
    records: &[u8],
    letters: &[u8],
    pairs: &[u8],
) -> Result<Score, Refusal>
    ensures { result ≡ mess_ratio_utf8_compact records.now letters.now pairs.now bytes.now threshold }
{
    if wrong_list(records) {
        first_of_bytes(bytes, threshold)?;
        return refuse(Cause::BadClasses, 0);
    }
    score_utf8_expanded(bytes, threshold, records, letters, pairs)
}

// The same at the default threshold.
pub fn mess_ratio_utf8_compact_default(
    bytes: &[u8],
    records: &[u8],
    letters: &[u8],
    pairs: &[u8],
) -> Result<Score, Refusal>
    ensures { result ≡ mess_ratio_utf8_compact_default records.now letters.now pairs.now bytes.now }
{
    mess_ratio_utf8_compact(bytes, DEFAULT_THRESHOLD, records, letters, pairs)
}
