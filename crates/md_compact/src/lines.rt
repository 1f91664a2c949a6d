// Many lines in one call, with a compact class table that is expanded once for all of them.
ghost use Rattle.std.specs.Prelude.{◌≡◌, length};
ghost use Rattle.class_compact_meaning.specs.Inner.Form.{Sized};
ghost use Rattle.class_compact_meaning.specs.Inner.Sound.{Expanded};
ghost use Rattle.md_compact.specs.Lines as lines;

use crate::first::first_of_burst;
use base::limits::CLASS_RECORD;
use base::{Cause, Refusal, refuse};
use class_compact::expand::unpack_into;
use class_compact::fault::beyond_table;
use class_compact::{COMPACT_RECORD, EXPANSION_ROOM, wrong_list};
use md_lines::score_lines;

fn score_lines_table(
    bytes: &[u8],
    threshold: f32,
    records: &[u8],
    letters: &[u8],
    table: &[u8],
    ordered: bool,
    pairs: &[u8],
    out: &mut [u32],
) -> Result<u32, Refusal>
    requires { Expanded records.now letters.now table.now ordered }
    ensures value { result ≡ lines.lines_answer bytes.now threshold records.now letters.now pairs.now (length out.old) }
    ensures out_after { out.new ≡ lines.lines_after bytes.now threshold records.now letters.now pairs.now out.old }
{
    if let Err(why) = beyond_table(records, letters, table, ordered) {
        first_of_burst(bytes, threshold)?;
        return Err(why);
    }
    score_lines(bytes, threshold, table, pairs, out)
}

fn score_lines_expanded(
    bytes: &[u8],
    threshold: f32,
    records: &[u8],
    letters: &[u8],
    pairs: &[u8],
    out: &mut [u32],
) -> Result<u32, Refusal>
    requires { Sized records.now }
    ensures value { result ≡ lines.lines_answer bytes.now threshold records.now letters.now pairs.now (length out.old) }
    ensures out_after { out.new ≡ lines.lines_after bytes.now threshold records.now letters.now pairs.now out.old }
{
    let mut room = [0u8; EXPANSION_ROOM];
    let ordered = unpack_into(records, letters, &mut room);
    let n = records.len() / COMPACT_RECORD;
    score_lines_table(
        bytes,
        threshold,
        records,
        letters,
        &room[..n * CLASS_RECORD],
        ordered,
        pairs,
        out,
    )
}

// The scores of the lines, each in its place in out; the rest of out stays, and all of it in a refusal. Answers the number of lines.
pub fn score_lines_compact(
    bytes: &[u8],
    threshold: f32,
    records: &[u8],
    letters: &[u8],
    pairs: &[u8],
    out: &mut [u32],
) -> Result<u32, Refusal>
    ensures value { result ≡ lines.lines_answer bytes.now threshold records.now letters.now pairs.now (length out.old) }
    ensures out_after { out.new ≡ lines.lines_after bytes.now threshold records.now letters.now pairs.now out.old }
{
    if wrong_list(records) {
        first_of_burst(bytes, threshold)?;
        return refuse(Cause::BadClasses, 0);
    }
    score_lines_expanded(bytes, threshold, records, letters, pairs, out)
}
