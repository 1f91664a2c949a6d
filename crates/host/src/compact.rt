// The entries of the compact class table: packing, unpacking, and scoring with it.
ghost use Rattle.std.specs.Prelude.{◌≡◌, length};
ghost use Rattle.class_compact_meaning.specs.Calls as calls;
ghost use Rattle.md_compact.specs.Scoring.{mess_ratio_compact, mess_ratio_compact_default, mess_ratio_utf8_compact, mess_ratio_utf8_compact_default};
ghost use Rattle.md_compact.specs.Lines as lines;
ghost use Rattle.host.specs.Compact.{host_packed};
ghost use Rattle.host.specs.Host.{host_counted, host_score};

use crate::{HostPacked, HostRead, HostScore};

// A class table in the compact form: its records of 16 bytes and its letters of 8 into the first places of two outputs.
#[unsafe(no_mangle)]
pub extern "C" fn drasumira_pack(
    classes: &[u8],
    records: &mut [u8],
    letters: &mut [u8],
) -> HostPacked
    ensures value { result ≡ host_packed (calls.pack_answer classes.now (length records.old) (length letters.old)) }
    ensures records_after { records.new ≡ calls.records_after classes.now records.old (length letters.old) }
    ensures letters_after { letters.new ≡ calls.letters_after classes.now (length records.old) letters.old }
{
    class_compact::pack(classes, records, letters).into()
}

// The class table that a compact one stands for, into the first places of out; the count is of records of 24 bytes.
#[unsafe(no_mangle)]
pub extern "C" fn drasumira_unpack(records: &[u8], letters: &[u8], out: &mut [u8]) -> HostRead
    ensures value { result ≡ host_counted (calls.unpack_answer records.now letters.now (length out.old)) }
    ensures out_after { out.new ≡ calls.unpack_after records.now letters.now out.old }
{
    class_compact::unpack(records, letters, out).into()
}

// The mess ratio of a text, with a compact class table.
#[unsafe(no_mangle)]
pub extern "C" fn drasumira_score_compact(
    text: &[u32],
    threshold: f32,
    records: &[u8],
    letters: &[u8],
    pairs: &[u8],
) -> HostScore
    ensures { result ≡ host_score (mess_ratio_compact records.now letters.now pairs.now text.now threshold) }
{
    md_compact::mess_ratio_compact(text, threshold, records, letters, pairs).into()
}

// The same at the default threshold.
#[unsafe(no_mangle)]
pub extern "C" fn drasumira_score_compact_default(
    text: &[u32],
    records: &[u8],
    letters: &[u8],
    pairs: &[u8],
) -> HostScore
    ensures { result ≡ host_score (mess_ratio_compact_default records.now letters.now pairs.now text.now) }
{
    md_compact::mess_ratio_compact_default(text, records, letters, pairs).into()
}

// The mess ratio of the text that UTF-8 bytes are, with a compact class table.
#[unsafe(no_mangle)]
pub extern "C" fn drasumira_score_utf8_compact(
    text: &[u8],
    threshold: f32,
    records: &[u8],
    letters: &[u8],
    pairs: &[u8],
) -> HostScore
    ensures { result ≡ host_score (mess_ratio_utf8_compact records.now letters.now pairs.now text.now threshold) }
{
    md_compact::utf8_bytes::mess_ratio_utf8_compact(text, threshold, records, letters, pairs).into()
}

// The same at the default threshold.
#[unsafe(no_mangle)]
pub extern "C" fn drasumira_score_utf8_compact_default(
    text: &[u8],
    records: &[u8],
    letters: &[u8],
    pairs: &[u8],
) -> HostScore
    ensures { result ≡ host_score (mess_ratio_utf8_compact_default records.now letters.now pairs.now text.now) }
{
    md_compact::utf8_bytes::mess_ratio_utf8_compact_default(text, records, letters, pairs).into()
}

// The mess ratios of many lines, as drasumira_score_lines has them, with a compact class table, which is expanded once.
#[unsafe(no_mangle)]
pub extern "C" fn drasumira_score_lines_compact(
    bytes: &[u8],
    threshold: f32,
    records: &[u8],
    letters: &[u8],
    pairs: &[u8],
    out: &mut [u32],
) -> HostRead
    ensures value { result ≡ host_counted (lines.lines_answer bytes.now threshold records.now letters.now pairs.now (length out.old)) }
    ensures out_after { out.new ≡ lines.lines_after bytes.now threshold records.now letters.now pairs.now out.old }
{
    md_compact::lines::score_lines_compact(bytes, threshold, records, letters, pairs, out).into()
}
