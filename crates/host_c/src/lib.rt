// The entries of the crate host as a static library, by the C ABI: each calls the function of host that has its name, and has its clauses.
#![tactic(auto)]

ghost use Rattle.std.specs.Prelude.{◌≡◌, length};
ghost use Rattle.base.specs.Counted.{lent_after};
ghost use Rattle.classes.specs.Check.{checked};
ghost use Rattle.utf8_meaning.specs.Answer.{answer, out_after};
ghost use Rattle.page_meaning.specs.Answer.{read_answer, read_into, write_answer, write_into};
ghost use Rattle.md_meaning.specs.MessRatio.{mess_ratio, mess_ratio_default};
ghost use Rattle.md_utf8_meaning.specs.ScoreUtf8.{mess_ratio_utf8, mess_ratio_utf8_default};
ghost use Rattle.md_lines_meaning.specs.Burst as bursts;
ghost use Rattle.md_second.specs.Second.{second_score};
ghost use Rattle.md_chooser_meaning.specs.Choose.{chosen, verdict_of};
ghost use Rattle.cd_meaning.specs.Causes.{causes, causes_default};
ghost use Rattle.cd_meaning.specs.Coherence.{DEFAULT_THRESHOLD, matches_of, work_after};
ghost use Rattle.cd_merge_meaning.specs.Answer.{merge_answer, merge_into};
ghost use Rattle.md_report_meaning.specs.Report.{report_answer, report_into};
ghost use Rattle.ring_meaning.specs.Calls as rings;
ghost use Rattle.utf8_write_meaning.specs.Answer as writing;
ghost use Rattle.host.specs.Chosen.{host_chosen};
ghost use Rattle.host.specs.Host.{host_counted, host_score, host_verdict, host_ring};
ghost use Rattle.host.specs.Matches.{host_ranking, host_merged};
ghost use Rattle.host.specs.Running.{fed_host, chunk_host, closed_host};
ghost use Rattle.md_running_meaning.specs.Opening.{open_line};
ghost use Rattle.md_lent_meaning.specs.Lent.{host_opened};
ghost use Rattle.classes.specs.Check.{bad_classes};
ghost use Rattle.classes.specs.Lookup.{class_of};
ghost use Rattle.md_reason_meaning.specs.Reason.{reason_answer, reason_into};
ghost use Rattle.md_reason_meaning.specs.ReasonUtf8.{utf8_answer, utf8_into};
ghost use Rattle.host.specs.Why.{host_reason, host_class};

use cd_list::HostRanking;
use cd_ranking::CoherenceMatch;
use host::{HostChosen, HostClass, HostRead, HostReason, HostRing, HostScore, HostVerdict};
use md_lent_meaning::{HostOpened, HostRunning};

pub mod compact;

// Whether a class table is good: the number of its records, or refusal 5 and its place.
#[unsafe(no_mangle)]
pub extern "C" fn drasumira_check_classes(classes: &[u8]) -> HostRead
    ensures { result ≡ host_counted (checked classes.now) }
{
    host::drasumira_check_classes(classes)
}

// The code points of UTF-8 bytes, into the first places of out.
#[unsafe(no_mangle)]
pub extern "C" fn drasumira_read(bytes: &[u8], out: &mut [u32]) -> HostRead
    ensures value { result ≡ host_counted (answer bytes.now (length out.old)) }
    ensures out_after { out.new ≡ out_after bytes.now out.old }
{
    host::drasumira_read(bytes, out)
}

// The code points of bytes under a code page, into the first places of out.
#[unsafe(no_mangle)]
pub extern "C" fn drasumira_read_page(page: &[u16], bytes: &[u8], out: &mut [u32]) -> HostRead
    ensures value { result ≡ host_counted (read_answer page.now bytes.now (length out.old)) }
    ensures out_after { out.new ≡ read_into page.now bytes.now out.old }
{
    host::drasumira_read_page(page, bytes, out)
}

// The bytes of a text under a code page, into the first places of out.
#[unsafe(no_mangle)]
pub extern "C" fn drasumira_write_page(page: &[u16], text: &[u32], out: &mut [u8]) -> HostRead
    ensures value { result ≡ host_counted (write_answer page.now text.now (length out.old)) }
    ensures out_after { out.new ≡ write_into page.now text.now out.old }
{
    host::drasumira_write_page(page, text, out)
}

// The mess ratio of a text.
#[unsafe(no_mangle)]
pub extern "C" fn drasumira_score(
    text: &[u32],
    threshold: f32,
    classes: &[u8],
    pairs: &[u8],
) -> HostScore
    ensures { result ≡ host_score (mess_ratio text.now threshold classes.now pairs.now) }
{
    host::drasumira_score(text, threshold, classes, pairs)
}

// The same at the default threshold.
#[unsafe(no_mangle)]
pub extern "C" fn drasumira_score_default(text: &[u32], classes: &[u8], pairs: &[u8]) -> HostScore
    ensures { result ≡ host_score (mess_ratio_default text.now classes.now pairs.now) }
{
    host::drasumira_score_default(text, classes, pairs)
}

// The mess ratio by the second engine, of a text of at most 4,096 code points.
#[unsafe(no_mangle)]
pub extern "C" fn drasumira_second_score(
    text: &[u32],
    threshold: f32,
    classes: &[u8],
    pairs: &[u8],
) -> HostScore
    ensures { result ≡ host_score (second_score text.now threshold classes.now pairs.now) }
{
    host::drasumira_second_score(text, threshold, classes, pairs)
}

// The mess ratio of the text that UTF-8 bytes are: read and scored in one call.
#[unsafe(no_mangle)]
pub extern "C" fn drasumira_score_utf8(
    text: &[u8],
    threshold: f32,
    classes: &[u8],
    pairs: &[u8],
) -> HostScore
    ensures { result ≡ host_score (mess_ratio_utf8 text.now threshold classes.now pairs.now) }
{
    host::drasumira_score_utf8(text, threshold, classes, pairs)
}

// The same at the default threshold.
#[unsafe(no_mangle)]
pub extern "C" fn drasumira_score_utf8_default(
    text: &[u8],
    classes: &[u8],
    pairs: &[u8],
) -> HostScore
    ensures { result ≡ host_score (mess_ratio_utf8_default text.now classes.now pairs.now) }
{
    host::drasumira_score_utf8_default(text, classes, pairs)
}

// The mess ratios of many lines, each line's thirteen numbers in its place in out: HostScore's, floats as bits. The tables are checked once.
#[unsafe(no_mangle)]
pub extern "C" fn drasumira_score_lines(
    bytes: &[u8],
    threshold: f32,
    classes: &[u8],
    pairs: &[u8],
    out: &mut [u32],
) -> HostRead
    ensures value { result ≡ host_counted (bursts.answer bytes.now threshold classes.now pairs.now (length out.old)) }
    ensures out_after { out.new ≡ bursts.out_after bytes.now threshold classes.now pairs.now out.old }
{
    host::drasumira_score_lines(bytes, threshold, classes, pairs, out)
}

// Which of two texts is the more readable, or which was refused.
#[unsafe(no_mangle)]
pub extern "C" fn drasumira_verdict(
    first: &[u32],
    second: &[u32],
    classes: &[u8],
    pairs: &[u8],
) -> HostVerdict
    ensures { result ≡ host_verdict (verdict_of first.now second.now classes.now pairs.now) }
{
    host::drasumira_verdict(first, second, classes, pairs)
}

// The more readable of two texts, cut before its trailing newlines, by its length. Nothing of the first where either is refused.
#[unsafe(no_mangle)]
pub extern "C" fn drasumira_choose(
    first: &[u32],
    second: &[u32],
    classes: &[u8],
    pairs: &[u8],
) -> HostChosen
    ensures { result ≡ host_chosen (verdict_of first.now second.now classes.now pairs.now) (length (chosen first.now second.now classes.now pairs.now)) }
{
    host::drasumira_choose(first, second, classes, pairs)
}

// The ranking of a text's languages, into the first entries of matches. The work area is 4 words a code point, zero after acceptance. A refusal
// changes neither.
#[unsafe(no_mangle)]
pub extern "C" fn drasumira_coherence(
    text: &[u32],
    threshold: f32,
    small: u32,
    classes: &[u8],
    pairs: &[u8],
    languages: &[u8],
    included: &[u32],
    work: &mut [u32],
    matches: &mut [CoherenceMatch],
) -> HostRanking
    ensures value { result ≡ host_ranking (causes text.now threshold classes.now pairs.now languages.now included.now (length work.old) (length matches.old)) (matches_of text.now threshold small classes.now pairs.now languages.now included.now) }
    ensures work_after { work.new ≡ work_after (causes text.now threshold classes.now pairs.now languages.now included.now (length work.old) (length matches.old)) text.now work.old }
    ensures matches_after { matches.new ≡ lent_after (causes text.now threshold classes.now pairs.now languages.now included.now (length work.old) (length matches.old)) (matches_of text.now threshold small classes.now pairs.now languages.now included.now) matches.old }
{
    host::drasumira_coherence(
        text, threshold, small, classes, pairs, languages, included, work, matches,
    )
}

// The same at the default threshold.
#[unsafe(no_mangle)]
pub extern "C" fn drasumira_coherence_default(
    text: &[u32],
    small: u32,
    classes: &[u8],
    pairs: &[u8],
    languages: &[u8],
    included: &[u32],
    work: &mut [u32],
    matches: &mut [CoherenceMatch],
) -> HostRanking
    ensures value { result ≡ host_ranking (causes_default text.now classes.now pairs.now languages.now included.now (length work.old) (length matches.old)) (matches_of text.now DEFAULT_THRESHOLD small classes.now pairs.now languages.now included.now) }
    ensures work_after { work.new ≡ work_after (causes_default text.now classes.now pairs.now languages.now included.now (length work.old) (length matches.old)) text.now work.old }
    ensures matches_after { matches.new ≡ lent_after (causes_default text.now classes.now pairs.now languages.now included.now (length work.old) (length matches.old)) (matches_of text.now DEFAULT_THRESHOLD small classes.now pairs.now languages.now included.now) matches.old }
{
    host::drasumira_coherence_default(
        text, small, classes, pairs, languages, included, work, matches,
    )
}

// A ring with nothing in it.
#[unsafe(no_mangle)]
pub extern "C" fn drasumira_ring_open(ring: &[u8]) -> HostRing
    ensures { result ≡ host_ring (rings.open_answer ring.now) }
{
    host::drasumira_ring_open(ring)
}

// Puts a record behind the newest one: the numbers as they are given.
#[unsafe(no_mangle)]
pub extern "C" fn drasumira_ring_put(
    ring: &mut [u8],
    head: u32,
    count: u32,
    line: u64,
    bits: u32,
    fed: u32,
    stopped: u32,
    refusal: u32,
) -> HostRing
    ensures value { result ≡ host_ring (rings.put_answer ring.old head count) }
    ensures ring_after { ring.new ≡ rings.ring_after ring.old head count (record { line = line; bits = bits; fed = fed; stopped = stopped; refusal = refusal }) }
{
    host::drasumira_ring_put(ring, head, count, line, bits, fed, stopped, refusal)
}

// Writes the oldest records, up to `most` of them, to the front of out. As many came out as the count fell by.
#[unsafe(no_mangle)]
pub extern "C" fn drasumira_ring_flush(
    ring: &[u8],
    head: u32,
    count: u32,
    most: u32,
    out: &mut [u8],
) -> HostRing
    ensures value { result ≡ host_ring (rings.flush_answer ring.now head count most (length out.old)) }
    ensures out_after { out.new ≡ rings.out_after ring.now head count most out.old }
{
    host::drasumira_ring_flush(ring, head, count, most, out)
}

// A text as UTF-8, into the first places of out.
#[unsafe(no_mangle)]
pub extern "C" fn drasumira_write_utf8(text: &[u32], out: &mut [u8]) -> HostRead
    ensures value { result ≡ host_counted (writing.answer text.now (length out.old)) }
    ensures out_after { out.new ≡ writing.out_after text.now out.old }
{
    host::drasumira_write_utf8(text, out)
}

// Earlier rankings laid end to end, with their lengths, merged into one. Both lists are of match entries, two u32 an entry, as a list of
// CoherenceMatch lies in memory; the lengths of the slices count u32.
#[unsafe(no_mangle)]
pub extern "C" fn drasumira_merge(list: &[u32], lengths: &[u32], out: &mut [u32]) -> HostRanking
    ensures value { result ≡ host_merged (merge_answer list.now lengths.now (length out.old)) }
    ensures out_after { out.new ≡ merge_into list.now lengths.now out.old }
{
    host::drasumira_merge(list, lengths, out)
}

// The monthly report of the rows that drasumira_score_lines leaves, as text, into the first places of out.
#[unsafe(no_mangle)]
pub extern "C" fn drasumira_report(rows: &[u32], out: &mut [u8]) -> HostRead
    ensures value { result ≡ host_counted (report_answer rows.now (length out.old)) }
    ensures out_after { out.new ≡ report_into rows.now out.old }
{
    host::drasumira_report(rows, out)
}

// A line of `length` characters of which none has arrived.
#[unsafe(no_mangle)]
pub extern "C" fn drasumira_open(
    length: u32,
    threshold: f32,
    classes: &[u8],
    pairs: &[u8],
) -> HostOpened
    ensures { result ≡ host_opened (open_line length threshold classes.now pairs.now) }
{
    host::drasumira_open(length, threshold, classes, pairs)
}

// One character of a line; the count is the number received. What a refusal stores is what was there.
#[unsafe(no_mangle)]
pub extern "C" fn drasumira_feed(
    state: &mut HostRunning,
    point: u32,
    classes: &[u8],
    pairs: &[u8],
) -> HostRead
    ensures { (state.new ≡ (fed_host state.old point classes.now pairs.now).state) × (result ≡ (fed_host state.old point classes.now pairs.now).answer) }
{
    host::drasumira_feed(state, point, classes, pairs)
}

// A chunk of characters of a line: all of them, or none.
#[unsafe(no_mangle)]
pub extern "C" fn drasumira_feed_all(
    state: &mut HostRunning,
    text: &[u32],
    classes: &[u8],
    pairs: &[u8],
) -> HostRead
    ensures { (state.new ≡ (chunk_host state.old text.now classes.now pairs.now).state) × (result ≡ (chunk_host state.old text.now classes.now pairs.now).answer) }
{
    host::drasumira_feed_all(state, text, classes, pairs)
}

// The answer of a line that has arrived in full. The state is lent to be read, so it is left as it is.
#[unsafe(no_mangle)]
pub extern "C" fn drasumira_close(state: &HostRunning) -> HostScore
    ensures { result ≡ closed_host state.now }
{
    host::drasumira_close(state)
}

// Why a text is noise: the first detector with the greatest ratio, and the indexes at which its numerator grew into the first places of out.
#[unsafe(no_mangle)]
pub extern "C" fn drasumira_reason(
    text: &[u32],
    threshold: f32,
    classes: &[u8],
    pairs: &[u8],
    out: &mut [u32],
) -> HostReason
    ensures value { result ≡ host_reason (reason_answer text.now threshold classes.now pairs.now (length out.old)) }
    ensures out_after { out.new ≡ reason_into text.now threshold classes.now pairs.now out.old }
{
    host::drasumira_reason(text, threshold, classes, pairs, out)
}

// The same of the text that UTF-8 bytes are; the indexes are in code points.
#[unsafe(no_mangle)]
pub extern "C" fn drasumira_reason_utf8(
    bytes: &[u8],
    threshold: f32,
    classes: &[u8],
    pairs: &[u8],
    out: &mut [u32],
) -> HostReason
    ensures value { result ≡ host_reason (utf8_answer bytes.now threshold classes.now pairs.now (length out.old)) }
    ensures out_after { out.new ≡ utf8_into bytes.now threshold classes.now pairs.now out.old }
{
    host::drasumira_reason_utf8(bytes, threshold, classes, pairs, out)
}

// What a code point is, by the built-in table or the lent one.
#[unsafe(no_mangle)]
pub extern "C" fn drasumira_class(point: u32, classes: &[u8]) -> HostClass
    ensures { result ≡ host_class (bad_classes classes.now) (class_of classes.now point) }
{
    host::drasumira_class(point, classes)
}
