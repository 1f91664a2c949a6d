// What a host calls: numbers and slices in, a flat struct out, by the C ABI. Each entry is one call of the library and the flat form of
// its answer; a ranking's matches are put into a lent list.
#![tactic(auto)]

ghost use Rattle.std.specs.Prelude.{◌≡◌, length};
ghost use Rattle.base.specs.Counted.{lent_after};
ghost use Rattle.classes.specs.Check.{checked};
ghost use Rattle.utf8_meaning.specs.Answer.{answer, out_after};
ghost use Rattle.page_meaning.specs.Answer.{read_answer, read_into, write_answer, write_into};
ghost use Rattle.md_meaning.specs.MessRatio.{mess_ratio, mess_ratio_default};
ghost use Rattle.md_utf8_meaning.specs.ScoreUtf8.{mess_ratio_utf8, mess_ratio_utf8_default};
ghost use Rattle.md_lines_meaning.specs.Burst as bursts;
ghost use Rattle.md_second.specs.Second.{second_score};
ghost use Rattle.md_chooser_meaning.specs.Choose.{chosen, verdict_of};
ghost use Rattle.cd_meaning.specs.Causes.{causes, causes_default};
ghost use Rattle.cd_meaning.specs.Coherence.{DEFAULT_THRESHOLD, matches_of, work_after};
ghost use Rattle.cd_merge_meaning.specs.Answer.{merge_answer, merge_into};
ghost use Rattle.md_report_meaning.specs.Report.{report_answer, report_into};
ghost use Rattle.ring_meaning.specs.Calls as rings;
ghost use Rattle.utf8_write_meaning.specs.Answer as writing;
ghost use Rattle.host.specs.Chosen.{host_chosen};
ghost use Rattle.host.specs.Host.{host_counted, host_score, host_verdict, host_ring};
ghost use Rattle.host.specs.Matches.{host_ranking, host_merged};
ghost use Rattle.host.specs.Running.{fed_host, chunk_host, closed_host};
ghost use Rattle.md_running_meaning.specs.Opening.{open_line};
ghost use Rattle.md_lent_meaning.specs.Lent.{host_opened};
ghost use Rattle.classes.specs.Check.{bad_classes};
ghost use Rattle.classes.specs.Lookup.{class_of};
ghost use Rattle.md_reason_meaning.specs.Reason.{reason_answer, reason_into};
ghost use Rattle.md_reason_meaning.specs.ReasonUtf8.{utf8_answer, utf8_into};
ghost use Rattle.host.specs.Why.{host_reason, host_class};

use cd_list::HostRanking;
use cd_ranking::CoherenceMatch;
use flat::flat_merged;
use md_lent_meaning::{HostOpened, HostRunning};
use ratio::Ratios;
use ring_meaning::Verdict;

pub mod compact;
mod flat;

// The answer of reading, and of a table's check: a refusal's number and place, or zeros and the count.
#[repr(C)]
#[derive(Clone, Copy)]
pub struct HostRead {
    pub number: u32,
    pub place: u32,
    pub count: u32,
}

// What is shown of a detector: its two counts, and 1 where its ratio was cut off.
#[repr(C)]
#[derive(Clone, Copy)]
pub struct HostShown {
    pub num: u32,
    pub den: u32,
    pub cut: u32,
}

// What is shown of the eight, in md.rs's order.
#[repr(C)]
#[derive(Clone, Copy)]
pub struct HostCounts {
    pub symbols: HostShown,
    pub accents: HostShown,
    pub unprintable: HostShown,
    pub ranges: HostShown,
    pub doubled: HostShown,
    pub words: HostShown,
    pub stops: HostShown,
    pub archaic: HostShown,
}

// The answer of scoring: a refusal's number and place, the eight ratios in md.rs's order, their sum, the characters fed, 1 where the scan
// stopped early, and the counts of each ratio.
#[repr(C)]
#[derive(Clone, Copy)]
pub struct HostScore {
    pub number: u32,
    pub place: u32,
    pub ratios: Ratios,
    pub sum: f32,
    pub fed: u32,
    pub stopped: u32,
    pub counts: HostCounts,
}

// The verdict: the text taken and the text refused, 1 or 2, each 0 for none, and the refusal's number and place.
#[repr(C)]
#[derive(Clone, Copy)]
pub struct HostVerdict {
    pub taken: u32,
    pub refused: u32,
    pub number: u32,
    pub place: u32,
}

// The answer of a call over a ring: a refusal's number and place, or zeros and what to keep, head and count.
#[repr(C)]
#[derive(Clone, Copy)]
pub struct HostRing {
    pub number: u32,
    pub place: u32,
    pub head: u32,
    pub count: u32,
}

// The answer of packing: a refusal's number and place, or zeros, how many records and how many letters.
#[repr(C)]
#[derive(Clone, Copy)]
pub struct HostPacked {
    pub number: u32,
    pub place: u32,
    pub records: u32,
    pub letters: u32,
}

// The answer of a reason: a refusal's number and place, or zeros, the detector and how many indexes are listed.
#[repr(C)]
#[derive(Clone, Copy)]
pub struct HostReason {
    pub number: u32,
    pub place: u32,
    pub detector: u32,
    pub count: u32,
}

// What a code point is: a refusal's number and place, or zeros, its flags and its range.
#[repr(C)]
#[derive(Clone, Copy)]
pub struct HostClass {
    pub number: u32,
    pub place: u32,
    pub flags: u32,
    pub range: u32,
}

// Whether a class table is good: the number of its records, or refusal 5 and its place.
#[unsafe(no_mangle)]
pub extern "C" fn drasumira_check_classes(classes: &[u8]) -> HostRead
    ensures { result ≡ host_counted (checked classes.now) }
{
    classes::check_classes(classes).into()
}

// The code points of UTF-8 bytes, into the first places of out.
#[unsafe(no_mangle)]
pub extern "C" fn drasumira_read(bytes: &[u8], out: &mut [u32]) -> HostRead
    ensures value { result ≡ host_counted (answer bytes.now (length out.old)) }
    ensures out_after { out.new ≡ out_after bytes.now out.old }
{
    utf8::read_utf8(bytes, out).into()
}

// The code points of bytes under a code page, into the first places of out.
#[unsafe(no_mangle)]
pub extern "C" fn drasumira_read_page(page: &[u16], bytes: &[u8], out: &mut [u32]) -> HostRead
    ensures value { result ≡ host_counted (read_answer page.now bytes.now (length out.old)) }
    ensures out_after { out.new ≡ read_into page.now bytes.now out.old }
{
    page::read_page(page, bytes, out).into()
}

// The bytes of a text under a code page, into the first places of out.
#[unsafe(no_mangle)]
pub extern "C" fn drasumira_write_page(page: &[u16], text: &[u32], out: &mut [u8]) -> HostRead
    ensures value { result ≡ host_counted (write_answer page.now text.now (length out.old)) }
    ensures out_after { out.new ≡ write_into page.now text.now out.old }
{
    page::write_page(page, text, out).into()
}

// The mess ratio of a text.
#[unsafe(no_mangle)]
pub extern "C" fn drasumira_score(
    text: &[u32],
    threshold: f32,
    classes: &[u8],
    pairs: &[u8],
) -> HostScore
    ensures { result ≡ host_score (mess_ratio text.now threshold classes.now pairs.now) }
{
    md::mess_ratio(text, threshold, classes, pairs).into()
}

// The same at the default threshold.
#[unsafe(no_mangle)]
pub extern "C" fn drasumira_score_default(text: &[u32], classes: &[u8], pairs: &[u8]) -> HostScore
    ensures { result ≡ host_score (mess_ratio_default text.now classes.now pairs.now) }
{
    md::mess_ratio_default(text, classes, pairs).into()
}

// The mess ratio by the second engine, of a text of at most 4,096 code points.
#[unsafe(no_mangle)]
pub extern "C" fn drasumira_second_score(
    text: &[u32],
    threshold: f32,
    classes: &[u8],
    pairs: &[u8],
) -> HostScore
    ensures { result ≡ host_score (second_score text.now threshold classes.now pairs.now) }
{
    md_second::second_score(text, threshold, classes, pairs).into()
}

// The mess ratio of the text that UTF-8 bytes are: read and scored in one call.
#[unsafe(no_mangle)]
pub extern "C" fn drasumira_score_utf8(
    text: &[u8],
    threshold: f32,
    classes: &[u8],
    pairs: &[u8],
) -> HostScore
    ensures { result ≡ host_score (mess_ratio_utf8 text.now threshold classes.now pairs.now) }
{
    md_utf8::mess_ratio_utf8(text, threshold, classes, pairs).into()
}

// The same at the default threshold.
#[unsafe(no_mangle)]
pub extern "C" fn drasumira_score_utf8_default(
    text: &[u8],
    classes: &[u8],
    pairs: &[u8],
) -> HostScore
    ensures { result ≡ host_score (mess_ratio_utf8_default text.now classes.now pairs.now) }
{
    md_utf8::mess_ratio_utf8_default(text, classes, pairs).into()
}

// The mess ratios of many lines, each line's thirteen numbers in its place in out: HostScore's, floats as bits. The tables are checked once.
#[unsafe(no_mangle)]
pub extern "C" fn drasumira_score_lines(
    bytes: &[u8],
    threshold: f32,
    classes: &[u8],
    pairs: &[u8],
    out: &mut [u32],
) -> HostRead
    ensures value { result ≡ host_counted (bursts.answer bytes.now threshold classes.now pairs.now (length out.old)) }
    ensures out_after { out.new ≡ bursts.out_after bytes.now threshold classes.now pairs.now out.old }
{
    md_lines::score_lines(bytes, threshold, classes, pairs, out).into()
}

// Which of two texts is the more readable, or which was refused.
#[unsafe(no_mangle)]
pub extern "C" fn drasumira_verdict(
    first: &[u32],
    second: &[u32],
    classes: &[u8],
    pairs: &[u8],
) -> HostVerdict
    ensures { result ≡ host_verdict (verdict_of first.now second.now classes.now pairs.now) }
{
    md_chooser::verdict(first, second, classes, pairs).into()
}

// What the chooser hands back, in numbers: the text taken, 1 or 2, 0 for none; how many of its code points stand before its trailing
// newlines; and the refusal's number and place. drasumira_verdict says which text was refused.
#[repr(C)]
#[derive(Clone, Copy)]
pub struct HostChosen {
    pub taken: u32,
    pub length: u32,
    pub number: u32,
    pub place: u32,
}

// The more readable of two texts, cut before its trailing newlines, by its length. Nothing of the first where either is refused.
#[unsafe(no_mangle)]
pub extern "C" fn drasumira_choose(
    first: &[u32],
    second: &[u32],
    classes: &[u8],
    pairs: &[u8],
) -> HostChosen
    ensures { result ≡ host_chosen (verdict_of first.now second.now classes.now pairs.now) (length (chosen first.now second.now classes.now pairs.now)) }
{
    md_chooser::choose_part(first, second, classes, pairs).into()
}

// The ranking of a text's languages, into the first entries of matches. The work area is 4 words a code point, zero after acceptance. A refusal
// changes neither.
#[unsafe(no_mangle)]
pub extern "C" fn drasumira_coherence(
    text: &[u32],
    threshold: f32,
    small: u32,
    classes: &[u8],
    pairs: &[u8],
    languages: &[u8],
    included: &[u32],
    work: &mut [u32],
    matches: &mut [CoherenceMatch],
) -> HostRanking
    ensures value { result ≡ host_ranking (causes text.now threshold classes.now pairs.now languages.now included.now (length work.old) (length matches.old)) (matches_of text.now threshold small classes.now pairs.now languages.now included.now) }
    ensures work_after { work.new ≡ work_after (causes text.now threshold classes.now pairs.now languages.now included.now (length work.old) (length matches.old)) text.now work.old }
    ensures matches_after { matches.new ≡ lent_after (causes text.now threshold classes.now pairs.now languages.now included.now (length work.old) (length matches.old)) (matches_of text.now threshold small classes.now pairs.now languages.now included.now) matches.old }
{
    let r = cd::coherence_ratio(
        text,
        threshold,
        small,
        classes,
        pairs,
        languages,
        included,
        work,
        matches.len(),
    );
    cd_list::put(matches, r)
}

// The same at the default threshold.
#[unsafe(no_mangle)]
pub extern "C" fn drasumira_coherence_default(
    text: &[u32],
    small: u32,
    classes: &[u8],
    pairs: &[u8],
    languages: &[u8],
    included: &[u32],
    work: &mut [u32],
    matches: &mut [CoherenceMatch],
) -> HostRanking
    ensures value { result ≡ host_ranking (causes_default text.now classes.now pairs.now languages.now included.now (length work.old) (length matches.old)) (matches_of text.now DEFAULT_THRESHOLD small classes.now pairs.now languages.now included.now) }
    ensures work_after { work.new ≡ work_after (causes_default text.now classes.now pairs.now languages.now included.now (length work.old) (length matches.old)) text.now work.old }
    ensures matches_after { matches.new ≡ lent_after (causes_default text.now classes.now pairs.now languages.now included.now (length work.old) (length matches.old)) (matches_of text.now DEFAULT_THRESHOLD small classes.now pairs.now languages.now included.now) matches.old }
{
    drasumira_coherence(
        text,
        cd::DEFAULT_THRESHOLD,
        small,
        classes,
        pairs,
        languages,
        included,
        work,
        matches,
    )
}

// A ring with nothing in it.
#[unsafe(no_mangle)]
pub extern "C" fn drasumira_ring_open(ring: &[u8]) -> HostRing
    ensures { result ≡ host_ring (rings.open_answer ring.now) }
{
    ring::open_ring(ring).into()
}

// Puts a record behind the newest one: the numbers as they are given.
#[unsafe(no_mangle)]
pub extern "C" fn drasumira_ring_put(
    ring: &mut [u8],
    head: u32,
    count: u32,
    line: u64,
    bits: u32,
    fed: u32,
    stopped: u32,
    refusal: u32,
) -> HostRing
    ensures value { result ≡ host_ring (rings.put_answer ring.old head count) }
    ensures ring_after { ring.new ≡ rings.ring_after ring.old head count (record { line = line; bits = bits; fed = fed; stopped = stopped; refusal = refusal }) }
{
    let verdict = Verdict {
        line,
        bits,
        fed,
        stopped,
        refusal,
    };
    ring::put_record(ring, head, count, verdict).into()
}

// Writes the oldest records, up to `most` of them, to the front of out. As many came out as the count fell by.
#[unsafe(no_mangle)]
pub extern "C" fn drasumira_ring_flush(
    ring: &[u8],
    head: u32,
    count: u32,
    most: u32,
    out: &mut [u8],
) -> HostRing
    ensures value { result ≡ host_ring (rings.flush_answer ring.now head count most (length out.old)) }
    ensures out_after { out.new ≡ rings.out_after ring.now head count most out.old }
{
    ring::flush_records(ring, head, count, most, out).into()
}

// A text as UTF-8, into the first places of out.
#[unsafe(no_mangle)]
pub extern "C" fn drasumira_write_utf8(text: &[u32], out: &mut [u8]) -> HostRead
    ensures value { result ≡ host_counted (writing.answer text.now (length out.old)) }
    ensures out_after { out.new ≡ writing.out_after text.now out.old }
{
    utf8_write::write_utf8(text, out).into()
}

// Earlier rankings laid end to end, with their lengths, merged into one. Both lists are of match entries, two u32 an entry, as a list of
// CoherenceMatch lies in memory; the lengths of the slices count u32.
#[unsafe(no_mangle)]
pub extern "C" fn drasumira_merge(list: &[u32], lengths: &[u32], out: &mut [u32]) -> HostRanking
    ensures value { result ≡ host_merged (merge_answer list.now lengths.now (length out.old)) }
    ensures out_after { out.new ≡ merge_into list.now lengths.now out.old }
{
    flat_merged(cd_merge::merge(list, lengths, out))
}

// The monthly report of the rows that drasumira_score_lines leaves, as text, into the first places of out.
#[unsafe(no_mangle)]
pub extern "C" fn drasumira_report(rows: &[u32], out: &mut [u8]) -> HostRead
    ensures value { result ≡ host_counted (report_answer rows.now (length out.old)) }
    ensures out_after { out.new ≡ report_into rows.now out.old }
{
    md_report::report(rows, out).into()
}

// What a feeding entry leaves in the lent state, and its answer.
#[derive(Clone, Copy)]
pub struct HostFed {
    pub state: HostRunning,
    pub answer: HostRead,
}

// A line of `length` characters of which none has arrived.
#[unsafe(no_mangle)]
pub extern "C" fn drasumira_open(
    length: u32,
    threshold: f32,
    classes: &[u8],
    pairs: &[u8],
) -> HostOpened
    ensures { result ≡ host_opened (open_line length threshold classes.now pairs.now) }
{
    md_lent::open_lent(length, threshold, classes, pairs)
}

// One character of a line; the count is the number received. What a refusal stores is what was there.
#[unsafe(no_mangle)]
pub extern "C" fn drasumira_feed(
    state: &mut HostRunning,
    point: u32,
    classes: &[u8],
    pairs: &[u8],
) -> HostRead
    ensures { (state.new ≡ (fed_host state.old point classes.now pairs.now).state) × (result ≡ (fed_host state.old point classes.now pairs.now).answer) }
{
    let fed = HostFed::from(md_lent::feed_lent(*state, point, classes, pairs));
    *state = fed.state;
    fed.answer
}

// A chunk of characters of a line: all of them, or none.
#[unsafe(no_mangle)]
pub extern "C" fn drasumira_feed_all(
    state: &mut HostRunning,
    text: &[u32],
    classes: &[u8],
    pairs: &[u8],
) -> HostRead
    ensures { (state.new ≡ (chunk_host state.old text.now classes.now pairs.now).state) × (result ≡ (chunk_host state.old text.now classes.now pairs.now).answer) }
{
    let fed = HostFed::from(md_lent::chunk_lent(*state, text, classes, pairs));
    *state = fed.state;
    fed.answer
}

// The answer of a line that has arrived in full. The state is lent to be read, so it is left as it is.
#[unsafe(no_mangle)]
pub extern "C" fn drasumira_close(state: &HostRunning) -> HostScore
    ensures { result ≡ closed_host state.now }
{
    md_lent::close_lent(*state).into()
}

// Why a text is noise: the first detector with the greatest ratio, and the indexes at which its numerator grew into the first places of out.
#[unsafe(no_mangle)]
pub extern "C" fn drasumira_reason(
    text: &[u32],
    threshold: f32,
    classes: &[u8],
    pairs: &[u8],
    out: &mut [u32],
) -> HostReason
    ensures value { result ≡ host_reason (reason_answer text.now threshold classes.now pairs.now (length out.old)) }
    ensures out_after { out.new ≡ reason_into text.now threshold classes.now pairs.now out.old }
{
    md_reason::reason(text, threshold, classes, pairs, out).into()
}

// The same of the text that UTF-8 bytes are; the indexes are in code points.
#[unsafe(no_mangle)]
pub extern "C" fn drasumira_reason_utf8(
    bytes: &[u8],
    threshold: f32,
    classes: &[u8],
    pairs: &[u8],
    out: &mut [u32],
) -> HostReason
    ensures value { result ≡ host_reason (utf8_answer bytes.now threshold classes.now pairs.now (length out.old)) }
    ensures out_after { out.new ≡ utf8_into bytes.now threshold classes.now pairs.now out.old }
{
    md_reason::utf8_bytes::reason_utf8(bytes, threshold, classes, pairs, out).into()
}

// What a code point is, by the built-in table or the lent one.
#[unsafe(no_mangle)]
pub extern "C" fn drasumira_class(point: u32, classes: &[u8]) -> HostClass
    ensures { result ≡ host_class (bad_classes classes.now) (class_of classes.now point) }
{
    match classes::bad_classes(classes) {
        Err(why) => HostClass {
            number: why.cause.number(),
            place: why.place,
            flags: 0,
            range: 0,
        },
        Ok(()) => {
            let table = class_builtin::table();
            classes::look_up_in(point, &table, classes).into()
        }
    }
}
