// Replays rankings of languages (oracle/lists/coherence.py): number, place and count, every language and every bit of a score, and the work
// area, whose words are marked before each call: all 0 for the text after acceptance, all else as it was.
#![tactic(auto)]

ghost use Rattle.std.specs.Prelude.{◌+◌, ◌≤◌, ◌≡◌, length};
ghost use Rattle.replay_coherence.specs.Inner.Sizes.{BLOCK_BYTES, TEXT_ROOM};

use base::limits::{MOST_LANGUAGES, WORK_PER_POINT};
use base::pick;
use base::refusals::ACCEPTED;
use cd::coherence_ratio;
use cd_ranking::Ranking;
use replay::{
    MOST_CASES, Tally, WORD, flip_bits, float_of, least, read_case, same_words, word, words,
};
use std::io;

const BLOCK_BYTES: usize = 131072;

// The first words of a block: bytes of the class table, of the language table and of the pair table, the byte that fills the pair table, how
// many of its bits are flipped, how many questions. Then come the class table, the language table, the bits and the questions.
const LANGUAGES_AT: usize = 1;

const PAIRS_AT: usize = 2;

const FILL_AT: usize = 3;

const FLIPPED_AT: usize = 4;

const QUESTIONS_AT: usize = 5;

const HEAD: usize = 6;

// The first words of a question: threshold, small, how many included numbers, how many characters and how many of them are written down, words
// of the work area, room for matches; number, place and count of the answer. Then come the included numbers, the characters, the matches.
const SMALL_AT: usize = 1;

const INCLUDED_AT: usize = 2;

const LENGTH_AT: usize = 3;

const WRITTEN_AT: usize = 4;

const WORK_AT: usize = 5;

const ROOM_AT: usize = 6;

const ANSWER_AT: usize = 7;

const COUNT_AT: usize = 9;

const QUESTION: usize = 10;

// The most that a question of the list has.
const INCLUDED_ROOM: usize = 80;

const TEXT_ROOM: usize = 8200;

const WORK_ROOM: usize = 65600;

const PAIR_ROOM: usize = 32800;

// The bits of -0.0.
const SIGN_BIT: u32 = 0x8000_0000;

// What the work area holds before a call.
const MARK: u32 = 0xA5C3_0F5A;

// The place behind `from` among p, or the first.
fn behind(from: usize, p: usize) -> usize
    requires { (from ≤ p) × (p ≤ TEXT_ROOM) }
    ensures { result ≤ p }
{
    if from + 1 < p { from + 1 } else { 0 }
}

// Fills out with the p words of buf from the word `at` on, over and over.
fn repeat_words(buf: &[u8], at: usize, p: usize, out: &mut [u32])
    requires { (at ≤ BLOCK_BYTES + BLOCK_BYTES) × (p ≤ TEXT_ROOM) }
    ensures { length out.new ≡ length out.old }
{
    let mut from = 0;
    for x in out.iter_mut() {
        *x = word(buf, at + from);
        from = behind(from, p);
    }
}

// Whether a score has these bits: equal to their float, and of their sign, which tells -0.0 from 0.0.
fn same_score(score: f32, bits: u32) -> bool {
    let zero: f32 = 0.0;
    let one: f32 = 1.0;
    let plus = one / score > zero;
    let minus = bits >= SIGN_BIT;
    (score == float_of(bits)) & (plus | minus) & !(plus & minus)
}

// Whether the matches are the `count` that stand from the word `at` on, and zeros.
fn same_matches(r: Ranking, buf: &[u8], at: usize, count: usize) -> bool
    requires { at ≤ BLOCK_BYTES + BLOCK_BYTES }
{
    let mut same = true;
    for i in 0..MOST_LANGUAGES {
        let k = at + i + i;
        let language = pick(i < count, word(buf, k), 0);
        let score = pick(i < count, word(buf, k + 1), 0);
        same = same & (r.languages[i] == language) & same_score(r.scores[i], score);
    }
    same
}

// Whether the first words of the work area are 0, so many as the text needs, and the others marked.
fn same_work(work: &[u32], zeros: usize) -> bool {
    let mut same = true;
    for (i, x) in work.iter().enumerate() {
        same &= *x == pick(i < zeros, 0, MARK);
    }
    same
}

// Whether the text is ranked as the question at the word `at` says, over a work area that is marked; the matches stand from the word
// `matches` on.
fn same_ranking(
    buf: &[u8],
    at: usize,
    matches: usize,
    text: &[u32],
    classes: &[u8],
    pairs: &[u8],
    languages: &[u8],
    included: &[u32],
    work: &mut [u32],
) -> bool
    requires { (at ≤ BLOCK_BYTES) × (matches ≤ BLOCK_BYTES + BLOCK_BYTES) × (length text.now ≤ TEXT_ROOM) }
{
    let n = least(word(buf, at + WORK_AT) as usize, work.len());
    let r = coherence_ratio(
        text,
        float_of(word(buf, at)),
        word(buf, at + SMALL_AT),
        classes,
        pairs,
        languages,
        included,
        &mut work[..n],
        word(buf, at + ROOM_AT) as usize,
    );
    match r {
        Ok(ranking) => {
            same_words(&[ACCEPTED, 0, ranking.count], buf, at + ANSWER_AT)
                & same_matches(ranking, buf, matches, word(buf, at + COUNT_AT) as usize)
                & same_work(work, WORK_PER_POINT * text.len())
        }
        Err(why) => {
            same_words(&[why.cause.number(), why.place, 0], buf, at + ANSWER_AT)
                & same_work(work, 0)
        }
    }
}

// Whether the question at the word `at` is answered as it says.
fn same_question(buf: &[u8], at: usize, classes: &[u8], pairs: &[u8], languages: &[u8]) -> bool
    requires { at ≤ BLOCK_BYTES }
{
    let i = least(word(buf, at + INCLUDED_AT) as usize, INCLUDED_ROOM);
    let n = least(word(buf, at + LENGTH_AT) as usize, TEXT_ROOM);
    let p = least(word(buf, at + WRITTEN_AT) as usize, TEXT_ROOM);
    let mut included = [0u32; INCLUDED_ROOM];
    let mut text = [0u32; TEXT_ROOM];
    let mut work = [MARK; WORK_ROOM];
    let written = at + QUESTION + i;
    words(buf, at + QUESTION, &mut included);
    repeat_words(buf, written, p, &mut text);
    same_ranking(
        buf,
        at,
        written + p,
        &text[..n],
        classes,
        pairs,
        languages,
        &included[..i],
        &mut work,
    )
}

// The word behind the question at the word `at`.
fn past_question(buf: &[u8], at: usize) -> usize
    requires { at ≤ BLOCK_BYTES }
{
    let i = least(word(buf, at + INCLUDED_AT) as usize, BLOCK_BYTES);
    let p = least(word(buf, at + WRITTEN_AT) as usize, BLOCK_BYTES);
    let count = least(word(buf, at + COUNT_AT) as usize, BLOCK_BYTES);
    at + QUESTION + i + p + count + count
}

// The questions of a block, the first at the word `from`.
fn replay_questions(
    buf: &[u8],
    from: usize,
    classes: &[u8],
    pairs: &[u8],
    languages: &[u8],
    before: Tally,
) -> Tally {
    let mut t = before;
    let mut at = from;
    for _ in 0..word(buf, QUESTIONS_AT) {
        if at > BLOCK_BYTES {
            return t;
        }
        t = t.tallied(same_question(buf, at, classes, pairs, languages));
        at = past_question(buf, at);
    }
    t
}

// A block: its tables, and its questions asked of them.
fn replay_block(buf: &[u8], before: Tally) -> Tally {
    let c = least(word(buf, 0) as usize, BLOCK_BYTES);
    let l = least(word(buf, LANGUAGES_AT) as usize, BLOCK_BYTES);
    let p = least(word(buf, PAIRS_AT) as usize, PAIR_ROOM);
    let n = least(word(buf, FLIPPED_AT) as usize, BLOCK_BYTES);
    let second = HEAD + (c + 3) / WORD;
    let flipped = second + (l + 3) / WORD;
    if flipped * WORD > buf.len() {
        return before;
    }
    let fill = (word(buf, FILL_AT) % 256) as u8;
    let mut pairs = [fill; PAIR_ROOM];
    flip_bits(buf, flipped, n, &mut pairs);
    let a = HEAD * WORD;
    let b = second * WORD;
    replay_questions(
        buf,
        flipped + n,
        &buf[a..a + c],
        &pairs[..p],
        &buf[b..b + l],
        before,
    )
}

// Room for a block. The contract gives only the length: the prover need not look at the zeros.
fn no_block() -> [u8; BLOCK_BYTES]
    ensures { BLOCK_BYTES ≡ length result }
{
    [0; BLOCK_BYTES]
}

fn main(rt: HostRuntime) -> io::Result<()> {
    let mut buf = no_block();
    let mut t = Tally::none();
    for _ in 0..MOST_CASES {
        let Some(block) = read_case(&rt, &mut buf) else {
            break;
        };
        t = replay_block(block, t);
    }
    t.say(&rt)
}
