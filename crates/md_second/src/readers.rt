// Weird words and archaic case, from a text that is read as words and gaps in turn. A word is a run of characters without WHITESPACE, PUNCTUATION and
// SEPARATOR, a gap a run of the others. The word reader hands over to the gap reader at each boundary and the gap reader hands back, with fewer
// characters left. Archaic case has other separators, so that both readers carry its counts along.
ghost use Rattle.std.specs.Prelude.{◌≡◌, ◌≤◌, ◌<◌};
ghost use Rattle.md_words.specs.SuperWeirdWord as weird;
ghost use Rattle.md_words.specs.ArchaicUpperLower as archaic;
ghost use Rattle.md_second.specs.Inner.Lists.{ROOM, Fits};
ghost use Rattle.md_second.specs.Inner.Reading as reading;

use base::flags::{
    ACCENTUATED, ALPHABETIC, ASCII, ASCII_ALPHABETIC, ASCII_DIGIT, CASE_VARIABLE, CJK, HANGUL,
    HIRAGANA, KATAKANA, LATIN, LOWERCASE, PUNCTUATION, SEPARATOR, SYMBOL, THAI, UPPERCASE,
    WEIRD_SAFE, WHITESPACE,
};
use base::{is_set, one, pick};
use ratio::{Counts, Fraction, counts_of};

// with at most so many words, and no foreign long one, the answer is 0
const FEW_WORDS: u32 = 10;

// accents and the last letter of a word are looked at from this length on
const SHORT_WORD: u32 = 4;

// a word is long from this length on
const LONG_WORD: u32 = 24;

// a word is bad with accents over 17/50
const ACCENTS_PART: u32 = 17;

const ACCENTS_WHOLE: u32 = 50;

// camel case has capitals up to 3/10
const CAMEL_PART: u32 = 3;

const CAMEL_WHOLE: u32 = 10;

// a run of changes of case is counted up to so many characters
const LONGEST_RUN: u32 = 64;

// a change of case that follows another adds so many
const CHANGES: u32 = 2;

// The words that are closed: their characters, their number, the foreign long ones, the characters of bad ones.
#[derive(Clone, Copy, Default)]
pub struct Words {
    pub characters: u32,
    pub words: u32,
    pub foreign: u32,
    pub spoilt: u32,
}

// The word that is being read: what has entered it.
#[derive(Clone, Copy, Default)]
pub struct Word {
    pub length: u32,
    pub accents: u32,
    pub uppercase: u32,
    pub last: u32,
    pub watch: bool,
    pub bad: bool,
}

// Archaic case: the characters since its last separator, their changes of case, those counted, the last character, whether all since were
// ASCII, whether the last changed case.
#[derive(Clone, Copy)]
pub struct Case {
    pub since: u32,
    pub run: u32,
    pub total: u32,
    pub last: u32,
    pub ascii: bool,
    pub changed: bool,
}

// What a reader hands over.
#[derive(Clone, Copy)]
pub struct Reading {
    pub words: Words,
    pub case: Case,
}

// Whether a character belongs to a gap. An ASCII letter is in no table one of the three, and would be a letter still.
fn is_gap(f: u32) -> bool
    ensures { result ≡ reading.is_gap f }
{
    !is_set(f, ASCII_ALPHABETIC)
        & (is_set(f, WHITESPACE) | is_set(f, PUNCTUATION) | is_set(f, SEPARATOR))
}

// A symbol that makes a word bad.
fn is_odd_symbol(f: u32) -> bool
    ensures { result ≡ weird.counted f }
{
    !is_set(f, WEIRD_SAFE) & !is_set(f, ASCII_DIGIT) & is_set(f, SYMBOL)
}

// A letter that makes its word foreign.
fn is_foreign(f: u32) -> bool
    ensures { result ≡ weird.watched f }
{
    (!is_set(f, LATIN) | is_set(f, ACCENTUATED))
        & !is_set(f, CJK)
        & !is_set(f, HANGUL)
        & !is_set(f, KATAKANA)
        & !is_set(f, HIRAGANA)
        & !is_set(f, THAI)
}

fn no_word() -> Word
    ensures { result ≡ reading.no_word }
{
    Word::default()
}

// A character of a word: an ASCII letter enters it, and an odd symbol once a letter has.
fn entered(word: Word, f: u32) -> Word
    requires { reading.WordRoom word }
    ensures { result ≡ reading.entered word f }
{
    let letter = is_set(f, ASCII_ALPHABETIC);
    let symbol = !letter & (0 < word.length) & is_odd_symbol(f);
    let enters = letter | symbol;
    Word {
        length: word.length + one(enters),
        accents: word.accents + one(letter & is_set(f, ACCENTUATED)),
        uppercase: word.uppercase + one(enters & is_set(f, UPPERCASE)),
        last: pick(enters, f, word.last),
        watch: word.watch | (letter & is_foreign(f)),
        bad: word.bad | symbol,
    }
}

// Whether the word has too many accents.
fn is_accented(word: Word) -> bool
    requires { reading.WordRoom word }
    ensures { result ≡ weird.accented (reading.weird reading.no_words word) }
{
    (SHORT_WORD <= word.length) & (ACCENTS_PART * word.length < ACCENTS_WHOLE * word.accents)
}

// Whether the word ends in an accented capital.
fn ends_high(word: Word) -> bool
    ensures { result ≡ weird.capital (reading.weird reading.no_words word) }
{
    (SHORT_WORD <= word.length) & is_set(word.last, ACCENTUATED) & is_set(word.last, UPPERCASE)
}

// Whether the word is long and foreign, and no camel case.
fn is_long(word: Word) -> bool
    requires { reading.WordRoom word }
    ensures { result ≡ weird.long (reading.weird reading.no_words word) }
{
    (LONG_WORD <= word.length)
        & word.watch
        & !((0 < word.uppercase) & (CAMEL_WHOLE * word.uppercase <= CAMEL_PART * word.length))
}

// The word is closed; one that no letter entered is none.
fn closed(words: Words, word: Word) -> Words
    requires { reading.WordsRoom words × reading.WordRoom word }
    ensures { result ≡ reading.closed words word }
{
    let high = ends_high(word);
    let long = is_long(word);
    let bad = word.bad | is_accented(word) | high | long;
    Words {
        characters: words.characters + word.length,
        words: words.words + one(0 < word.length),
        foreign: words.foreign + one(high) + one(long),
        spoilt: words.spoilt + pick(bad, word.length, 0),
    }
}

// Whether a character is a separator of archaic case: no letter that has case, after at least one character.
fn parts_case(c: Case, f: u32) -> bool
    ensures { result ≡ archaic.separates (reading.archaic_of 0 c) f }
{
    !(is_set(f, ALPHABETIC) & is_set(f, CASE_VARIABLE)) & (0 < c.since)
}

// Whether the case goes from lower to upper or from upper to lower.
fn is_change(last: u32, f: u32) -> bool
    ensures { result ≡ archaic.changes last f }
{
    (is_set(f, UPPERCASE) & is_set(last, LOWERCASE))
        | (is_set(f, LOWERCASE) & is_set(last, UPPERCASE))
}

// At a separator the run is counted, if it is not too long, not all was ASCII and the separator is no digit.
fn case_parted(c: Case, f: u32) -> Case
    requires { reading.CaseRoom c }
    ensures { result ≡ reading.case_of (archaic.separator (reading.archaic_of 0 c) f) }
{
    let counted = (c.since <= LONGEST_RUN) & !is_set(f, ASCII_DIGIT) & !c.ascii;
    Case {
        since: 0,
        run: 0,
        total: c.total + pick(counted, c.run, 0),
        last: 0,
        ascii: true,
        changed: false,
    }
}

// Any other character is seen: of two changes of case that follow each other the second adds 2.
fn case_seen(c: Case, f: u32) -> Case
    requires { reading.CaseRoom c }
    ensures { result ≡ reading.case_of (archaic.letter (reading.archaic_of 0 c) f) }
{
    let change = is_change(c.last, f);
    Case {
        since: c.since + 1,
        run: c.run + pick(change & c.changed, CHANGES, 0),
        total: c.total,
        last: f,
        ascii: c.ascii & is_set(f, ASCII),
        changed: change & !c.changed,
    }
}

fn cased(c: Case, f: u32) -> Case
    requires { reading.CaseRoom c }
    ensures { result ≡ reading.cased c f }
{
    if parts_case(c, f) {
        return case_parted(c, f);
    }
    case_seen(c, f)
}

// From the first character of a word on: to the boundary, where the word is closed and the gap reader goes on. A word that the last of the n characters
// leaves open is not counted.
#[cycle(read_gap_read_word)]
fn read_word(flags: &[u32], at: usize, n: usize, s: Reading) -> Reading
    requires { reading.ToWord flags.now n at s }
    ensures { reading.Read flags.now n result }
{
    let words = s.words;
    let mut word = no_word();
    let mut case = s.case;
    for i in at..n {
        let f = flags[i];
        if is_gap(f) {
            let shut = closed(words, word);
            return read_gap(flags, i, n, Reading { words: shut, case });
        }
        word = entered(word, f);
        case = cased(case, f);
    }
    Reading { words, case }
}

// From the first character of a gap on: to the next word, with which the word reader goes on.
#[cycle(read_gap_read_word)]
fn read_gap(flags: &[u32], at: usize, n: usize, s: Reading) -> Reading
    requires { reading.ToGap flags.now n at s }
    ensures { reading.Read flags.now n result }
{
    let words = s.words;
    let mut case = s.case;
    for i in at..n {
        let f = flags[i];
        if !is_gap(f) {
            return read_word(flags, i, n, Reading { words, case });
        }
        case = cased(case, f);
    }
    Reading { words, case }
}

fn unread() -> Reading
    ensures { result ≡ reading.unread }
{
    Reading {
        words: Words::default(),
        case: Case {
            since: 0,
            run: 0,
            total: 0,
            last: 0,
            ascii: true,
            changed: false,
        },
    }
}

// The first n characters, by the reader that the first of them asks for.
pub fn read_words(flags: &[u32], n: usize) -> Reading
    requires { Fits flags.now n × (0 < n) }
    ensures { reading.Read flags.now n result }
{
    let nothing = unread();
    if is_gap(flags[0]) {
        return read_gap(flags, 0, n, nothing);
    }
    read_word(flags, 0, n, nothing)
}

// Weird words: "0 if at most 10 words and no foreign long one", else the characters of bad words over those of all.
pub fn count_words(w: Words) -> Counts
    ensures { result ≡ weird.counts (reading.weird w reading.no_word) }
{
    let few = (w.words <= FEW_WORDS) & (w.foreign == 0);
    let share = Fraction {
        num: w.spoilt,
        den: w.characters,
    };
    counts_of(share, !few)
}

// Archaic case: the runs counted over the n characters.
pub fn count_case(c: Case, n: usize) -> Counts
    requires { n ≤ ROOM }
    ensures { result ≡ archaic.counts (reading.archaic_of n c) }
{
    let share = Fraction {
        num: c.total,
        den: n as u32,
    };
    counts_of(share, true)
}
