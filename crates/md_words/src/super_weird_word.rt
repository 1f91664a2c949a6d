// Weird words: how many of the characters in words stand in bad ones.
ghost use Rattle.std.specs.Prelude.{◌≡◌, ◌≤◌};
ghost use Rattle.base.specs.Inner.Limits.{LARGEST};
ghost use Rattle.md_words.specs.SuperWeirdWord as weird;
ghost use Rattle.md_words.specs.Inner.SuperWeirdWord as inner;
ghost use Rattle.md_words.specs.Inner.SuperWeirdWord.{Room};

use base::flags::{
    ACCENTUATED, ASCII_ALPHABETIC, ASCII_DIGIT, CJK, HANGUL, HIRAGANA, KATAKANA, LATIN,
    PUNCTUATION, SEPARATOR, SYMBOL, THAI, UPPERCASE, WEIRD_SAFE, WHITESPACE,
};
use base::{is_set, one, pick};
use classes::Class;
use ratio::{Counts, Fraction, counts_of};

// with at most this many words, and no foreign long one, the answer is 0
const FEW_WORDS: u32 = 10;

// accents and the last letter are looked at from this length on
const SHORT_WORD: u32 = 4;

// a word is long from this length on
const LONG_WORD: u32 = 24;

// a word is bad with accents over 17/50
const ACCENTS_PART: u32 = 17;

const ACCENTS_WHOLE: u32 = 50;

// camel case has capitals up to 3/10
const CAMEL_PART: u32 = 3;

const CAMEL_WHOLE: u32 = 10;

// The Rust's SuperWeirdWordPlugin. Of its `buffer` it reads the length, the last character's flags and how many are UPPERCASE; its
// bad_word_count is never read and left out.
#[derive(Clone, Copy)]
pub struct SuperWeirdWord {
    // character_count
    pub characters: u32,
    // word_count
    pub words: u32,
    // foreign_long_count
    pub foreign: u32,
    // bad_character_count
    pub spoilt: u32,
    // is_current_word_bad
    pub bad: bool,
    // foreign_long_watch
    pub watch: bool,
    // buffer_accent_count
    pub accents: u32,
    // uppercase_count of the buffer
    pub uppercase: u32,
    // the buffer's length
    pub length: u32,
    // the flags of the buffer's last character, 0 where it is empty
    pub last: u32,
}

// Whether a letter makes its word foreign.
fn watched(f: u32) -> bool
    ensures { result ≡ weird.watched f }
{
    (!is_set(f, LATIN) | is_set(f, ACCENTUATED))
        & !is_set(f, CJK)
        & !is_set(f, HANGUL)
        & !is_set(f, KATAKANA)
        & !is_set(f, HIRAGANA)
        & !is_set(f, THAI)
}

// Whether a character closes a word.
fn closes(f: u32) -> bool
    ensures { result ≡ weird.closes f }
{
    is_set(f, WHITESPACE) | is_set(f, PUNCTUATION) | is_set(f, SEPARATOR)
}

// Whether a character is a symbol that is counted: it enters a word and makes it bad.
fn counted(f: u32) -> bool
    ensures { result ≡ weird.counted f }
{
    !is_set(f, WEIRD_SAFE) & !is_set(f, ASCII_DIGIT) & is_set(f, SYMBOL)
}

impl SuperWeirdWord {
    pub fn start() -> SuperWeirdWord
        ensures { result ≡ weird.start }
    {
        SuperWeirdWord {
            characters: 0,
            words: 0,
            foreign: 0,
            spoilt: 0,
            bad: false,
            watch: false,
            accents: 0,
            uppercase: 0,
            length: 0,
            last: 0,
        }
    }

    // A letter enters the word.
    fn letter(self, f: u32) -> SuperWeirdWord
        requires { Room self }
        ensures { result ≡ weird.letter self f }
    {
        SuperWeirdWord {
            characters: self.characters,
            words: self.words,
            foreign: self.foreign,
            spoilt: self.spoilt,
            bad: self.bad,
            watch: self.watch | watched(f),
            accents: self.accents + one(is_set(f, ACCENTUATED)),
            uppercase: self.uppercase + one(is_set(f, UPPERCASE)),
            length: self.length + 1,
            last: f,
        }
    }

    // A counted symbol enters the word.
    fn symbol(self, f: u32) -> SuperWeirdWord
        requires { Room self }
        ensures { result ≡ weird.symbol self f }
    {
        SuperWeirdWord {
            characters: self.characters,
            words: self.words,
            foreign: self.foreign,
            spoilt: self.spoilt,
            bad: true,
            watch: self.watch,
            accents: self.accents,
            uppercase: self.uppercase + one(is_set(f, UPPERCASE)),
            length: self.length + 1,
            last: f, // also a symbol's
        }
    }

    // Whether the word has too many accents.
    fn accented(self) -> bool
        requires { Room self }
        ensures { result ≡ weird.accented self }
    {
        (SHORT_WORD <= self.length) & (ACCENTS_PART * self.length < ACCENTS_WHOLE * self.accents)
    }

    // Whether the word ends in an accented capital.
    fn capital(self) -> bool
        ensures { result ≡ weird.capital self }
    {
        (SHORT_WORD <= self.length) & is_set(self.last, ACCENTUATED) & is_set(self.last, UPPERCASE)
    }

    // Whether the word is a foreign long one: it has a letter that was watched, and is no camel case.
    fn long(self) -> bool
        requires { Room self }
        ensures { result ≡ weird.long self }
    {
        (LONG_WORD <= self.length)
            & self.watch
            & !((0 < self.uppercase) & (CAMEL_WHOLE * self.uppercase <= CAMEL_PART * self.length))
    }

    // The word ends.
    fn close(self) -> SuperWeirdWord
        requires { Room self }
        ensures { result ≡ weird.close self }
    {
        let capital = self.capital();
        let long = self.long();
        let bad = self.bad | self.accented() | capital | long;
        SuperWeirdWord {
            characters: self.characters + self.length,
            words: self.words + 1,
            foreign: self.foreign + one(capital) + one(long),
            spoilt: self.spoilt + pick(bad, self.length, 0),
            bad: false,
            watch: false,
            accents: 0,
            uppercase: 0,
            length: 0,
            last: 0,
        }
    }

    // In a word, a character that is no letter closes it, enters it or is passed over.
    fn inside(self, f: u32) -> SuperWeirdWord
        requires { Room self }
        ensures { result ≡ weird.inside self f }
    {
        if closes(f) {
            return self.close();
        }
        if counted(f) {
            return self.symbol(f);
        }
        self
    }

    pub fn feed(self, c: Class) -> SuperWeirdWord
        requires { Room self }
        ensures { result ≡ weird.feed self c }
    {
        let f = c.flags;
        if is_set(f, ASCII_ALPHABETIC) {
            return self.letter(f);
        }
        if self.length == 0 {
            return self;
        }
        self.inside(f)
    }

    // m letters with the same flags enter the word, at least one.
    fn letters(self, f: u32, m: u32) -> SuperWeirdWord
        requires { Room self × (m ≤ LARGEST) }
        ensures { result ≡ inner.letters self f m }
    {
        let watch = self.watch | watched(f);
        SuperWeirdWord {
            characters: self.characters,
            words: self.words,
            foreign: self.foreign,
            spoilt: self.spoilt,
            bad: self.bad,
            watch,
            accents: self.accents + pick(is_set(f, ACCENTUATED), m, 0),
            uppercase: self.uppercase + pick(is_set(f, UPPERCASE), m, 0),
            length: self.length + m,
            last: f,
        }
    }

    // m characters with the same flags, at least one: letters that enter the word, or characters that are passed over.
    pub fn feed_run(self, f: u32, m: u32) -> SuperWeirdWord
        requires { Room self × (m ≤ LARGEST) }
        ensures { result ≡ inner.feed_run self f m }
    {
        if !is_set(f, ASCII_ALPHABETIC) {
            return self;
        }
        self.letters(f, m)
    }

    // The same state, where no letter was watched and none had an accent. Only ASCII letters enter a word, and by the tables' rules they are Latin and have no accent: a scan that has
    // it said so need not carry the two, nor the capitals, which are read for a watched word alone.
    pub fn unwatched(self) -> SuperWeirdWord
        requires { inner.Unwatched self }
        ensures { result ≡ self }
    {
        SuperWeirdWord {
            characters: self.characters,
            words: self.words,
            foreign: self.foreign,
            spoilt: self.spoilt,
            bad: self.bad,
            watch: false,
            accents: 0,
            uppercase: self.uppercase,
            length: self.length,
            last: self.last,
        }
    }

    // The characters of bad words over those of all words.
    pub fn counts(self) -> Counts
        ensures { result ≡ weird.counts self }
    {
        let few = (self.words <= FEW_WORDS) & (self.foreign == 0);
        counts_of(
            Fraction {
                num: self.spoilt,
                den: self.characters,
            },
            !few,
        )
    }
}
