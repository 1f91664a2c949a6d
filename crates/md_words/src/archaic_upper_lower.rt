// Archaic case: how many characters stand where the case goes back and forth from letter to letter.
ghost use Rattle.std.specs.Prelude.{◌≡◌, ◌≤◌};
ghost use Rattle.base.specs.Inner.Limits.{LARGEST};
ghost use Rattle.md_words.specs.ArchaicUpperLower as archaic;
ghost use Rattle.md_words.specs.Inner.ArchaicUpperLower as inner;
ghost use Rattle.md_words.specs.Inner.ArchaicUpperLower.{Room};

use base::flags::{ALPHABETIC, ASCII, ASCII_DIGIT, CASE_VARIABLE, LOWERCASE, UPPERCASE};
use base::{is_set, one, pick};
use classes::Class;
use ratio::{Counts, Fraction, counts_of};

// a run is counted where at most this many characters were seen since the last separator
const LONGEST_RUN: u32 = 64;

// The Rust's ArchaicUpperLowerPlugin.
#[derive(Clone, Copy)]
pub struct ArchaicUpperLower {
    // character_count
    pub characters: u32,
    // character_count_since_last_sep
    pub since: u32,
    // successive_upper_lower_count
    pub run: u32,
    // successive_upper_lower_count_final
    pub total: u32,
    // the flags of last_alpha_seen, 0 for none
    pub last: u32,
    // current_ascii_only
    pub ascii: bool,
    // buf
    pub buf: bool,
}

// Whether the case goes from lower to upper or from upper to lower.
fn changes(last: u32, f: u32) -> bool
    ensures { result ≡ archaic.changes last f }
{
    (is_set(f, UPPERCASE) & is_set(last, LOWERCASE))
        | (is_set(f, LOWERCASE) & is_set(last, UPPERCASE))
}

impl ArchaicUpperLower {
    pub fn start() -> ArchaicUpperLower
        ensures { result ≡ archaic.start }
    {
        ArchaicUpperLower {
            characters: 0,
            since: 0,
            run: 0,
            total: 0,
            last: 0,
            ascii: true,
            buf: false,
        }
    }

    // Whether the character is a separator: no letter that has case, after at least one character.
    fn separates(self, f: u32) -> bool
        ensures { result ≡ archaic.separates self f }
    {
        !(is_set(f, ALPHABETIC) & is_set(f, CASE_VARIABLE)) & (0 < self.since)
    }

    // Whether the run before a separator is counted.
    fn counted(self, f: u32) -> bool
        ensures { result ≡ archaic.counted self f }
    {
        (self.since <= LONGEST_RUN) & !is_set(f, ASCII_DIGIT) & !self.ascii
    }

    // The character is a separator.
    fn separator(self, f: u32) -> ArchaicUpperLower
        requires { Room self }
        ensures { result ≡ archaic.separator self f }
    {
        ArchaicUpperLower {
            characters: self.characters + 1,
            since: 0,
            run: 0,
            total: self.total + pick(self.counted(f), self.run, 0),
            last: 0,
            ascii: true,
            buf: false,
        }
    }

    // The character is counted as a letter seen.
    fn letter(self, f: u32) -> ArchaicUpperLower
        requires { Room self }
        ensures { result ≡ archaic.letter self f }
    {
        let changed = changes(self.last, f);
        ArchaicUpperLower {
            characters: self.characters + 1,
            since: self.since + 1,
            run: self.run + pick(changed & self.buf, 2, 0),
            total: self.total,
            last: f,
            ascii: self.ascii & is_set(f, ASCII),
            buf: changed & !self.buf,
        }
    }

    pub fn feed(self, c: Class) -> ArchaicUpperLower
        requires { Room self }
        ensures { result ≡ archaic.feed self c }
    {
        let f = c.flags;
        if self.separates(f) {
            return self.separator(f);
        }
        self.letter(f)
    }

    // m letters with case and the same flags, at least one: only at the first can the case change.
    pub fn feed_cased(self, f: u32, m: u32) -> ArchaicUpperLower
        requires { Room self × (m ≤ LARGEST) }
        ensures { result ≡ inner.feed_cased self f m }
    {
        let changed = changes(self.last, f);
        let ascii = self.ascii & is_set(f, ASCII);
        ArchaicUpperLower {
            characters: self.characters + m,
            since: self.since + m,
            run: self.run + pick(changed & self.buf, 2, 0),
            total: self.total,
            last: f,
            ascii,
            buf: changed & !self.buf & (m == 1),
        }
    }

    // The runs counted once a separator has come. Most often there is none to add.
    fn closed_total(self, f: u32) -> u32
        requires { Room self }
        ensures { result ≡ inner.closed_total self f }
    {
        if self.run == 0 {
            return self.total;
        }
        self.total + pick(self.counted(f), self.run, 0)
    }

    // m characters with the same flags that are no letters with case, at least one: each is a separator or a letter seen, in turn.
    pub fn feed_uncased(self, f: u32, m: u32) -> ArchaicUpperLower
        requires { Room self × (m ≤ LARGEST) }
        ensures { result ≡ inner.feed_uncased self f m }
    {
        let since = (m + one(0 < self.since)) % 2;
        ArchaicUpperLower {
            characters: self.characters + m,
            since,
            run: 0,
            total: self.closed_total(f),
            last: pick(since == 0, 0, f),
            ascii: (since == 0) | is_set(f, ASCII),
            buf: false,
        }
    }

    // The runs counted over all characters.
    pub fn counts(self) -> Counts
        ensures { result ≡ archaic.counts self }
    {
        counts_of(
            Fraction {
                num: self.total,
                den: self.characters,
            },
            true,
        )
    }
}
