// Many characters of one kind, fed to the eight at once. Each function answers what `Detectors::feed` does, character by character.
ghost use Rattle.std.specs.Prelude.{◌≡◌, false, ◌<◌, ◌≤◌};
ghost use Rattle.base.specs.Inner.Limits.{LARGEST};
ghost use Rattle.md_eight.specs.Detectors as detectors;
ghost use Rattle.md_eight.specs.Inner.Detectors.{Room, FedCount, Slim};
ghost use Rattle.md_eight.specs.Inner.Runs as runs;

use crate::Detectors;
use base::flags::{
    ACCENTUATED, ALPHABETIC, ASCII, ASCII_ALPHABETIC, ASCII_GRAPHIC, CASE_VARIABLE,
    CHAR_ALPHABETIC, COMMON_SAFE, LATIN, LOWERCASE, PUNCTUATION, SEPARATOR, SYMBOL, UNPRINTABLE,
    UPPERCASE, WHITESPACE,
};
use base::is_set;
use classes::Class;
use md_counts::cjk_invalid_stop::CjkInvalidStop;
use md_counts::too_many_accentuated::TooManyAccentuated;
use md_counts::too_many_symbol_or_punctuation::TooManySymbolOrPunctuation;
use md_counts::unprintable::Unprintable;
use md_neighbours::suspicious_range::SuspiciousRange;
use md_words::archaic_upper_lower::ArchaicUpperLower;

// Whether a character of a run may have these flags: it is printable, closes no word, is no symbol and lets ranges remember.
// Tests of single bits, which the proofs compute; the compiler makes one mask of them.
fn is_plain(f: u32) -> bool
    ensures { result ≡ runs.is_plain f }
{
    !is_set(f, UNPRINTABLE)
        & !is_set(f, WHITESPACE)
        & !is_set(f, PUNCTUATION)
        & !is_set(f, SEPARATOR)
        & !is_set(f, SYMBOL)
        & !is_set(f, COMMON_SAFE)
}

// Letters without case, and other characters that enter no word.
pub fn is_uncased(f: u32) -> bool
    ensures { result ≡ runs.is_uncased f }
{
    is_plain(f) & !is_set(f, ASCII_ALPHABETIC) & !is_set(f, CASE_VARIABLE) & !is_set(f, LATIN)
}

// Letters of one case, but for accented Latin ones, two of which may add to doubled accents.
pub fn is_cased(f: u32) -> bool
    ensures { result ≡ runs.is_cased f }
{
    is_plain(f)
        & is_set(f, ALPHABETIC)
        & is_set(f, CASE_VARIABLE)
        & !(is_set(f, LATIN) & is_set(f, ACCENTUATED))
        & !(is_set(f, UPPERCASE) & is_set(f, LOWERCASE))
}

// The range of ASCII's printable characters.
pub const BASIC_LATIN: u32 = 2;

// The flags of ASCII's lower-case letters.
const LOWER: u32 = ASCII
    + ASCII_ALPHABETIC
    + ASCII_GRAPHIC
    + LATIN
    + ALPHABETIC
    + CASE_VARIABLE
    + LOWERCASE
    + CHAR_ALPHABETIC;

pub const SPACE: u32 = 0x20;

// The flags of the space.
const WHITE: u32 = WHITESPACE + SEPARATOR + ASCII;

impl Detectors {
    // m letters of c's kind, at least one, the last of them `point`, its base `base`. `suspicious` is as for `feed`, of the first; `again` is the pair
    // table's bit for their range and itself.
    pub fn cased_run(
        self,
        c: Class,
        m: u32,
        point: u32,
        base: u32,
        suspicious: bool,
        again: bool,
    ) -> Detectors
        requires { Room self × (0 < m) × (m ≤ LARGEST) }
        ensures { result ≡ runs.cased_run self c m point base suspicious again }
    {
        let stops = self.stops.feed_run(c.flags, m);
        let accents = self.accents.feed_run(c.flags, m);
        Detectors {
            symbols: self.symbols.feed_run(m, point),
            accents: TooManyAccentuated {
                characters: accents.characters,
                accentuated: accents.accentuated,
            },
            unprintable: self.unprintable.feed_run(m),
            ranges: self.ranges.feed_run(c.range, m, suspicious, again),
            doubled: self.doubled.feed_run(c.flags, base, m),
            words: self.words.feed_run(c.flags, m),
            stops: CjkInvalidStop {
                wrong: stops.wrong,
                cjk: stops.cjk,
            },
            archaic: self.archaic.feed_cased(c.flags, m),
        }
    }

    // The same for ASCII's lower-case letters, whose flags are known, so that the compiler has most of it done.
    pub fn lower_run(self, m: u32, point: u32, suspicious: bool, again: bool) -> Detectors
        requires { Room self × (0 < m) × (m ≤ LARGEST) }
        ensures { result ≡ runs.cased_run self (runs.lower_class point) m point point suspicious again }
    {
        Detectors {
            symbols: self.symbols.feed_run(m, point),
            accents: self.accents.feed_run(LOWER, m),
            unprintable: self.unprintable.feed_run(m),
            ranges: self.ranges.feed_run(BASIC_LATIN, m, suspicious, again),
            doubled: self.doubled.feed_run(LOWER, point, m),
            words: self.words.feed_run(LOWER, m),
            stops: self.stops.feed_run(LOWER, m),
            archaic: self.archaic.feed_cased(LOWER, m),
        }
    }

    // The same for characters that have no case: doubled accents and weird words pass them over.
    pub fn uncased_run(
        self,
        c: Class,
        m: u32,
        point: u32,
        suspicious: bool,
        again: bool,
    ) -> Detectors
        requires { Room self × (0 < m) × (m ≤ LARGEST) }
        ensures { result ≡ runs.uncased_run self c m point suspicious again }
    {
        let doubled = self.doubled;
        let words = self.words;
        let stops = self.stops.feed_run(c.flags, m);
        let accents = self.accents.feed_run(c.flags, m);
        Detectors {
            symbols: self.symbols.feed_run(m, point),
            accents: TooManyAccentuated {
                characters: accents.characters,
                accentuated: accents.accentuated,
            },
            unprintable: self.unprintable.feed_run(m),
            ranges: self.ranges.feed_run(c.range, m, suspicious, again),
            doubled,
            words,
            stops: CjkInvalidStop {
                wrong: stops.wrong,
                cjk: stops.cjk,
            },
            archaic: self.archaic.feed_uncased(c.flags, m),
        }
    }

    // One space: `feed` at its class.
    pub fn space(self) -> Detectors
        requires { Room self }
        ensures { result ≡ detectors.feed self runs.space_class false }
    {
        let c = Class {
            point: SPACE,
            flags: WHITE,
            range: BASIC_LATIN,
            base: SPACE,
            lower: SPACE,
        };
        let stops = self.stops.feed(c);
        let accents = self.accents.feed(c);
        Detectors {
            symbols: self.symbols.feed(c),
            accents: TooManyAccentuated {
                characters: accents.characters,
                accentuated: accents.accentuated,
            },
            unprintable: self.unprintable.feed(c),
            ranges: self.ranges.feed(c, false),
            doubled: self.doubled.feed(c),
            words: self.words.feed(c),
            stops: CjkInvalidStop {
                wrong: stops.wrong,
                cjk: stops.cjk,
            },
            archaic: self.archaic.feed(c),
        }
    }

    // The same state, where no word is watched. The states of two counts are handed on field by field: copied whole, the compiler packs them into one word and unpacks them again.
    pub fn slimmed(self) -> Detectors
        requires { Slim self }
        ensures { result ≡ self }
    {
        let symbols = self.symbols;
        let ranges = self.ranges;
        let doubled = self.doubled;
        let archaic = self.archaic;
        Detectors {
            symbols,
            accents: TooManyAccentuated {
                characters: self.accents.characters,
                accentuated: self.accents.accentuated,
            },
            unprintable: Unprintable {
                characters: self.unprintable.characters,
                unprintable: self.unprintable.unprintable,
            },
            ranges,
            doubled,
            words: self.words.unwatched(),
            stops: CjkInvalidStop {
                wrong: self.stops.wrong,
                cjk: self.stops.cjk,
            },
            archaic,
        }
    }

    // The same after n characters: what counts all of them, and what counts the printable ones, is made of n. A loop that has it made so need not
    // carry these four from character to character.
    pub fn recounted(self, n: u32) -> Detectors
        requires { FedCount self n × Slim self }
        ensures { result ≡ self }
    {
        let printable = n - self.unprintable.unprintable;
        let doubled = self.doubled;
        Detectors {
            symbols: TooManySymbolOrPunctuation {
                characters: printable,
                punctuation: self.symbols.punctuation,
                symbols: self.symbols.symbols,
                last: self.symbols.last,
            },
            accents: TooManyAccentuated {
                characters: self.accents.characters,
                accentuated: self.accents.accentuated,
            },
            unprintable: Unprintable {
                characters: n,
                unprintable: self.unprintable.unprintable,
            },
            ranges: SuspiciousRange {
                characters: printable,
                suspicious: self.ranges.suspicious,
                seen: self.ranges.seen,
                last: self.ranges.last,
            },
            doubled,
            words: self.words.unwatched(),
            stops: CjkInvalidStop {
                wrong: self.stops.wrong,
                cjk: self.stops.cjk,
            },
            archaic: ArchaicUpperLower {
                characters: n,
                since: self.archaic.since,
                run: self.archaic.run,
                total: self.archaic.total,
                last: self.archaic.last,
                ascii: self.archaic.ascii,
                buf: self.archaic.buf,
            },
        }
    }
}
