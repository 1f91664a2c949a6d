// Symbols: how many of the printable characters are punctuation or symbols, a symbol being worth two.
ghost use Rattle.std.specs.Prelude.{◌≡◌, ◌≤◌};
ghost use Rattle.base.specs.Inner.Limits.{LARGEST};
ghost use Rattle.md_counts.specs.Inner.TooManySymbolOrPunctuation.{marked, plain, feed_run};
ghost use Rattle.md_counts.specs.TooManySymbolOrPunctuation.{start, feed, printable, adds, counted_symbol, counts};
ghost use Rattle.md_counts.specs.Inner.TooManySymbolOrPunctuation.{Room};
ghost use Rattle.ratio.specs.Inner.Fraction.{Small};
ghost use Rattle.ratio.specs.Fraction.{share_of};

use base::flags::{COMMON_SAFE, EMOTICON, NUMERIC, PUNCTUATION, SYMBOL, UNPRINTABLE};
use base::{is_set, one};
use classes::Class;
use ratio::{Counts, Fraction, at_least, counts_of};

// a symbol is worth so many of punctuation
const WORTH: u32 = 2;

// below this part of all the ratio is 0
const LEAST_PART: u32 = 3;

const LEAST_WHOLE: u32 = 10;

// The Rust's TooManySymbolOrPunctuationPlugin.
#[derive(Clone, Copy)]
pub struct TooManySymbolOrPunctuation {
    // character_count
    pub characters: u32,
    // punctuation_count
    pub punctuation: u32,
    // half of symbol_count, which goes up by 2 for a symbol
    pub symbols: u32,
    // last_printable_char: its character; there is one where `characters` is above 0
    pub last: u32,
}

// A symbol that counts: no punctuation, no number, no emoticon.
fn counted_symbol(flags: u32) -> bool
    ensures { result ≡ counted_symbol flags }
{
    !is_set(flags, PUNCTUATION)
        & !is_set(flags, NUMERIC)
        & is_set(flags, SYMBOL)
        & !is_set(flags, EMOTICON)
}

// Only punctuation and symbols may count.
fn marked(flags: u32) -> bool
    ensures { result ≡ marked flags }
{
    is_set(flags, PUNCTUATION) | is_set(flags, SYMBOL)
}

impl TooManySymbolOrPunctuation {
    pub fn start() -> TooManySymbolOrPunctuation
        ensures { result ≡ start }
    {
        TooManySymbolOrPunctuation {
            characters: 0,
            punctuation: 0,
            symbols: 0,
            last: 0,
        }
    }

    // Whether the character may count: it is not the last one again, and not a common one.
    fn adds(self, c: Class) -> bool
        ensures { result ≡ adds self c }
    {
        !((0 < self.characters) & (c.point == self.last)) & !is_set(c.flags, COMMON_SAFE)
    }

    // A printable character that is neither punctuation nor a symbol: most are, and the compiler keeps their way short.
    fn plain(self, point: u32) -> TooManySymbolOrPunctuation
        requires { Room self }
        ensures { result ≡ plain self point }
    {
        TooManySymbolOrPunctuation {
            characters: self.characters + 1,
            punctuation: self.punctuation,
            symbols: self.symbols,
            last: point,
        }
    }

    // A printable character.
    fn printable(self, c: Class) -> TooManySymbolOrPunctuation
        requires { Room self }
        ensures { result ≡ printable self c }
    {
        let adds = self.adds(c);
        let point = c.point;
        TooManySymbolOrPunctuation {
            characters: self.characters + 1,
            punctuation: self.punctuation + one(adds & is_set(c.flags, PUNCTUATION)),
            symbols: self.symbols + one(adds & counted_symbol(c.flags)),
            last: point,
        }
    }

    pub fn feed(self, c: Class) -> TooManySymbolOrPunctuation
        requires { Room self }
        ensures { result ≡ feed self c }
    {
        if is_set(c.flags, UNPRINTABLE) {
            return self;
        }
        if marked(c.flags) {
            return self.printable(c);
        }
        self.plain(c.point)
    }

    // m characters that are printable and neither punctuation nor a symbol, at least one, the last of them `point`.
    pub fn feed_run(self, m: u32, point: u32) -> TooManySymbolOrPunctuation
        requires { Room self × (m ≤ LARGEST) }
        ensures { result ≡ feed_run self m point }
    {
        let symbols = self.symbols;
        TooManySymbolOrPunctuation {
            characters: self.characters + m,
            punctuation: self.punctuation,
            symbols,
            last: point,
        }
    }

    pub fn counts(self) -> Counts
        requires { Small (share_of (counts self)) }
        ensures { result ≡ counts self }
    {
        let share = Fraction {
            num: self.punctuation + WORTH * self.symbols,
            den: self.characters,
        };
        counts_of(share, at_least(share, LEAST_PART, LEAST_WHOLE))
    }
}
