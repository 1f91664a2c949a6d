// The eight detectors of document 01 together (md.rs feeds them in this order). They know nothing of tables: whether the pair of the last
// range and the character's is suspicious is looked up outside and handed in.
#![tactic(auto)]

ghost use Rattle.std.specs.Prelude.{◌≡◌};
ghost use Rattle.md_eight.specs.Detectors as detectors;
ghost use Rattle.md_eight.specs.Inner.Detectors.{Room, Countable};

use classes::Class;
use md_counts::cjk_invalid_stop::CjkInvalidStop;
use md_counts::too_many_accentuated::TooManyAccentuated;
use md_counts::too_many_symbol_or_punctuation::TooManySymbolOrPunctuation;
use md_counts::unprintable::Unprintable;
use md_neighbours::suspicious_duplicate_accent::SuspiciousDuplicateAccent;
use md_neighbours::suspicious_range::SuspiciousRange;
use md_words::archaic_upper_lower::ArchaicUpperLower;
use md_words::super_weird_word::SuperWeirdWord;
use ratio::{EightCounts, Ratios, rounding};

pub mod runs;

#[derive(Clone, Copy)]
pub struct Detectors {
    pub symbols: TooManySymbolOrPunctuation,
    pub accents: TooManyAccentuated,
    pub unprintable: Unprintable,
    pub ranges: SuspiciousRange,
    pub doubled: SuspiciousDuplicateAccent,
    pub words: SuperWeirdWord,
    pub stops: CjkInvalidStop,
    pub archaic: ArchaicUpperLower,
}

impl Detectors {
    pub fn start() -> Detectors
        ensures { result ≡ detectors.start }
    {
        Detectors {
            symbols: TooManySymbolOrPunctuation::start(),
            accents: TooManyAccentuated::start(),
            unprintable: Unprintable::start(),
            ranges: SuspiciousRange::start(),
            doubled: SuspiciousDuplicateAccent::start(),
            words: SuperWeirdWord::start(),
            stops: CjkInvalidStop::start(),
            archaic: ArchaicUpperLower::start(),
        }
    }

    // The range whose pair with the next character's is to be handed to `feed`; 0 where there is none, and then the pair is not read.
    pub fn last_range(self) -> u32
        ensures { result ≡ detectors.last_range self }
    {
        self.ranges.last
    }

    // What a detector of two counts answers is handed on field by field, here and in most runs: handed on whole it is one word, and the compiler packs and
    // unpacks it at each character.
    pub fn feed(self, c: Class, suspicious: bool) -> Detectors
        requires { Room self }
        ensures { result ≡ detectors.feed self c suspicious }
    {
        let stops = self.stops.feed(c);
        let accents = self.accents.feed(c);
        Detectors {
            symbols: self.symbols.feed(c),
            accents: TooManyAccentuated {
                characters: accents.characters,
                accentuated: accents.accentuated,
            },
            unprintable: self.unprintable.feed(c),
            ranges: self.ranges.feed(c, suspicious),
            doubled: self.doubled.feed(c),
            words: self.words.feed(c),
            stops: CjkInvalidStop {
                wrong: stops.wrong,
                cjk: stops.cjk,
            },
            archaic: self.archaic.feed(c),
        }
    }

    // The counts of each, with which its ratio can be shown.
    pub fn counts(self) -> EightCounts
        requires { Countable self }
        ensures { result ≡ detectors.counts self }
    {
        EightCounts {
            symbols: self.symbols.counts(),
            accents: self.accents.counts(),
            unprintable: self.unprintable.counts(),
            ranges: self.ranges.counts(),
            doubled: self.doubled.counts(),
            words: self.words.counts(),
            stops: self.stops.counts(),
            archaic: self.archaic.counts(),
        }
    }

    // The eight ratios. Their sum is `ratio::rounding::sum`.
    pub fn ratios(self) -> Ratios
        requires { Countable self }
        ensures { result ≡ detectors.ratios self }
    {
        rounding::ratios(self.counts())
    }
}
