// What the lent numbers mean, and a state in numbers.
ghost use Rattle.std.specs.Prelude.{◌≡◌};
ghost use Rattle.std.specs.Float.Ieee.{of_bits};
ghost use Rattle.std.specs.Float.{binary32};
ghost use Rattle.md_lent_meaning.specs.Lent as lent;
ghost use Rattle.md_lent_meaning.specs.Inner.Lent.{no_lent};

use base::one;
use md_counts::cjk_invalid_stop::CjkInvalidStop;
use md_counts::too_many_accentuated::TooManyAccentuated;
use md_counts::too_many_symbol_or_punctuation::TooManySymbolOrPunctuation;
use md_counts::unprintable::Unprintable;
use md_eight::Detectors;
use md_growth::{Growths, Watched};
use md_lent_meaning::{
    HostAccents, HostArchaic, HostDoubled, HostGrowths, HostRanges, HostRunning, HostStops,
    HostSymbols, HostUnprintable, HostWords,
};
use md_neighbours::suspicious_duplicate_accent::SuspiciousDuplicateAccent;
use md_neighbours::suspicious_range::SuspiciousRange;
use md_running_meaning::Running;
use md_words::archaic_upper_lower::ArchaicUpperLower;
use md_words::super_weird_word::SuperWeirdWord;

// the bits of +infinity, and the bit of a minus sign
const INFINITY_BITS: u32 = 0x7F80_0000;

const SIGN_BIT: u32 = 0x8000_0000;

// The float that bits are. A NaN's are past the sign above those of an infinity; no NaN is made of bits, so that it is made of two infinities.
fn threshold_of(bits: u32) -> f32
    ensures { result ≡ of_bits binary32 bits }
{
    if INFINITY_BITS < bits % SIGN_BIT {
        let infinity = f32::from_bits(INFINITY_BITS);
        return infinity - infinity;
    }
    f32::from_bits(bits)
}

fn eight_of(h: HostRunning) -> Detectors
    ensures { result ≡ lent.eight_lent h }
{
    Detectors {
        symbols: TooManySymbolOrPunctuation {
            characters: h.symbols.characters,
            punctuation: h.symbols.punctuation,
            symbols: h.symbols.symbols,
            last: h.symbols.last,
        },
        accents: TooManyAccentuated {
            characters: h.accents.characters,
            accentuated: h.accents.accentuated,
        },
        unprintable: Unprintable {
            characters: h.unprintable.characters,
            unprintable: h.unprintable.unprintable,
        },
        ranges: SuspiciousRange {
            characters: h.ranges.characters,
            suspicious: h.ranges.suspicious,
            seen: h.ranges.seen != 0,
            last: h.ranges.last,
        },
        doubled: SuspiciousDuplicateAccent {
            characters: h.doubled.characters,
            successive: h.doubled.successive,
            flags: h.doubled.flags,
            base: h.doubled.base,
        },
        words: SuperWeirdWord {
            characters: h.words.characters,
            words: h.words.words,
            foreign: h.words.foreign,
            spoilt: h.words.spoilt,
            bad: h.words.bad != 0,
            watch: h.words.watch != 0,
            accents: h.words.accents,
            uppercase: h.words.uppercase,
            length: h.words.length,
            last: h.words.last,
        },
        stops: CjkInvalidStop {
            wrong: h.stops.wrong,
            cjk: h.stops.cjk,
        },
        archaic: ArchaicUpperLower {
            characters: h.archaic.characters,
            since: h.archaic.since,
            run: h.archaic.run,
            total: h.archaic.total,
            last: h.archaic.last,
            ascii: h.archaic.ascii != 0,
            buf: h.archaic.buf != 0,
        },
    }
}

fn growths_of(h: HostRunning) -> Growths
    ensures { result ≡ lent.growths_lent h }
{
    Growths {
        symbols: h.grown.symbols,
        accents: h.grown.accents,
        unprintable: h.grown.unprintable,
        ranges: h.grown.ranges,
        doubled: h.grown.doubled,
        words: h.grown.words,
        stops: h.grown.stops,
        archaic: h.grown.archaic,
    }
}

// The state that lent numbers are.
pub fn running_of(h: HostRunning) -> Running
    ensures { result ≡ lent.running_of h }
{
    Running {
        length: h.length,
        received: h.received,
        fed: h.fed,
        threshold: threshold_of(h.threshold),
        stopped: h.stopped != 0,
        watched: Watched {
            eight: eight_of(h),
            grown: growths_of(h),
        },
    }
}

// A state in numbers, the threshold's bits being handed in.
pub fn lent_of(s: Running, bits: u32) -> HostRunning
    ensures { result ≡ lent.lent_of s bits }
{
    let eight = s.watched.eight;
    let grown = s.watched.grown;
    HostRunning {
        length: s.length,
        received: s.received,
        fed: s.fed,
        threshold: bits,
        stopped: one(s.stopped),
        symbols: HostSymbols {
            characters: eight.symbols.characters,
            punctuation: eight.symbols.punctuation,
            symbols: eight.symbols.symbols,
            last: eight.symbols.last,
        },
        accents: HostAccents {
            characters: eight.accents.characters,
            accentuated: eight.accents.accentuated,
        },
        unprintable: HostUnprintable {
            characters: eight.unprintable.characters,
            unprintable: eight.unprintable.unprintable,
        },
        ranges: HostRanges {
            characters: eight.ranges.characters,
            suspicious: eight.ranges.suspicious,
            seen: one(eight.ranges.seen),
            last: eight.ranges.last,
        },
        doubled: HostDoubled {
            characters: eight.doubled.characters,
            successive: eight.doubled.successive,
            flags: eight.doubled.flags,
            base: eight.doubled.base,
        },
        words: HostWords {
            characters: eight.words.characters,
            words: eight.words.words,
            foreign: eight.words.foreign,
            spoilt: eight.words.spoilt,
            bad: one(eight.words.bad),
            watch: one(eight.words.watch),
            accents: eight.words.accents,
            uppercase: eight.words.uppercase,
            length: eight.words.length,
            last: eight.words.last,
        },
        stops: HostStops {
            wrong: eight.stops.wrong,
            cjk: eight.stops.cjk,
        },
        archaic: HostArchaic {
            characters: eight.archaic.characters,
            since: eight.archaic.since,
            run: eight.archaic.run,
            total: eight.archaic.total,
            last: eight.archaic.last,
            ascii: one(eight.archaic.ascii),
            buf: one(eight.archaic.buf),
        },
        grown: HostGrowths {
            symbols: grown.symbols,
            accents: grown.accents,
            unprintable: grown.unprintable,
            ranges: grown.ranges,
            doubled: grown.doubled,
            words: grown.words,
            stops: grown.stops,
            archaic: grown.archaic,
        },
    }
}

// No line: zeros.
pub fn no_lent() -> HostRunning
    ensures { result ≡ no_lent }
{
    HostRunning::default()
}
