// The counts that an answer shows beside its ratios, and the same as numbers.
ghost use Rattle.std.specs.Prelude.{◌≡◌};
ghost use Rattle.ratio.specs.Shown as shows;

use super::{Counts, DETECTORS, EightCounts, EightShown, Ratios, Shown};
use base::one;

// Numbers that are shown of the eight: of each its numerator, its denominator, and 1 where the ratio was cut off.
pub const NUMBERS_SHOWN: usize = 3 * DETECTORS;

// What is shown of a detector with these counts and this ratio. A ratio of 0 over counts that are not 0 was cut off.
pub fn shown_of(c: Counts, ratio: f32) -> Shown
    ensures { result ≡ shows.shown c ratio }
{
    Shown {
        num: c.numerator,
        den: c.denominator,
        cut: (0 < c.numerator) & (0 < c.denominator) & (ratio == 0.0),
    }
}

// What is shown of the eight.
pub fn eight_shown(c: EightCounts, r: Ratios) -> EightShown
    ensures { result ≡ shows.eight_shown c r }
{
    EightShown {
        symbols: shown_of(c.symbols, r.symbols),
        accents: shown_of(c.accents, r.accents),
        unprintable: shown_of(c.unprintable, r.unprintable),
        ranges: shown_of(c.ranges, r.ranges),
        doubled: shown_of(c.doubled, r.doubled),
        words: shown_of(c.words, r.words),
        stops: shown_of(c.stops, r.stops),
        archaic: shown_of(c.archaic, r.archaic),
    }
}

// The numbers of the eight, one behind the other.
pub fn shown_numbers(e: EightShown) -> [u32; NUMBERS_SHOWN]
    ensures { result ≡ shows.shown_numbers e }
{
    [
        e.symbols.num,
        e.symbols.den,
        one(e.symbols.cut),
        e.accents.num,
        e.accents.den,
        one(e.accents.cut),
        e.unprintable.num,
        e.unprintable.den,
        one(e.unprintable.cut),
        e.ranges.num,
        e.ranges.den,
        one(e.ranges.cut),
        e.doubled.num,
        e.doubled.den,
        one(e.doubled.cut),
        e.words.num,
        e.words.den,
        one(e.words.cut),
        e.stops.num,
        e.stops.den,
        one(e.stops.cut),
        e.archaic.num,
        e.archaic.den,
        one(e.archaic.cut),
    ]
}
