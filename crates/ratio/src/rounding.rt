// Counts made f32 ratios, the ratios added, each operation rounded once, and their bits.
ghost use Rattle.std.specs.Prelude.{◌≡◌};
ghost use Rattle.ratio.specs.Inner.Fraction.{Proper, Small};
ghost use Rattle.ratio.specs.Fraction.{share_of, fraction_of};
ghost use Rattle.ratio.specs.Inner.Eight.{EachSmall, EachPlain};
ghost use Rattle.ratio.specs.Rounded.{rounded};
ghost use Rattle.ratio.specs.Eight.{ratios, no_ratios, sum, bits, fractions_of};

use super::{Counts, DETECTORS, EightCounts, Fraction, Ratios, fraction_of};

// The f32 of a fraction. An f32 holds both counts, so that the quotient alone is rounded.
pub fn rounded(f: Fraction) -> f32
    requires { Proper f }
    ensures { result ≡ rounded f }
{
    f.num as f32 / f.den as f32
}

// The ratio of a detector's counts.
pub fn ratio_of(c: Counts) -> f32
    requires { Small (share_of c) }
    ensures { result ≡ rounded (fraction_of c) }
{
    rounded(fraction_of(c))
}

// The eight ratios.
pub fn ratios(c: EightCounts) -> Ratios
    requires { EachSmall c }
    ensures { result ≡ ratios (fractions_of c) }
{
    Ratios {
        symbols: ratio_of(c.symbols),
        accents: ratio_of(c.accents),
        unprintable: ratio_of(c.unprintable),
        ranges: ratio_of(c.ranges),
        doubled: ratio_of(c.doubled),
        words: ratio_of(c.words),
        stops: ratio_of(c.stops),
        archaic: ratio_of(c.archaic),
    }
}

// The ratios of a refusal.
pub fn no_ratios() -> Ratios
    ensures { result ≡ no_ratios }
{
    Ratios {
        symbols: 0.0,
        accents: 0.0,
        unprintable: 0.0,
        ranges: 0.0,
        doubled: 0.0,
        words: 0.0,
        stops: 0.0,
        archaic: 0.0,
    }
}

// The eight ratios added in order, from the first on.
pub fn sum(r: Ratios) -> f32
    ensures { result ≡ sum r }
{
    r.symbols + r.accents + r.unprintable + r.ranges + r.doubled + r.words + r.stops + r.archaic
}

// The bits of the eight ratios, none of which is a NaN.
pub fn bits(r: Ratios) -> [u32; DETECTORS]
    requires { EachPlain r }
    ensures { result ≡ bits r }
{
    [
        f32::to_bits(r.symbols),
        f32::to_bits(r.accents),
        f32::to_bits(r.unprintable),
        f32::to_bits(r.ranges),
        f32::to_bits(r.doubled),
        f32::to_bits(r.words),
        f32::to_bits(r.stops),
        f32::to_bits(r.archaic),
    ]
}
