// A detector's counts, and the fraction and the ratio that are made of them: here, once for all eight.
#![tactic(auto)]

ghost use Rattle.std.specs.Prelude.{◌≡◌, ◌≤◌};
ghost use Rattle.ratio.specs.Inner.Fraction.{MOST_TERM, Small};
ghost use Rattle.ratio.specs.Fraction.{at_least, counts_of, fraction_of};

pub mod finite;
pub mod rounding;
pub mod telling;

// How many detectors there are.
pub const DETECTORS: usize = 8;

// Two counts, `num` over `den`.
#[derive(Clone, Copy)]
pub struct Fraction {
    pub num: u32,
    pub den: u32,
}

// What a detector answers: its two counts, the factor of 8 or 2 included, and whether no cut-off applies.
#[derive(Clone, Copy)]
pub struct Counts {
    pub numerator: u32,
    pub denominator: u32,
    pub kept: bool,
}

// The eight detectors' counts, in md.rs's order.
#[derive(Clone, Copy)]
pub struct EightCounts {
    pub symbols: Counts,
    pub accents: Counts,
    pub unprintable: Counts,
    pub ranges: Counts,
    pub doubled: Counts,
    pub words: Counts,
    pub stops: Counts,
    pub archaic: Counts,
}

// The eight detectors' ratios, in md.rs's order. They cross to a host as they stand.
#[repr(C)]
#[derive(Clone, Copy)]
pub struct Ratios {
    pub symbols: f32,
    pub accents: f32,
    pub unprintable: f32,
    pub ranges: f32,
    pub doubled: f32,
    pub words: f32,
    pub stops: f32,
    pub archaic: f32,
}

// What an answer shows of a detector beside its ratio: the two counts, and whether the ratio was cut off.
#[derive(Clone, Copy)]
pub struct Shown {
    pub num: u32,
    pub den: u32,
    pub cut: bool,
}

// What it shows of the eight, in md.rs's order.
#[derive(Clone, Copy)]
pub struct EightShown {
    pub symbols: Shown,
    pub accents: Shown,
    pub unprintable: Shown,
    pub ranges: Shown,
    pub doubled: Shown,
    pub words: Shown,
    pub stops: Shown,
    pub archaic: Shown,
}

// The counts of a fraction, and whether no cut-off applies.
pub fn counts_of(f: Fraction, kept: bool) -> Counts
    ensures { result ≡ counts_of f kept }
{
    Counts {
        numerator: f.num,
        denominator: f.den,
        kept,
    }
}

// The fraction where it is kept and not over 0, else 0 over 1.
pub fn fraction_of(c: Counts) -> Fraction
    ensures { result ≡ fraction_of c }
{
    if c.kept & (c.denominator != 0) {
        Fraction {
            num: c.numerator,
            den: c.denominator,
        }
    } else {
        Fraction { num: 0, den: 1 }
    }
}

// Whether the fraction is at least p/q, decided on whole numbers.
pub fn at_least(f: Fraction, p: u32, q: u32) -> bool
    requires { Small f × (p ≤ MOST_TERM) × (q ≤ MOST_TERM) }
    ensures { result ≡ at_least p q f }
{
    p * f.den <= q * f.num
}
