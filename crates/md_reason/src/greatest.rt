// The first detector with the greatest of the eight ratios.
ghost use Rattle.std.specs.Prelude.{◌≡◌, ◌≤◌};
ghost use Rattle.ratio.specs.Eight.{DETECTORS};
ghost use Rattle.md_reason_meaning.specs.Greatest.{at_least_all, first_greatest, detector_of};
ghost use Rattle.md_reason_meaning.specs.Numbered.{detector_at};

use md_reason_meaning::Detector;
use ratio::{DETECTORS, Ratios};

// No detector: the greatest ratio is 0.
const NO_DETECTOR: u32 = 0;

// Whether x is at least each of the eight.
fn at_least_all(x: f32, r: Ratios) -> bool
    ensures { result ≡ at_least_all x r }
{
    (r.symbols <= x)
        & (r.accents <= x)
        & (r.unprintable <= x)
        & (r.ranges <= x)
        & (r.doubled <= x)
        & (r.words <= x)
        & (r.stops <= x)
        & (r.archaic <= x)
}

// The index of the first of the greatest.
fn first_greatest(r: Ratios) -> usize
    ensures { result ≡ first_greatest r }
{
    let list = [
        r.symbols,
        r.accents,
        r.unprintable,
        r.ranges,
        r.doubled,
        r.words,
        r.stops,
        r.archaic,
    ];
    for (k, x) in list.iter().enumerate() {
        if at_least_all(*x, r) {
            return k;
        }
    }
    DETECTORS
}

// The number of the first detector with the greatest ratio, 1 to 8; NO_DETECTOR where that ratio is 0.
pub fn detector_of(r: Ratios) -> u32
    ensures { result ≡ detector_of r }
{
    if at_least_all(0.0, r) {
        return NO_DETECTOR;
    }
    (first_greatest(r) + 1) as u32
}

// The detector of a number, as the answer names it.
pub fn detector_at(d: u32) -> Option<Detector>
    requires { d ≤ DETECTORS }
    ensures { result ≡ detector_at d }
{
    match d {
        1 => Some(Detector::Symbols),
        2 => Some(Detector::Accents),
        3 => Some(Detector::Unprintable),
        4 => Some(Detector::Ranges),
        5 => Some(Detector::Doubled),
        6 => Some(Detector::Words),
        7 => Some(Detector::Stops),
        8 => Some(Detector::Archaic),
        _ => None,
    }
}
