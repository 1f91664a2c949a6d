// Whether a line stops, asked here and not of md's scan: the scan's own test must have one place from which it is called, else it goes out of line and
// the state with it into memory.
ghost use Rattle.std.specs.Prelude.{◌≡◌, ◌&&◌, Some};
ghost use Rattle.md_eight.specs.Inner.Detectors.{Countable};
ghost use Rattle.md_meaning.specs.Text.{checkpoint};
ghost use Rattle.md_meaning.specs.Scan.{reaches, sum_of};

use md_eight::Detectors;
use ratio::rounding;

// Up to this many characters SHORT_PERIOD is used, then up to MIDDLE_LENGTH MIDDLE_PERIOD, else LONG_PERIOD.
const SHORT_LENGTH: usize = 510;

const MIDDLE_LENGTH: usize = 1023;

const SHORT_PERIOD: usize = 32;

const MIDDLE_PERIOD: usize = 64;

const LONG_PERIOD: usize = 128;

// Whether the sum is compared after the character at i, in a line of n characters.
fn line_checkpoint(n: usize, i: usize) -> bool
    ensures { result ≡ checkpoint n i }
{
    if n <= SHORT_LENGTH {
        return i % SHORT_PERIOD == SHORT_PERIOD - 1;
    }
    if n <= MIDDLE_LENGTH {
        return i % MIDDLE_PERIOD == MIDDLE_PERIOD - 1;
    }
    i % LONG_PERIOD == LONG_PERIOD - 1
}

// Whether a line of n characters stops after the one at i.
pub fn over_at(s: Detectors, n: usize, i: usize, threshold: f32) -> bool
    requires { Countable s }
    ensures { result ≡ (checkpoint n i && reaches (Some threshold) (sum_of s)) }
{
    if line_checkpoint(n, i) {
        return threshold <= rounding::sum(s.ratios());
    }
    false
}
