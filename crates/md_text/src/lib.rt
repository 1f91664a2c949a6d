// The characters that a scan feeds, one of them fed, and the checkpoints.
#![tactic(auto)]

ghost use Rattle.std.specs.Prelude.{◌≡◌, ◌≤◌, ◌<◌, length};
ghost use Rattle.base.specs.Limits.{LONGEST_TEXT, LAST_RANGE, PAIR_BYTES};
ghost use Rattle.md_eight.specs.Inner.Detectors as detectors;
ghost use Rattle.md_eight.specs.Detectors.{last_range};
ghost use Rattle.md_meaning.specs.Text.{char_at, checkpoint};
ghost use Rattle.md_meaning.specs.Scan as scans;
ghost use Rattle.md_text.specs.Inner.Pieces.{Nearer, Piece};

use base::limits::NEWLINE;
use classes::Class;
use md_eight::Detectors;

// Up to this many characters SHORT_PERIOD is used, then up to MIDDLE_LENGTH MIDDLE_PERIOD, else LONG_PERIOD.
const SHORT_LENGTH: usize = 510;

const MIDDLE_LENGTH: usize = 1023;

const SHORT_PERIOD: usize = 32;

const MIDDLE_PERIOD: usize = 64;

const LONG_PERIOD: usize = 128;

// The character at i; past the end of the text stands the newline.
pub fn char_at(text: &[u32], i: usize) -> u32
    ensures { result ≡ char_at text.now i }
{
    if i < text.len() { text[i] } else { NEWLINE }
}

// One character, fed to the eight, with the pair table's bit for its range after the last one.
pub fn fed(s: Detectors, c: Class, pairs: &[u8]) -> Detectors
    requires { detectors.Room s × (length pairs.now ≡ PAIR_BYTES) × (last_range s ≤ LAST_RANGE) × (c.range ≤ LAST_RANGE) }
    ensures { result ≡ scans.fed pairs.now s c }
{
    let suspicious = classes::is_suspicious(pairs, s.last_range(), c.range);
    s.feed(c, suspicious)
}

// Whether the sum is compared after the character at i, in a text of n characters. Each period stands as a constant, so that no division
// is left in the scan's loop.
pub fn at_checkpoint(n: usize, i: usize) -> bool
    ensures { result ≡ checkpoint n i }
{
    if n <= SHORT_LENGTH {
        return i % SHORT_PERIOD == SHORT_PERIOD - 1;
    }
    if n <= MIDDLE_LENGTH {
        return i % MIDDLE_PERIOD == MIDDLE_PERIOD - 1;
    }
    i % LONG_PERIOD == LONG_PERIOD - 1
}

// The smaller of two indexes.
pub fn nearer(a: usize, b: usize) -> usize
    ensures { Nearer a b result }
{
    if a < b {
        return a;
    }
    b
}

// Where the piece of a text of n characters ends in which i stands: past the next checkpoint, or at the end of the text. Each period stands as a
// constant here too.
pub fn piece_end(n: usize, i: usize) -> usize
    requires { (i < n) × (n ≤ LONGEST_TEXT) }
    ensures { Piece n i result }
{
    if n <= SHORT_LENGTH {
        return nearer(i / SHORT_PERIOD * SHORT_PERIOD + SHORT_PERIOD, n);
    }
    if n <= MIDDLE_LENGTH {
        return nearer(i / MIDDLE_PERIOD * MIDDLE_PERIOD + MIDDLE_PERIOD, n);
    }
    nearer(i / LONG_PERIOD * LONG_PERIOD + LONG_PERIOD, n)
}
