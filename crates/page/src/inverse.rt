// The byte of each code point under a good page, laid out once a call, and a text written by it.
ghost use Rattle.std.specs.Prelude.{◌≡◌, ℕ, ◌<◌, ◌≤◌, length, get_or, replicate};
ghost use Rattle.base.specs.Put.{put};
ghost use Rattle.page_meaning.specs.Page.{UNUSED};
ghost use Rattle.page_meaning.specs.Inner.Good.{Good};
ghost use Rattle.page_meaning.specs.Inner.Tables.{Inverse, looked, lacking, first_lacking};

use crate::check::UNUSED;
use crate::points::{BYTES, point_of};

// the numbers that an entry can hold
pub const POINTS: usize = 65536;

// The byte of each code point that the page has; 0 where it has none. No two used bytes have one code point, so that none is written over.
pub fn invert(page: &[u16], inverse: &mut [u8; POINTS])
    requires { Good page.now × (inverse.old ≡ replicate 65536 0) }
    ensures { Inverse page.now inverse.new }
{
    for b in 0..BYTES {
        inverse[point_of(page, b) as usize] = b as u8;
    }
}

// Whether the page lacks a code point. FFFF stands in unused entries and is no code point of the page; 0 has the byte 0.
fn is_lacking(inverse: &[u8; POINTS], point: u32) -> bool
    ensures { result ≡ lacking inverse.now point }
{
    if UNUSED <= point {
        return true;
    }
    (inverse[point as usize] == 0) & (point != 0)
}

// The index of the first code point that the page lacks, or how many code points there are.
pub fn first_lacking(inverse: &[u8; POINTS], text: &[u32]) -> usize
    ensures { result ≡ first_lacking inverse.now text.now }
{
    text.iter()
        .position(|point| is_lacking(inverse, *point))
        .unwrap_or(text.len())
}

// The bytes of a text that the page has, into the first places of an output that has room.
pub fn bytes_into(inverse: &[u8; POINTS], text: &[u32], out: &mut [u8])
    requires { (length text.now ≤ length out.old) × ((i : ℕ) → i < length text.now → get_or text.now i 0 < UNUSED) }
    ensures { out.new ≡ put out.old 0 (looked inverse.now text.now) }
{
    for (i, point) in text.iter().enumerate() {
        out[i] = inverse[*point as usize];
    }
}
