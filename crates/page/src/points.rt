// The code point of each byte under a page, laid out once a call, and bytes read by it.
ghost use Rattle.std.specs.Prelude.{◌≡◌, ◌<◌, ◌≤◌, length, replicate};
ghost use Rattle.base.specs.Put.{put};
ghost use Rattle.page_meaning.specs.Page.{point_of, unused_at, PAGE_ENTRIES, BYTES};
ghost use Rattle.page_meaning.specs.Inner.Tables.{Points, looked, first_unused};

use crate::check::{FIRST_HIGH, PAGE_ENTRIES, UNUSED, holds, wide};

// how many bytes there are
pub const BYTES: usize = 256;

// The code point of a byte, or UNUSED.
pub fn point_of(page: &[u16], b: usize) -> u32
    requires { (length page.now ≡ PAGE_ENTRIES) × (b < BYTES) }
    ensures { result ≡ point_of page.now b }
{
    if b < FIRST_HIGH {
        return b as u32;
    }
    wide(page[b - FIRST_HIGH])
}

// The code points of all bytes.
pub fn lay_points(page: &[u16], points: &mut [u32; BYTES])
    requires { (length page.now ≡ PAGE_ENTRIES) × (points.old ≡ replicate 256 0) }
    ensures { Points page.now points.new }
{
    for (b, point) in points.iter_mut().enumerate() {
        *point = point_of(page, b);
    }
}

// The index of the first byte that is unused, or how many bytes there are.
fn first_unused(points: &[u32; BYTES], bytes: &[u8]) -> usize
    ensures { result ≡ first_unused points.now bytes.now }
{
    bytes
        .iter()
        .position(|b| points[*b as usize] == UNUSED)
        .unwrap_or(bytes.len())
}

// The same under a page, which lends its entries too: where none of them is unused, no byte is, and the bytes are not looked at.
pub fn first_unused_byte(page: &[u16], points: &[u32; BYTES], bytes: &[u8]) -> usize
    requires { (length page.now ≡ PAGE_ENTRIES) × Points page.now points.now }
    ensures { result ≡ unused_at page.now bytes.now }
{
    if !holds(page, UNUSED as u16) {
        return bytes.len();
    }
    first_unused(points, bytes)
}

// The code points of bytes, into the first places of an output that has room.
pub fn points_into(points: &[u32; BYTES], bytes: &[u8], out: &mut [u32])
    requires { length bytes.now ≤ length out.old }
    ensures { out.new ≡ put out.old 0 (looked points.now bytes.now) }
{
    for (i, b) in bytes.iter().enumerate() {
        out[i] = points[*b as usize];
    }
}
