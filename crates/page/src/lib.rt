// Single-byte code pages, read and written. A page is a lent table of 128 u16 for the bytes 80 to FF; bytes below 80 stand for themselves.
// Everything is checked before anything is written, so that a refusal leaves the lent output alone.
#![tactic(auto)]

mod check;
mod inverse;
mod points;

ghost use Rattle.std.specs.Prelude.{◌≡◌, ◌≤◌, length};
ghost use Rattle.base.specs.Limits.{LONGEST_TEXT};
ghost use Rattle.page_meaning.specs.Answer.{read_answer, read_into, write_answer, write_into};
ghost use Rattle.page_meaning.specs.Inner.Good.{Good};

use base::limits::LONGEST_TEXT;
use base::{Cause, Refusal, refuse};
use check::bad_page;
use inverse::{POINTS, bytes_into, first_lacking, invert};
use points::{BYTES, first_unused_byte, lay_points, points_into};

// Reads under a good page. The code points of all 256 bytes are laid out once, so that each byte is one look into them.
fn read_good(page: &[u16], bytes: &[u8], out: &mut [u32]) -> Result<u32, Refusal>
    requires { (length bytes.now ≤ LONGEST_TEXT) × Good page.now }
    ensures value { result ≡ read_answer page.now bytes.now (length out.old) }
    ensures out_after { out.new ≡ read_into page.now bytes.now out.old }
{
    let mut points = [0u32; BYTES];
    lay_points(page, &mut points);
    let unused = first_unused_byte(page, &points, bytes);
    if unused < bytes.len() {
        return refuse(Cause::IllFormed, unused as u32);
    }
    if out.len() < bytes.len() {
        return refuse(Cause::NoRoom, 0);
    }
    points_into(&points, bytes, out);
    Ok(bytes.len() as u32)
}

// Writes under a good page. The byte of every code point below 65,536 is laid out once, in 64 KiB of stack, so that each code point is one look.
fn write_good(page: &[u16], text: &[u32], out: &mut [u8]) -> Result<u32, Refusal>
    requires { (length text.now ≤ LONGEST_TEXT) × Good page.now }
    ensures value { result ≡ write_answer page.now text.now (length out.old) }
    ensures out_after { out.new ≡ write_into page.now text.now out.old }
{
    let mut inverse = [0u8; POINTS];
    invert(page, &mut inverse);
    let lacking = first_lacking(&inverse, text);
    if lacking < text.len() {
        return refuse(Cause::NotOnPage, lacking as u32);
    }
    if out.len() < text.len() {
        return refuse(Cause::NoRoom, 0);
    }
    bytes_into(&inverse, text, out);
    Ok(text.len() as u32)
}

// The code points of bytes under a page, written into the first places of out; the rest of out stays, and all of it in a refusal.
pub fn read_page(page: &[u16], bytes: &[u8], out: &mut [u32]) -> Result<u32, Refusal>
    ensures value { result ≡ read_answer page.now bytes.now (length out.old) }
    ensures out_after { out.new ≡ read_into page.now bytes.now out.old }
{
    if LONGEST_TEXT < bytes.len() {
        return refuse(Cause::TooLong, 0);
    }
    bad_page(page)?;
    read_good(page, bytes, out)
}

// The bytes of a text under a page, written into the first places of out; the rest of out stays, and all of it in a refusal.
pub fn write_page(page: &[u16], text: &[u32], out: &mut [u8]) -> Result<u32, Refusal>
    ensures value { result ≡ write_answer page.now text.now (length out.old) }
    ensures out_after { out.new ≡ write_into page.now text.now out.old }
{
    if LONGEST_TEXT < text.len() {
        return refuse(Cause::TooLong, 0);
    }
    bad_page(page)?;
    write_good(page, text, out)
}
