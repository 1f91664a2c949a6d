// UTF-8 read into code points, by the Unicode Standard. The whole input is checked before anything is written, so that a refusal leaves
// the lent output alone; both passes go by the first byte of a sequence, and over ASCII eight bytes at a time.
#![tactic(auto)]

pub mod ascii;

ghost use Rattle.std.specs.Prelude.{true, ◌≡◌, ◌≤◌, length};
ghost use Rattle.base.specs.Put.{put};
ghost use Rattle.utf8_meaning.specs.Text.{text_of, well_formed};
ghost use Rattle.utf8_meaning.specs.Inner.Answer.{measured, count_utf8};
ghost use Rattle.utf8_meaning.specs.Answer.{answer, out_after};

use ascii::{past_ascii, widen};
use base::limits::{LONGEST_BYTES, LONGEST_TEXT};
use base::{Cause, Refusal, refuse, wide};
use utf8_table::{four_at, is_four, is_three, is_two, three_at, two_at};

// How many code points well-formed bytes have, or where the first fault is.
pub fn measure(bytes: &[u8]) -> Result<usize, usize>
    ensures { result ≡ measured bytes.now }
{
    let mut i = 0;
    let mut n = 0;
    // Stays a while: a turn passes a sequence of one to four bytes, or a run of ASCII, by what stands there.
    while i < bytes.len() {
        let a = bytes[i];
        if a < 0x80 {
            let next = past_ascii(bytes, i + 1);
            n += next - i;
            i = next;
        } else if a < 0xE0 {
            if !is_two(bytes, i) {
                return Err(i);
            }
            i += 2;
            n += 1;
        } else if a < 0xF0 {
            if !is_three(bytes, i) {
                return Err(i);
            }
            i += 3;
            n += 1;
        } else {
            if !is_four(bytes, i) {
                return Err(i);
            }
            i += 4;
            n += 1;
        }
    }
    Ok(n)
}

// The code points of well-formed bytes, into the first places of an output that has room.
pub fn fill(bytes: &[u8], out: &mut [u32])
    requires { (well_formed bytes.now ≡ true) × (length (text_of bytes.now) ≤ length out.old) }
    ensures { out.new ≡ put out.old 0 (text_of bytes.now) }
{
    let mut from = 0;
    let mut to = 0;
    // Stays a while: a turn passes a sequence of one to four bytes, or a run of ASCII, by what stands there.
    while from < bytes.len() {
        let a = bytes[from];
        if a < 0x80 {
            out[to] = wide(a);
            from += 1;
            to += 1;
            let next = past_ascii(bytes, from);
            widen(&bytes[from..next], out, to);
            to += next - from;
            from = next;
        } else if a < 0xE0 {
            out[to] = two_at(bytes, from);
            from += 2;
            to += 1;
        } else if a < 0xF0 {
            out[to] = three_at(bytes, from);
            from += 3;
            to += 1;
        } else {
            out[to] = four_at(bytes, from);
            from += 4;
            to += 1;
        }
    }
}

// The number of code points, or the first of the refusals that lie in the bytes.
pub fn count_utf8(bytes: &[u8]) -> Result<u32, Refusal>
    ensures { result ≡ count_utf8 bytes.now }
{
    if LONGEST_BYTES < bytes.len() {
        return refuse(Cause::TooLong, 0);
    }
    match measure(bytes) {
        Err(place) => refuse(Cause::IllFormed, place as u32),
        Ok(count) => {
            if LONGEST_TEXT < count {
                return refuse(Cause::TooLong, 0);
            }
            Ok(count as u32)
        }
    }
}

// The code points of bytes, written into the first places of out; the rest of out stays, and all of it in a refusal.
pub fn read_utf8(bytes: &[u8], out: &mut [u32]) -> Result<u32, Refusal>
    ensures value { result ≡ answer bytes.now (length out.old) }
    ensures out_after { out.new ≡ out_after bytes.now out.old }
{
    let count = count_utf8(bytes)?;
    if out.len() < count as usize {
        return refuse(Cause::NoRoom, 0);
    }
    fill(bytes, out);
    Ok(count)
}
