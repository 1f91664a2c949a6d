// Code points written as UTF-8, in the shortest form, by the Unicode Standard. Everything is checked and counted before anything is written, so that
// a refusal leaves the lent output alone; whole eights of ASCII are written in bulk.
#![tactic(auto)]

ghost use Rattle.std.specs.Prelude.{true, ◌≡◌, ◌+◌, ◌≤◌, length};
ghost use Rattle.base.specs.Put.{put};
ghost use Rattle.utf8_table.specs.Encoding.{encode_all, scalars};
ghost use Rattle.utf8_write_meaning.specs.Answer.{answer, out_after};
ghost use Rattle.utf8_write.specs.Inner.Part.{Part};

use base::limits::LONGEST_TEXT;
use base::{Cause, Refusal, refuse};
use utf8_form::ascii::{narrow, past_eights};
use utf8_form::check::{all_scalar, first_ill, needed};
use utf8_form::sequence::{as_byte, four_into, three_into, two_into};

// How many code points are written one by one before eight at a time are tried again: few enough that a run of ASCII is not missed for long, and
// enough that a text with a letter of two bytes in every word is not looked at twice.
const SINGLES: usize = 32;

// The encodings of scalar values, one after the other, into an output from a place on: the place after them.
fn each_into(text: &[u32], out: &mut [u8], at: usize) -> usize
    requires { (scalars text.now ≡ true) × (at + length (encode_all text.now) ≤ length out.old) }
    ensures value { result ≡ at + length (encode_all text.now) }
    ensures out_after { out.new ≡ put out.old at (encode_all text.now) }
{
    let mut to = at;
    for &c in text {
        if c < 0x80 {
            out[to] = as_byte(c);
            to += 1;
        } else if c < 0x800 {
            two_into(out, to, c);
            to += 2;
        } else if c < 0x10000 {
            three_into(out, to, c);
            to += 3;
        } else {
            four_into(out, to, c);
            to += 4;
        }
    }
    to
}

// Where the code points that are written one by one from i on end.
fn singles_end(text: &[u32], i: usize) -> usize
    requires { i ≤ length text.now }
    ensures { Part (length text.now) i result }
{
    if text.len() - i < SINGLES {
        return text.len();
    }
    i + SINGLES
}

// The encodings of scalar values into the first places of an output that has room: whole eights of ASCII in bulk, then some code points one by one.
fn encode_into(text: &[u32], out: &mut [u8])
    requires { (scalars text.now ≡ true) × (length (encode_all text.now) ≤ length out.old) }
    ensures { out.new ≡ put out.old 0 (encode_all text.now) }
{
    let mut from = 0;
    let mut to = 0;
    // Stays a while: a turn passes eights of ASCII, as many as stand there, and then up to SINGLES code points more.
    while from < text.len() {
        let next = past_eights(text, from);
        narrow(&text[from..next], out, to);
        to += next - from;
        let end = singles_end(text, next);
        to = each_into(&text[next..end], out, to);
        from = end;
    }
}

// A text as UTF-8, written into the first places of out; the rest of out stays, and all of it in a refusal.
pub fn write_utf8(text: &[u32], out: &mut [u8]) -> Result<u32, Refusal>
    ensures value { result ≡ answer text.now (length out.old) }
    ensures out_after { out.new ≡ out_after text.now out.old }
{
    if LONGEST_TEXT < text.len() {
        return refuse(Cause::TooLong, 0);
    }
    if !all_scalar(text) {
        return refuse(Cause::NotScalar, first_ill(text) as u32);
    }
    let count = needed(text);
    if out.len() < count as usize {
        return refuse(Cause::NoRoom, 0);
    }
    encode_into(text, out);
    Ok(count)
}
