// UTF-8 read in one pass, into a room of the caller's own with a place for each byte: what stands there after a fault is of no account, so that nothing has to be checked
// before it is written. Sequences of one length in a row are taken by a loop of their own. Where words end no processor foresees: sequences of two are looked at eight together, with
// no branch among them, and those of three that have stood together go on in a loop whose turn takes an ASCII byte before them without one: it is written where it would stand, and counted or not.
#![tactic(auto)]

ghost use Rattle.std.specs.Prelude.{◌≡◌, ◌+◌, ◌*◌, ◌≤◌, ◌<◌, length, take};
ghost use Rattle.base.specs.Limits.{LONGEST_TEXT};
ghost use Rattle.utf8_table.specs.WellFormed.{byte_at};
ghost use Rattle.utf8_meaning.specs.Text.{text_of};
ghost use Rattle.utf8_meaning.specs.Inner.Answer.{measured, count_utf8};
ghost use Rattle.utf8_taking.specs.Inner.Taking.{NO_ASCII, LEADS_THREE, LEADS_FOUR, AHEAD, SPACED, Room, Behind, Taken, Took, Beyond, IfTwo, Twos, Put};

use base::{Cause, Refusal, refuse, wide};
use utf8::ascii::{past_ascii, widen};
use utf8_table::{four_at, is_four, is_three, is_two, three_at, two_at};

// The first byte that is no ASCII, the first that leads two, the first that leads three and the first that leads four bytes.
const NO_ASCII: u8 = 0x80;

const LEADS_TWO: u8 = 0xC2;

const LEADS_THREE: u8 = 0xE0;

const LEADS_FOUR: u8 = 0xF0;

// Sequences of two that are looked at together.
const AHEAD: usize = 8;

// Bytes that a turn of three looks at.
const SPACED: usize = 4;

// How far the bytes are taken, and the places of the room.
#[derive(Clone, Copy)]
pub struct Reached {
    pub from: usize,
    pub to: usize,
}

// The ASCII bytes from one on.
fn take_ascii(bytes: &[u8], from: usize, out: &mut [u32], to: usize) -> Reached
    requires { Room bytes.now out.old from to × (byte_at bytes.now from < NO_ASCII) }
    ensures { Took bytes.now out.old out.new from to result.from result.to }
{
    out[to] = wide(bytes[from]);
    let first = from + 1;
    let next = past_ascii(bytes, first);
    widen(&bytes[first..next], out, to + 1);
    Reached {
        from: next,
        to: to + (next - from),
    }
}

// The sequence of two bytes at a byte 80 to DF.
fn take_two(bytes: &[u8], from: usize, out: &mut [u32], to: usize) -> Reached
    requires { Room bytes.now out.old from to × (NO_ASCII ≤ byte_at bytes.now from) × (byte_at bytes.now from < LEADS_THREE) }
    ensures { Took bytes.now out.old out.new from to result.from result.to }
{
    if !is_two(bytes, from) {
        return Reached { from: from, to: to };
    }
    out[to] = two_at(bytes, from);
    Reached {
        from: from + 2,
        to: to + 1,
    }
}

// 1 where the byte at i is no ASCII, else 0.
fn beyond_ascii(b: &[u8], i: usize) -> usize
    requires { i < length b.now }
    ensures { Beyond (byte_at b.now i) result }
{
    (wide(b[i]) / 128) as usize
}

// Whether a sequence of two stands at i.
fn two_stands(b: &[u8], i: usize) -> bool
    requires { i + 2 ≤ length b.now }
    ensures { IfTwo result b.now i }
{
    (LEADS_TWO <= b[i]) & (b[i] < LEADS_THREE) & (b[i + 1] / 64 == 2)
}

// How many sequences of two stand one behind the other from `from` on, of those that are looked at together. From the last to the first, so that each
// costs a choice and no branch.
fn twos_ahead(bytes: &[u8], from: usize) -> usize
    requires { from + 2 * AHEAD ≤ length bytes.now }
    ensures { Twos bytes.now from result }
{
    let mut first = AHEAD;
    for j in (0..AHEAD).rev() {
        if !two_stands(bytes, from + 2 * j) {
            first = j;
        }
    }
    first
}

// Writes what the bytes are as sequences of two, as many as are looked at together: past those that stand there it is of no account.
fn put_twos(bytes: &[u8], from: usize, out: &mut [u32], to: usize)
    requires { Room bytes.now out.old from to × (from + 2 * AHEAD ≤ length bytes.now) }
    ensures { Put bytes.now out.old out.new from to }
{
    for j in 0..AHEAD {
        out[to + j] = two_at(bytes, from + 2 * j);
    }
}

// The sequences of two from `from` on that are looked at together, and the ASCII byte behind them: most often a word and its space.
fn take_letters(bytes: &[u8], from: usize, out: &mut [u32], to: usize) -> Reached
    requires { Behind bytes.now out.old from to }
    ensures { Taken bytes.now out.old out.new from to result.from result.to }
{
    if bytes.len() - from <= 2 * AHEAD {
        return Reached { from: from, to: to };
    }
    if bytes[from] < NO_ASCII {
        return Reached { from: from, to: to };
    }
    let many = twos_ahead(bytes, from);
    put_twos(bytes, from, out, to);
    let at = from + 2 * many;
    let n = to + many;
    if NO_ASCII <= bytes[at] {
        return Reached { from: at, to: n };
    }
    out[n] = wide(bytes[at]);
    Reached {
        from: at + 1,
        to: n + 1,
    }
}

// The sequences of three bytes from a byte E0 to EF on.
fn take_threes(bytes: &[u8], from: usize, out: &mut [u32], to: usize) -> Reached
    requires { Room bytes.now out.old from to × (LEADS_THREE ≤ byte_at bytes.now from) × (byte_at bytes.now from < LEADS_FOUR) }
    ensures { Took bytes.now out.old out.new from to result.from result.to }
{
    let mut i = from;
    let mut n = to;
    // Stays a while: it goes on while a sequence of three stands, and both places that it reached are the answer.
    while i < bytes.len() {
        if bytes[i] / 16 != 0xE {
            return Reached { from: i, to: n };
        }
        if !is_three(bytes, i) {
            return Reached { from: i, to: n };
        }
        out[n] = three_at(bytes, i);
        i += 3;
        n += 1;
    }
    Reached { from: i, to: n }
}

// A sequence of three, with or without an ASCII byte before it. Both are written, the sequence over the ASCII byte where none is.
fn take_spaced(bytes: &[u8], from: usize, out: &mut [u32], to: usize) -> Reached
    requires { Room bytes.now out.old from to × (from + SPACED ≤ length bytes.now) }
    ensures { Taken bytes.now out.old out.new from to result.from result.to }
{
    let more = 1 - beyond_ascii(bytes, from);
    let at = from + more;
    if bytes[at] / 16 != 0xE {
        return Reached { from: from, to: to };
    }
    if !is_three(bytes, at) {
        return Reached { from: from, to: to };
    }
    out[to] = wide(bytes[from]);
    out[to + more] = three_at(bytes, at);
    Reached {
        from: at + 3,
        to: to + more + 1,
    }
}

// Sequences of three, with single ASCII bytes among them.
fn take_all_spaced(bytes: &[u8], from: usize, out: &mut [u32], to: usize) -> Reached
    requires { Behind bytes.now out.old from to }
    ensures { Taken bytes.now out.old out.new from to result.from result.to }
{
    let mut i = from;
    let mut n = to;
    // Stays a while: a turn passes three or four bytes, by what stands there.
    while SPACED <= bytes.len() - i {
        let r = take_spaced(bytes, i, out, n);
        if r.from == i {
            return r;
        }
        i = r.from;
        n = r.to;
    }
    Reached { from: i, to: n }
}

// The sequence of four bytes at a byte from F0 on.
fn take_four(bytes: &[u8], from: usize, out: &mut [u32], to: usize) -> Reached
    requires { Room bytes.now out.old from to × (LEADS_FOUR ≤ byte_at bytes.now from) }
    ensures { Took bytes.now out.old out.new from to result.from result.to }
{
    if !is_four(bytes, from) {
        return Reached { from: from, to: to };
    }
    out[to] = four_at(bytes, from);
    Reached {
        from: from + 4,
        to: to + 1,
    }
}

// What stands at `from`, and more of the same length or with ASCII bytes among it.
fn take_some(bytes: &[u8], from: usize, out: &mut [u32], to: usize) -> Reached
    requires { Room bytes.now out.old from to }
    ensures { Took bytes.now out.old out.new from to result.from result.to }
{
    let a = bytes[from];
    if a < NO_ASCII {
        return take_ascii(bytes, from, out, to);
    }
    if a < LEADS_THREE {
        let r = take_two(bytes, from, out, to);
        return take_letters(bytes, r.from, out, r.to);
    }
    if a < LEADS_FOUR {
        let r = take_threes(bytes, from, out, to);
        return take_all_spaced(bytes, r.from, out, r.to);
    }
    take_four(bytes, from, out, to)
}

// How many code points well-formed bytes have, or where the first fault is; the code points before it stand in the first places of out.
fn take_text(bytes: &[u8], out: &mut [u32]) -> Result<usize, usize>
    requires { length bytes.now ≤ length out.old }
    ensures value { result ≡ measured bytes.now }
    ensures out_after { take (length (text_of bytes.now)) out.new ≡ text_of bytes.now }
{
    let mut from = 0;
    let mut to = 0;
    // Stays a while: a turn passes a run of sequences of any length, by what stands there.
    while from < bytes.len() {
        let r = take_some(bytes, from, out, to);
        if r.from == from {
            return Err(from);
        }
        from = r.from;
        to = r.to;
    }
    Ok(to)
}

// The number of code points, which stand in the first places of out, or the refusal. So few bytes are never too long.
pub fn take_utf8(bytes: &[u8], out: &mut [u32]) -> Result<u32, Refusal>
    requires { (length bytes.now ≤ length out.old) × (length bytes.now ≤ LONGEST_TEXT) }
    ensures value { result ≡ count_utf8 bytes.now }
    ensures out_after { take (length (text_of bytes.now)) out.new ≡ text_of bytes.now }
{
    match take_text(bytes, out) {
        Err(place) => refuse(Cause::IllFormed, place as u32),
        Ok(count) => Ok(count as u32),
    }
}
