// One sequence of UTF-8: whether a well-formed one stands at a place, and its code point, by the first byte (the Unicode Standard, Tables
// 3-6 and 3-7); and which numbers have one. The reader in utf8 goes from sequence to sequence.
#![tactic(auto)]

ghost use Rattle.std.specs.Prelude.{◌≡◌, ◌+◌, ◌≤◌, ◌<◌, length};
ghost use Rattle.base.specs.Tests.{scalar, within};
ghost use Rattle.utf8_table.specs.WellFormed.{byte_at, point_of_two, point_of_three, point_of_four};
ghost use Rattle.utf8_table.specs.Inner.ByLead.{leads_two, leads_three, leads_four};

use base::limits::{LAST_POINT, SURROGATE_FIRST, SURROGATE_LAST};
use base::{pick, wide};

// Whether b lies in lo..=hi.
fn in_range(lo: u32, hi: u32, b: u32) -> bool
    ensures { result ≡ within lo hi b }
{
    (lo <= b) & (b <= hi)
}

// Whether a sequence of two stands at i, where the byte is 80 to DF.
pub fn is_two(b: &[u8], i: usize) -> bool
    requires { i < length b.now }
    ensures { result ≡ leads_two (byte_at b.now i) (byte_at b.now (i + 1)) }
{
    if b.len() - i < 2 {
        return false;
    }
    (0xC2 <= wide(b[i])) & in_range(0x80, 0xBF, wide(b[i + 1]))
}

// A first byte and the first three bits of the second, as one number: E0 before 80 to 9F, and ED before A0 to BF.
const OVERLONG: u32 = 0xE0 * 8 + 4;

const SURROGATE: u32 = 0xED * 8 + 5;

// Whether a sequence of three stands at i, where the byte is E0 to EF. E0 and ED have narrower bounds for the second byte, told by two
// numbers: bounds picked by the first byte are more tests.
pub fn is_three(b: &[u8], i: usize) -> bool
    requires { i < length b.now }
    ensures { result ≡ leads_three (byte_at b.now i) (byte_at b.now (i + 1)) (byte_at b.now (i + 2)) }
{
    if b.len() - i < 3 {
        return false;
    }
    let second = wide(b[i + 1]);
    let led = wide(b[i]) * 8 + second / 32;
    (second / 64 == 2) & (led != OVERLONG) & (led != SURROGATE) & (wide(b[i + 2]) / 64 == 2)
}

// Whether a sequence of four stands at i, where the byte is F0 or more. F0 and F4 have narrower bounds for the second byte.
pub fn is_four(b: &[u8], i: usize) -> bool
    requires { i < length b.now }
    ensures { result ≡ leads_four (byte_at b.now i) (byte_at b.now (i + 1)) (byte_at b.now (i + 2)) (byte_at b.now (i + 3)) }
{
    if b.len() - i < 4 {
        return false;
    }
    let a = wide(b[i]);
    let lo = pick(a == 0xF0, 0x90, 0x80);
    let hi = pick(a == 0xF4, 0x8F, 0xBF);
    (a <= 0xF4)
        & in_range(lo, hi, wide(b[i + 1]))
        & in_range(0x80, 0xBF, wide(b[i + 2]))
        & in_range(0x80, 0xBF, wide(b[i + 3]))
}

// The code points of the sequences of two, three and four at i.
pub fn two_at(b: &[u8], i: usize) -> u32
    requires { i + 2 ≤ length b.now }
    ensures { result ≡ point_of_two (byte_at b.now i) (byte_at b.now (i + 1)) }
{
    wide(b[i]) % 32 * 64 + wide(b[i + 1]) % 64
}

pub fn three_at(b: &[u8], i: usize) -> u32
    requires { i + 3 ≤ length b.now }
    ensures { result ≡ point_of_three (byte_at b.now i) (byte_at b.now (i + 1)) (byte_at b.now (i + 2)) }
{
    wide(b[i]) % 16 * 4096 + wide(b[i + 1]) % 64 * 64 + wide(b[i + 2]) % 64
}

pub fn four_at(b: &[u8], i: usize) -> u32
    requires { i + 4 ≤ length b.now }
    ensures { result ≡ point_of_four (byte_at b.now i) (byte_at b.now (i + 1)) (byte_at b.now (i + 2)) (byte_at b.now (i + 3)) }
{
    wide(b[i]) % 8 * 262144
        + wide(b[i + 1]) % 64 * 4096
        + wide(b[i + 2]) % 64 * 64
        + wide(b[i + 3]) % 64
}

// Whether a number has a form in UTF-8: whether it is a scalar value.
pub fn has_form(p: u32) -> bool
    ensures { result ≡ scalar p }
{
    (p <= LAST_POINT) & !((SURROGATE_FIRST <= p) & (p <= SURROGATE_LAST))
}
