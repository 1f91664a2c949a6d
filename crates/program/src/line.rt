// The line that the program writes, piece by piece.
ghost use Rattle.std.specs.Prelude.{◌≡◌, not, ◌≤◌, ◌<◌, T, length, Ok, Err};
ghost use Rattle.std.specs.Float.Ieee.{to_bits, is_nan};
ghost use Rattle.std.specs.Float.{binary32};
ghost use Rattle.program.specs.Numerals as numerals;
ghost use Rattle.program.specs.Inner.Line as lines;
ghost use Rattle.program.specs.Line.{line};
ghost use Rattle.pieces.specs.Inner.Pieces.{Goes};

use base::{Refusal, one};
use md_meaning::Score;
use pieces::{put_number, put_piece};

// The hexadecimal digit of weight `weight`.
fn hex_at(n: u32, weight: u32) -> u8
    requires { 0 < weight }
    ensures { result ≡ numerals.hex_at n weight }
{
    let d = n / weight % 16;
    if d < 10 {
        b'0' + d as u8
    } else {
        b'A' + (d - 10) as u8
    }
}

// The eight hexadecimal digits of a u32.
fn hex(n: u32) -> [u8; 8]
    ensures { result ≡ numerals.hex n }
{
    [
        hex_at(n, 0x1000_0000),
        hex_at(n, 0x100_0000),
        hex_at(n, 0x10_0000),
        hex_at(n, 0x1_0000),
        hex_at(n, 0x1000),
        hex_at(n, 0x100),
        hex_at(n, 0x10),
        hex_at(n, 1),
    ]
}

// The bits of a score's sum.
fn bits_of(score: Score) -> u32
    requires { T (not (is_nan score.sum)) }
    ensures { result ≡ to_bits binary32 score.sum }
{
    score.sum.to_bits()
}

// The line of a score.
pub fn put_score(out: &mut [u8], score: Score) -> usize
    requires { T (not (is_nan score.sum)) × (lines.LONGEST_LINE ≤ length out.old) }
    ensures { Goes out.old out.new 0 (line (Ok score)) result }
{
    let digits = hex(bits_of(score));
    let a = put_piece(out, 0, b"score ");
    let b = put_piece(out, a, &digits);
    let c = put_number(out, b, b" fed ", score.fed);
    let d = put_number(out, c, b" stopped ", one(score.stopped));
    put_piece(out, d, b"\n")
}

// The line of a refusal.
pub fn put_refused(out: &mut [u8], why: Refusal) -> usize
    requires { lines.LONGEST_LINE ≤ length out.old }
    ensures { Goes out.old out.new 0 (line (Err why)) result }
{
    let a = put_number(out, 0, b"refused ", why.cause.number());
    let b = put_number(out, a, b" at ", why.place);
    put_piece(out, b, b"\n")
}
