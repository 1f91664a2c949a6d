// The program: the bytes of standard input in, the line for standard output out. `report` is the whole of it; `run` only reads and writes.
#![tactic(auto)]

ghost use Rattle.std.specs.Prelude.{◌≡◌, ◌≤◌, length};
ghost use Rattle.md_utf8_meaning.specs.ScoreUtf8.{mess_ratio_utf8};
ghost use Rattle.program.specs.Program as program;
ghost use Rattle.program.specs.Line.{Reported};

use base::limits::PAIR_BYTES;
use base::{Cause, Refusal, refuse};
use line::{put_refused, put_score};
use md_meaning::Score;
use md_utf8::mess_ratio_utf8;
use std::io;
use std::io::Read;

pub mod line;

// Bytes of standard input that are scored; more are refused as 1.
pub const LONGEST_INPUT: usize = 4096;

// Bytes that hold every line.
pub const LINE: usize = 64;

// One byte more than is scored, so that a longer input is seen to be longer.
const ROOM: usize = LONGEST_INPUT + 1;

// f32 0.2, at which the program scores.
const THRESHOLD: f32 = 0.2;

fn no_pairs() -> [u8; PAIR_BYTES]
    ensures { result ≡ program.NO_PAIRS }
{
    [0; PAIR_BYTES]
}

// The score of bytes that are not too many, with no class records and an all-zero pair table.
fn score_input(bytes: &[u8]) -> Result<Score, Refusal>
    ensures { result ≡ mess_ratio_utf8 bytes.now program.THRESHOLD program.NO_CLASSES program.NO_PAIRS }
{
    let classes: [u8; 0] = [];
    let pairs = no_pairs();
    mess_ratio_utf8(bytes, THRESHOLD, &classes, &pairs)
}

// The score of the bytes, or their refusal.
pub fn answer(bytes: &[u8]) -> Result<Score, Refusal>
    ensures { result ≡ program.answer bytes.now }
{
    if bytes.len() > LONGEST_INPUT {
        return refuse(Cause::TooLong, 0);
    }
    score_input(bytes)
}

// Puts the line for the bytes into the first places of out, and answers how long it is.
pub fn report(bytes: &[u8], out: &mut [u8; LINE]) -> usize
    ensures { Reported bytes.now out.old out.new result }
{
    match answer(bytes) {
        Err(why) => put_refused(out, why),
        Ok(score) => put_score(out, score),
    }
}

// Reads standard input until buf is full or the input ends, and answers how many bytes were put at the start of buf. A read that fails counts as the
// end. No contract can say which bytes they are.
pub fn read_input(rt: &impl Input, buf: &mut [u8]) -> usize
    ensures { result ≤ length buf.new }
{
    let mut input = rt.reader();
    let mut done = 0;
    // Stays a while: a turn takes as many bytes as one read gives.
    while done < buf.len() {
        match input.read(&mut buf[done..]) {
            Ok(0) | Err(_) => return done,
            Ok(n) => done += n,
        }
    }
    done
}

// Reads standard input and writes its line. No contract can say what is read or written.
pub fn run(rt: &(impl Input + Print)) -> io::Result<()> {
    let mut input = [0u8; ROOM];
    let n = read_input(rt, &mut input);
    let mut out = [0u8; LINE];
    let k = report(&input[..n], &mut out);
    rt.write_all(&out[..k])
}
