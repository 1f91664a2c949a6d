// The bytes of a record.
ghost use Rattle.std.specs.Prelude.{◌≡◌, ◌+◌, ◌≤◌, length};
ghost use Rattle.base.specs.Put.{put};
ghost use Rattle.ring_meaning.specs.Record.{le_bytes, record_of};

use crate::RECORD;
use crate::copy::put_bytes;
use ring_meaning::Verdict;

// Where the numbers stand in a record, the line's number first. What is behind the last stays zero.
const BITS_AT: usize = 8;

const FED_AT: usize = 12;

const STOPPED_AT: usize = 16;

const REFUSAL_AT: usize = 20;

// Puts the bytes of a number into out from a place on, lowest first. The compiler makes one store of them.
fn put_word(v: u32, out: &mut [u8], at: usize)
    requires { at + 4 ≤ length out.old }
    ensures { out.new ≡ put out.old at (le_bytes 4 v) }
{
    put_bytes(&v.to_le_bytes(), out, at);
}

// The record of a verdict.
pub fn record_of(v: Verdict) -> [u8; RECORD]
    ensures { result ≡ record_of v }
{
    let mut record = [0u8; RECORD];
    put_bytes(&v.line.to_le_bytes(), &mut record, 0);
    put_word(v.bits, &mut record, BITS_AT);
    put_word(v.fed, &mut record, FED_AT);
    put_word(v.stopped, &mut record, STOPPED_AT);
    put_word(v.refusal, &mut record, REFUSAL_AT);
    record
}
