// The verdict ring: one record of 32 bytes a line, kept in lent bytes until they are flushed. Head and count go in and out by value, and the caller
// keeps them with the ring; in a refusal it keeps those that it has.
#![tactic(auto)]

ghost use Rattle.std.specs.Prelude.{◌≡◌, length, Ok};
ghost use Rattle.base.specs.Causes.{refused_at};
ghost use Rattle.ring_meaning.specs.Calls as calls;

use base::{Cause, Refusal, refuse};
use copy::{copy_records, put_bytes};
use record::record_of;
use ring_meaning::{Kept, Verdict};
use size::{wrapped, wrong_ring, wrong_size};

mod copy;
mod record;
mod size;

// Bytes of a record.
pub const RECORD: usize = 32;

// The most records of a ring.
pub const MOST_SLOTS: usize = 2048;

// A ring with nothing in it. Its bytes stay as they are.
pub fn open_ring(ring: &[u8]) -> Result<Kept, Refusal>
    ensures { result ≡ calls.open_answer ring.now }
{
    if wrong_size(ring) {
        return refuse(Cause::BadRing, 0);
    }
    ring_kept(0, 0)
}

// Puts a record behind the newest one.
pub fn put_record(ring: &mut [u8], head: u32, count: u32, verdict: Verdict) -> Result<Kept, Refusal>
    ensures value { result ≡ calls.put_answer ring.old head count }
    ensures ring_after { ring.new ≡ calls.ring_after ring.old head count verdict }
{
    if wrong_ring(ring, head, count) {
        return refuse(Cause::BadRing, 0);
    }
    let slots = ring.len() / RECORD;
    let unused = slots - count as usize;
    if unused == 0 {
        return refuse(Cause::RingFull, 0);
    }
    let record = record_of(verdict);
    let free = wrapped(head as usize + count as usize, slots);
    put_bytes(&record, ring, RECORD * free);
    ring_kept(head, count + 1)
}

// Writes the oldest records, up to `most` of them, to the front of out. Their slots are free from now on.
pub fn flush_records(
    ring: &[u8],
    head: u32,
    count: u32,
    most: u32,
    out: &mut [u8],
) -> Result<Kept, Refusal>
    ensures value { result ≡ calls.flush_answer ring.now head count most (length out.old) }
    ensures out_after { out.new ≡ calls.out_after ring.now head count most out.old }
{
    if wrong_ring(ring, head, count) {
        return refuse(Cause::BadRing, 0);
    }
    let n = most.min(count);
    if out.len() < RECORD * n as usize {
        return refuse(Cause::NoRoom, 0);
    }
    copy_records(ring, head as usize, n as usize, out);
    let slots = ring.len() / RECORD;
    let next = wrapped(head as usize + n as usize, slots);
    ring_kept(next as u32, count - n)
}

fn ring_kept(head: u32, count: u32) -> Result<Kept, Refusal>
    ensures { result ≡ calls.kept_unless (Ok tt) head count }
{
    Ok(Kept { head, count })
}
