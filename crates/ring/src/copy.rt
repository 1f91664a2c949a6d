// Bytes put into other bytes: a record into its slot, records from their slots to the front of an output.
ghost use Rattle.std.specs.Prelude.{◌≡◌, ◌+◌, ◌*◌, ◌≤◌, length};
ghost use mathlib.Core.List.{flatten};
ghost use Rattle.base.specs.Put.{put};
ghost use Rattle.ring_meaning.specs.Record as records;
ghost use Rattle.ring_meaning.specs.Ring.{records_from};
ghost use Rattle.ring_meaning.specs.Inner.Ring.{GoodRing};

use crate::RECORD;
use crate::size::wrapped;

// Puts bytes into out from a place on.
pub fn put_bytes(bytes: &[u8], out: &mut [u8], at: usize)
    requires { at + length bytes.now ≤ length out.old }
    ensures { out.new ≡ put out.old at bytes.now }
{
    out[at..at + bytes.len()].copy_from_slice(bytes);
}

// Puts the n oldest records of a ring into the first places of an output that has room.
pub fn copy_records(ring: &[u8], head: usize, n: usize, out: &mut [u8])
    requires { GoodRing ring.now head n × (records.RECORD * n ≤ length out.old) }
    ensures { out.new ≡ put out.old 0 (flatten (records_from ring.now head n)) }
{
    let slots = ring.len() / RECORD;
    for i in 0..n {
        let from = RECORD * wrapped(head + i, slots);
        let end = from + RECORD;
        put_bytes(&ring[from..end], out, RECORD * i);
    }
}
