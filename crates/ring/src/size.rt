// The tests of a ring, and a slot's number behind the last slot.
ghost use Rattle.std.specs.Prelude.{◌≡◌, ◌+◌, ◌%◌, ◌<◌};
ghost use Rattle.ring_meaning.specs.Ring.{wrong_size, wrong_ring};

use crate::{MOST_SLOTS, RECORD};

// Whether the bytes are not whole records, none, or too many.
pub fn wrong_size(ring: &[u8]) -> bool
    ensures { result ≡ wrong_size ring.now }
{
    let slots = ring.len() / RECORD;
    !(ring.len() % RECORD == 0) | ((slots < 1) | (MOST_SLOTS < slots))
}

// The same, or a head not below the size, or a count above it.
pub fn wrong_ring(ring: &[u8], head: u32, count: u32) -> bool
    ensures { result ≡ wrong_ring ring.now head count }
{
    let slots = ring.len() / RECORD;
    wrong_size(ring) | (!((head as usize) < slots) | (slots < count as usize))
}

// A slot's number modulo the size, of one that is less than a round too large. It costs no division.
pub fn wrapped(a: usize, slots: usize) -> usize
    requires { a < slots + slots }
    ensures { result ≡ a % slots }
{
    if a < slots {
        return a;
    }
    a - slots
}
