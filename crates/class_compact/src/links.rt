// Letters that were met are found again: each mark has the place of the letters that came first with it, and each letters have two slots for those that
// came to them later. A bit of the two numbers says which of the two, so that letters are found in as many turns as they have bits at most, whatever
// the letters are.
ghost use Rattle.class_compact_meaning.specs.Inner.Links.{Mark, Linked, Slot};

use crate::form::{HALF, base_at, lower_at};
use base::limits::MOST_CLASSES;

// How many marks there are: few, since they are cleared in each call.
pub const MARKS: usize = 4096;

// How many slots there are: a mark's, and two of each place from 0 on.
pub const LINKS: usize = MARKS + 2 * (MOST_CLASSES + 1);

// What spreads the bases over the marks, and the letters above U+FFFF.
const SPREAD: u32 = 127;

const HIGH_SPREAD: u32 = 16381;

// What the upper of two words is counted in.
const WORD: u64 = 4294967296;

// A number that the same letters share, and others seldom.
fn mark_for(base: u32, lower: u32) -> usize
    ensures { Mark base lower result }
{
    let spread = base % HALF * SPREAD + (lower % HALF + lower / HALF * HIGH_SPREAD);
    spread as usize % MARKS
}

// The slot where these letters have their place if they are among the first `count`, and that is to be given theirs if they are not. `count` stands here
// for the contract alone.
pub fn slot_for(letters: &[u8], count: usize, base: u32, lower: u32, links: &[u16; LINKS]) -> usize
    requires { Linked letters.now count links.now }
    ensures { Slot letters.now count base lower links.now result }
{
    let mut slot = mark_for(base, lower);
    let mut bits = base as u64 * WORD + lower as u64;
    // Stays a while: a turn goes to the slot that the place found here names, and an empty one ends the walk.
    while links[slot] != 0 {
        let place = links[slot] as usize;
        let k = place - 1;
        if (base_at(letters, k) == base) & (lower_at(letters, k) == lower) {
            return slot;
        }
        slot = MARKS + (2 * place + (bits % 2) as usize);
        bits = bits / 2;
    }
    slot
}
