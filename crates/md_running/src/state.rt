// Which states are refused (19): nobody knows where a lent state has been.
ghost use Rattle.std.specs.Prelude.{◌≡◌};
ghost use Rattle.md_running_meaning.specs.State.{counts_in, any_above, unsound, bad_state};

use base::limits::{LAST_RANGE, LONGEST_TEXT};
use base::{Cause, Refusal, refuse};
use md_running_meaning::Running;
use ratio::finite::is_finite;

// How many counts a state has.
const COUNTS: usize = 25;

// A count is at most this many times the number received.
const TWICE: u32 = 2;

// The counts of a state.
fn counts_held(s: Running) -> [u32; COUNTS]
    ensures { result ≡ counts_in s }
{
    let eight = s.watched.eight;
    [
        s.fed,
        eight.symbols.characters,
        eight.symbols.punctuation,
        eight.symbols.symbols,
        eight.accents.characters,
        eight.accents.accentuated,
        eight.unprintable.characters,
        eight.unprintable.unprintable,
        eight.ranges.characters,
        eight.ranges.suspicious,
        eight.doubled.characters,
        eight.doubled.successive,
        eight.words.characters,
        eight.words.words,
        eight.words.foreign,
        eight.words.spoilt,
        eight.words.accents,
        eight.words.uppercase,
        eight.words.length,
        eight.stops.wrong,
        eight.stops.cjk,
        eight.archaic.characters,
        eight.archaic.since,
        eight.archaic.run,
        eight.archaic.total,
    ]
}

// Whether one of the numbers is above `most`. It looks at all of them, so that the compiler can compare several at once.
fn any_above(list: &[u32], most: u32) -> bool
    ensures { result ≡ any_above most list.now }
{
    let mut above = false;
    for x in list {
        above |= most < *x;
    }
    above
}

// Whether a state is refused.
pub fn is_unsound(s: Running) -> bool
    ensures { result ≡ unsound s }
{
    if !is_finite(s.threshold) {
        return true;
    }
    if s.length as usize > LONGEST_TEXT {
        return true;
    }
    if s.received > s.length {
        return true;
    }
    if s.watched.eight.ranges.last > LAST_RANGE {
        return true;
    }
    let counts = counts_held(s);
    any_above(&counts, TWICE * s.received)
}

// Why a state is refused, if it is.
pub fn bad_state(s: Running) -> Result<(), Refusal>
    ensures { result ≡ bad_state s }
{
    if is_unsound(s) {
        return refuse(Cause::BadState, 0);
    }
    Ok(())
}
