// Where a run of letters with case ends. Their words are as long as they happen to be, so that a processor that asks letter by letter foresees the end
// wrongly; here eight are looked at with no branch among them.
ghost use Rattle.std.specs.Prelude.{◌+◌, ◌≤◌, length};
ghost use Rattle.md_rest.specs.Inner.Rest.{Past};
ghost use Rattle.md_runs.specs.Inner.Ahead.{AHEAD, Unless};

use md_rest::rest::past_within;
use md_text::nearer;
use std::num::wrapping_sub_u32;

// Characters that are looked at together.
const AHEAD: usize = 8;

// Past all of them where p lies from low to high, else j. What p has over low, wrapped, so that one comparison tells: of two, each would be a choice
// that waits for the one before it.
fn unless_within(p: u32, low: u32, high: u32, j: usize) -> usize
    requires { low ≤ high }
    ensures { Unless low high p j result }
{
    if high - low < wrapping_sub_u32(p, low) {
        return j;
    }
    AHEAD
}

// Past the characters from `from` on that lie from low to high, as far as those that are looked at together.
fn past_ahead(text: &[u32], from: usize, low: u32, high: u32) -> usize
    requires { from + AHEAD ≤ length text.now }
    ensures { Past text.now low high from (from + AHEAD) result }
{
    if high < low {
        return from;
    }
    let mut first = AHEAD;
    for j in 0..AHEAD {
        first = nearer(first, unless_within(text[from + j], low, high, j));
    }
    from + first
}

// The same as far as `end`, where the first of them do not reach it one by one.
pub fn past_letters(text: &[u32], from: usize, end: usize, low: u32, high: u32) -> usize
    requires { (from ≤ end) × (end ≤ length text.now) }
    ensures { Past text.now low high from end result }
{
    if text.len() - from < AHEAD {
        return past_within(text, from, end, low, high);
    }
    let next = past_ahead(text, from, low, high);
    if end <= next {
        return end;
    }
    if next < from + AHEAD {
        return next;
    }
    past_within(text, next, end, low, high)
}
