// A second engine for the mess ratio, plainly written (document 02, [10]), so that two pieces agree on every verdict. The text is classed once (classed);
// weird words and archaic case come from a word reader and a gap reader that call each other (readers), the other six from a count each over the
// characters fed (counting); scan asks for all eight at each checkpoint, from the first character on. Of the first engine it has the answer's type alone.
#![tactic(auto)]

ghost use Rattle.std.specs.Prelude.{◌≡◌};
ghost use Rattle.md_second.specs.Second.{second_score};

use base::{Cause, Refusal, refuse};
use classes::{bad_classes, bad_pairs};
use md_meaning::Score;
use ratio::finite::is_finite;
use scan::second_scan;

mod classed;
mod counting;
mod readers;
mod scan;

// Code points of the longest text that the second engine scores.
pub const SECOND_LONGEST: usize = 4096;

// Characters of such a text, the newline counted.
pub const ROOM: usize = SECOND_LONGEST + 1;

// The mess ratio of a text of at most SECOND_LONGEST code points. "Refusals: 1 above 4,096, then as scoring": 4, 5, 7, 6.
pub fn second_score(
    text: &[u32],
    threshold: f32,
    classes: &[u8],
    pairs: &[u8],
) -> Result<Score, Refusal>
    ensures { result ≡ second_score text.now threshold classes.now pairs.now }
{
    if text.len() > SECOND_LONGEST {
        return refuse(Cause::TooLong, 0);
    }
    if !is_finite(threshold) {
        return refuse(Cause::NotFinite, 0);
    }
    bad_classes(classes)?;
    bad_pairs(pairs)?;
    second_scan(text, threshold, classes, pairs)
}
