// The scan of a text, and mess_ratio (md.rs): how much of a text is noise.
#![tactic(auto)]

ghost use Rattle.base.specs.Causes.{refused_at};
ghost use Rattle.std.specs.Prelude.{◌≡◌};
ghost use Rattle.md_meaning.specs.MessRatio.{mess_ratio, mess_ratio_default, whole_score};

use base::limits::LONGEST_TEXT;
use base::{Cause, Refusal, refuse};
use md_meaning::Score;
use ratio::{EightShown, Ratios};
use scan::scan_text;
use tables::{check_lent, check_tables};

pub mod scan;
mod step;
pub mod tables;

// f32 0.15, which is used where no threshold is given: stricter than the 0.2 of 01 (02 [5]).
pub const DEFAULT_THRESHOLD: f32 = 0.15;

// The mess ratio of a text, with its eight parts; a scan that has reached the threshold at a checkpoint stops there.
pub fn mess_ratio(
    text: &[u32],
    threshold: f32,
    classes: &[u8],
    pairs: &[u8],
) -> Result<Score, Refusal>
    ensures { result ≡ mess_ratio text.now threshold classes.now pairs.now }
{
    if text.len() > LONGEST_TEXT {
        return refuse(Cause::TooLong, 0);
    }
    check_lent(threshold, classes, pairs)?;
    scan_text(text, Some(threshold), classes, pairs)
}

// The same at 01's default threshold.
pub fn mess_ratio_default(text: &[u32], classes: &[u8], pairs: &[u8]) -> Result<Score, Refusal>
    ensures { result ≡ mess_ratio_default text.now classes.now pairs.now }
{
    mess_ratio(text, DEFAULT_THRESHOLD, classes, pairs)
}

// The same without stopping, for the chooser.
pub fn whole_score(text: &[u32], classes: &[u8], pairs: &[u8]) -> Result<Score, Refusal>
    ensures { result ≡ whole_score text.now classes.now pairs.now }
{
    if text.len() > LONGEST_TEXT {
        return refuse(Cause::TooLong, 0);
    }
    check_tables(classes, pairs)?;
    scan_text(text, None, classes, pairs)
}
