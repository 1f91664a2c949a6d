// Scoring of UTF-8 bytes: reading and mess_ratio in one call, with no lent output.
#![tactic(auto)]

ghost use Rattle.std.specs.Prelude.{◌≡◌};
ghost use Rattle.md_utf8_meaning.specs.ScoreUtf8.{mess_ratio_utf8, mess_ratio_utf8_default};

use base::Refusal;
use classes::HINTS;
use md::DEFAULT_THRESHOLD;
use md::tables::check_lent;
use md_meaning::Score;
use rooms::score_read;

pub mod rooms;

// The mess ratio of the text that the bytes are; refused as reading refuses, and then as scoring does.
pub fn mess_ratio_utf8(
    bytes: &[u8],
    threshold: f32,
    classes: &[u8],
    pairs: &[u8],
) -> Result<Score, Refusal>
    ensures { result ≡ mess_ratio_utf8 bytes.now threshold classes.now pairs.now }
{
    let count = utf8::count_utf8(bytes)?;
    check_lent(threshold, classes, pairs)?;
    let table = class_builtin::table();
    let mut hints = [0; HINTS];
    score_read(
        bytes,
        count as usize,
        threshold,
        &mut hints,
        &table,
        classes,
        pairs,
    )
}

// The same at 01's default threshold.
pub fn mess_ratio_utf8_default(bytes: &[u8], classes: &[u8], pairs: &[u8]) -> Result<Score, Refusal>
    ensures { result ≡ mess_ratio_utf8_default bytes.now classes.now pairs.now }
{
    mess_ratio_utf8(bytes, DEFAULT_THRESHOLD, classes, pairs)
}
