// What comes before the refusal of a compact table: the first of the causes that are not the table's. Asked for only where the table is refused.
ghost use Rattle.std.specs.Prelude.{◌≡◌, [], ◌∷◌};
ghost use Rattle.base.specs.Causes.{first_of};
ghost use Rattle.utf8_meaning.specs.Text.{text_of};
ghost use Rattle.utf8_meaning.specs.Answer as reading;
ghost use Rattle.ratio.specs.Finite.{not_finite};
ghost use Rattle.md_meaning.specs.MessRatio.{too_long};
ghost use Rattle.md_lines_meaning.specs.Burst as bursts;

use base::limits::LONGEST_TEXT;
use base::{Cause, Refusal, refuse};
use md_lines::LONGEST_BURST;
use ratio::finite::is_finite;

// 4: a threshold that is not finite.
fn first_of_threshold(threshold: f32) -> Result<(), Refusal>
    ensures { result ≡ not_finite threshold }
{
    if !is_finite(threshold) {
        return refuse(Cause::NotFinite, 0);
    }
    Ok(())
}

// 1 and 4: a text that is too long, and the threshold.
pub fn first_of_text(text: &[u32], threshold: f32) -> Result<(), Refusal>
    ensures { result ≡ first_of (too_long text.now ∷ (not_finite threshold ∷ [])) }
{
    if text.len() > LONGEST_TEXT {
        return refuse(Cause::TooLong, 0);
    }
    first_of_threshold(threshold)
}

// What the reader refuses, and the threshold.
pub fn first_of_bytes(bytes: &[u8], threshold: f32) -> Result<(), Refusal>
    ensures { result ≡ first_of (reading.many_bytes bytes.now ∷ (reading.ill_formed bytes.now ∷ (reading.many_points bytes.now ∷ (too_long (text_of bytes.now) ∷ (not_finite threshold ∷ []))))) }
{
    utf8::count_utf8(bytes)?;
    first_of_threshold(threshold)
}

// 1 and 4 of a burst: one that is too long, and the threshold.
pub fn first_of_burst(bytes: &[u8], threshold: f32) -> Result<(), Refusal>
    ensures { result ≡ first_of (bursts.many_bytes bytes.now ∷ (not_finite threshold ∷ [])) }
{
    if LONGEST_BURST < bytes.len() {
        return refuse(Cause::TooLong, 0);
    }
    first_of_threshold(threshold)
}
