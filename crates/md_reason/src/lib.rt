// Why a line is noise (02 [8]): the first detector with the greatest ratio, and the indexes of the characters at which its numerator grew.
#![tactic(auto)]

ghost use Rattle.std.specs.Prelude.{◌≡◌, ◌≤◌, length};
ghost use Rattle.base.specs.Causes.{refused_at};
ghost use Rattle.base.specs.Limits.{LONGEST_TEXT};
ghost use Rattle.classes.specs.Inner.Tables.{Tables};
ghost use Rattle.ratio.specs.Eight.{DETECTORS};
ghost use Rattle.md_meaning.specs.Text.{total};
ghost use Rattle.md_reason_meaning.specs.Reason.{reason_answer, reason_into};
ghost use Rattle.md_reason_meaning.specs.Inner.Reason.{listed_answer, listed_into};

use base::{Cause, Refusal, refuse};
use greatest::{detector_at, detector_of};
use growing::{count_growths, put_growths};
use md::mess_ratio;
use md_reason_meaning::Why;

mod greatest;
mod growing;
pub mod utf8_bytes;

// The indexes of a detector among the characters fed, into the first places of out. They are counted first, so that nothing is written where they have no room.
fn list_growths(
    text: &[u32],
    fed: u32,
    d: u32,
    classes: &[u8],
    pairs: &[u8],
    out: &mut [u32],
) -> Result<Why, Refusal>
    requires { Tables classes.now pairs.now × (length text.now ≤ LONGEST_TEXT) × (fed ≤ total text.now) × (d ≤ DETECTORS) }
    ensures value { result ≡ listed_answer classes.now pairs.now text.now d fed (length out.old) }
    ensures out_after { out.new ≡ listed_into classes.now pairs.now text.now d fed out.old }
{
    let table = class_builtin::table();
    let count = count_growths(text, fed as usize, d, &table, classes, pairs);
    if out.len() < count as usize {
        return refuse(Cause::NoRoom, 0);
    }
    put_growths(text, fed as usize, d, &table, classes, pairs, out);
    Ok(Why {
        detector: detector_at(d),
        count,
    })
}

// Which detector has the greatest ratio of the text's score, and in the first places of out where its numerator grew; the rest of out stays, and all
// of it in a refusal.
pub fn reason(
    text: &[u32],
    threshold: f32,
    classes: &[u8],
    pairs: &[u8],
    out: &mut [u32],
) -> Result<Why, Refusal>
    ensures value { result ≡ reason_answer text.now threshold classes.now pairs.now (length out.old) }
    ensures out_after { out.new ≡ reason_into text.now threshold classes.now pairs.now out.old }
{
    let s = mess_ratio(text, threshold, classes, pairs)?;
    list_growths(text, s.fed, detector_of(s.ratios), classes, pairs, out)
}
