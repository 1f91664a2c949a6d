// The ranking of the languages of a text (cd.rs: coherence_ratio).
#![tactic(auto)]

ghost use Rattle.std.specs.Prelude.{◌≡◌, length};
ghost use Rattle.cd_ranking.specs.Ranking.{by_value};
ghost use Rattle.cd_meaning.specs.Causes.{causes, causes_default};
ghost use Rattle.cd_meaning.specs.Inner.Causes.{Free};
ghost use Rattle.cd_meaning.specs.Coherence as spec;

use base::Refusal;
use base::limits::WORK_PER_POINT;
use causes::first_cause;
use cd_ranking::Ranking;
use reading::read_layers;

mod causes;
mod reading;

// f32 0.1, which 01 uses where no threshold is given.
pub const DEFAULT_THRESHOLD: f32 = 0.1;

// The ranking of a text that is not refused. Only here is anything written to the work area.
fn rank_text(
    text: &[u32],
    threshold: f32,
    small: u32,
    classes: &[u8],
    pairs: &[u8],
    languages: &[u8],
    included: &[u32],
    work: &mut [u32],
) -> Ranking
    requires { Free text.now classes.now pairs.now languages.now included.now (length work.old) }
    ensures { (result ≡ by_value (spec.matches_of text.now threshold small classes.now pairs.now languages.now included.now)) × (work.new ≡ spec.cleared text.now work.old) }
{
    let slots = cd_taken::slots(text);
    cd_taken::fill_area(text, slots, classes, work);
    let count = cd_layers::alpha_unicode_split(work, slots, pairs);
    let standing = read_layers(
        work, slots, count, threshold, small, classes, languages, included,
    );
    cd_taken::clear(work, WORK_PER_POINT * text.len());
    cd_ranking::ranking_of(standing, languages)
}

// The languages of a text and their scores, the best first: by value, for a caller who has room for so many matches.
pub fn coherence_ratio(
    text: &[u32],
    threshold: f32,
    small: u32,
    classes: &[u8],
    pairs: &[u8],
    languages: &[u8],
    included: &[u32],
    work: &mut [u32],
    room: usize,
) -> Result<Ranking, Refusal>
    ensures value { result ≡ spec.coherence_ratio text.now threshold small classes.now pairs.now languages.now included.now (length work.old) room }
    ensures work_after { work.new ≡ spec.work_after (causes text.now threshold classes.now pairs.now languages.now included.now (length work.old) room) text.now work.old }
{
    first_cause(
        text,
        threshold,
        classes,
        pairs,
        languages,
        included,
        work.len(),
        room,
    )?;
    Ok(rank_text(
        text, threshold, small, classes, pairs, languages, included, work,
    ))
}

// The same at 01's default threshold.
pub fn coherence_ratio_default(
    text: &[u32],
    small: u32,
    classes: &[u8],
    pairs: &[u8],
    languages: &[u8],
    included: &[u32],
    work: &mut [u32],
    room: usize,
) -> Result<Ranking, Refusal>
    ensures value { result ≡ spec.coherence_ratio_default text.now small classes.now pairs.now languages.now included.now (length work.old) room }
    ensures work_after { work.new ≡ spec.work_after (causes_default text.now classes.now pairs.now languages.now included.now (length work.old) room) text.now work.old }
{
    coherence_ratio(
        text,
        DEFAULT_THRESHOLD,
        small,
        classes,
        pairs,
        languages,
        included,
        work,
        room,
    )
}
