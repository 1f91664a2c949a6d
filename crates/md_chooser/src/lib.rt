// The chooser (document 01, "The scan"): the more readable of two lent texts, and the verdict on them.
#![tactic(auto)]

ghost use Rattle.std.specs.Prelude.{◌≡◌, length};
ghost use Rattle.md_chooser_meaning.specs.Inner.Cut.{CutLength};
ghost use Rattle.md_chooser_meaning.specs.Inner.Part.{PartLength};
ghost use Rattle.md_chooser_meaning.specs.Choose.{chosen, taken_from, verdict_of};
ghost use Rattle.md_chooser_meaning.specs.Choose.{judged as judged_by};

use base::Refusal;
use base::limits::NEWLINE;
use md_chooser_meaning::{Part, Side, Unjudged};
use md_meaning::Score;

// The more readable of two texts, each scored whole: the part before its trailing newlines. An empty part of the first where either is
// refused; `verdict` says which and why.
pub fn choose<'a>(first: &'a [u32], second: &'a [u32], classes: &[u8], pairs: &[u8]) -> &'a [u32]
    ensures result_value { result.now ≡ chosen first.now second.now classes.now pairs.now }
    ensures ref_ptr_value { result.ref_ptr ≡ taken_from (verdict_of first.now second.now classes.now pairs.now) first.entry.ref_ptr second.entry.ref_ptr }
{
    let judged = verdict(first, second, classes, pairs);
    let n = part_length(judged, first, second);
    match judged {
        Ok(Side::First) => &first[..n],
        Ok(Side::Second) => &second[..n],
        Err(unjudged) => match unjudged.side {
            Side::First => &first[..0],
            Side::Second => &first[..0],
        },
    }
}

// The same, told in numbers.
pub fn choose_part(first: &[u32], second: &[u32], classes: &[u8], pairs: &[u8]) -> Part
    ensures { (result.judged ≡ verdict_of first.now second.now classes.now pairs.now) × (result.length ≡ length (chosen first.now second.now classes.now pairs.now)) }
{
    let told = verdict(first, second, classes, pairs);
    let n = part_length(told, first, second);
    Part {
        judged: told,
        length: n as u32,
    }
}

// Which of two texts is the more readable, or which was refused: the first is checked first.
pub fn verdict(
    first: &[u32],
    second: &[u32],
    classes: &[u8],
    pairs: &[u8],
) -> Result<Side, Unjudged>
    ensures { result ≡ verdict_of first.now second.now classes.now pairs.now }
{
    judge(
        md::whole_score(first, classes, pairs),
        md::whole_score(second, classes, pairs),
    )
}

// The verdict on two answers: the lower sum is the more readable, and equal sums take the first.
fn judge(first: Result<Score, Refusal>, second: Result<Score, Refusal>) -> Result<Side, Unjudged>
    ensures { result ≡ judged_by first second }
{
    match first {
        Err(why) => Err(Unjudged {
            side: Side::First,
            why,
        }),
        Ok(a) => match second {
            Err(why) => Err(Unjudged {
                side: Side::Second,
                why,
            }),
            Ok(b) => if b.sum < a.sum {
                Ok(Side::Second)
            } else {
                Ok(Side::First)
            },
        },
    }
}

// How many code points of the text that the verdict names are handed back: none where one was refused.
fn part_length(judged: Result<Side, Unjudged>, first: &[u32], second: &[u32]) -> usize
    ensures { PartLength judged first.now second.now result }
{
    match judged {
        Ok(Side::First) => cut_length(first),
        Ok(Side::Second) => cut_length(second),
        Err(_) => 0,
    }
}

// How many code points stand before the trailing newlines.
fn cut_length(text: &[u32]) -> usize
    ensures { CutLength text.now result }
{
    for k in (0..text.len()).rev() {
        if text[k] != NEWLINE {
            return k + 1;
        }
    }
    0
}
