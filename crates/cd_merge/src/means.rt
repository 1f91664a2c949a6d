// Where a language first appears, and the mean of its scores.
ghost use Rattle.std.specs.Prelude.{◌≡◌, ◌<◌};
ghost use Rattle.cd_merge_meaning.specs.Entries.{entries};
ghost use Rattle.cd_merge_meaning.specs.Merge.{mean, is_first};
ghost use Rattle.cd_merge_meaning.specs.Inner.Good.{Good};

use crate::check::{entries, language_at, score_of};

// Whether the entry i is the first of its language.
pub fn is_first(list: &[u32], i: usize) -> bool
    requires { i < entries list.now }
    ensures { result ≡ is_first list.now i }
{
    let language = language_at(list, i);
    for k in 0..i {
        if language_at(list, k) == language {
            return false;
        }
    }
    true
}

// The sum of a language's scores in the given order, divided by how many there are.
pub fn mean_of(list: &[u32], language: u32) -> f32
    requires { Good list.now }
    ensures { result ≡ mean list.now language }
{
    let n = entries(list);
    let mut sum = 0.0;
    let mut count = 0u32;
    for i in 0..n {
        if language_at(list, i) == language {
            sum = sum + score_of(list, i);
            count += 1;
        }
    }
    sum / count as f32
}
