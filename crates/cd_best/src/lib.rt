// What the matches that are kept come to: how many are sufficient, and the best score of each language (cd.rs: coherence_ratio's count, and
// filter_alt_coherence_matches).
#![tactic(auto)]

ghost use Rattle.std.specs.Prelude.{◌≡◌, ◌<◌, ◌≤◌};
ghost use Rattle.base.specs.Limits.{MOST_LANGUAGES};
ghost use Rattle.cd_best.specs.Kept.{is_sufficient};
ghost use Rattle.cd_best.specs.Inner.Standing as spec;

use base::limits::MOST_LANGUAGES;

// From this score up a match is sufficient: f32 0.8.
const SUFFICIENT: f32 = 0.8;

// So many sufficient matches end a layer.
pub const ENOUGH: u32 = 3;

// What the matches kept so far come to: how many were sufficient, and for each first record of a language whether a match of it was kept, and
// the best score of those.
#[derive(Clone, Copy)]
pub struct Standing {
    pub sufficient: u32,
    pub kept: [bool; MOST_LANGUAGES],
    pub best: [f32; MOST_LANGUAGES],
}

// Before the first match.
pub fn start() -> Standing
    ensures { result ≡ spec.start }
{
    Standing {
        sufficient: 0,
        kept: [false; MOST_LANGUAGES],
        best: [0.0; MOST_LANGUAGES],
    }
}

fn is_sufficient(score: f32) -> u32
    ensures { (result ≡ is_sufficient score) × (result ≤ 1) }
{
    if score >= SUFFICIENT {
        return 1;
    }
    0
}

fn better(was: bool, old: f32, new: f32) -> f32
    ensures { result ≡ spec.better was old new }
{
    if was {
        if new <= old {
            return old;
        }
    }
    new
}

impl Standing {
    // A match is kept: the first record of its language, and its score.
    pub fn keep(self, at: usize, score: f32) -> Standing
        requires { (at < MOST_LANGUAGES) × (self.sufficient ≤ spec.MOST_SUFFICIENT) }
        ensures { result ≡ spec.keep self at score }
    {
        let mut kept = self.kept;
        let mut best = self.best;
        let was = kept[at];
        let old = best[at];
        kept[at] = true;
        best[at] = better(was, old, score);
        Standing {
            sufficient: self.sufficient + is_sufficient(score),
            kept: kept,
            best: best,
        }
    }
}
