// Accents: how many of the letters are accented.
ghost use Rattle.std.specs.Prelude.{◌≡◌, ◌≤◌};
ghost use Rattle.base.specs.Inner.Limits.{LARGEST};
ghost use Rattle.md_counts.specs.TooManyAccentuated.{start, feed, counts};
ghost use Rattle.md_counts.specs.Inner.TooManyAccentuated.{Room, feed_run};
ghost use Rattle.ratio.specs.Inner.Fraction.{Small};
ghost use Rattle.ratio.specs.Fraction.{share_of};

use base::flags::{ACCENTUATED, ALPHABETIC};
use base::{is_set, pick};
use classes::Class;
use ratio::{Counts, Fraction, at_least, counts_of};

// Below so many letters the ratio is 0.
const FEWEST: u32 = 8;

// below this part of all the ratio is 0
const LEAST_PART: u32 = 7;

const LEAST_WHOLE: u32 = 20;

// The Rust's TooManyAccentuatedPlugin.
#[derive(Clone, Copy)]
pub struct TooManyAccentuated {
    // character_count
    pub characters: u32,
    // accentuated_count
    pub accentuated: u32,
}

impl TooManyAccentuated {
    pub fn start() -> TooManyAccentuated
        ensures { result ≡ start }
    {
        TooManyAccentuated {
            characters: 0,
            accentuated: 0,
        }
    }

    pub fn feed(self, c: Class) -> TooManyAccentuated
        requires { Room self }
        ensures { result ≡ feed self c }
    {
        self.feed_run(c.flags, 1)
    }

    // m characters with the same flags. Without a branch: where one hands the state on whole, the compiler packs its two counts into one word and unpacks them again.
    pub fn feed_run(self, f: u32, m: u32) -> TooManyAccentuated
        requires { Room self × (m ≤ LARGEST) }
        ensures { result ≡ feed_run self f m }
    {
        let letter = is_set(f, ALPHABETIC);
        TooManyAccentuated {
            characters: self.characters + pick(letter, m, 0),
            accentuated: self.accentuated + pick(letter & is_set(f, ACCENTUATED), m, 0),
        }
    }

    pub fn counts(self) -> Counts
        requires { Small (share_of (counts self)) }
        ensures { result ≡ counts self }
    {
        let share = Fraction {
            num: self.accentuated,
            den: self.characters,
        };
        counts_of(
            share,
            (FEWEST <= self.characters) & at_least(share, LEAST_PART, LEAST_WHOLE),
        )
    }
}
