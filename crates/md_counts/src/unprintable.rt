// Unprintable: how many of the characters are unprintable.
ghost use Rattle.std.specs.Prelude.{◌≡◌, ◌≤◌};
ghost use Rattle.base.specs.Inner.Limits.{LARGEST};
ghost use Rattle.md_counts.specs.Unprintable.{start, feed, counts};
ghost use Rattle.md_counts.specs.Inner.Unprintable.{Room, feed_run};
ghost use Rattle.ratio.specs.Inner.Fraction.{Small};
ghost use Rattle.ratio.specs.Fraction.{share_of};

use base::flags::UNPRINTABLE;
use base::{is_set, one};
use classes::Class;
use ratio::{Counts, Fraction, counts_of};

// an unprintable character is worth so many
const WORTH: u32 = 8;

// The Rust's UnprintablePlugin.
#[derive(Clone, Copy)]
pub struct Unprintable {
    // character_count
    pub characters: u32,
    // unprintable_count
    pub unprintable: u32,
}

impl Unprintable {
    pub fn start() -> Unprintable
        ensures { result ≡ start }
    {
        Unprintable {
            characters: 0,
            unprintable: 0,
        }
    }

    pub fn feed(self, c: Class) -> Unprintable
        requires { Room self }
        ensures { result ≡ feed self c }
    {
        Unprintable {
            characters: self.characters + 1,
            unprintable: self.unprintable + one(is_set(c.flags, UNPRINTABLE)),
        }
    }

    // m printable characters.
    pub fn feed_run(self, m: u32) -> Unprintable
        requires { Room self × (m ≤ LARGEST) }
        ensures { result ≡ feed_run self m }
    {
        Unprintable {
            characters: self.characters + m,
            unprintable: self.unprintable,
        }
    }

    pub fn counts(self) -> Counts
        requires { Small (share_of (counts self)) }
        ensures { result ≡ counts self }
    {
        let share = Fraction {
            num: WORTH * self.unprintable,
            den: self.characters,
        };
        counts_of(share, true)
    }
}
