// CJK stops: how many stops are rendered wrongly, for the CJK characters.
ghost use Rattle.std.specs.Prelude.{◌≡◌, ◌≤◌};
ghost use Rattle.base.specs.Inner.Limits.{LARGEST};
ghost use Rattle.md_counts.specs.CjkInvalidStop.{start, feed, wrong_stop, counts};
ghost use Rattle.md_counts.specs.Inner.CjkInvalidStop.{Room, feed_run};

use base::flags::CJK;
use base::{is_set, one, pick};
use classes::Class;
use ratio::{Counts, Fraction, counts_of};

// The two characters that stand where a GB encoding renders the stop wrongly.
pub const STOP_UP: u32 = 0x4E04;

pub const STOP_DOWN: u32 = 0x4E05;

// Below so many CJK characters the ratio is 0.
const FEWEST: u32 = 16;

// The Rust's CjkInvalidStopPlugin.
#[derive(Clone, Copy)]
pub struct CjkInvalidStop {
    // wrong_stop_count
    pub wrong: u32,
    // cjk_character_count
    pub cjk: u32,
}

pub fn wrong_stop(point: u32) -> bool
    ensures { result ≡ wrong_stop point }
{
    (point == STOP_UP) | (point == STOP_DOWN)
}

impl CjkInvalidStop {
    pub fn start() -> CjkInvalidStop
        ensures { result ≡ start }
    {
        CjkInvalidStop { wrong: 0, cjk: 0 }
    }

    pub fn feed(self, c: Class) -> CjkInvalidStop
        requires { Room self }
        ensures { result ≡ feed self c }
    {
        let wrong = wrong_stop(c.point);
        CjkInvalidStop {
            wrong: self.wrong + one(wrong),
            cjk: self.cjk + one(!wrong & is_set(c.flags, CJK)),
        }
    }

    // m characters with the same flags, none of them a wrong stop.
    pub fn feed_run(self, f: u32, m: u32) -> CjkInvalidStop
        requires { Room self × (m ≤ LARGEST) }
        ensures { result ≡ feed_run self f m }
    {
        CjkInvalidStop {
            wrong: self.wrong,
            cjk: self.cjk + pick(is_set(f, CJK), m, 0),
        }
    }

    pub fn counts(self) -> Counts
        ensures { result ≡ counts self }
    {
        counts_of(
            Fraction {
                num: self.wrong,
                den: self.cjk,
            },
            FEWEST <= self.cjk,
        )
    }
}
