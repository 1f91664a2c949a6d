// Ranges: how many printable characters follow one whose range does not go with theirs.
ghost use Rattle.std.specs.Prelude.{◌≡◌, ◌<◌, ◌≤◌};
ghost use Rattle.base.specs.Inner.Limits.{LARGEST};
ghost use Rattle.md_neighbours.specs.SuspiciousRange.{start, feed, forgets, forgotten, counts};
ghost use Rattle.md_neighbours.specs.Inner.SuspiciousRange.{Room, feed_run};
ghost use Rattle.ratio.specs.Inner.Fraction.{Small};
ghost use Rattle.ratio.specs.Fraction.{share_of};

use base::flags::{COMMON_SAFE, PUNCTUATION, UNPRINTABLE, WHITESPACE};
use base::{is_set, one, pick};
use classes::Class;
use ratio::{Counts, Fraction, at_least, counts_of};

// a suspicious pair is worth so many
const WORTH: u32 = 2;

// below this part of all the ratio is 0
const LEAST_PART: u32 = 1;

const LEAST_WHOLE: u32 = 10;

// The Rust's SuspiciousRangePlugin.
#[derive(Clone, Copy)]
pub struct SuspiciousRange {
    // character_count
    pub characters: u32,
    // suspicious_successive_range_count
    pub suspicious: u32,
    // last_printable_char: whether there is one
    pub seen: bool,
    // last_printable_char: its unicode_range, 0 where there is none
    pub last: u32,
}

fn forgets(flags: u32) -> bool
    ensures { result ≡ forgets flags }
{
    is_set(flags, WHITESPACE) | is_set(flags, PUNCTUATION) | is_set(flags, COMMON_SAFE)
}

impl SuspiciousRange {
    pub fn start() -> SuspiciousRange
        ensures { result ≡ start }
    {
        SuspiciousRange {
            characters: 0,
            suspicious: 0,
            seen: false,
            last: 0,
        }
    }

    // `suspicious` is the pair table's bit for the last range and the character's. It is not read where there is no last character.
    pub fn feed(self, c: Class, suspicious: bool) -> SuspiciousRange
        requires { Room self }
        ensures { result ≡ feed self c suspicious }
    {
        if is_set(c.flags, UNPRINTABLE) {
            // field by field: copied whole, three bytes that mean nothing go with it, and the compiler carries them through the scan
            return SuspiciousRange {
                characters: self.characters,
                suspicious: self.suspicious,
                seen: self.seen,
                last: self.last,
            };
        }
        if forgets(c.flags) {
            return self.forget();
        }
        let range = c.range;
        SuspiciousRange {
            characters: self.characters + 1,
            suspicious: self.suspicious + one(self.seen & suspicious),
            seen: true,
            last: range,
        }
    }

    // m printable characters of one range that do not forget, at least one. `suspicious` is as for `feed`, of the first of them; `again` is the pair
    // table's bit for their range and itself.
    pub fn feed_run(self, range: u32, m: u32, suspicious: bool, again: bool) -> SuspiciousRange
        requires { Room self × (0 < m) × (m ≤ LARGEST) }
        ensures { result ≡ feed_run self range m suspicious again }
    {
        SuspiciousRange {
            characters: self.characters + m,
            suspicious: self.suspicious + one(self.seen & suspicious) + pick(again, m - 1, 0),
            seen: true,
            last: range,
        }
    }

    // A printable character that forgets the last one.
    fn forget(self) -> SuspiciousRange
        requires { Room self }
        ensures { result ≡ forgotten self }
    {
        SuspiciousRange {
            characters: self.characters + 1,
            suspicious: self.suspicious,
            seen: false,
            last: 0, // no range
        }
    }

    pub fn counts(self) -> Counts
        requires { Small (share_of (counts self)) }
        ensures { result ≡ counts self }
    {
        let share = Fraction {
            num: WORTH * self.suspicious,
            den: self.characters,
        };
        counts_of(share, at_least(share, LEAST_PART, LEAST_WHOLE))
    }
}
