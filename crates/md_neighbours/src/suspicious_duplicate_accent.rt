// Doubled accents: how many accented Latin letters follow an accented one, both upper-case or of one base.
ghost use Rattle.std.specs.Prelude.{◌≡◌, ◌<◌, ◌≤◌};
ghost use Rattle.base.specs.Inner.Limits.{LARGEST};
ghost use Rattle.md_neighbours.specs.SuspiciousDuplicateAccent.{start, feed, latin_letter, both, letter, counts};
ghost use Rattle.md_neighbours.specs.Inner.SuspiciousDuplicateAccent.{Room};
ghost use Rattle.md_neighbours.specs.Inner.SuspiciousDuplicateAccent.{plain, feed_run};
ghost use Rattle.ratio.specs.Inner.Fraction.{Small};
ghost use Rattle.ratio.specs.Fraction.{share_of};

use base::flags::{ACCENTUATED, ALPHABETIC, LATIN, UPPERCASE};
use base::{is_set, one};
use classes::Class;
use ratio::{Counts, Fraction, counts_of};

// what neighbours add is worth so many
const WORTH: u32 = 2;

// The Rust's SuspiciousDuplicateAccentPlugin.
#[derive(Clone, Copy)]
pub struct SuspiciousDuplicateAccent {
    // character_count
    pub characters: u32,
    // successive_count
    pub successive: u32,
    // last_latin_character: its flags, 0 where there is none, which is as good since only an ACCENTUATED one is looked at
    pub flags: u32,
    // last_latin_character: its letter without accent
    pub base: u32,
}

fn latin_letter(flags: u32) -> bool
    ensures { result ≡ latin_letter flags }
{
    is_set(flags, ALPHABETIC) & is_set(flags, LATIN)
}

impl SuspiciousDuplicateAccent {
    pub fn start() -> SuspiciousDuplicateAccent
        ensures { result ≡ start }
    {
        SuspiciousDuplicateAccent {
            characters: 0,
            successive: 0,
            flags: 0,
            base: 0,
        }
    }

    // Whether a letter and the last one both have the flag.
    fn both(self, flags: u32, bit: u32) -> bool
        requires { 0 < bit }
        ensures { result ≡ both self flags bit }
    {
        is_set(flags, bit) & is_set(self.flags, bit)
    }

    // A letter without accent: most are, and their way is kept short.
    fn plain(self, c: Class) -> SuspiciousDuplicateAccent
        requires { Room self }
        ensures { result ≡ plain self c }
    {
        let flags = c.flags;
        let base = c.base;
        SuspiciousDuplicateAccent {
            characters: self.characters + 1,
            successive: self.successive,
            flags,
            base,
        }
    }

    // A Latin letter.
    fn letter(self, c: Class) -> SuspiciousDuplicateAccent
        requires { Room self }
        ensures { result ≡ letter self c }
    {
        let flags = c.flags;
        let base = c.base;
        let accented = self.both(flags, ACCENTUATED);
        let upper = accented & self.both(flags, UPPERCASE);
        let again = accented & (base == self.base);
        SuspiciousDuplicateAccent {
            characters: self.characters + 1,
            successive: self.successive + one(upper) + one(again),
            flags,
            base,
        }
    }

    pub fn feed(self, c: Class) -> SuspiciousDuplicateAccent
        requires { Room self }
        ensures { result ≡ feed self c }
    {
        if !latin_letter(c.flags) {
            return self;
        }
        if is_set(c.flags, ACCENTUATED) {
            return self.letter(c);
        }
        self.plain(c)
    }

    // m characters with the same flags, no accented Latin letters, at least one; `base` is that of the last.
    pub fn feed_run(self, f: u32, base: u32, m: u32) -> SuspiciousDuplicateAccent
        requires { Room self × (m ≤ LARGEST) }
        ensures { result ≡ feed_run self f base m }
    {
        if latin_letter(f) {
            let successive = self.successive;
            return SuspiciousDuplicateAccent {
                characters: self.characters + m,
                successive,
                flags: f,
                base,
            };
        }
        self
    }

    pub fn counts(self) -> Counts
        requires { Small (share_of (counts self)) }
        ensures { result ≡ counts self }
    {
        let share = Fraction {
            num: WORTH * self.successive,
            den: self.characters,
        };
        counts_of(share, true)
    }
}
