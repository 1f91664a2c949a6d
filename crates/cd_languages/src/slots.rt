// The letters of a language record, its used slots, as a list.
ghost use Rattle.std.specs.Prelude.{true, ◌≡◌, ◌<◌, ◌≤◌, length};
ghost use Rattle.base.specs.Limits.{LANGUAGE_LETTERS};
ghost use Rattle.base.specs.Put.{put};
ghost use Rattle.cd_languages.specs.Languages.{languages, letter_count};
ghost use Rattle.cd_languages.specs.Inner.Languages.{good_languages};
ghost use Rattle.cd_languages.specs.Letters.{letters_of};

use crate::{count_at, letter_at};

// Puts the letters of the record i into the first places of out; the rest of out stays. Says how many they are.
pub fn read_letters(t: &[u8], i: usize, out: &mut [u32]) -> usize
    requires { (good_languages t.now ≡ true) × (i < languages t.now) × (LANGUAGE_LETTERS ≤ length out.old) }
    ensures { (result ≡ letter_count t.now i) × (out.new ≡ put out.old 0 (letters_of t.now i)) }
{
    let n = count_at(t, i);
    for k in 0..n {
        out[k] = letter_at(t, i, k);
    }
    n
}
