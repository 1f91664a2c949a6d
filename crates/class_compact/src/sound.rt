// The quick test of the letters, which finds nothing in a good table: none is (0, 0) or stands twice. That they are used in their order the expansion tells.
ghost use Rattle.std.specs.Prelude.{◌≡◌, ◌≤◌, ◌<◌};
ghost use Rattle.base.specs.Limits.{MOST_CLASSES};
ghost use Rattle.class_compact_meaning.specs.Form.{letters_in};
ghost use Rattle.class_compact_meaning.specs.Inner.Form.{Sized};
ghost use Rattle.class_compact_meaning.specs.Inner.Links.{Linked};
ghost use Rattle.class_compact_meaning.specs.Inner.Sound as inner;

use crate::LETTERS_RECORD;
use crate::form::{base_at, lower_at};
use crate::links::{LINKS, slot_for};

// Whether the letters k are not (0, 0) and no repeat of any before; letters of which that holds are noted.
fn is_own(letters: &[u8], k: usize, links: &mut [u16; LINKS]) -> bool
    requires { (k < letters_in letters.now) × (k < MOST_CLASSES) × Linked letters.now k links.old }
    ensures { inner.Own letters.now k result links.new }
{
    let base = base_at(letters, k);
    let lower = lower_at(letters, k);
    if (base == 0) & (lower == 0) {
        return false;
    }
    let slot = slot_for(letters, k, base, lower, links);
    if links[slot] != 0 {
        return false;
    }
    links[slot] = (k + 1) as u16;
    true
}

// Whether none of the letters is (0, 0) or a repeat.
fn all_own(letters: &[u8]) -> bool
    requires { letters_in letters.now ≤ MOST_CLASSES }
    ensures { result ≡ inner.all_own letters.now }
{
    let mut links = [0u16; LINKS];
    let m = letters.len() / LETTERS_RECORD;
    for k in 0..m {
        if !is_own(letters, k, &mut links) {
            return false;
        }
    }
    true
}

// Whether all letters are good. Letters that are not used in order are not looked at further: there may be any number of them.
pub fn is_sound(records: &[u8], letters: &[u8], ordered: bool) -> bool
    requires { Sized records.now × (ordered ≡ inner.in_first_use records.now (letters_in letters.now)) }
    ensures { result ≡ inner.sound records.now letters.now }
{
    if letters.len() % LETTERS_RECORD != 0 {
        return false;
    }
    if !ordered {
        return false;
    }
    all_own(letters)
}
