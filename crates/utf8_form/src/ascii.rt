// Whole eights of ASCII code points, and their copy as bytes. The reader passes the same over bytes.
ghost use Rattle.std.specs.Prelude.{◌≡◌, ◌+◌, ◌≤◌, length};
ghost use Rattle.base.specs.Put.{put};
ghost use Rattle.utf8_meaning.specs.Inner.Ascii.{AsciiRun, ascii_on};
ghost use Rattle.utf8_form.specs.Inner.Below.{AllAscii};

use crate::sequence::as_byte;

// Whether the eight code points from i on are ASCII. Plain tests joined by &, of which the compiler makes few.
fn eight_ascii(text: &[u32], i: usize) -> bool
    requires { i + 8 ≤ length text.now }
    ensures { result ≡ ascii_on text.now i 7 }
{
    (text[i] < 0x80)
        & (text[i + 1] < 0x80)
        & (text[i + 2] < 0x80)
        & (text[i + 3] < 0x80)
        & (text[i + 4] < 0x80)
        & (text[i + 5] < 0x80)
        & (text[i + 6] < 0x80)
        & (text[i + 7] < 0x80)
}

// Past whole eights of ASCII code points from i on.
pub fn past_eights(text: &[u32], i: usize) -> usize
    requires { i ≤ length text.now }
    ensures { AsciiRun text.now i result }
{
    let eights = (text.len() - i) / 8;
    for k in 0..eights {
        if !eight_ascii(text, i + 8 * k) {
            return i + 8 * k;
        }
    }
    i + 8 * eights
}

// ASCII code points as bytes, into out from a place on.
pub fn narrow(ascii: &[u32], out: &mut [u8], at: usize)
    requires { (at + length ascii.now ≤ length out.old) × AllAscii ascii.now }
    ensures { out.new ≡ put out.old at ascii.now }
{
    for (k, c) in ascii.iter().enumerate() {
        out[at + k] = as_byte(*c);
    }
}
