// Runs of ASCII bytes, passed eight at a time, and their copy as code points.
ghost use Rattle.std.specs.Prelude.{◌≡◌, ◌+◌, ◌≤◌, length};
ghost use Rattle.base.specs.Put.{put};
ghost use Rattle.utf8_meaning.specs.Inner.Ascii.{AsciiRun, ascii_on};

use base::wide;

// Whether the eight bytes from i on are ASCII. Plain tests joined by &, of which the compiler makes one load and one test.
fn eight_ascii(b: &[u8], i: usize) -> bool
    requires { i + 8 ≤ length b.now }
    ensures { result ≡ ascii_on b.now i 7 }
{
    (b[i] < 0x80)
        & (b[i + 1] < 0x80)
        & (b[i + 2] < 0x80)
        & (b[i + 3] < 0x80)
        & (b[i + 4] < 0x80)
        & (b[i + 5] < 0x80)
        & (b[i + 6] < 0x80)
        & (b[i + 7] < 0x80)
}

// Past whole eights of ASCII bytes from i on.
fn past_eights(b: &[u8], i: usize) -> usize
    requires { i ≤ length b.now }
    ensures { AsciiRun b.now i result }
{
    let eights = (b.len() - i) / 8;
    for k in 0..eights {
        if !eight_ascii(b, i + 8 * k) {
            return i + 8 * k;
        }
    }
    i + 8 * eights
}

// Past single ASCII bytes from i on.
fn past_ones(b: &[u8], i: usize) -> usize
    requires { i ≤ length b.now }
    ensures { AsciiRun b.now i result }
{
    for j in i..b.len() {
        if 0x80 <= b[j] {
            return j;
        }
    }
    b.len()
}

// Past the ASCII bytes from i on. The first byte is tested by itself: in most scripts a space stands alone.
pub fn past_ascii(b: &[u8], i: usize) -> usize
    requires { i ≤ length b.now }
    ensures { AsciiRun b.now i result }
{
    if b.len() <= i {
        return i;
    }
    if 0x80 <= b[i] {
        return i;
    }
    past_ones(b, past_eights(b, i + 1))
}

// ASCII bytes as code points, into out from a place on.
pub fn widen(ascii: &[u8], out: &mut [u32], at: usize)
    requires { at + length ascii.now ≤ length out.old }
    ensures { out.new ≡ put out.old at ascii.now }
{
    for (k, x) in ascii.iter().enumerate() {
        out[at + k] = wide(*x);
    }
}
