// The bytes as lines.
ghost use Rattle.std.specs.Prelude.{◌≡◌, ◌+◌, ◌≤◌, length};
ghost use Rattle.md_lines_meaning.specs.Lines.{lines_of};
ghost use Rattle.md_lines_meaning.specs.Inner.Lines.{BLOCK, Passing, LineEnd, ends_of, no_end_on};
ghost use Rattle.md_lines_meaning.specs.Burst as bursts;

// The byte at which a line ends.
const LINE_END: u8 = 0x0A;

// Bytes whose ends are counted in a byte.
const BLOCK: usize = 128;

// Whether none of the eight bytes from i on ends a line. Plain tests joined by &, of which the compiler makes one load and one test.
fn eight_in_line(b: &[u8], i: usize) -> bool
    requires { i + 8 ≤ length b.now }
    ensures { result ≡ no_end_on b.now i 7 }
{
    (b[i] != LINE_END)
        & (b[i + 1] != LINE_END)
        & (b[i + 2] != LINE_END)
        & (b[i + 3] != LINE_END)
        & (b[i + 4] != LINE_END)
        & (b[i + 5] != LINE_END)
        & (b[i + 6] != LINE_END)
        & (b[i + 7] != LINE_END)
}

// Past whole eights of bytes of the line that begins at `from`.
fn past_line_eights(b: &[u8], from: usize) -> usize
    requires { from ≤ length b.now }
    ensures { Passing b.now from result }
{
    let eights = (b.len() - from) / 8;
    for k in 0..eights {
        let j = from + 8 * k;
        if !eight_in_line(b, j) {
            return j;
        }
    }
    from + 8 * eights
}

// Where the line that begins at `from` ends: at the first 0A, or at the end of the bytes.
pub fn end_of_line(bytes: &[u8], from: usize) -> usize
    requires { from ≤ length bytes.now }
    ensures { LineEnd bytes.now from result }
{
    for j in past_line_eights(bytes, from)..bytes.len() {
        if bytes[j] == LINE_END {
            return j;
        }
    }
    bytes.len()
}

// How many of so few bytes end a line. A plain sum with no way out of the loop, in a byte, so that the compiler adds sixteen at a time.
fn ends_in_block(bytes: &[u8]) -> u8
    requires { length bytes.now ≤ BLOCK }
    ensures { result ≡ ends_of bytes.now }
{
    let mut n = 0;
    for b in bytes {
        n += u8::from(*b == LINE_END);
    }
    n
}

// How many bytes end a line: block after block, and what is left.
fn count_ends(bytes: &[u8]) -> u32
    requires { length bytes.now ≤ bursts.LONGEST_BURST }
    ensures { result ≡ ends_of bytes.now }
{
    let mut n = 0;
    for block in bytes.chunks(BLOCK) {
        n += u32::from(ends_in_block(block));
    }
    n
}

// The number of lines: the ends, and one more where the last byte is none.
pub fn count_lines(bytes: &[u8]) -> usize
    requires { length bytes.now ≤ bursts.LONGEST_BURST }
    ensures { result ≡ length (lines_of bytes.now) }
{
    let ends = count_ends(bytes) as usize;
    match bytes.last() {
        None => 0,
        Some(&LINE_END) => ends,
        Some(_) => ends + 1,
    }
}
