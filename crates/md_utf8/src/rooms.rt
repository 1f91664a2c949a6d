// The score of bytes that were counted, with tables that were checked: the text goes through a room that is no larger than it needs.
ghost use Rattle.std.specs.Prelude.{◌≡◌, ◌≤◌, length};
ghost use Rattle.base.specs.Limits.{LONGEST_TEXT};
ghost use Rattle.utf8_meaning.specs.Text.{text_of};
ghost use Rattle.utf8_meaning.specs.Inner.Readable.{Readable};
ghost use Rattle.md_meaning.specs.MessRatio.{mess_ratio};
ghost use Rattle.md_utf8.specs.Inner.Lendable.{Lendable};
ghost use Rattle.md_utf8.specs.Inner.Rooms as rooms;
ghost use Rattle.md_utf8_meaning.specs.ScoreUtf8.{mess_ratio_utf8};

use base::Refusal;
use base::limits::LONGEST_TEXT;
use class_builtin::Table;
use classes::HINTS;
use md::scan::scan_text_in;
use md_meaning::Score;
use utf8_taking::take_utf8;

// Code points of a text that goes through the small room, which costs little to clear: most console lines.
pub const SHORT: usize = 256;

// Code points of a text that goes through the middle room; a longer one goes through one of LONGEST_TEXT.
const MIDDLE: usize = 4096;

// The score of n code points. The built-in table and the hints of the lookup are lent, so that a caller with many lines makes them once.
pub fn score_read(
    bytes: &[u8],
    n: usize,
    threshold: f32,
    hints: &mut [usize; HINTS],
    table: &Table,
    classes: &[u8],
    pairs: &[u8],
) -> Result<Score, Refusal>
    requires { Readable bytes.now n × Lendable threshold table.now classes.now pairs.now }
    ensures { result ≡ mess_ratio (text_of bytes.now) threshold classes.now pairs.now }
{
    if n <= SHORT {
        return through_short(bytes, n, threshold, hints, table, classes, pairs);
    }
    score_larger(bytes, n, threshold, hints, table, classes, pairs)
}

// The same for a text that is too long for the small room. It stands apart, so that the frame of a short text's call is small too.
pub fn score_larger(
    bytes: &[u8],
    n: usize,
    threshold: f32,
    hints: &mut [usize; HINTS],
    table: &Table,
    classes: &[u8],
    pairs: &[u8],
) -> Result<Score, Refusal>
    requires { Readable bytes.now n × Lendable threshold table.now classes.now pairs.now }
    ensures { result ≡ mess_ratio (text_of bytes.now) threshold classes.now pairs.now }
{
    if n <= MIDDLE {
        return through_middle(bytes, n, threshold, hints, table, classes, pairs);
    }
    through_room::<LONGEST_TEXT>(bytes, n, threshold, hints, table, classes, pairs)
}

// The same through the small room. What it asks of n holds SHORT to its definition.
fn through_short(
    bytes: &[u8],
    n: usize,
    threshold: f32,
    hints: &mut [usize; HINTS],
    table: &Table,
    classes: &[u8],
    pairs: &[u8],
) -> Result<Score, Refusal>
    requires { Readable bytes.now n × (n ≤ rooms.SHORT) × Lendable threshold table.now classes.now pairs.now }
    ensures { result ≡ mess_ratio (text_of bytes.now) threshold classes.now pairs.now }
{
    through_room::<SHORT>(bytes, n, threshold, hints, table, classes, pairs)
}

// The same through the middle room. What it asks of n holds MIDDLE to its definition.
fn through_middle(
    bytes: &[u8],
    n: usize,
    threshold: f32,
    hints: &mut [usize; HINTS],
    table: &Table,
    classes: &[u8],
    pairs: &[u8],
) -> Result<Score, Refusal>
    requires { Readable bytes.now n × (n ≤ rooms.MIDDLE) × Lendable threshold table.now classes.now pairs.now }
    ensures { result ≡ mess_ratio (text_of bytes.now) threshold classes.now pairs.now }
{
    through_room::<MIDDLE>(bytes, n, threshold, hints, table, classes, pairs)
}

// The same through a room of N code points.
fn through_room<const N: usize>(
    bytes: &[u8],
    n: usize,
    threshold: f32,
    hints: &mut [usize; HINTS],
    table: &Table,
    classes: &[u8],
    pairs: &[u8],
) -> Result<Score, Refusal>
    requires { Readable bytes.now n × (n ≤ N) × (N ≤ LONGEST_TEXT) × Lendable threshold table.now classes.now pairs.now }
    ensures { result ≡ mess_ratio (text_of bytes.now) threshold classes.now pairs.now }
{
    let mut room = [0u32; N];
    through(bytes, n, &mut room, threshold, hints, table, classes, pairs)
}

// The text of the bytes, put into the first places of room and scored.
pub fn through(
    bytes: &[u8],
    n: usize,
    room: &mut [u32],
    threshold: f32,
    hints: &mut [usize; HINTS],
    table: &Table,
    classes: &[u8],
    pairs: &[u8],
) -> Result<Score, Refusal>
    requires { Readable bytes.now n × (n ≤ length room.old) × Lendable threshold table.now classes.now pairs.now }
    ensures { result ≡ mess_ratio (text_of bytes.now) threshold classes.now pairs.now }
{
    utf8::fill(bytes, room);
    scan_text_in(&room[..n], Some(threshold), hints, table, classes, pairs)
}

// The score of bytes that were not counted, taken in one pass into a room that has a place for each: most lines of a burst.
pub fn score_taken(
    bytes: &[u8],
    room: &mut [u32],
    threshold: f32,
    hints: &mut [usize; HINTS],
    table: &Table,
    classes: &[u8],
    pairs: &[u8],
) -> Result<Score, Refusal>
    requires { (length bytes.now ≤ length room.old) × (length bytes.now ≤ LONGEST_TEXT) × Lendable threshold table.now classes.now pairs.now }
    ensures { result ≡ mess_ratio_utf8 bytes.now threshold classes.now pairs.now }
{
    // No `?` here: the compiler would make the refusal in a place of its own and copy all of an answer for it, and the score's too.
    match take_utf8(bytes, room) {
        Err(why) => Err(why),
        Ok(count) => scan_text_in(
            &room[..count as usize],
            Some(threshold),
            hints,
            table,
            classes,
            pairs,
        ),
    }
}
