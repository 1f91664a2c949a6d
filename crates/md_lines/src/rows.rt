// The score of each line, put into its place in the output.
ghost use Rattle.std.specs.Prelude.{◌≡◌, ◌+◌, ◌*◌, ◌≤◌, length, Ok};
ghost use Rattle.base.specs.Limits.{LONGEST_TEXT};
ghost use Rattle.base.specs.Put.{put};
ghost use Rattle.md_meaning.specs.Inner.Lent.{bad_lent};
ghost use Rattle.md_utf8.specs.Inner.Lendable.{Lendable};
ghost use Rattle.md_utf8_meaning.specs.ScoreUtf8.{mess_ratio_utf8};
ghost use Rattle.md_lines_meaning.specs.Lines.{lines_of};
ghost use Rattle.md_lines_meaning.specs.Burst as bursts;

use crate::NUMBERS_PER_LINE;
use crate::row::{put_row, row_of};
use crate::split::end_of_line;
use base::Refusal;
use class_builtin::Table;
use classes::HINTS;
use md_meaning::Score;
use md_utf8::rooms::{score_larger, score_taken, through};

// Places of the room that is lent to each line: a line of so many bytes is read in one pass.
const ROOM: usize = 512;

// The score of one line, read as bytes are that come alone. Most lines go through the room that is lent, so that none is cleared for them.
fn score_line(
    line: &[u8],
    threshold: f32,
    hints: &mut [usize; HINTS],
    table: &Table,
    classes: &[u8],
    pairs: &[u8],
    room: &mut [u32],
) -> Result<Score, Refusal>
    requires { Lendable threshold table.now classes.now pairs.now × (length room.old ≤ LONGEST_TEXT) }
    ensures { result ≡ mess_ratio_utf8 line.now threshold classes.now pairs.now }
{
    if line.len() <= room.len() {
        return score_taken(line, room, threshold, hints, table, classes, pairs);
    }
    // No `?` here either: see score_taken.
    match utf8::count_utf8(line) {
        Err(why) => Err(why),
        Ok(count) => {
            let n = count as usize;
            if n <= room.len() {
                through(line, n, room, threshold, hints, table, classes, pairs)
            } else {
                score_larger(line, n, threshold, hints, table, classes, pairs)
            }
        }
    }
}

// Puts the row of one line into out from a place on.
fn put_line(
    line: &[u8],
    threshold: f32,
    hints: &mut [usize; HINTS],
    table: &Table,
    classes: &[u8],
    pairs: &[u8],
    room: &mut [u32],
    out: &mut [u32],
    at: usize,
)
    requires { Lendable threshold table.now classes.now pairs.now × (length room.old ≤ LONGEST_TEXT) × (at + bursts.NUMBERS_PER_LINE ≤ length out.old) }
    ensures { out.new ≡ put out.old at (bursts.row_of threshold classes.now pairs.now line.now) }
{
    let row = row_of(score_line(line, threshold, hints, table, classes, pairs, room));
    put_row(&row, out, at);
}

// Puts the rows of the lines into the first places of an output that has room.
pub fn put_rows(bytes: &[u8], threshold: f32, classes: &[u8], pairs: &[u8], out: &mut [u32])
    requires { (length bytes.now ≤ bursts.LONGEST_BURST) × (bad_lent threshold classes.now pairs.now ≡ Ok tt) × (bursts.NUMBERS_PER_LINE * length (lines_of bytes.now) ≤ length out.old) }
    ensures { out.new ≡ put out.old 0 (bursts.rows threshold classes.now pairs.now (lines_of bytes.now)) }
{
    let table = class_builtin::table();
    let mut hints = [0; HINTS];
    let mut room = [0u32; ROOM];
    let mut from = 0;
    let mut at = 0;
    // Stays a while: a turn takes one line, as long as it is.
    while from < bytes.len() {
        let end = end_of_line(bytes, from);
        put_line(
            &bytes[from..end],
            threshold,
            &mut hints,
            &table,
            classes,
            pairs,
            &mut room,
            out,
            at,
        );
        from = end + 1;
        at += NUMBERS_PER_LINE;
    }
}
