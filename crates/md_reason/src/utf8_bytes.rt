// The reason of UTF-8 bytes: reading and `reason` in one call.
ghost use Rattle.std.specs.Prelude.{◌≡◌, ◌≤◌, length};
ghost use Rattle.utf8_meaning.specs.Text.{text_of};
ghost use Rattle.utf8_meaning.specs.Inner.Readable.{Readable};
ghost use Rattle.md_reason_meaning.specs.Reason.{reason_answer, reason_into};
ghost use Rattle.md_reason_meaning.specs.ReasonUtf8.{utf8_answer, utf8_into};

use crate::reason;
use base::Refusal;
use base::limits::LONGEST_TEXT;
use md_reason_meaning::Why;

// The text of the bytes, n code points, put into the first places of room, and its reason.
fn reason_through(
    bytes: &[u8],
    n: usize,
    room: &mut [u32],
    threshold: f32,
    classes: &[u8],
    pairs: &[u8],
    out: &mut [u32],
) -> Result<Why, Refusal>
    requires { Readable bytes.now n × (n ≤ length room.old) }
    ensures value { result ≡ reason_answer (text_of bytes.now) threshold classes.now pairs.now (length out.old) }
    ensures out_after { out.new ≡ reason_into (text_of bytes.now) threshold classes.now pairs.now out.old }
{
    utf8::fill(bytes, room);
    reason(&room[..n], threshold, classes, pairs, out)
}

// The same through a room of its own, 256 KiB of stack.
fn reason_read(
    bytes: &[u8],
    n: usize,
    threshold: f32,
    classes: &[u8],
    pairs: &[u8],
    out: &mut [u32],
) -> Result<Why, Refusal>
    requires { Readable bytes.now n }
    ensures value { result ≡ reason_answer (text_of bytes.now) threshold classes.now pairs.now (length out.old) }
    ensures out_after { out.new ≡ reason_into (text_of bytes.now) threshold classes.now pairs.now out.old }
{
    let mut room = [0u32; LONGEST_TEXT];
    reason_through(bytes, n, &mut room, threshold, classes, pairs, out)
}

// The reason of the text that the bytes are; refused as reading refuses, and then as `reason` does.
pub fn reason_utf8(
    bytes: &[u8],
    threshold: f32,
    classes: &[u8],
    pairs: &[u8],
    out: &mut [u32],
) -> Result<Why, Refusal>
    ensures value { result ≡ utf8_answer bytes.now threshold classes.now pairs.now (length out.old) }
    ensures out_after { out.new ≡ utf8_into bytes.now threshold classes.now pairs.now out.old }
{
    let count = utf8::count_utf8(bytes)?;
    reason_read(bytes, count as usize, threshold, classes, pairs, out)
}
