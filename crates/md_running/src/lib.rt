// The score of a line while it arrives (02 [6]): the line is opened with its length, fed one character a call or a chunk, and closed. The state goes in by
// value and comes back; the host's entries are lent it and store what comes back.
#![tactic(auto)]

ghost use Rattle.std.specs.Prelude.{◌≡◌};
ghost use Rattle.md_running_meaning.specs.Opening as opening;
ghost use Rattle.md_running_meaning.specs.Feeding as feeding;
ghost use Rattle.md_running_meaning.specs.Chunk.{feed_chunk};
ghost use Rattle.md_running_meaning.specs.Closing as closing;

use base::limits::LONGEST_TEXT;
use base::{Cause, Refusal, refuse};
use chunk::feed_each;
use closing::close_sound;
use md::tables::check_lent;
use md_growth::Watched;
use md_meaning::Score;
use md_running_meaning::{Fed, Running};
use state::bad_state;
use step::{check_feed, feed_checked, fresh_line, unfed};

mod chunk;
mod closing;
mod over;
mod state;
mod step;

// A line of `length` characters of which none has arrived.
pub fn open_line(
    length: u32,
    threshold: f32,
    classes: &[u8],
    pairs: &[u8],
) -> Result<Running, Refusal>
    ensures { result ≡ opening.open_line length threshold classes.now pairs.now }
{
    if length as usize > LONGEST_TEXT {
        return refuse(Cause::TooLong, 0);
    }
    check_lent(threshold, classes, pairs)?;
    Ok(fresh_line(length, threshold))
}

// One character of a line.
pub fn feed_line(state: Running, point: u32, classes: &[u8], pairs: &[u8]) -> Fed
    ensures { result ≡ feeding.feed_line state point classes.now pairs.now }
{
    match check_feed(state, 1, classes, pairs) {
        Err(why) => unfed(state, why),
        Ok(()) => feed_checked(state, point, classes, pairs),
    }
}

// A chunk of characters of a line: all of them, or none where one is refused.
pub fn feed_chunk(state: Running, text: &[u32], classes: &[u8], pairs: &[u8]) -> Fed
    ensures { result ≡ feed_chunk state text.now classes.now pairs.now }
{
    match check_feed(state, text.len(), classes, pairs) {
        Err(why) => unfed(state, why),
        Ok(()) => feed_each(state, text, classes, pairs),
    }
}

// The answer of a line that has arrived in full.
pub fn close_line(state: Running) -> Result<Score, Refusal>
    ensures { result ≡ closing.close_line state }
{
    bad_state(state)?;
    close_sound(state)
}
