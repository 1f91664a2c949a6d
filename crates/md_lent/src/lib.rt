// A running line as a host keeps it (02 [6]): 48 u32, which the host lends. Whatever stands in them has a meaning, the threshold being its bits and a mark a
// number that is true where it is not 0; and the calls of the running score over them, by value.
#![tactic(auto)]

ghost use Rattle.std.specs.Prelude.{◌≡◌};
ghost use Rattle.md_running_meaning.specs.Opening.{open_line};
ghost use Rattle.md_running_meaning.specs.Feeding.{feed_line};
ghost use Rattle.md_running_meaning.specs.Chunk.{feed_chunk};
ghost use Rattle.md_running_meaning.specs.Closing.{close_line};
ghost use Rattle.md_lent_meaning.specs.Lent as lent;

use base::Refusal;
use base::refusals::ACCEPTED;
use md_lent_meaning::{HostOpened, HostRunning, LentFed};
use md_meaning::Score;
use md_running_meaning::{Fed, Running};
use numbers::{lent_of, no_lent, running_of};

mod numbers;

// A line of which none has arrived.
pub fn open_lent(length: u32, threshold: f32, classes: &[u8], pairs: &[u8]) -> HostOpened
    ensures { result ≡ lent.host_opened (open_line length threshold classes.now pairs.now) }
{
    match md_running::open_line(length, threshold, classes, pairs) {
        Err(why) => HostOpened {
            number: why.cause.number(),
            place: why.place,
            state: no_lent(),
        },
        Ok(s) => HostOpened {
            number: ACCEPTED,
            place: 0,
            state: lent_of(s, f32::to_bits(s.threshold)),
        },
    }
}

// What is left of a line to which `s` has happened. Where nothing was fed, only the number received is another: marks stay as they were lent.
fn next_lent(h: HostRunning, s: Running) -> HostRunning
    ensures { result ≡ lent.next_lent h s }
{
    if (h.stopped != 0) | (s.received == h.received) {
        return HostRunning {
            received: s.received,
            ..h
        };
    }
    lent_of(s, h.threshold)
}

fn fed_lent(h: HostRunning, fed: Fed) -> LentFed
    ensures { result ≡ lent.fed_lent h fed }
{
    match fed.answer {
        Err(why) => LentFed {
            state: h,
            answer: Err(why),
        },
        Ok(n) => LentFed {
            state: next_lent(h, fed.state),
            answer: Ok(n),
        },
    }
}

// One character of a line.
pub fn feed_lent(h: HostRunning, point: u32, classes: &[u8], pairs: &[u8]) -> LentFed
    ensures { result ≡ lent.fed_lent h (feed_line (lent.running_of h) point classes.now pairs.now) }
{
    fed_lent(
        h,
        md_running::feed_line(running_of(h), point, classes, pairs),
    )
}

// A chunk of characters of a line: all of them, or none.
pub fn chunk_lent(h: HostRunning, text: &[u32], classes: &[u8], pairs: &[u8]) -> LentFed
    ensures { result ≡ lent.fed_lent h (feed_chunk (lent.running_of h) text.now classes.now pairs.now) }
{
    fed_lent(
        h,
        md_running::feed_chunk(running_of(h), text, classes, pairs),
    )
}

// The answer of a line that has arrived in full.
pub fn close_lent(h: HostRunning) -> Result<Score, Refusal>
    ensures { result ≡ close_line (lent.running_of h) }
{
    md_running::close_line(running_of(h))
}
