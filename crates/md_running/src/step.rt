// The steps of a line: none has arrived, one more has arrived, and one more is refused.
ghost use Rattle.std.specs.Prelude.{◌≡◌, ◌+◌, Err};
ghost use Rattle.classes.specs.Inner.Tables.{Tables};
ghost use Rattle.classes.specs.Lookup.{class_of};
ghost use Rattle.md_meaning.specs.Scan.{class_in};
ghost use Rattle.md_running_meaning.specs.Opening.{fresh};
ghost use Rattle.md_running_meaning.specs.Feeding as feeding;
ghost use Rattle.md_running_meaning.specs.Inner.Sound.{Sound};
ghost use Rattle.md_running_meaning.specs.Inner.Step.{Taking, HasRoom, bad_call};

use crate::over::over_at;
use crate::state::bad_state;
use base::{Cause, Refusal, refuse};
use classes::Class;
use md::tables::check_tables;
use md_growth::Watched;
use md_running_meaning::{Fed, Running};

// A line of which none has arrived.
pub fn fresh_line(length: u32, threshold: f32) -> Running
    ensures { result ≡ fresh length threshold }
{
    Running {
        length,
        received: 0,
        fed: 0,
        threshold,
        stopped: false,
        watched: Watched::start(),
    }
}

// Why n more characters are refused before they are looked at: 19, 13, 5, 7.
pub fn check_feed(s: Running, n: usize, classes: &[u8], pairs: &[u8]) -> Result<(), Refusal>
    ensures { result ≡ bad_call s n classes.now pairs.now }
{
    bad_state(s)?;
    if ((s.length - s.received) as usize) < n {
        return refuse(Cause::LineFull, 0);
    }
    check_tables(classes, pairs)
}

// A refusal, which leaves the state as it is.
pub fn unfed(s: Running, why: Refusal) -> Fed
    ensures { result ≡ feeding.fed_unless (Err why) s s 0 }
{
    Fed {
        state: s,
        answer: Err(why),
    }
}

// The scan has stopped: a character only counts as received.
fn arrived(s: Running) -> Running
    requires { HasRoom s }
    ensures { result ≡ feeding.arrived s }
{
    Running {
        received: s.received + 1,
        ..s
    }
}

// A character is fed. Its index is the number received before it.
fn fed_on(s: Running, c: Class, pairs: &[u8]) -> Running
    requires { Taking s c pairs.now }
    ensures { result ≡ feeding.fed_on pairs.now s c }
{
    let place = s.received + 1;
    let suspicious = classes::is_suspicious(pairs, s.watched.eight.last_range(), c.range);
    let watched = s.watched.watch(c, suspicious, place);
    let stopped = over_at(
        watched.eight,
        s.length as usize,
        s.received as usize,
        s.threshold,
    );
    Running {
        received: place,
        fed: place,
        stopped,
        watched,
        ..s
    }
}

// A character of this class arrives.
pub fn take(s: Running, c: Class, pairs: &[u8]) -> Running
    requires { Taking s c pairs.now }
    ensures { result ≡ feeding.step pairs.now s c }
{
    if s.stopped {
        return arrived(s);
    }
    fed_on(s, c, pairs)
}

// A character arrives, the state and the tables being checked: it is refused where it has no class.
pub fn feed_checked(s: Running, point: u32, classes: &[u8], pairs: &[u8]) -> Fed
    requires { Sound s × HasRoom s × Tables classes.now pairs.now }
    ensures { result ≡ feeding.fed_unless (feeding.no_class_here s point classes.now) s (feeding.step pairs.now s (class_in point (class_of classes.now point))) (s.received + 1) }
{
    let table = class_builtin::table();
    match classes::look_up_in(point, &table, classes) {
        None => unfed(
            s,
            Refusal {
                cause: Cause::Unclassed,
                place: s.received,
            },
        ),
        Some(c) => Fed {
            state: take(s, c, pairs),
            answer: Ok(s.received + 1),
        },
    }
}
