// The end of a line.
ghost use Rattle.std.specs.Prelude.{◌≡◌};
ghost use Rattle.base.specs.Limits.{NEWLINE};
ghost use Rattle.classes.specs.Lookup.{builtin_class};
ghost use Rattle.md_meaning.specs.Scan.{unless};
ghost use Rattle.md_running_meaning.specs.Closing as closings;
ghost use Rattle.md_running_meaning.specs.Inner.Sound.{Sound};

use crate::over::over_at;
use base::flags::{ASCII, SEPARATOR, WHITESPACE};
use base::limits::NEWLINE;
use base::{Cause, Refusal, refuse};
use classes::Class;
use md::scan::scored;
use md_eight::Detectors;
use md_growth::fed_watched;
use md_meaning::Score;
use md_running_meaning::Running;

// The class of the newline, which the built-in table has: no table is lent to a closing.
fn newline() -> Class
    ensures { result ≡ builtin_class NEWLINE }
{
    Class {
        point: NEWLINE,
        flags: WHITESPACE + SEPARATOR + ASCII,
        range: 1,
        base: NEWLINE,
        lower: NEWLINE,
    }
}

// The detectors after the newline. It forgets the last range, so that no pair of ranges is looked at.
fn ended(s: Running) -> Detectors
    requires { Sound s }
    ensures { result ≡ closings.ended s }
{
    fed_watched(s.watched.eight, newline(), false)
}

// The answer, the state being checked.
pub fn close_sound(s: Running) -> Result<Score, Refusal>
    requires { Sound s }
    ensures { result ≡ unless (closings.line_short s) (closings.closed s) }
{
    if s.received < s.length {
        return refuse(Cause::LineShort, 0);
    }
    if s.stopped {
        return scored(s.watched.eight, s.fed, true);
    }
    let eight = ended(s);
    let n = s.length as usize;
    let over = over_at(eight, n, n, s.threshold);
    scored(eight, s.length + 1, over)
}
