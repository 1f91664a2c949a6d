// A chunk of characters, the state and the tables being checked.
ghost use Rattle.std.specs.Prelude.{◌≡◌, ◌+◌, length};
ghost use Rattle.md_running_meaning.specs.Feeding.{fed_unless};
ghost use Rattle.md_running_meaning.specs.Chunk as chunks;
ghost use Rattle.md_running_meaning.specs.Inner.Chunk.{Chunk};

use crate::state::is_unsound;
use crate::step::{take, unfed};
use base::{Cause, Refusal};
use md_running_meaning::{Fed, Running};

// Feeds each character in turn. The state given is still there where one of them is refused.
pub fn feed_each(s: Running, text: &[u32], classes: &[u8], pairs: &[u8]) -> Fed
    requires { Chunk s text.now classes.now pairs.now }
    ensures { result ≡ fed_unless (chunks.refused_within s text.now classes.now pairs.now) s (chunks.steps_at s text.now classes.now pairs.now (length text.now)) (s.received + length text.now) }
{
    let table = class_builtin::table();
    let mut t = s;
    for p in text {
        if is_unsound(t) {
            return unfed(
                s,
                Refusal {
                    cause: Cause::BadState,
                    place: 0,
                },
            );
        }
        let Some(c) = classes::look_up_in(*p, &table, classes) else {
            return unfed(
                s,
                Refusal {
                    cause: Cause::Unclassed,
                    place: t.received,
                },
            );
        };
        t = take(t, c, pairs);
    }
    Fed {
        state: t,
        answer: Ok(t.received),
    }
}
