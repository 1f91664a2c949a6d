// A step of the scan: the character at an index, those of its kind behind it, and the space behind them.
ghost use Rattle.std.specs.Prelude.{◌≤◌};
ghost use Rattle.md_eight.specs.Inner.Runs.{LOWER_FIRST, LOWER_LAST};
ghost use Rattle.md_runs.specs.Inner.Runs.{Before, HeldAt, Advanced};

use classes::{Class, is_suspicious};
use md_eight::Detectors;
use md_eight::runs::BASIC_LATIN;
use md_runs::{Fed, before_space, fed_word, run_end};

// ASCII's lower-case letters.
const LOWER_FIRST: u32 = 0x61;

const LOWER_LAST: u32 = 0x7A;

// ASCII's lower-case letters from i on, and the space behind them: most of a text in English goes this way, with the space in line. `classes` is read by the contract alone.
fn fed_lower(s: Detectors, c: Class, text: &[u32], i: usize, classes: &[u8], pairs: &[u8]) -> Fed
    requires { Before classes.now pairs.now text.now s c i × (LOWER_FIRST ≤ c.point) × (c.point ≤ LOWER_LAST) }
    ensures { Advanced classes.now pairs.now text.now i result }
{
    let next = run_end(text, i, LOWER_FIRST, LOWER_LAST);
    let suspicious = is_suspicious(pairs, s.last_range(), BASIC_LATIN);
    let again = is_suspicious(pairs, BASIC_LATIN, BASIC_LATIN);
    let t = s.lower_run((next - i) as u32, text[next - 1], suspicious, again);
    if before_space(text, next) {
        return Fed {
            state: t.space(),
            next: next + 1,
        };
    }
    Fed { state: t, next }
}

// The character at i and those of its kind behind it, with the space behind them: so it goes with the word that it closes.
pub fn fed_run(
    s: Detectors,
    c: Class,
    text: &[u32],
    i: usize,
    held: usize,
    classes: &[u8],
    pairs: &[u8],
) -> Fed
    requires { Before classes.now pairs.now text.now s c i × HeldAt classes.now c.point held }
    ensures { Advanced classes.now pairs.now text.now i result }
{
    if (LOWER_FIRST <= c.point) & (c.point <= LOWER_LAST) {
        return fed_lower(s, c, text, i, classes, pairs);
    }
    let f = fed_word(s, c, text, i, held, classes, pairs);
    let slim = f.state.slimmed();
    let end = f.next;
    if before_space(text, end) {
        return Fed {
            state: slim.space(),
            next: end + 1,
        };
    }
    Fed {
        state: slim,
        next: end,
    }
}
