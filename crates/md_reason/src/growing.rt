// The two passes over the characters fed: how often a detector's numerator grew, and where. Each steps the scan's state anew; that of a scan that is not
// asked for reasons does without the places of growth.
ghost use Rattle.std.specs.Prelude.{◌≡◌, true, ◌+◌, ◌≤◌, ◌<◌, eqb, length};
ghost use Rattle.base.specs.Put.{put};
ghost use Rattle.class_builtin.specs.Inner.Words.{packed_words};
ghost use Rattle.class_records.specs.Records.{good_table};
ghost use Rattle.ratio.specs.Eight.{DETECTORS};
ghost use Rattle.cd_order.specs.Chosen.{passing};
ghost use Rattle.md.specs.Inner.Ready.{Ready};
ghost use Rattle.md_meaning.specs.Scan.{class_in, class_at};
ghost use Rattle.md_meaning.specs.Text.{char_at, total};
ghost use Rattle.md_growth.specs.Text.{growth_of, grows, watched_at};

use base::limits::NEWLINE;
use base::one;
use class_builtin::Table;
use classes::Class;
use md_growth::{Growths, Watched};

// The character at i; past the end of the text stands the newline.
fn point_at(text: &[u32], i: usize) -> u32
    ensures { result ≡ char_at text.now i }
{
    if i < text.len() { text[i] } else { NEWLINE }
}

// The class that the scan feeds for the character at i. A text with a character that has none was refused; what stands for it is the definition's.
fn fed_class(text: &[u32], i: usize, table: &Table, classes: &[u8]) -> Class
    requires { (good_table classes.now ≡ true) × (table.now ≡ packed_words) }
    ensures { result ≡ class_in (char_at text.now i) (class_at classes.now text.now i) }
{
    let point = point_at(text, i);
    match classes::look_up_in(point, table, classes) {
        Some(c) => c,
        None => Class {
            point,
            flags: 0,
            range: 0,
            base: point,
            lower: point,
        },
    }
}

// The watched state after the character at i.
fn watched_after(
    w: Watched,
    text: &[u32],
    i: usize,
    table: &Table,
    classes: &[u8],
    pairs: &[u8],
) -> Watched
    requires { Ready table.now classes.now pairs.now text.now × (i < total text.now) × (w ≡ watched_at classes.now pairs.now text.now i) }
    ensures { result ≡ watched_at classes.now pairs.now text.now (i + 1) }
{
    let c = fed_class(text, i, table, classes);
    let suspicious = classes::is_suspicious(pairs, w.eight.last_range(), c.range);
    w.watch(c, suspicious, (i + 1) as u32)
}

// The place of a detector's last growth.
fn growth_of(g: Growths, d: u32) -> u32
    requires { d ≤ DETECTORS }
    ensures { result ≡ growth_of d g }
{
    let places = [
        0,
        g.symbols,
        g.accents,
        g.unprintable,
        g.ranges,
        g.doubled,
        g.words,
        g.stops,
        g.archaic,
    ];
    places[d as usize]
}

// Whether a detector's last growth was at the index i.
fn grew_at(w: Watched, d: u32, i: usize) -> bool
    requires { (d ≤ DETECTORS) × (i ≤ 65536) }
    ensures { result ≡ eqb (growth_of d w.grown) (i + 1) }
{
    growth_of(w.grown, d) as usize == i + 1
}

// How many indexes below n there are at which the detector's numerator grows.
pub fn count_growths(
    text: &[u32],
    n: usize,
    d: u32,
    table: &Table,
    classes: &[u8],
    pairs: &[u8],
) -> u32
    requires { Ready table.now classes.now pairs.now text.now × (n ≤ total text.now) × (d ≤ DETECTORS) }
    ensures { result ≡ length (passing (grows classes.now pairs.now text.now d) n) }
{
    let mut w = Watched::start();
    let mut count = 0;
    for i in 0..n {
        w = watched_after(w, text, i, table, classes, pairs);
        count += one(grew_at(w, d, i));
    }
    count
}

// Those indexes, into the first places of an output that has room.
pub fn put_growths(
    text: &[u32],
    n: usize,
    d: u32,
    table: &Table,
    classes: &[u8],
    pairs: &[u8],
    out: &mut [u32],
)
    requires { Ready table.now classes.now pairs.now text.now × (n ≤ total text.now) × (d ≤ DETECTORS) × (length (passing (grows classes.now pairs.now text.now d) n) ≤ length out.old) }
    ensures { out.new ≡ put out.old 0 (passing (grows classes.now pairs.now text.now d) n) }
{
    let mut w = Watched::start();
    let mut k = 0;
    for i in 0..n {
        w = watched_after(w, text, i, table, classes, pairs);
        if grew_at(w, d, i) {
            out[k] = i as u32;
            k += 1;
        }
    }
}
