// The layers of a text, read one after the other off the work area.
ghost use Rattle.std.specs.Prelude.{◌≡◌, ◌≤◌, length};
ghost use Rattle.base.specs.Limits.{LAST_RANGE};
ghost use Rattle.base.specs.Inner.Limits.{MOST_LETTERS};
ghost use Rattle.cd_work.specs.Inner.Parts.{Room, Kept};
ghost use Rattle.cd_letters.specs.Inner.LayerLetters.{layer_letters};
ghost use Rattle.cd_taken_meaning.specs.Inner.Area.{FewUndotted};
ghost use Rattle.cd_best.specs.Inner.Standing as standings;
ghost use Rattle.cd_meaning.specs.Inner.After.{layer_after, order_after};
ghost use Rattle.cd_meaning.specs.Inner.Comparable.{Comparable};
ghost use Rattle.cd_meaning.specs.Inner.Reading.{read_from};

use cd_best::Standing;
use cd_work::order_start;

// A layer whose distinct letters, by popularity, are these.
fn read_order(
    s: Standing,
    order: &[u32],
    threshold: f32,
    classes: &[u8],
    languages: &[u8],
    included: &[u32],
) -> Standing
    requires { Comparable classes.now languages.now included.now × (length order.now ≤ MOST_LETTERS) × (s.sufficient ≤ standings.MOST_BEFORE) }
    ensures { result ≡ order_after threshold classes.now languages.now included.now s order.now }
{
    let accented = cd_taken::some_accented(order, classes);
    cd_matches::read_matches(s, order, languages, included, accented, threshold)
}

// The layer k, unless it is too small.
fn read_layer(
    s: Standing,
    work: &mut [u32],
    slots: usize,
    k: u32,
    threshold: f32,
    small: u32,
    classes: &[u8],
    languages: &[u8],
    included: &[u32],
) -> Standing
    requires { Comparable classes.now languages.now included.now × Room slots work.old × FewUndotted slots work.old × (s.sufficient ≤ standings.MOST_BEFORE) }
    ensures { (result ≡ layer_after threshold small classes.now languages.now included.now s (layer_letters slots k work.old)) × Kept slots work.old work.new }
{
    if cd_letters::size(&work[..slots], k) <= small as usize {
        return s;
    }
    let d = cd_letters::rank(work, slots, k);
    let start = order_start(slots);
    let end = start + d;
    read_order(
        s,
        &work[start..end],
        threshold,
        classes,
        languages,
        included,
    )
}

// All layers, in making order.
pub fn read_layers(
    work: &mut [u32],
    slots: usize,
    count: usize,
    threshold: f32,
    small: u32,
    classes: &[u8],
    languages: &[u8],
    included: &[u32],
) -> Standing
    requires { Comparable classes.now languages.now included.now × Room slots work.old × FewUndotted slots work.old × (count ≤ LAST_RANGE) }
    ensures { (result ≡ read_from threshold small classes.now languages.now included.now slots work.old 0 count standings.start) × Kept slots work.old work.new }
{
    let mut s = cd_best::start();
    for k in 0..count {
        s = read_layer(
            s,
            work,
            slots,
            (k + 1) as u32,
            threshold,
            small,
            classes,
            languages,
            included,
        );
    }
    s
}
