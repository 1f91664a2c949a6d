// The split of a text into layers, by the ranges of its characters (cd.rs: alpha_unicode_split).
#![tactic(auto)]

ghost use Rattle.std.specs.Prelude.{◌≡◌, ◌≤◌, length};
ghost use Rattle.base.specs.Limits.{LAST_RANGE, PAIR_BYTES};
ghost use Rattle.cd_work.specs.Inner.Parts.{numbers_in};
ghost use Rattle.cd_layers.specs.Layers.{is_own};
ghost use Rattle.cd_layers.specs.Inner.Numbers.{oldest, layer_for};
ghost use Rattle.cd_layers.specs.Inner.Numbers.{Below};
ghost use Rattle.cd_layers.specs.Inner.Split.{Split};

use base::limits::LAST_RANGE;
use classes::is_suspicious;

// More layers than this there cannot be: each has a key of its own, and a key is a range from 1 to LAST_RANGE.
const MOST_LAYERS: usize = LAST_RANGE as usize;

// The place of the key that is `range`; past the last where there is none.
fn own(keys: &[u32], range: u32) -> usize
    ensures { result ≡ oldest (is_own range) keys.now }
{
    for (j, key) in keys.iter().enumerate() {
        if *key == range {
            return j;
        }
    }
    keys.len()
}

// The place of the layer that a character of this range joins; past the last where one is to be made.
fn layer_for(pairs: &[u8], keys: &[u32], range: u32) -> usize
    requires { (length pairs.now ≡ PAIR_BYTES) × (range ≤ LAST_RANGE) × Below keys.now }
    ensures { result ≡ layer_for pairs.now keys.now range }
{
    for (j, key) in keys.iter().enumerate() {
        if !is_suspicious(pairs, *key, range) {
            return j;
        }
    }
    own(keys, range)
}

// Puts its layer's number, from 1, in place of the range of each slot, and says how many layers there are. A range of 0, that of a slot whose
// character is not taken, stays 0.
pub fn alpha_unicode_split(work: &mut [u32], slots: usize, pairs: &[u8]) -> usize
    requires { (slots ≤ length work.old) × (length pairs.now ≡ PAIR_BYTES) × Below (numbers_in slots slots work.old) }
    ensures { Split pairs.now slots work.old work.new result }
{
    let mut keys = [0u32; MOST_LAYERS];
    let mut count = 0;
    for i in 0..slots {
        let range = work[i];
        if range == 0 {
            continue;
        }
        let j = layer_for(pairs, &keys[..count], range);
        work[i] = (j + 1) as u32;
        if j == count {
            keys[count] = range;
            count += 1;
        }
    }
    count
}
