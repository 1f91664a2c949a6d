// The expansion of a compact table: its records as those of 24 bytes.
ghost use Rattle.std.specs.Prelude.{◌≡◌, ◌+◌, ◌*◌, ◌≤◌, ◌<◌, length};
ghost use Rattle.base.specs.Limits.{CLASS_RECORD};
ghost use Rattle.base.specs.Put.{put};
ghost use Rattle.class_compact_meaning.specs.Form.{compact_records, letters_in};
ghost use Rattle.class_compact_meaning.specs.Unpacked.{expansion, unpacked};
ghost use Rattle.class_compact_meaning.specs.Inner.Sound.{in_first_use};

use crate::form::{lay, place_of};
use crate::{COMPACT_RECORD, LETTERS_RECORD, SHARED_BYTES};
use base::limits::CLASS_RECORD;
use base::pick;

// Where base and lower stand in a record of 24 bytes.
pub const LETTERS_AT: usize = 16;

// The record i with its letters; with none where they are missing.
fn expanded(records: &[u8], letters: &[u8], i: usize) -> [u8; CLASS_RECORD]
    requires { i < compact_records records.now }
    ensures { result ≡ expansion records.now letters.now i }
{
    let from = i * COMPACT_RECORD;
    let place = place_of(records, i) as usize;
    let mut record = [0u8; CLASS_RECORD];
    lay(&records[from..from + SHARED_BYTES], &mut record, 0);
    if (1 <= place) & (place <= letters.len() / LETTERS_RECORD) {
        let at = (place - 1) * LETTERS_RECORD;
        lay(&letters[at..at + LETTERS_RECORD], &mut record, LETTERS_AT);
        return record;
    }
    record
}

// Puts all records with their letters into the first places of an output that has room; answers whether they use all letters, first in their order,
// which the same walk tells at little cost. With no early exit, since nearly every table is good.
pub fn unpack_into(records: &[u8], letters: &[u8], out: &mut [u8]) -> bool
    requires { compact_records records.now * CLASS_RECORD ≤ length out.old }
    ensures value { result ≡ in_first_use records.now (letters_in letters.now) }
    ensures out_after { out.new ≡ put out.old 0 (unpacked records.now letters.now) }
{
    let n = records.len() / COMPACT_RECORD;
    let mut seen = 0;
    let mut ordered = true;
    for i in 0..n {
        let place = place_of(records, i);
        ordered = ordered & (place <= seen + 1);
        seen = pick(seen < place, place, seen);
        let record = expanded(records, letters, i);
        lay(&record, out, i * CLASS_RECORD);
    }
    ordered & (seen as usize == letters.len() / LETTERS_RECORD)
}
