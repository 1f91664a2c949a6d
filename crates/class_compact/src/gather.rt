// A good table packed, one record after the other.
ghost use Rattle.std.specs.Prelude.{◌≡◌, ◌+◌, ◌*◌, ◌≤◌, ◌<◌, length};
ghost use Rattle.base.specs.Limits.{MOST_CLASSES};
ghost use Rattle.base.specs.Put.{put};
ghost use Rattle.class_records.specs.Records as records;
ghost use Rattle.class_compact_meaning.specs.Form as form;
ghost use Rattle.class_compact_meaning.specs.Packed.{compacted, packed_place, packed_records, packed_letters};
ghost use Rattle.class_compact_meaning.specs.Inner.Form.{HALF};
ghost use Rattle.class_compact_meaning.specs.Inner.Gathered.{Placed, Among, Gathered};

use crate::expand::LETTERS_AT;
use crate::form::lay;
use crate::links::{LINKS, slot_for};
use crate::{COMPACT_RECORD, LETTERS_RECORD, SHARED_BYTES};
use base::limits::CLASS_RECORD;
use class_records::record_at;

// The record i with the place of its letters.
fn compact_record(classes: &[u8], i: usize, place: usize) -> [u8; COMPACT_RECORD]
    requires { (i < records.records classes.now) × (place < HALF) × (place ≡ packed_place classes.now i) }
    ensures { result ≡ compacted classes.now i }
{
    let from = i * CLASS_RECORD;
    let mut record = [0u8; COMPACT_RECORD];
    lay(&classes[from..from + SHARED_BYTES], &mut record, 0);
    record[SHARED_BYTES] = (place % 256) as u8;
    record[SHARED_BYTES + 1] = (place / 256 % 256) as u8;
    record
}

// The place of the letters of the record i: 0 where it has none, that of the same letters where an earlier record has them, and the next behind the
// `count` that there are where none has, which is then noted.
fn place_among(
    classes: &[u8],
    i: usize,
    used: &[u8],
    count: usize,
    links: &mut [u16; LINKS],
) -> usize
    requires { Placed classes.now i used.now count links.old }
    ensures { Among classes.now i count result links.new }
{
    let r = record_at(classes, i);
    if (r.base == 0) & (r.lower == 0) {
        return 0;
    }
    let slot = slot_for(used, count, r.base, r.lower, links);
    let place = links[slot] as usize;
    if place != 0 {
        return place;
    }
    links[slot] = (count + 1) as u16;
    count + 1
}

// Puts the compact record i into its place in one room, and its letters, where no record before has them, behind the others in the other; answers how
// many letters there are then.
fn gather_record(
    classes: &[u8],
    i: usize,
    packed: &mut [u8],
    used: &mut [u8],
    count: usize,
    links: &mut [u16; LINKS],
) -> usize
    requires { Placed classes.now i used.old count links.old × (i * form.COMPACT_RECORD + form.COMPACT_RECORD ≤ length packed.old) }
    ensures { Gathered classes.now i packed.old used.old count packed.new used.new result links.new }
{
    let place = place_among(classes, i, used, count, links);
    let record = compact_record(classes, i, place);
    lay(&record, packed, i * COMPACT_RECORD);
    if place <= count {
        return count;
    }
    let from = i * CLASS_RECORD + LETTERS_AT;
    lay(
        &classes[from..from + LETTERS_RECORD],
        used,
        count * LETTERS_RECORD,
    );
    place
}

// Puts the compact records and the letters into the first places of two rooms; answers how many letters there are.
pub fn pack_into(classes: &[u8], packed: &mut [u8], used: &mut [u8]) -> usize
    requires { (records.records classes.now ≤ MOST_CLASSES) × (MOST_CLASSES * form.COMPACT_RECORD ≤ length packed.old) × (MOST_CLASSES * form.LETTERS_RECORD ≤ length used.old) }
    ensures value { result ≡ form.letters_in (packed_letters classes.now) }
    ensures packed_after { packed.new ≡ put packed.old 0 (packed_records classes.now) }
    ensures used_after { used.new ≡ put used.old 0 (packed_letters classes.now) }
{
    let n = classes.len() / CLASS_RECORD;
    let mut links = [0u16; LINKS];
    let mut count = 0;
    for i in 0..n {
        count = gather_record(classes, i, packed, used, count, &mut links);
    }
    count
}
