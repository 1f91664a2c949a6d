// The compact class table: records of 16 bytes, and the letters that they share in a list of their own; packed, unpacked and checked.
#![tactic(auto)]

ghost use Rattle.std.specs.Prelude.{◌≡◌, true, ◌≤◌, length, Ok};
ghost use Rattle.base.specs.Causes.{refused_at};
ghost use Rattle.class_records.specs.Records.{good_table};
ghost use Rattle.class_compact_meaning.specs.Check.{bad_compact};
ghost use Rattle.class_compact_meaning.specs.Packed.{packed_records, packed_letters};
ghost use Rattle.class_compact_meaning.specs.Calls as calls;
ghost use Rattle.class_compact_meaning.specs.Inner.Form.{Sized, wrong_list};
ghost use Rattle.class_compact_meaning.specs.Inner.Sound.{Expanded};

use base::limits::{CLASS_RECORD, MOST_CLASSES};
use base::{Cause, Refusal, refuse};
use class_compact_meaning::Packed;
use expand::unpack_into;
use fault::beyond_table;
use form::lay;
use gather::pack_into;

pub mod expand;
pub mod fault;
mod form;
mod gather;
mod links;
mod sound;

// Bytes of a compact record.
pub const COMPACT_RECORD: usize = 16;

// Bytes of first, last, flags and range, which are the same in either form.
pub const SHARED_BYTES: usize = 14;

// Bytes of a record of letters.
pub const LETTERS_RECORD: usize = 8;

// Bytes of the largest expansion.
pub const EXPANSION_ROOM: usize = MOST_CLASSES * CLASS_RECORD;

// Bytes of the most compact records, and of the most letters that they use.
const RECORDS_ROOM: usize = MOST_CLASSES * COMPACT_RECORD;

const LETTERS_ROOM: usize = MOST_CLASSES * LETTERS_RECORD;

// Whether a compact class list is not whole records or too many.
pub fn wrong_list(records: &[u8]) -> bool
    ensures { result ≡ wrong_list records.now }
{
    !(records.len() % COMPACT_RECORD == 0) | (MOST_CLASSES < records.len() / COMPACT_RECORD)
}

// Why a compact table is not good, if it is not, with its expansion lent.
fn bad_filled(records: &[u8], letters: &[u8], table: &[u8], ordered: bool) -> Result<(), Refusal>
    requires { Expanded records.now letters.now table.now ordered }
    ensures { result ≡ bad_compact records.now letters.now }
{
    beyond_table(records, letters, table, ordered)?;
    classes::bad_classes(table)
}

// The same through a room of its own.
fn bad_expanded(records: &[u8], letters: &[u8]) -> Result<(), Refusal>
    requires { Sized records.now }
    ensures { result ≡ bad_compact records.now letters.now }
{
    let mut room = [0u8; EXPANSION_ROOM];
    let ordered = unpack_into(records, letters, &mut room);
    bad_filled(
        records,
        letters,
        &room[..records.len() / COMPACT_RECORD * CLASS_RECORD],
        ordered,
    )
}

// Why a compact table is not good, if it is not: length, number and the first bad record of its class list, then length and first bad letters of the other.
pub fn bad_compact(records: &[u8], letters: &[u8]) -> Result<(), Refusal>
    ensures { result ≡ bad_compact records.now letters.now }
{
    if wrong_list(records) {
        return refuse(Cause::BadClasses, 0);
    }
    bad_expanded(records, letters)
}

// The number of records of a compact table, or why it is not good.
pub fn check_compact(records: &[u8], letters: &[u8]) -> Result<u32, Refusal>
    ensures { result ≡ calls.check_answer records.now letters.now }
{
    bad_compact(records, letters)?;
    Ok((records.len() / COMPACT_RECORD) as u32)
}

// The records of 24 bytes that a compact table stands for, in the first places of out; the rest of out stays, and all of it in a refusal.
pub fn unpack(records: &[u8], letters: &[u8], out: &mut [u8]) -> Result<u32, Refusal>
    ensures value { result ≡ calls.unpack_answer records.now letters.now (length out.old) }
    ensures out_after { out.new ≡ calls.unpack_after records.now letters.now out.old }
{
    bad_compact(records, letters)?;
    let n = records.len() / COMPACT_RECORD;
    if out.len() < n * CLASS_RECORD {
        return refuse(Cause::NoRoom, 0);
    }
    unpack_into(records, letters, out);
    Ok(n as u32)
}

fn packing_done(records: u32, letters: u32) -> Result<Packed, Refusal>
    ensures { result ≡ calls.packed_unless (Ok tt) records letters }
{
    Ok(Packed { records, letters })
}

// Puts a packed table into two outputs, where they have room.
fn put_out(
    classes: &[u8],
    packed: &[u8],
    used: &[u8],
    records: &mut [u8],
    letters: &mut [u8],
) -> Result<Packed, Refusal>
    requires { (good_table classes.now ≡ true) × (packed.now ≡ packed_records classes.now) × (used.now ≡ packed_letters classes.now) }
    ensures value { result ≡ calls.pack_answer classes.now (length records.old) (length letters.old) }
    ensures records_after { records.new ≡ calls.records_after classes.now records.old (length letters.old) }
    ensures letters_after { letters.new ≡ calls.letters_after classes.now (length records.old) letters.old }
{
    if (records.len() < packed.len()) | (letters.len() < used.len()) {
        return refuse(Cause::NoRoom, 0);
    }
    lay(packed, records, 0);
    lay(used, letters, 0);
    packing_done(
        (classes.len() / CLASS_RECORD) as u32,
        (used.len() / LETTERS_RECORD) as u32,
    )
}

// A good table packed. It is gathered in rooms of its own, since only then it is known how many letters there are.
fn pack_good(classes: &[u8], records: &mut [u8], letters: &mut [u8]) -> Result<Packed, Refusal>
    requires { good_table classes.now ≡ true }
    ensures value { result ≡ calls.pack_answer classes.now (length records.old) (length letters.old) }
    ensures records_after { records.new ≡ calls.records_after classes.now records.old (length letters.old) }
    ensures letters_after { letters.new ≡ calls.letters_after classes.now (length records.old) letters.old }
{
    let n = classes.len() / CLASS_RECORD;
    let mut packed = [0u8; RECORDS_ROOM];
    let mut used = [0u8; LETTERS_ROOM];
    let count = pack_into(classes, &mut packed, &mut used);
    put_out(
        classes,
        &packed[..n * COMPACT_RECORD],
        &used[..count * LETTERS_RECORD],
        records,
        letters,
    )
}

// A class table in the compact form, its records and its letters in the first places of two outputs; the rest of them stays, and all of it in a refusal.
pub fn pack(classes: &[u8], records: &mut [u8], letters: &mut [u8]) -> Result<Packed, Refusal>
    ensures value { result ≡ calls.pack_answer classes.now (length records.old) (length letters.old) }
    ensures records_after { records.new ≡ calls.records_after classes.now records.old (length letters.old) }
    ensures letters_after { letters.new ≡ calls.letters_after classes.now (length records.old) letters.old }
{
    classes::bad_classes(classes)?;
    pack_good(classes, records, letters)
}
