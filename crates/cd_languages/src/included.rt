// The included language numbers: whether the list is allowed.
ghost use Rattle.std.specs.Prelude.{◌≡◌};
ghost use Rattle.cd_languages.specs.Included.{lone_zero, in_table, first_missing, bad_included, checked_included};

use crate::first_record;
use base::limits::{LANGUAGE_RECORD, MOST_INCLUDED};
use base::{Cause, Refusal, refuse};

// Whether the list is the single number 0, which means pure Latin languages only.
pub fn lone_zero(included: &[u32]) -> bool
    ensures { result ≡ lone_zero included.now }
{
    if included.len() != 1 {
        return false;
    }
    included[0] == 0
}

// Whether a record of the table has the number x.
fn in_table(languages: &[u8], x: u32) -> bool
    ensures { result ≡ in_table languages.now x }
{
    first_record(languages, x) < languages.len() / LANGUAGE_RECORD
}

// The first number that is not in the table, or how many there are.
fn first_missing(included: &[u32], languages: &[u8]) -> usize
    ensures { result ≡ first_missing included.now languages.now }
{
    for (i, x) in included.iter().enumerate() {
        if !in_table(languages, *x) {
            return i;
        }
    }
    included.len()
}

// Refusal 9: over 64 at 0, then the first that is not in the table, but for a lone 0.
pub fn bad_included(included: &[u32], languages: &[u8]) -> Result<(), Refusal>
    ensures { result ≡ bad_included included.now languages.now }
{
    let n = included.len();
    if n > MOST_INCLUDED {
        return refuse(Cause::BadIncluded, 0);
    }
    if lone_zero(included) {
        return Ok(());
    }
    let missing = first_missing(included, languages);
    if missing < n {
        return refuse(Cause::BadIncluded, missing as u32);
    }
    Ok(())
}

// How many included numbers there are, or why they are refused.
pub fn check_included(included: &[u32], languages: &[u8]) -> Result<u32, Refusal>
    ensures { result ≡ checked_included included.now languages.now }
{
    bad_included(included, languages)?;
    Ok(included.len() as u32)
}
