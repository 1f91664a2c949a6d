// The check of what is lent beside a text. It does not depend on the text, so that many texts need it once.
ghost use Rattle.std.specs.Prelude.{◌≡◌};
ghost use Rattle.md_meaning.specs.Inner.Lent.{bad_tables, bad_lent};

use base::{Cause, Refusal, refuse};
use ratio::finite::is_finite;

// Why the tables are refused, if they are: 5, then 7.
pub fn check_tables(classes: &[u8], pairs: &[u8]) -> Result<(), Refusal>
    ensures { result ≡ bad_tables classes.now pairs.now }
{
    classes::bad_classes(classes)?;
    classes::bad_pairs(pairs)
}

// The same of a threshold and the tables: 4, then 5 and 7.
pub fn check_lent(threshold: f32, classes: &[u8], pairs: &[u8]) -> Result<(), Refusal>
    ensures { result ≡ bad_lent threshold classes.now pairs.now }
{
    if !is_finite(threshold) {
        return refuse(Cause::NotFinite, 0);
    }
    check_tables(classes, pairs)
}
