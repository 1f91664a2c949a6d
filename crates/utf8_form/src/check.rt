// What is known of a text before anything is written: whether it has scalar values only, where the first other number stands, and how many bytes
// it takes. Two of the three look at the whole text without a way out, so that the compiler can look at several numbers at once.
ghost use Rattle.std.specs.Prelude.{◌≡◌, ◌≤◌, length};
ghost use Rattle.base.specs.Limits.{LONGEST_TEXT};
ghost use Rattle.utf8_table.specs.Encoding.{encode_all, scalars};
ghost use Rattle.utf8_write_meaning.specs.Answer.{ill_at};
ghost use Rattle.utf8_form.specs.Inner.Size.{Size};

use base::one;
use utf8_table::has_form;

// Whether a text has scalar values only.
pub fn all_scalar(text: &[u32]) -> bool
    ensures { result ≡ scalars text.now }
{
    let mut good = true;
    for c in text {
        good = good & has_form(*c);
    }
    good
}

// The index of the first number that is no scalar value, or how many numbers there are.
pub fn first_ill(text: &[u32]) -> usize
    ensures { result ≡ ill_at text.now }
{
    for (i, c) in text.iter().enumerate() {
        if !has_form(*c) {
            return i;
        }
    }
    text.len()
}

// How many bytes the encoding of a number has: one more from U+0080 on, from U+0800 on and from U+10000 on.
fn form_size(c: u32) -> u32
    ensures { Size c result }
{
    1 + one(0x80 <= c) + one(0x800 <= c) + one(0x10000 <= c)
}

// How many bytes a text takes.
pub fn needed(text: &[u32]) -> u32
    requires { length text.now ≤ LONGEST_TEXT }
    ensures { result ≡ length (encode_all text.now) }
{
    let mut n = 0;
    for c in text {
        n += form_size(*c);
    }
    n
}
