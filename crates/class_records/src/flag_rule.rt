// 01's flag rule, a function a sentence. Several flags are tested at once, behind a mask.
ghost use Rattle.std.specs.Prelude.{◌≡◌};
ghost use Rattle.base.specs.FlagRule.{cases_rule, kinds_rule, white_rule, scripts_rule};
ghost use Rattle.class_records.specs.Records.{good_flags};

use base::flags::{
    ALPHABETIC, ASCII, ASCII_ALPHABETIC, ASCII_DIGIT, ASCII_GRAPHIC, CASE_VARIABLE, CJK,
    COMMON_SAFE, EMOTICON, FLAGS_END, HANGUL, HIRAGANA, KATAKANA, LATIN, LOWERCASE, NUMERIC,
    SEPARATOR, THAI, UNPRINTABLE, UPPERCASE, WEIRD_SAFE, WHITESPACE,
};
use base::is_set;

const CASES: u32 = UPPERCASE | LOWERCASE | CASE_VARIABLE;

const LOWER_CASED: u32 = LOWERCASE | CASE_VARIABLE;

const UPPER_CASED: u32 = UPPERCASE | CASE_VARIABLE;

fn cases_good(f: u32) -> bool
    ensures { result ≡ cases_rule f }
{
    let cases = CASES & f;
    (cases == 0) | (((cases == LOWER_CASED) | (cases == UPPER_CASED)) & is_set(f, ALPHABETIC))
}

const KINDS: u32 = ALPHABETIC | NUMERIC | WHITESPACE | UNPRINTABLE;

// All bits up to the highest of KINDS. Added to a part of KINDS that is not 0, it takes 1 from that part, so that the lowest bit there is lost.
const KINDS_TOP: u32 = 2 * NUMERIC - 1;

fn kinds_good(f: u32) -> bool
    ensures { result ≡ kinds_rule f }
{
    let kinds = KINDS & f;
    kinds & (kinds + KINDS_TOP) == 0
}

const WHITE: u32 = SEPARATOR | COMMON_SAFE | WEIRD_SAFE | EMOTICON;

fn white_good(f: u32) -> bool
    ensures { result ≡ white_rule f }
{
    !is_set(f, WHITESPACE) | (WHITE & f == SEPARATOR)
}

const SCRIPTS: u32 = LATIN | CJK | HANGUL | KATAKANA | HIRAGANA | THAI;

// All bits up to the highest of SCRIPTS, as KINDS_TOP.
const SCRIPTS_TOP: u32 = 2 * THAI - 1;

fn scripts_good(f: u32) -> bool
    ensures { result ≡ scripts_rule f }
{
    let scripts = SCRIPTS & f;
    scripts & (scripts + SCRIPTS_TOP) == 0
}

const ASCII_BITS: u32 = ASCII | ASCII_ALPHABETIC | ASCII_GRAPHIC | ASCII_DIGIT;

// Whether a lent record may have these flags.
pub fn flags_good(f: u32) -> bool
    ensures { result ≡ good_flags f }
{
    cases_good(f)
        & kinds_good(f)
        & white_good(f)
        & scripts_good(f)
        & (f < FLAGS_END)
        & (ASCII_BITS & f == 0)
}
