// The words that every room shares: flag bits, limits and refusal numbers by name, the test of a bit, numbers made of tests, what a refusal says,
// a count or a refusal, a word of a table, and whether a number stands in a list.
#![tactic(auto)]

ghost use Rattle.std.specs.Prelude.{◌≡◌, ◌+◌, ◌<◌, ◌≤◌, length};
ghost use Rattle.base.specs.Among.{among};
ghost use Rattle.base.specs.Causes.{refused_at};
ghost use Rattle.base.specs.Flags.{has};
ghost use Rattle.base.specs.Inner.LittleEndian.{Word};
ghost use Rattle.base.specs.Inner.Numbers.{One, Picked, Wide};

pub mod flags;
pub mod limits;
pub mod refusals;

pub use refusals::Cause;

// Why a call refused its input: 01's cause, and the place that 01 names for it, 0 where it names none.
#[derive(Clone, Copy, Debug, PartialEq, Eq)]
pub struct Refusal {
    pub cause: Cause,
    pub place: u32,
}

// A refusal, whatever the call answers else.
pub fn refuse<T>(cause: Cause, place: u32) -> Result<T, Refusal>
    ensures { result ≡ refused_at cause place }
{
    Err(Refusal { cause, place })
}

// Whether the bit of weight `bit` is set in a flag word. Division, since the proofs compute it; the compiler makes a mask of it.
pub fn is_set(flags: u32, bit: u32) -> bool
    requires { 0 < bit }
    ensures { result ≡ has flags bit }
{
    flags / bit % 2 == 1
}

// 1 where b holds, else 0.
pub fn one(b: bool) -> u32
    ensures { One b result }
{
    if b { 1 } else { 0 }
}

// x where b holds, else y.
pub fn pick(b: bool, x: u32, y: u32) -> u32
    ensures { Picked b x y result }
{
    if b { x } else { y }
}

// A byte as a number that can be shifted up.
pub fn wide(b: u8) -> u32
    ensures { Wide b result }
{
    b as u32
}

// The number that the four bytes at `at` make, whose halves are the numbers of two bytes. The compiler makes one load of it.
pub fn u32_at(t: &[u8], at: usize) -> u32
    requires { at + 4 ≤ length t.now }
    ensures { Word t.now at result }
{
    wide(t[at]) + 256 * wide(t[at + 1]) + 65536 * wide(t[at + 2]) + 16777216 * wide(t[at + 3])
}

// Whether x stands in the list. It looks at all of it, so that the compiler can compare several at once.
pub fn holds(list: &[u32], x: u32) -> bool
    ensures { result ≡ among x list.now }
{
    let mut held = false;
    for y in list {
        held = held | (*y == x);
    }
    held
}
