// What the programs replay_* share. A list of cases comes on standard input: for each case its size in bytes, a little-endian u32, and
// then that many bytes, whose meaning is the program's own. No contract can say what is read or written, so these promise only that they
// are safe and end; what a case compares, a program's own function does.
#![tactic(auto)]

ghost use Rattle.std.specs.Prelude.{◌≤◌, ◌<◌, ◌≡◌, ◌+◌, length, IfSome};
ghost use Rattle.replay.specs.Inner.Sizes.{MOST_CASES, MOST_WORDS};

use base::refusals::ACCEPTED;
use base::{Refusal, u32_at};
use std::io;
use std::io::Read;

// bytes of a word
pub const WORD: usize = 4;

// A replay ends after so many cases at the latest.
pub const MOST_CASES: u32 = 100000;

// The bits of +infinity, and of the sign.
const INFINITY_BITS: u32 = 0x7F80_0000;

const SIGN_BIT: u32 = 0x8000_0000;

// What a replay has come to: how many cases it has compared, how many of them differ and the first that does, counted from 1.
#[derive(Clone, Copy)]
pub struct Tally {
    pub cases: u32,
    pub differ: u32,
    pub first: Option<u32>,
    ghost few: { cases ≤ MOST_CASES },
    ghost some: { differ ≤ cases },
}

impl Tally {
    // Nothing is compared yet.
    pub fn none() -> Self
        ensures { result.cases ≡ 0 }
    {
        Tally {
            cases: 0,
            differ: 0,
            first: None,
        }
    }

    // One case more was compared.
    pub fn tallied(self, same: bool) -> Self
        ensures more { self.cases ≤ result.cases }
        ensures one { self.cases < MOST_CASES → result.cases ≡ self.cases + 1 }
    {
        if self.cases >= MOST_CASES {
            return self;
        }
        let cases = self.cases + 1;
        let (differ, first) = if same {
            (self.differ, self.first)
        } else {
            (self.differ + 1, self.first.or(Some(cases)))
        };
        Tally {
            cases,
            differ,
            first,
        }
    }

    // The program's verdict, a line: how many cases there were, how many differ, and the first that does.
    pub fn say(self, rt: &impl Print) -> io::Result<()> {
        let cases = self.cases;
        let differ = self.differ;
        match self.first {
            Some(first) => println!(rt; "{cases} cases, {differ} differ, first case {first}"),
            None => println!(rt; "{cases} cases, {differ} differ"),
        }
    }
}

// A case of standard input, put at the front of buf; None where the list has ended, or has a case of no bytes. A case that buf cannot hold is cut
// to buf's length.
pub fn read_case<'a>(rt: &impl Input, buf: &'a mut [u8]) -> Option<&'a [u8]>
    ensures { IfSome result (λ case. length case.now ≤ length buf.old) }
{
    let mut input = rt.reader();
    let mut head = [0u8; WORD];
    input.read_exact(&mut head).ok()?;
    let n = least(word(&head, 0) as usize, buf.len());
    if n == 0 {
        return None;
    }
    let case = &mut buf[..n];
    let _ = input.read_exact(case);
    Some(case)
}

// Compares the cases one after the other, each with `same`, and says the verdict. It is proved that every case that is read is counted.
pub fn replay_cases<F: FnMut(&[u8]) -> bool>(
    rt: &(impl Input + Print),
    buf: &mut [u8],
    mut same: F,
) -> io::Result<()>
    requires { F.IsAlwaysCallable same }
{
    let mut t = Tally::none();
    for k in 0..MOST_CASES {
        let Some(case) = read_case(rt, buf) else {
            break;
        };
        t = t.tallied(same(case));
        let counted = t.cases == k + 1;
        prove!(counted);
    }
    t.say(rt)
}

// The lesser of the two.
pub fn least(a: usize, b: usize) -> usize
    ensures { (result ≤ a) × (result ≤ b) }
{
    if a < b { a } else { b }
}

// The byte of buf at i; 0 where buf has ended.
pub fn byte(buf: &[u8], i: usize) -> u8 {
    buf.get(i).copied().unwrap_or(0)
}

// The k-th little-endian u32 of buf, counted from 0; 0 where buf has ended.
pub fn word(buf: &[u8], k: usize) -> u32 {
    if k >= buf.len() / WORD {
        return 0;
    }
    u32_at(buf, k * WORD)
}

// Fills out with the words of buf from the word `from` on; what buf has none for stays.
pub fn words(buf: &[u8], from: usize, out: &mut [u32])
    ensures { length out.new ≡ length out.old }
{
    for (k, x) in (from..buf.len() / WORD).zip(out.iter_mut()) {
        *x = word(buf, k);
    }
}

// Whether the words of buf from the word `at` on are those of the list.
pub fn same_words(list: &[u32], buf: &[u8], at: usize) -> bool
    requires { at ≤ MOST_WORDS }
{
    list.iter()
        .enumerate()
        .all(|(i, x)| *x == word(buf, at + i))
}

// Whether a call that counts answered what the words of buf from the word `at` on say: number, place and count.
pub fn same_counted(answer: Result<u32, Refusal>, buf: &[u8], at: usize) -> bool
    requires { at ≤ MOST_WORDS }
{
    let told = match answer {
        Ok(count) => [ACCEPTED, 0, count],
        Err(why) => [why.cause.number(), why.place, 0],
    };
    same_words(&told, buf, at)
}

// Flips a bit of the table, counted from the lowest of the first byte; one past its end is passed over.
fn flip(table: &mut [u8], bit: u32)
    ensures { length table.new ≡ length table.old }
{
    if let Some(byte) = table.get_mut((bit / 8) as usize) {
        *byte ^= 1 << (bit % 8);
    }
}

// Flips the n bits of the table that the words from `from` on name.
pub fn flip_bits(buf: &[u8], from: usize, n: usize, table: &mut [u8])
    ensures { length table.new ≡ length table.old }
{
    for k in (from..buf.len() / WORD).take(n) {
        flip(table, word(buf, k));
    }
}

// The f32 of these bits; a NaN for every NaN's.
pub fn float_of(bits: u32) -> f32 {
    let zero: f32 = 0.0;
    if bits % SIGN_BIT > INFINITY_BITS {
        zero / zero
    } else {
        f32::from_bits(bits)
    }
}
