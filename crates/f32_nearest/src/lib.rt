// An f64 to the nearest f32, ties to even, worked out from the bits: Rattle supplies no conversion.
//
// An f64 has 52 binary digits below its leading one and an f32 has 23, so 29 are dropped; the exponent's field stands above the digits in
// both, and counts from 1023 in the one and from 127 in the other. Rounding the digits up may carry into the field, which is then right.
#![tactic(auto)]

ghost use Rattle.std.specs.Prelude.{◌≡◌};
ghost use Prim.Native.Nat.{◌*◌, ◌<◌, compare};
ghost use Rattle.std.specs.Float.Ieee.{nearest};
ghost use Rattle.f32_nearest.specs.Inner.Fields.{DROPPED, SETTLED_END};
ghost use Rattle.f32_nearest.specs.Inner.Nearest.{Narrowable};
ghost use Rattle.f32_nearest.specs.Nearest.{nearest_f32};

// what the digits that are dropped count to: 2 ^ 29
const DROPPED: u64 = 0x2000_0000;

// half of it: dropping so much is a tie
const HALF: u64 = DROPPED / 2;

// the weight of the exponent's field in an f32's bits: 2 ^ 23
const F32_FIELD: u64 = 0x80_0000;

// what an f64's field counts more than an f32's of the same value: 1023 - 127
const BIAS_DIFFERENCE: u64 = 896;

// what is taken off once the digits are dropped
const REBIASED: u64 = BIAS_DIFFERENCE * F32_FIELD;

// q, or the next number up, by how the digits dropped, r, compare with a half; at a tie the even one.
fn settled(q: u64, r: u64) -> u64
    requires { q < SETTLED_END }
    ensures { result ≡ nearest q (compare (r * 2) DROPPED) }
{
    if r < HALF {
        return q;
    }
    if HALF < r {
        return q + 1;
    }
    if q % 2 == 0 {
        return q;
    }
    q + 1
}

// The f32 nearest to x, for +0 and the values from 1/8 to 1.
pub fn nearest_f32(x: f64) -> f32
    requires { Narrowable x }
    ensures { result ≡ nearest_f32 x }
{
    let u = f64::to_bits(x);
    if u == 0 {
        return 0.0;
    }
    let v = settled(u / DROPPED, u % DROPPED) - REBIASED;
    f32::from_bits(v as u32)
}
