// The test of a threshold.
ghost use Rattle.std.specs.Prelude.{◌≡◌};
ghost use Rattle.ratio.specs.Finite.{is_finite};

// the bits of +infinity
const INFINITY_BITS: u32 = 0x7F80_0000;

// Whether a threshold is finite: it lies between the infinities, which NaN does not.
pub fn is_finite(threshold: f32) -> bool
    ensures { result ≡ is_finite threshold }
{
    let infinity = f32::from_bits(INFINITY_BITS);
    (-infinity < threshold) & (threshold < infinity)
}
