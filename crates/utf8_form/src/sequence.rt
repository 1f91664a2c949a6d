// The encodings of one scalar value in two, three and four bytes, written into an output from a place on (the Unicode Standard, Table 3-6).
ghost use Rattle.std.specs.Prelude.{◌≡◌, ◌+◌, ◌≤◌, ◌<◌, length};
ghost use Rattle.base.specs.Limits.{LAST_POINT};
ghost use Rattle.base.specs.Put.{put};
ghost use Rattle.utf8_table.specs.Encoding.{encode};

// A number that is a byte, as one.
pub fn as_byte(x: u32) -> u8
    requires { x < 256 }
    ensures { result ≡ x }
{
    x as u8
}

pub fn two_into(out: &mut [u8], at: usize, c: u32)
    requires { (0x80 ≤ c) × (c < 0x800) × (at + 2 ≤ length out.old) }
    ensures { out.new ≡ put out.old at (encode c) }
{
    out[at] = as_byte(0xC0 + c / 64);
    out[at + 1] = as_byte(0x80 + c % 64);
}

pub fn three_into(out: &mut [u8], at: usize, c: u32)
    requires { (0x800 ≤ c) × (c < 0x10000) × (at + 3 ≤ length out.old) }
    ensures { out.new ≡ put out.old at (encode c) }
{
    out[at] = as_byte(0xE0 + c / 4096);
    out[at + 1] = as_byte(0x80 + c / 64 % 64);
    out[at + 2] = as_byte(0x80 + c % 64);
}

pub fn four_into(out: &mut [u8], at: usize, c: u32)
    requires { (0x10000 ≤ c) × (c ≤ LAST_POINT) × (at + 4 ≤ length out.old) }
    ensures { out.new ≡ put out.old at (encode c) }
{
    out[at] = as_byte(0xF0 + c / 262144);
    out[at + 1] = as_byte(0x80 + c / 4096 % 64);
    out[at + 2] = as_byte(0x80 + c / 64 % 64);
    out[at + 3] = as_byte(0x80 + c % 64);
}
