// Fields of bits read from bytes, most significant bit first.
#![tactic(auto)]

ghost use Rattle.std.specs.Prelude.{◌≡◌, ◌+◌, ◌*◌, ◌^◌, ◌≤◌, ◌<◌, length};
ghost use Rattle.bits.specs.Width.{u32_values};
ghost use Rattle.bits.specs.Bits.{field, ended};

use bits::MAX_FIELD_WIDTH;

// The number in `count` bytes from byte `first`.
fn bytes_from(s: &[u8], first: usize, count: usize) -> u32
    requires { (count ≤ 4) × (first + count ≤ length s.now) }
    ensures { result ≡ field s.now (8 * first) (8 * count) }
{
    let mut v = 0u32;
    for x in &s[first..first + count] {
        v = v * 256 + u32::from(*x);
    }
    v
}

// As many bytes as a field of the greatest width touches.
const TOUCHED: usize = 4;

// The number in four bytes from byte `first`, without a loop.
fn four_bytes(s: &[u8], first: usize) -> usize
    requires { first + 4 ≤ length s.now }
    ensures { (result ≡ field s.now (8 * first) 32) × (result < u32_values) }
{
    u32::from_be_bytes([s[first], s[first + 1], s[first + 2], s[first + 3]]) as usize
}

// The number in the `width` bits from bit `at`. Where as many bytes stand from its first byte on, they are read at once.
pub fn read_field(s: &[u8], at: usize, width: usize) -> u32
    requires { (at < 2 ^ 32) × (width ≤ MAX_FIELD_WIDTH) × (at + width ≤ 8 * length s.now) }
    ensures { result ≡ field s.now at width }
{
    let end = at % 8 + width;
    if at / 8 + TOUCHED <= s.len() {
        let v = four_bytes(s, at / 8);
        return bits::lower((v >> (8 * TOUCHED - end)) as u32, width);
    }
    let count = end.div_ceil(8);
    let v = bytes_from(s, at / 8, count);
    bits::lower(v >> (8 * count - end), width)
}

// Whether the bits from bit `at` to the end are fewer than 8, and all zero.
pub fn zero_from(s: &[u8], at: usize) -> bool
    requires { at < 2 ^ 32 }
    ensures { result ≡ ended s.now at }
{
    if at.div_ceil(8) < s.len() {
        return false;
    }
    let total = 8 * s.len();
    at <= total && read_field(s, at, total - at) == 0
}
