// Numbers of bits: the width of a number, and its lower bits.
#![tactic(auto)]

ghost use Rattle.std.specs.Prelude.{◌≡◌, ◌-◌, ◌%◌, ◌^◌, ◌≤◌, ◌<◌};
ghost use Rattle.bits.specs.Width.{width_of};

// The greatest width of a field that is read or written.
pub const MAX_FIELD_WIDTH: usize = 24;

// The numbers below this are those of which a width is taken, and the greatest of their widths.
pub const MAX_BELOW: usize = 256;

pub const MAX_WIDTH: usize = 8;

// How many values a u32 has.
pub const U32_VALUES: usize = 4294967296;

// The lower `width` bits of a number.
pub fn lower(value: u32, width: usize) -> u32
    requires { width ≤ MAX_FIELD_WIDTH }
    ensures { result ≡ value % 2 ^ width }
{
    value % (1 << width)
}

// How many bits x needs, at least 1: those behind its leading zeros.
fn width_of(x: usize) -> usize
    requires { x < MAX_BELOW }
    ensures { (result ≡ width_of x) × (result ≤ MAX_WIDTH) }
{
    if x == 0 {
        return 1;
    }
    (usize::BITS - x.leading_zeros()) as usize
}

// The width of a number below n.
pub fn width_below(n: usize) -> usize
    requires { (1 ≤ n) × (n ≤ MAX_BELOW) }
    ensures { (result ≡ width_of (n - 1)) × (result ≤ MAX_WIDTH) }
{
    width_of(n - 1)
}
