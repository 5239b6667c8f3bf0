// Masks of 32 bits: sets of places, or of heads.
#![tactic(auto)]

ghost use Rattle.std.specs.Prelude.{true, ◌≡◌, ℕ, ◌<◌, ◌≤◌, length};
ghost use Rattle.masks.specs.Digits.{digit, Disjoint, Put};

// Whether two masks have nothing in common.
pub fn disjoint(x: u32, y: u32) -> bool
    ensures { result ≡ true → Disjoint x y }
{
    x & y == 0
}

// The mask of one place, or of one head.
pub fn only(place: usize) -> u32
    requires { place < 32 }
    ensures { digit result place ≡ 1 }
{
    1 << place
}

// Whether a head is not in a mask.
pub fn lacks(x: u32, head: usize) -> bool
    requires { head < 32 }
    ensures { result ≡ true → digit x head ≡ 0 }
{
    x & (1 << head) == 0
}

// The first head from one on that a mask has, of n heads, or n where it has none: n ends the loops over heads, so that an Option would
// only add a test.
fn head_from(heads: u32, from: usize, n: usize) -> usize
    requires { (from < n) × (n ≤ 32) }
    ensures { (from ≤ result) × (result ≤ n) × ((b : ℕ) → from ≤ b → b < result → digit heads b ≡ 0) }
{
    let next = from + u32::trailing_zeros(heads >> from) as usize;
    next.min(n)
}

// The same. Where most heads are in the mask, the test of the very next one is foreseen right, and nothing waits for the mask.
pub fn next_head(heads: u32, from: usize, n: usize) -> usize
    requires { (from ≤ n) × (n ≤ 32) }
    ensures { (from ≤ result) × (result ≤ n) × ((b : ℕ) → from ≤ b → b < result → digit heads b ≡ 0) }
{
    if n <= from {
        return n;
    }
    if lacks(heads, from) {
        return head_from(heads, from, n);
    }
    from
}

// Puts what is in a mask into another.
pub fn put(masks: &mut [u32], at: usize, x: u32)
    requires { at < length masks.old }
    ensures { Put masks.old at x masks.new }
{
    masks[at] |= x;
}
