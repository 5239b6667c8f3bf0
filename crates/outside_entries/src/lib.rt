// The outside weights in the entries of a table for one reading. Such a table has four numbers a cell and leaves the fourth free; there they stand, plus
// 1, with 0 for none. Inside weights, the least of a cell's own trees, are those of its first rank.
#![tactic(auto)]

ghost use Rattle.std.specs.Prelude.{◌≡◌, ◌/◌, ◌<◌, length, get_or, set, replicate};
ghost use Rattle.bits.specs.Width.{u32_values};
ghost use Rattle.chart_table.specs.Table.{cell_bound, cell_number, root, Sized};
ghost use Rattle.outside_entries.specs.Entries.{fourths, plain, sums, lesser, inside_at, lower, push_split};

use arrays::{number_at, store};
use bits::U32_VALUES;
use chart_entries::price_at;
use chart_keys::WEIGHT_UNIT;
use chart_table::{ENTRY_NUMBERS, Layout, cell_number, root};

// Where an entry's free number stands.
const FREE_AT: usize = 3;

// What stands around the whole weighs nothing: 0, plus 1.
const AROUND_ROOT: usize = 1;

// The lesser of two weights plus 1, where 0 is none.
pub fn lesser(a: usize, b: usize) -> usize
    requires { (a < sums) × (b < sums) }
    ensures { (result ≡ lesser a b) × (result < sums) }
{
    if a == 0 {
        return b;
    }
    if b == 0 {
        return a;
    }
    if b < a {
        return b;
    }
    a
}

// The inside weight of a cell, plus 1.
fn inside_at(t: &[u32], d: Layout, number: usize) -> usize
    requires { (Sized d) × (number < cell_bound) }
    ensures { (result ≡ inside_at (plain t.now) d number) × (result < 8388608) }
{
    let price = price_at(t, d, number, 0);
    if price == 0 {
        return 0;
    }
    (price - 1) / WEIGHT_UNIT + 1
}

// The outside weight of a cell, plus 1.
pub fn outside_at(t: &[u32], number: usize) -> usize
    requires { number < cell_bound }
    ensures { (result ≡ get_or (fourths t.now) number 0) × (result < u32_values) }
{
    number_at(t, ENTRY_NUMBERS * number + FREE_AT)
}

// Lowers the outside weight of a cell to another, where that is less.
fn lower(t: &mut [u32], number: usize, x: usize)
    requires { (number < cell_bound) × (x < sums) }
    ensures { (fourths t.new ≡ lower (fourths t.old) number x) × (plain t.new ≡ plain t.old) }
{
    let least = lesser(outside_at(&t[..], number), x);
    store(
        t,
        ENTRY_NUMBERS * number + FREE_AT,
        (least % U32_VALUES) as u32,
    );
}

// Lowers what stands around both parts of a node, from what stands around the node and its rule, plus 1: around each part there is the other
// one too. Where a part holds no tree, nothing is lowered.
pub fn push_split(t: &mut [u32], d: Layout, left: usize, right: usize, around: usize)
    requires { (Sized d) × (left < cell_bound) × (right < cell_bound) × (around < 8589934592) }
    ensures { (fourths t.new ≡ push_split (fourths t.old) (plain t.old) d left right around)
        × (plain t.new ≡ plain t.old) }
{
    let own = inside_at(&t[..], d, left);
    if own == 0 {
        return;
    }
    let other = inside_at(&t[..], d, right);
    if other == 0 {
        return;
    }
    lower(t, left, around + (other - 1));
    lower(t, right, around + (own - 1));
}

// Makes the free numbers 0.
fn blank(t: &mut [u32])
    ensures { (fourths t.new ≡ replicate (length t.old / 4) 0) × (plain t.new ≡ plain t.old) }
{
    let count = t.len() / ENTRY_NUMBERS;
    for c in 0..count {
        t[ENTRY_NUMBERS * c + FREE_AT] = 0;
    }
}

// Puts what stands around the root, and none for all other cells.
pub fn put_around_root(t: &mut [u32], d: Layout)
    requires { (Sized d) × (0 < d.last) }
    ensures { (fourths t.new ≡ set (replicate (length t.old / 4) 0) (cell_number d (root d)) 1)
        × (plain t.new ≡ plain t.old) }
{
    blank(t);
    lower(t, cell_number(d, root(d)), AROUND_ROOT);
}
