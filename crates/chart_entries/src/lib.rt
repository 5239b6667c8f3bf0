// The entries of the work table: a tree's price and back pointer, and what stands beside them.
#![tactic(auto)]

ghost use Rattle.std.specs.Prelude.{◌≡◌, ◌+◌, ◌<◌, ◌≤◌, length};
ghost use Rattle.bits.specs.Width.{u32_values};
ghost use Rattle.chart_keys.specs.Keys.{prices, key_number};
ghost use Rattle.chart_table.specs.Table.{
  most_ranks,
  cell_bound,
  counts,
  besides,
  price_of,
  price_in,
  price_at,
  back_at,
  beside_at,
  put_beside,
  put_found,
  put_last_rank,
  put_key,
  first_missing,
  Sized,
};

use arrays::{narrow_at, number_at, store, wide};
use bits::U32_VALUES;
use chart_keys::{Key, PRICES};
use chart_table::{Layout, entry_of};

// The numbers that the upper bits of a price are below, and those that a rank and a queue's length are below.
const PRICE_HIGH: usize = PRICES / U32_VALUES;

pub const COUNTS: usize = 512;

// The price of an entry's tree, plus 1, from the entry's first two numbers: of 64 bits the lower 43.
fn price_of(low: u32, high: u32) -> usize
    ensures { (result ≡ price_of low high) × (result < prices) }
{
    (wide(high) * U32_VALUES + wide(low)) % PRICES
}

// The same of an entry that stands in the table.
pub fn price_within(t: &[u32], at: usize) -> usize
    requires { at + 1 < length t.now }
    ensures { (result ≡ price_in t.now at) × (result < prices) }
{
    price_of(t[at], t[at + 1])
}

// The price plus 1 of a rank of a cell, or 0 where it is not found or not kept.
pub fn price_at(t: &[u32], d: Layout, number: usize, rank: usize) -> usize
    requires { (Sized d) × (number < cell_bound) }
    ensures { (result ≡ price_at t.now d number rank) × (result < prices) }
{
    if rank < d.ranks {
        let at = entry_of(d, number, rank);
        price_of(narrow_at(t, at), narrow_at(t, at + 1))
    } else {
        0
    }
}

// The back pointer of a rank of a cell, as a number.
pub fn back_at(t: &[u32], d: Layout, number: usize, rank: usize) -> usize
    requires { (Sized d) × (number < cell_bound) × (rank ≤ counts) }
    ensures { (result ≡ back_at t.now d number rank) × (result < u32_values) }
{
    number_at(t, entry_of(d, number, rank) + 2)
}

// What stands beside the tree of an entry, a number of 53 bits: the fourth number, and above it 21 bits of the second.
pub fn beside_at(t: &[u32], d: Layout, number: usize, rank: usize) -> usize
    requires { (Sized d) × (number < cell_bound) × (rank ≤ counts) }
    ensures { (result ≡ beside_at t.now d number rank) × (result < besides) }
{
    let at = entry_of(d, number, rank);
    number_at(t, at + 1) / PRICE_HIGH * U32_VALUES + number_at(t, at + 3)
}

// Writes what stands beside the tree of an entry; the tree stays.
pub fn put_beside(t: &mut [u32], d: Layout, number: usize, rank: usize, n: usize)
    requires { (Sized d) × (number < cell_bound) × (rank ≤ counts) × (n < besides) }
    ensures { t.new ≡ put_beside t.old d number rank n }
{
    let at = entry_of(d, number, rank);
    let high = number_at(&t[..], at + 1) % PRICE_HIGH;
    store(t, at + 1, (n / U32_VALUES * PRICE_HIGH + high) as u32);
    store(t, at + 3, (n % U32_VALUES) as u32);
}

// Writes the tree of an entry; what stands beside it stays.
fn put_found(t: &mut [u32], d: Layout, number: usize, rank: usize, key: Key)
    requires { (Sized d) × (number < cell_bound) × (rank ≤ counts) × (key.price < prices) }
    ensures { t.new ≡ put_found t.old d number rank key.price key.back }
{
    let at = entry_of(d, number, rank);
    let beside = number_at(&t[..], at + 1) / PRICE_HIGH;
    store(t, at, (key.price % U32_VALUES) as u32);
    store(
        t,
        at + 1,
        (beside * PRICE_HIGH + key.price / U32_VALUES) as u32,
    );
    store(t, at + 2, (key.back % U32_VALUES) as u32);
}

// A rank is found, and is the last one unless one behind it was.
fn put_last_rank(t: &mut [u32], d: Layout, number: usize, rank: usize)
    requires { (Sized d) × (number < cell_bound) × (rank ≤ most_ranks) }
    ensures { t.new ≡ put_last_rank t.old d number rank }
{
    let tally = beside_at(&t[..], d, number, 0);
    if tally / COUNTS % COUNTS < rank {
        put_beside(
            t,
            d,
            number,
            0,
            (tally / (COUNTS * COUNTS) * COUNTS + rank) * COUNTS + tally % COUNTS,
        );
    }
}

// Writes a key at a rank of a cell; the key of no tree and what is above it change nothing.
pub fn put_key(t: &mut [u32], d: Layout, number: usize, rank: usize, key: Key)
    requires { (Sized d) × (number < cell_bound) × (rank ≤ most_ranks) }
    ensures { t.new ≡ put_key t.old d number rank (key_number key) }
{
    if key.price < PRICES {
        put_found(t, d, number, rank, key);
        put_last_rank(t, d, number, rank);
    }
}

// The first rank of a cell that is not found, or how many are kept where all are: as many are found as are looked at before it.
pub fn first_missing(t: &[u32], d: Layout, number: usize) -> usize
    requires { (Sized d) × (number < cell_bound) }
    ensures { (result ≡ first_missing t.now d number) × (result ≤ d.ranks) }
{
    let ranks = d.ranks;
    for x in 0..ranks {
        if price_at(t, d, number, x) == 0 {
            return x;
        }
    }
    ranks
}
