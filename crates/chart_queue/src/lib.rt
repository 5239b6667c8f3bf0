// The priority queue of a cell: candidates that were met and not found yet, beside ranks 1, 2, .., and beside the first rank
// how many. A cell is given by its number. A candidate's back pointer is given by a tag (chart_tags). Of the candidates that follow
// none at most one is queued; its back pointer stands beside the first rank.
#![tactic(auto)]

ghost use Rattle.std.specs.Prelude.{◌≡◌, ◌+◌, ◌*◌, ◌/◌, ◌<◌, ◌≤◌};
ghost use Rattle.bits.specs.Width.{u32_values};
ghost use Rattle.chart_keys.specs.Keys.{prices, key_number};
ghost use Rattle.chart_table.specs.Table.{most_ranks, cell_bound, Sized};
ghost use Rattle.chart_tags.specs.Tags.{tags};
ghost use Rattle.chart_queue.specs.Queue.{
  tag_of,
  tagged_back,
  number_key,
  queued_key,
  queue_length,
  keep_initial,
  put_queued,
  move_queued,
  put_queue_length,
  least_place,
  replace,
  push,
  extract_min,
  keep_written,
  keep_min,
};

use bits::U32_VALUES;
use chart_entries::{COUNTS, back_at, beside_at, put_beside, put_key};
use chart_journal::{Places, keep_four};
use chart_keys::{BackPointer, Key, back_pointer, before, is_some};
use chart_table::{Layout, entry_of};
use chart_tags::{CODES, INITIAL_TAG, TAGS, code_of, is_initial, shifted};

// What stands beside the first rank has the initial candidate's back pointer above two counts.
const TALLIES: usize = COUNTS * COUNTS;

// The tag of a candidate that is met as a rank is looked for.
fn tag_of(t: &[u32], d: Layout, number: usize, rank: usize, back: usize) -> usize
    requires { (Sized d) × (number < cell_bound) × (0 < rank) × (rank ≤ most_ranks) × (back < u32_values) }
    ensures { (result ≡ tag_of t.now d number rank back) × (result < tags) }
{
    if is_initial(back_pointer(back)) {
        return INITIAL_TAG;
    }
    (rank - 1) * CODES + code_of(back_at(t, d, number, rank - 1), back)
}

// The back pointer of a tag.
fn tagged_back(t: &[u32], d: Layout, number: usize, tag: usize) -> usize
    requires { (Sized d) × (number < cell_bound) × (tag < tags) }
    ensures { result ≡ tagged_back t.now d number tag }
{
    let rank = tag / CODES;
    if rank + 1 < d.ranks {
        return shifted(back_at(t, d, number, rank), tag % CODES);
    }
    beside_at(t, d, number, 0) / TALLIES
}

// The key that a number beside a rank stands for.
fn key_of(t: &[u32], d: Layout, number: usize, n: usize) -> Key
    requires { (Sized d) × (number < cell_bound) }
    ensures { (key_number result ≡ number_key t.now d number n) × (result.price ≡ n / tags) }
{
    let back = tagged_back(t, d, number, n % TAGS);
    Key {
        price: n / TAGS,
        back,
    }
}

// The key at place y.
fn queued_key(t: &[u32], d: Layout, number: usize, y: usize) -> Key
    requires { (Sized d) × (number < cell_bound) × (y ≤ most_ranks) }
    ensures { key_number result ≡ queued_key t.now d number y }
{
    key_of(t, d, number, beside_at(t, d, number, y + 1))
}

// The queue's length, at most the number of ranks kept.
fn queue_length(t: &[u32], d: Layout, number: usize) -> usize
    requires { (Sized d) × (number < cell_bound) }
    ensures { (result ≡ queue_length t.now d number) × (result ≤ most_ranks) }
{
    (beside_at(t, d, number, 0) % COUNTS).min(d.ranks)
}

// Keeps the back pointer of a candidate that follows none.
fn keep_initial(t: &mut [u32], d: Layout, number: usize, back: usize)
    requires { (Sized d) × (number < cell_bound) × (back < u32_values) }
    ensures { t.new ≡ keep_initial t.old d number back }
{
    if is_initial(back_pointer(back)) {
        let tally = beside_at(&t[..], d, number, 0) % TALLIES;
        put_beside(t, d, number, 0, back * TALLIES + tally);
    }
}

// Writes a key that is met as a rank is looked for at place y.
fn put_queued(t: &mut [u32], d: Layout, number: usize, rank: usize, y: usize, key: Key)
    requires { (Sized d) × (number < cell_bound) × (0 < rank) × (rank ≤ most_ranks) × (y ≤ most_ranks) × (key.price < prices) }
    ensures { t.new ≡ put_queued t.old d number rank y (key_number key) }
{
    let back = key.back % U32_VALUES;
    let tag = tag_of(&t[..], d, number, rank, back);
    keep_initial(t, d, number, back);
    put_beside(t, d, number, y + 1, key.price * TAGS + tag);
}

// Writes the key of one place at another.
fn move_queued(t: &mut [u32], d: Layout, number: usize, from: usize, y: usize)
    requires { (Sized d) × (number < cell_bound) × (from ≤ most_ranks) × (y ≤ most_ranks) }
    ensures { t.new ≡ move_queued t.old d number from y }
{
    let n = beside_at(&t[..], d, number, from + 1);
    put_beside(t, d, number, y + 1, n);
}

// Writes the queue's length.
fn put_queue_length(t: &mut [u32], d: Layout, number: usize, m: usize)
    requires { (Sized d) × (number < cell_bound) × (m ≤ most_ranks + 1) }
    ensures { t.new ≡ put_queue_length t.old d number m }
{
    let n = beside_at(&t[..], d, number, 0) / COUNTS;
    put_beside(t, d, number, 0, n * COUNTS + m);
}

// The place of the least key of the first m, 0 where there are none. Only where a price is not above the least so far is the back
// pointer looked up.
fn least_place(t: &[u32], d: Layout, number: usize, m: usize) -> usize
    requires { (Sized d) × (number < cell_bound) × (m ≤ most_ranks) }
    ensures { (result ≡ least_place t.now d number m) × (result ≤ most_ranks) }
{
    let mut x: usize = 0;
    let mut best = queued_key(t, d, number, 0);
    for y in 0..m {
        let n = beside_at(t, d, number, y + 1);
        if n / TAGS <= best.price {
            let key = key_of(t, d, number, n);
            if before(key, best) {
                best = key;
                x = y;
            }
        }
    }
    x
}

// Place y of m gets a key, or, where there is none, the last of the queue.
fn replace(t: &mut [u32], d: Layout, number: usize, rank: usize, m: usize, y: usize, key: Key)
    requires { (Sized d) × (number < cell_bound) × (0 < rank) × (rank ≤ most_ranks) × (0 < m) × (m ≤ most_ranks) × (y ≤ most_ranks) }
    ensures { t.new ≡ replace t.old d number rank m y (key_number key) }
{
    if is_some(key) {
        put_queued(t, d, number, rank, y, key);
        return;
    }
    move_queued(t, d, number, m - 1, y);
    put_queue_length(t, d, number, m - 1);
}

// Pushes a key, if there is one, behind m others.
fn push(t: &mut [u32], d: Layout, number: usize, rank: usize, m: usize, key: Key)
    requires { (Sized d) × (number < cell_bound) × (0 < rank) × (rank ≤ most_ranks) × (m ≤ most_ranks) }
    ensures { t.new ≡ push t.old d number rank m (key_number key) }
{
    if is_some(key) {
        put_queued(t, d, number, rank, m, key);
        put_queue_length(t, d, number, m + 1);
    }
}

// Keeps the entries that are written when a rank is found and m are queued, of which place y has the least: those of the first rank, of
// that rank, and those beside which place y and place m stand. A journal of no numbers, as a whole listing has, keeps nothing.
fn keep_written(
    t: &[u32],
    kept: &mut [u32],
    d: Layout,
    number: usize,
    rank: usize,
    m: usize,
    y: usize,
)
    requires { (Sized d) × (number < cell_bound) × (rank ≤ most_ranks) × (m ≤ most_ranks) × (y ≤ most_ranks) }
    ensures { kept.new ≡ keep_written t.now kept.old d number rank m y }
{
    if kept.is_empty() {
        return;
    }
    let at = Places {
        first: entry_of(d, number, 0),
        second: entry_of(d, number, rank),
        third: entry_of(d, number, y + 1),
        fourth: entry_of(d, number, m + 1),
    };
    keep_four(t, kept, at);
}

// Writes the least of the queue and two more keys, the lesser first, at a rank; the others are in the queue afterwards. What is
// written over is kept.
pub fn extract_min(
    t: &mut [u32],
    kept: &mut [u32],
    d: Layout,
    number: usize,
    rank: usize,
    lo: Key,
    hi: Key,
)
    requires { (Sized d) × (number < cell_bound) × (0 < rank) × (rank ≤ most_ranks) }
    ensures t_after { t.new ≡ extract_min t.old d number rank (key_number lo) (key_number hi) }
    ensures kept_after { kept.new ≡ keep_min t.old kept.old d number rank }
{
    let m = queue_length(&t[..], d, number);
    let y = least_place(&t[..], d, number, m);
    keep_written(&t[..], kept, d, number, rank, m, y);
    let key = queued_key(&t[..], d, number, y);
    if 0 < m && before(key, lo) {
        put_key(t, d, number, rank, key);
        replace(t, d, number, rank, m, y, lo);
        push(t, d, number, rank, m, hi);
        return;
    }
    put_key(t, d, number, rank, lo);
    push(t, d, number, rank, m, hi);
}
