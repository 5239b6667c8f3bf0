// One rank of a cell written into the work table, from what the table has of it and of its parts.
#![tactic(auto)]

ghost use Rattle.std.specs.Prelude.{◌≡◌, ◌-◌, ◌<◌, ◌≤◌};
ghost use Rattle.chart_keys.specs.Keys.{Digits, key_number, no_key};
ghost use Rattle.chart_queue.specs.Queue.{keep_min};
ghost use Rattle.chart_table.specs.Table.{InTable, Sized, most_ranks, cell_bound, cell_number, put_key};
ghost use Rattle.chart_masks.specs.Masks.{Covers};
ghost use Rattle.chart_heads.specs.Heads.{Ruled};
ghost use Rattle.chart_candidates.specs.Candidates.{seeds};
ghost use Rattle.chart_ranks.specs.Ranks.{found_at, next_rank};

use chart_entries::{back_at, price_at, put_key};
use chart_keys::{Key, PRICES, back_pointer, before, no_key};
use chart_masks::mark;
use chart_queue::extract_min;
use chart_seeds::first_seeds;
use chart_successors::{Found, replacement, successors};
use chart_table::{Cell, Layout, Part, cell_number};

// A rank that is found, of a cell given by its number.
#[tactic(auto, unfolding(crate::specs::Ranks::found_at))]
fn found_at(t: &[u32], d: Layout, number: usize, rank: usize) -> Found
    requires { (Sized d) × (number < cell_bound) × (rank ≤ most_ranks) }
    ensures { (result ≡ found_at t.now d number rank) × Digits result.back }
{
    let price = price_at(t, d, number, rank);
    let back = back_at(t, d, number, rank);
    Found {
        key: Key { price, back },
        back: back_pointer(back),
    }
}

// Writes the first rank of a cell, the least of its leaves and seeds, from its least leaf, and marks it if it is found. The masks
// cover the table before and afterwards.
pub fn first_rank(
    t: &mut [u32],
    masks: &mut [u32],
    rules: &[u32],
    index: &[u32],
    d: Layout,
    c: Cell,
    leaf: Key,
)
    requires { (InTable d c) × (c.head.0 < d.symbols) × (Covers masks.old t.old d) × (key_number leaf ≤ no_key) }
    ensures t_after { t.new ≡ put_key t.old d (cell_number d c) 0
        (seeds t.old d rules.now index.now c 0 (key_number leaf)) }
    ensures covers { Covers masks.new t.new d }
    ensures ruled { Ruled rules.now index.now d masks.old
        → Ruled rules.now index.now d masks.new }
{
    let key = first_seeds(&t[..], &masks[..], d, rules, index, c, leaf);
    if key.price < PRICES {
        put_key(t, d, cell_number(d, c), 0, key);
        mark(masks, c);
    }
}

// Writes a further rank of a cell, where the ranks below are found: the least of the queue, the successors of the rank before
// it, and what replaces that. What is written over is kept.
#[tactic(auto, unfolding(crate::specs::Ranks::next_rank))]
pub fn next_rank(
    t: &mut [u32],
    kept: &mut [u32],
    rules: &[u32],
    edges: &[u32],
    index: &[u32],
    d: Layout,
    part: Part,
)
    requires { (InTable d part.cell) × (0 < part.rank) × (part.rank < d.ranks) }
    ensures t_after { t.new ≡ next_rank rules.now edges.now index.now d part.cell part.rank t.old }
    ensures kept_after { kept.new ≡ keep_min t.old kept.old d (cell_number d part.cell) part.rank }
{
    let c = part.cell;
    let rank = part.rank;
    let number = cell_number(d, c);
    let last = found_at(&t[..], d, number, rank - 1);
    let successor = successors(&t[..], d, rules, c, last, no_key());
    let other = replacement(&t[..], d, rules, edges, index, c, last);
    let (first, second) = if before(other, successor) {
        (other, successor)
    } else {
        (successor, other)
    };
    extract_min(t, kept, d, number, rank, first, second);
}
