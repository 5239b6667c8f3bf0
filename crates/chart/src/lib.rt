// The chart as its callers see it: a work table laid out, the least trees of the root enumerated in it, traced back, and the
// table cleared.
#![tactic(auto)]

ghost use Rattle.std.specs.Prelude.{◌≡◌, ◌-◌, ◌/◌, ◌<◌, ◌≤◌, length, drop, replicate};
ghost use Rattle.packing.specs.Store.{store_all};
ghost use Rattle.chart_keys.specs.Keys.{prices, weight_unit};
ghost use Rattle.chart_table.specs.Table.{Sized, clear};
ghost use Rattle.chart.specs.Chart.{enumerate, roots_found, root_weight, root_trace};

use arrays::zero;
use chart_classes::INDEX_NUMBERS;
use chart_clearing::clear;
use chart_entries::{first_missing, price_at};
use chart_index::make_index;
use chart_keys::WEIGHT_UNIT;
pub use chart_layout::{lay_out, table_numbers};
use chart_passes::search;
use chart_table::{ENTRY_NUMBERS, Layout, cell_number, root};
use chart_trace::trace_back;

// Makes the numbers behind the front of a table 0.
fn zero_behind(t: &mut [u32], front: usize)
    ensures { drop front t.new ≡ replicate (length t.old - front) 0 }
{
    if front <= t.len() {
        zero(&mut t[front..]);
    }
}

// Makes the front of a table, behind which all numbers are 0, zeros too.
fn zero_front(t: &mut [u32], front: usize)
    ensures { drop front t.old ≡ replicate (length t.old - front) 0 → t.new ≡ replicate (length t.old) 0 }
{
    if front <= t.len() {
        zero(&mut t[..front]);
    } else {
        zero(t);
    }
}

// Finds the least trees of the root under the first `count` rules, over the first `arcs` edges, as many as ranks are kept, in a
// table that may hold anything before. Answers their number. The table may be larger than the processor's caches, so the index and the
// table's front, where the first ranks of all cells stand and the search begins, are made last.
pub fn enumerate(
    t: &mut [u32],
    rules: &[u32],
    count: usize,
    edges: &[u32],
    arcs: usize,
    d: Layout,
) -> usize
    requires { (Sized d) × (0 < d.last) × (count ≤ 256) × (arcs ≤ 256) }
    ensures t_after { t.new ≡ enumerate rules.now count edges.now arcs d (length t.old) }
    ensures value { (result ≡ roots_found t.new d) × (result ≤ d.ranks) }
{
    let front = ENTRY_NUMBERS * d.cells;
    zero_behind(t, front);
    let mut index = [0u32; INDEX_NUMBERS];
    make_index(rules, count, d.symbols, edges, arcs, d.last, &mut index);
    zero_front(t, front);
    search(t, rules, edges, &index, d);
    first_missing(&t[..], d, cell_number(d, root(d)))
}

// The weight of a tree from its price plus 1.
fn found_weight(x: usize) -> u32
    requires { x < prices }
    ensures { result ≡ (x - 1) / weight_unit }
{
    if x == 0 {
        0
    } else {
        ((x - 1) / WEIGHT_UNIT) as u32
    }
}

// The weight of a rank of the root.
pub fn root_weight(t: &[u32], d: Layout, rank: usize) -> u32
    requires { (Sized d) × (0 < d.last) × (rank < d.ranks) }
    ensures { result ≡ root_weight t.now d rank }
{
    found_weight(price_at(t, d, cell_number(d, root(d)), rank))
}

// Writes the trace of a rank of the root from the first place on, and answers how many numbers it has.
pub fn trace_root(t: &[u32], rules: &[u32], d: Layout, rank: usize, trace: &mut [u32]) -> usize
    requires { (Sized d) × (0 < d.last) × (rank < d.ranks) }
    ensures { (trace.new ≡ store_all trace.old 0 (root_trace t.now rules.now d rank))
        × (result ≡ length (root_trace t.now rules.now d rank)) }
{
    trace_back(t, rules, d, root(d), rank, trace)
}

// Makes the entries of all ranks found 0. An enumerated table is 0 everywhere else.
pub fn clear_table(t: &mut [u32], d: Layout)
    requires { Sized d }
    ensures { t.new ≡ clear t.old d }
{
    clear(t, d);
}
