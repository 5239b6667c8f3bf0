// The ranks of the root one by one, in a table that comes back as it was left, and what was written over put back.
#![tactic(auto)]

ghost use Rattle.std.specs.Prelude.{◌≡◌, ◌+◌, ◌≤◌, ◌<◌};
ghost use Rattle.chart_index.specs.Build.{make_index};
ghost use Rattle.chart_journal.specs.Journal.{put_back};
ghost use Rattle.chart_table.specs.Table.{Sized};
ghost use Rattle.chart_search.specs.Search.{next_of_root, keep_of_root};

use chart_index::make_index;
use chart_journal::put_back;
use chart_search::next_of_root;
use chart_table::Layout;
pub use checked_roots::{checked_root, root_found};

// The index of the first `count` rules and of the first `arcs` edges.
pub fn index_of(
    rules: &[u32],
    count: usize,
    edges: &[u32],
    arcs: usize,
    d: Layout,
    index: &mut [u32],
)
    requires { (Sized d) × (count ≤ 256) × (arcs ≤ 256) }
    ensures { index.new ≡ make_index rules.now count d.symbols edges.now arcs d.last index.old }
{
    make_index(rules, count, d.symbols, edges, arcs, d.last, index);
}

// Finds the rank of the root behind rank x, if rank x is found. What is written over is kept.
pub fn step(
    t: &mut [u32],
    kept: &mut [u32],
    rules: &[u32],
    edges: &[u32],
    index: &[u32],
    d: Layout,
    x: usize,
)
    requires { (Sized d) × (0 < d.last) × (x + 1 < d.ranks) }
    ensures t_after { t.new ≡ next_of_root rules.now edges.now index.now d t.old x }
    ensures kept_after { kept.new ≡ keep_of_root rules.now edges.now index.now d t.old kept.old x }
{
    next_of_root(t, kept, rules, edges, index, d, x);
}

// Puts back what a step wrote over.
pub fn undo(t: &mut [u32], kept: &[u32])
    ensures { t.new ≡ put_back kept.now t.old }
{
    put_back(t, kept);
}
