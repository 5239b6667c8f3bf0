// All ranks of the root in a table of zeros: the first pass, which finds the first rank of every cell, and then one rank after another.
#![tactic(auto)]

ghost use Rattle.std.specs.Prelude.{◌≡◌, ℕ, ◌<◌, ◌≤◌, get_or};
ghost use Rattle.chart_table.specs.Table.{Sized, InTable};
ghost use Rattle.chart_masks.specs.Masks.{Covers};
ghost use Rattle.chart_heads.specs.Heads.{Ruled};
ghost use Rattle.chart_search.specs.Search.{first_of_heads, first_of_length, first_pass, search};

use chart_entries::price_at;
use chart_heads::{heads_over, live_heads, mark_rules};
use chart_leaves::first_leaf;
use chart_masks::MASKS;
use chart_ranks::first_rank;
use chart_search::next_of_root;
use chart_table::{Cell, Layout, cell_number, of_head, root};
use masks::next_head;
use packing::Sym;

// Finds the first rank of every head over a cell's span. The masks cover the table before and afterwards, here and below, and say
// which heads have leaves and which may have parts. What is found over the span brings masks that have more heads.
fn first_of_heads(
    t: &mut [u32],
    masks: &mut [u32],
    rules: &[u32],
    edges: &[u32],
    index: &[u32],
    d: Layout,
    span: Cell,
)
    requires { (InTable d span) × (Covers masks.old t.old d) × (Ruled rules.now index.now d masks.old) }
    ensures t_after { t.new ≡ first_of_heads rules.now edges.now index.now d t.old span.from span.to }
    ensures covers { Covers masks.new t.new d }
    ensures ruled { Ruled rules.now index.now d masks.new }
{
    let leafy = heads_over(&masks[..], edges, index, span);
    let mut live = live_heads(&masks[..], d, span, leafy);
    let n = d.symbols;
    let mut a = next_head(live, 0, n);
    while a < n {
        let c = of_head(span, Sym(a as u32));
        let leaf = first_leaf(rules, edges, index, &masks[..], leafy, c);
        first_rank(t, masks, rules, index, d, c, leaf);
        live = live_heads(&masks[..], d, span, leafy);
        a = next_head(live, a + 1, n);
    }
}

// Finds the first rank of every head over every span of a length.
fn first_of_length(
    t: &mut [u32],
    masks: &mut [u32],
    rules: &[u32],
    edges: &[u32],
    index: &[u32],
    d: Layout,
    len: usize,
)
    requires { (Sized d) × (0 < len) × (len ≤ d.last) × (Covers masks.old t.old d) × (Ruled rules.now index.now d masks.old) }
    ensures t_after { t.new ≡ first_of_length rules.now edges.now index.now d t.old len }
    ensures covers { Covers masks.new t.new d }
    ensures ruled { Ruled rules.now index.now d masks.new }
{
    let m = d.last + 1 - len;
    for i in 0..m {
        let span = Cell {
            head: Sym(0),
            from: i,
            to: i + len,
        };
        first_of_heads(t, masks, rules, edges, index, d, span);
    }
}

// The first pass: finds the first rank of every cell, over shorter spans first.
fn first_pass(
    t: &mut [u32],
    masks: &mut [u32],
    rules: &[u32],
    edges: &[u32],
    index: &[u32],
    d: Layout,
)
    requires { (Sized d) × (Covers masks.old t.old d) × (Ruled rules.now index.now d masks.old) }
    ensures { t.new ≡ first_pass rules.now edges.now index.now d t.old }
{
    let n = d.last;
    for x in 0..n {
        first_of_length(t, masks, rules, edges, index, d, x + 1);
    }
}

// Finds the ranks of the root, as many as are kept and up to one that is not there, in a table of zeros. Nothing is written over.
pub fn search(t: &mut [u32], rules: &[u32], edges: &[u32], index: &[u32], d: Layout)
    requires { (Sized d) × (0 < d.last) × ((x : ℕ) → get_or t.old x 0 ≡ 0) }
    ensures { t.new ≡ search rules.now edges.now index.now d t.old }
{
    let mut masks = [0u32; MASKS];
    mark_rules(&mut masks, rules, index, d);
    first_pass(t, &mut masks, rules, edges, index, d);
    let mut kept = [0u32; 0];
    let m = d.ranks - 1;
    for x in 0..m {
        if price_at(&t[..], d, cell_number(d, root(d)), x) == 0 {
            return;
        }
        next_of_root(t, &mut kept, rules, edges, index, d, x);
    }
}
