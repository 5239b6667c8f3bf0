// The search for one more rank: of a cell, with what it needs of the parts, and so of the root.
#![tactic(auto)]

ghost use Rattle.std.specs.Prelude.{◌≡◌, ℕ, suc, ◌+◌, ◌-◌, ◌<◌, ◌≤◌};
ghost use Rattle.chart_keys.specs.Keys.{Digits};
ghost use Rattle.chart_table.specs.Table.{Sized, InTable};
ghost use Rattle.chart_search.specs.Search.{
  extend,
  advance_pairing,
  next_of_span,
  next_of_root,
  back_before,
  keep_extend,
  keep_pairing,
  keep_of_span,
  keep_of_root,
};

use arrays::rule_at;
use chart_entries::{back_at, price_at};
use chart_keys::{BackPointer, back_pointer};
use chart_ranks::next_rank;
use chart_table::{Cell, Layout, Part, cell_number, left_part, right_part, root};
use packing::Rule;

// Finds a further rank of a cell, where the ranks below are found, with what it needs of the parts. What is written over is kept.
#[cycle(advance_pairing_extend_next_of_span)]
fn next_of_span(
    t: &mut [u32],
    kept: &mut [u32],
    rules: &[u32],
    edges: &[u32],
    index: &[u32],
    d: Layout,
    part: Part,
)
    requires { (InTable d part.cell) × (0 < part.rank) × (part.rank < d.ranks) }
    ensures by_index { (f : ℕ) → part.cell.to - part.cell.from ≤ f → t.new
        ≡ next_of_span rules.now edges.now index.now d f t.old part.cell part.rank }
    ensures by_index_2 { (f : ℕ) → part.cell.to - part.cell.from ≤ f → kept.new
        ≡ keep_of_span rules.now edges.now index.now d f t.old kept.old part.cell part.rank }
{
    advance_pairing(t, kept, rules, edges, index, d, part);
    next_rank(t, kept, rules, edges, index, d, part);
}

// Sees that what may succeed the pairing found before a rank stands in the table: the next of its right part, and of its left where the
// right is first. The split is tested, since a table may hold anything.
#[cycle(advance_pairing_extend_next_of_span)]
fn advance_pairing(
    t: &mut [u32],
    kept: &mut [u32],
    rules: &[u32],
    edges: &[u32],
    index: &[u32],
    d: Layout,
    part: Part,
)
    requires { (InTable d part.cell) × (0 < part.rank) × (part.rank < d.ranks) }
    ensures by_index { (f : ℕ) → part.cell.to - part.cell.from ≤ suc f → t.new
        ≡ advance_pairing rules.now d (next_of_span rules.now edges.now index.now d f) t.old part.cell
        (back_before t.old d part.cell part.rank) }
    ensures by_index_2 { (f : ℕ) → part.cell.to - part.cell.from ≤ suc f → kept.new
        ≡ keep_pairing rules.now d (next_of_span rules.now edges.now index.now d f)
        (keep_of_span rules.now edges.now index.now d f) t.old kept.old part.cell
        (back_before t.old d part.cell part.rank) }
{
    let c = part.cell;
    let b = back_before(&t[..], d, part);
    let split = b.split;
    let last = c.to - 1;
    if c.from < split {
        if split <= last {
            let rule = rule_at(rules, b.rule);
            match rule {
                Rule::Pair(_, first, second, _) => {
                    let right = part_of(right_part(c, second, split), b.right + 1);
                    extend(t, kept, rules, edges, index, d, right);
                    if b.right == 0 {
                        let left = part_of(left_part(c, first, split), b.left + 1);
                        extend(t, kept, rules, edges, index, d, left);
                    }
                }
                Rule::Word(_, _, _) => {}
            }
        }
    }
}

// The back pointer of the rank before one.
fn back_before(t: &[u32], d: Layout, part: Part) -> BackPointer
    requires { (InTable d part.cell) × (0 < part.rank) × (part.rank < d.ranks) }
    ensures { (result ≡ back_before t.now d part.cell part.rank) × Digits result }
{
    back_pointer(back_at(t, d, cell_number(d, part.cell), part.rank - 1))
}

// A rank of a cell.
fn part_of(cell: Cell, rank: usize) -> Part
    ensures { result ≡ record { cell = cell; rank = rank } }
{
    Part { cell, rank }
}

// Finds a further rank of a cell, where the ranks below are found, if it is kept and not found.
#[cycle(advance_pairing_extend_next_of_span)]
fn extend(
    t: &mut [u32],
    kept: &mut [u32],
    rules: &[u32],
    edges: &[u32],
    index: &[u32],
    d: Layout,
    part: Part,
)
    requires { (InTable d part.cell) × (0 < part.rank) }
    ensures by_index { (f : ℕ) → part.cell.to - part.cell.from ≤ f → t.new
        ≡ extend d (next_of_span rules.now edges.now index.now d f) t.old part.cell part.rank }
    ensures by_index_2 { (f : ℕ) → part.cell.to - part.cell.from ≤ f → kept.new
        ≡ keep_extend d (keep_of_span rules.now edges.now index.now d f) t.old kept.old part.cell
        part.rank }
{
    let c = part.cell;
    let rank = part.rank;
    if rank < d.ranks {
        if price_at(&t[..], d, cell_number(d, c), rank) == 0 {
            next_of_span(t, kept, rules, edges, index, d, part);
        }
    }
}

// Finds the rank of the root behind rank x, if rank x is found. What is written over is kept.
pub fn next_of_root(
    t: &mut [u32],
    kept: &mut [u32],
    rules: &[u32],
    edges: &[u32],
    index: &[u32],
    d: Layout,
    x: usize,
)
    requires { (Sized d) × (0 < d.last) × (x + 1 < d.ranks) }
    ensures t_after { t.new ≡ next_of_root rules.now edges.now index.now d t.old x }
    ensures kept_after { kept.new ≡ keep_of_root rules.now edges.now index.now d t.old kept.old x }
{
    let c = root(d);
    if price_at(&t[..], d, cell_number(d, c), x) == 0 {
        return;
    }
    extend(t, kept, rules, edges, index, d, part_of(c, x + 1));
}
