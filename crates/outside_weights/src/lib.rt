// Outside weights: of each cell that holds a tree, the least weight of what stands around it in a derivation. A node that has an outside weight hands
// on what stands around its parts, each of its rules once for both, the longer nodes first.
#![tactic(auto)]

ghost use Rattle.std.specs.Prelude.{◌≡◌, ◌/◌, ◌≤◌, ◌<◌, length, replicate};
ghost use Rattle.bits.specs.Width.{u32_values};
ghost use Rattle.packing.specs.Flat.{rule_at};
ghost use Rattle.chart_table.specs.Table.{Sized};
ghost use Rattle.one_best.specs.Model.{Passable};
ghost use Rattle.found_masks.specs.Marks.{Found};
ghost use Rattle.outside_entries.specs.Entries.{fourths, plain};
ghost use Rattle.outside_theory.specs.Model.{
  push_splits,
  push_rule,
  push_rules,
  push_node,
  over_heads,
  over_spans,
  over_lengths,
};
ghost use Rattle.outside_weights.specs.Model.{fill};

use arrays::{number_at, rule_at, wide};
use chart_classes::{INDEX_NUMBERS, PAIR_BASE, class_end, class_start};
use chart_index::make_index;
use chart_masks::{MASKS, meet};
use chart_table::{Cell, Layout, cell_number};
use found_masks::mark_found;
use one_best::Pass;
use outside_entries::{outside_at, push_split, put_around_root};
use packing::{Rule, Sym};

// Lowers what stands around both parts of a node at every place between its ends, from what stands around the node and its rule, plus 1.
fn push_splits(t: &mut [u32], d: Layout, node: Cell, first: Sym, second: Sym, around: usize)
    requires { (Sized d) × (node.from < node.to) × (node.to ≤ d.last) × (around < 8589934592) }
    ensures { (fourths t.new ≡ push_splits (fourths t.old) (plain t.old) d node first second around)
        × (plain t.new ≡ plain t.old) }
{
    let splits = node.to - node.from - 1;
    for x in 0..splits {
        let split = node.from + x + 1;
        let left = Cell {
            head: first,
            from: node.from,
            to: split,
        };
        let right = Cell {
            head: second,
            from: split,
            to: node.to,
        };
        push_split(t, d, cell_number(d, left), cell_number(d, right), around);
    }
}

// The same, if the masks have a place where both parts hold a tree.
fn push_parts(
    t: &mut [u32],
    masks: &[u32],
    d: Layout,
    node: Cell,
    first: Sym,
    second: Sym,
    around: usize,
)
    requires { (Sized d) × (node.from < node.to) × (node.to ≤ d.last) × (around < 8589934592) × (Found (plain t.old) d masks.now) }
    ensures { (fourths t.new ≡ push_splits (fourths t.old) (plain t.old) d node first second around)
        × (plain t.new ≡ plain t.old) }
{
    if meet(masks, d, first, second, node) {
        push_splits(t, d, node, first, second, around);
    }
}

// The same by a rule of the node's head, from what stands around the node.
fn push_rule(
    t: &mut [u32],
    masks: &[u32],
    rules: &[u32],
    r: usize,
    d: Layout,
    node: Cell,
    outer: usize,
)
    requires { (Sized d) × (node.from < node.to) × (node.to ≤ d.last) × (Found (plain t.old) d masks.now) × (r < u32_values)
        × (outer < u32_values) }
    ensures { (fourths t.new ≡ push_rule (fourths t.old) (plain t.old) d node outer (rule_at rules.now r))
        × (plain t.new ≡ plain t.old) }
{
    let rule = rule_at(rules, r);
    match rule {
        Rule::Pair(_, first, second, weight) => {
            push_parts(t, masks, d, node, first, second, outer + wide(weight));
        }
        Rule::Word(_, _, _) => {}
    }
}

// By all rules of the node's head.
fn push_rules(
    t: &mut [u32],
    masks: &[u32],
    rules: &[u32],
    index: &[u32],
    d: Layout,
    node: Cell,
    outer: usize,
)
    requires { (Sized d) × (node.from < node.to) × (node.to ≤ d.last) × (Found (plain t.old) d masks.now) × (node.head.0 < u32_values)
        × (outer < u32_values) }
    ensures { (fourths t.new
        ≡ push_rules (fourths t.old) (plain t.old) rules.now index.now d node outer)
        × (plain t.new ≡ plain t.old) }
{
    let start = class_start(index, PAIR_BASE, wide(node.head.0));
    let end = class_end(index, PAIR_BASE, wide(node.head.0));
    for y in start..end {
        push_rule(t, masks, rules, number_at(index, y), d, node, outer);
    }
}

// If the node has an outside weight.
fn push_node(t: &mut [u32], masks: &[u32], rules: &[u32], index: &[u32], d: Layout, node: Cell)
    requires { (Sized d) × (node.from < node.to) × (node.to ≤ d.last) × (Found (plain t.old) d masks.now) × (node.head.0 < u32_values) }
    ensures { (fourths t.new
        ≡ push_node (fourths t.old) (plain t.old) rules.now index.now d node)
        × (plain t.new ≡ plain t.old) }
{
    let outer = outside_at(&t[..], cell_number(d, node));
    if outer == 0 {
        return;
    }
    push_rules(t, masks, rules, index, d, node, outer);
}

// Hands on what stands around the nodes of all heads over one span.
fn over_heads(
    t: &mut [u32],
    masks: &[u32],
    rules: &[u32],
    index: &[u32],
    d: Layout,
    from: usize,
    to: usize,
)
    requires { (Sized d) × (from < to) × (to ≤ d.last) × (Found (plain t.old) d masks.now) }
    ensures { (fourths t.new
        ≡ over_heads (fourths t.old) (plain t.old) rules.now index.now d from to)
        × (plain t.new ≡ plain t.old) }
{
    let symbols = d.symbols;
    for a in 0..symbols {
        let node = Cell {
            head: Sym(a as u32),
            from,
            to,
        };
        push_node(t, masks, rules, index, d, node);
    }
}

// Over all spans of a length.
fn over_spans(t: &mut [u32], masks: &[u32], rules: &[u32], index: &[u32], d: Layout, length: usize)
    requires { (Sized d) × (0 < length) × (length ≤ d.last) × (Found (plain t.old) d masks.now) }
    ensures { (fourths t.new
        ≡ over_spans (fourths t.old) (plain t.old) rules.now index.now d length)
        × (plain t.new ≡ plain t.old) }
{
    let spans = d.last + 1 - length;
    for from in 0..spans {
        over_heads(t, masks, rules, index, d, from, from + length);
    }
}

// Over all spans, the longer first.
fn over_lengths(t: &mut [u32], masks: &[u32], rules: &[u32], index: &[u32], d: Layout)
    requires { (Sized d) × (Found (plain t.old) d masks.now) }
    ensures { (fourths t.new ≡ over_lengths (fourths t.old) (plain t.old) rules.now index.now d)
        × (plain t.new ≡ plain t.old) }
{
    let places = d.last;
    for x in 0..places {
        over_spans(t, masks, rules, index, d, places - x);
    }
}

// Finds the outside weights of all cells that hold a tree.
pub fn fill(t: &mut [u32], rules: &[u32], pass: Pass)
    requires { Passable pass }
    ensures { (fourths t.new
        ≡ fill (replicate (length t.old / 4) 0) (plain t.old) rules.now pass)
        × (plain t.new ≡ plain t.old) }
{
    let d = pass.table;
    put_around_root(t, d);
    let no_edges = [0u32; 0];
    let mut index = [0u32; INDEX_NUMBERS];
    make_index(rules, pass.rules, d.symbols, &no_edges, 0, 0, &mut index);
    let mut masks = [0u32; MASKS];
    mark_found(&t[..], &mut masks, d);
    over_lengths(t, &masks, rules, &index, d);
}
