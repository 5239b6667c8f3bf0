// The back trace of a tree in a table that may hold anything: each node is checked as it is traced.
ghost use Rattle.std.specs.Prelude.{◌≡◌, ℕ, ◌+◌, ◌-◌, ◌*◌, ◌<◌, ◌≤◌, length, get_or};
ghost use Rattle.std.proofs.Math.Option.{some};
ghost use Rattle.bits.specs.Width.{u32_values};
ghost use Rattle.bits.specs.Bits.{pick};
ghost use Rattle.packing.specs.Flat.{rule_at};
ghost use Rattle.packing.specs.Store.{store_all};
ghost use Rattle.chart_keys.specs.Keys.{digits, Digits};
ghost use Rattle.chart_table.specs.Table.{most_ranks, cell_number, price_at, back_at, InTable};
ghost use Rattle.chart_trace.specs.Trace.{trace_back};
ghost use Rattle.chart_trace.specs.Checked.{edge_fits, leaf_of, any_leaf, leaf_in, checked_node, own_weight, spelled_weight, traced_of};

use crate::right_parts::Pending;
use crate::store_node;
use arrays::{narrow_at, number_at, rule_at, wide};
use chart_entries::{back_at, price_at, price_within};
use chart_keys::{BackPointer, Key, back_pointer};
use chart_table::{Cell, Layout, Part, cell_number, entry_of, left_part};
use packing::format::{
    EDGE_COST_AT, EDGE_TO_AT, EDGE_WORD_AT, NOT_HEARD, NUMBERS_PER_EDGE, NUMBERS_PER_NODE,
};
use packing::{Rule, Sym, Word};

// What a trace is checked against: how many rules and edges there are, in arrays that have room for more, and whether a leaf names its edge,
// as those of a graph do.
#[derive(Clone, Copy)]
pub struct Scope {
    pub rules: usize,
    pub edges: usize,
    pub named: bool,
}

// What a node's back pointer says in its cell: a leaf of a weight, or a pairing of parts with these heads by a rule of a weight.
#[derive(Clone, Copy)]
pub enum CheckedNode {
    Leaf(usize),
    Pairing(Sym, Sym, usize),
}

// How many numbers a checked trace has, and what its tree weighs.
#[derive(Clone, Copy)]
pub struct Traced {
    pub numbers: usize,
    pub weight: usize,
}

// An edge's four numbers.
#[derive(Clone, Copy)]
struct EdgeNumbers {
    from: usize,
    to: usize,
    word: u32,
    cost: u32,
}

// Reads below are of several numbers that stand together: one test serves where all are there, and else each is read by itself, as 0 past
// the end.

// The tree of a part as the table has it: its price plus 1, which is 0 where it is not found, and its back pointer as a number.
fn tree_of(t: &[u32], d: Layout, part: Part) -> Key
    requires { (InTable d part.cell) × (part.rank ≤ most_ranks) }
    ensures { (result.price ≡ price_at t.now d (cell_number d part.cell) part.rank)
        × (result.back ≡ back_at t.now d (cell_number d part.cell) part.rank) × (result.back < u32_values) }
{
    let c = cell_number(d, part.cell);
    if part.rank < d.ranks {
        let at = entry_of(d, c, part.rank);
        if at + 2 < t.len() {
            return Key {
                price: price_within(t, at),
                back: wide(t[at + 2]),
            };
        }
    }
    Key {
        price: price_at(t, d, c, part.rank),
        back: back_at(t, d, c, part.rank),
    }
}

// Edge e of an array of four numbers an edge.
fn edge_numbers(edges: &[u32], e: usize) -> EdgeNumbers
    requires { e < digits }
    ensures { (result.from ≡ get_or edges.now (4 * e) 0) × (result.to ≡ get_or edges.now (4 * e + 1) 0)
        × (result.word ≡ get_or edges.now (4 * e + 2) 0) × (result.cost ≡ get_or edges.now (4 * e + 3) 0) }
{
    let at = NUMBERS_PER_EDGE * e;
    if at + EDGE_COST_AT < edges.len() {
        return EdgeNumbers {
            from: wide(edges[at]),
            to: wide(edges[at + EDGE_TO_AT]),
            word: edges[at + EDGE_WORD_AT],
            cost: edges[at + EDGE_COST_AT],
        };
    }
    EdgeNumbers {
        from: number_at(edges, at),
        to: number_at(edges, at + EDGE_TO_AT),
        word: narrow_at(edges, at + EDGE_WORD_AT),
        cost: narrow_at(edges, at + EDGE_COST_AT),
    }
}

// A leaf by a rule of a word and a weight, of edge e, where that is one of the first `count`, goes over the cell's span with the word, and was
// heard.
#[tactic(auto, unfolding(crate::specs::Checked::edge_fits))]
fn edge_leaf(
    edges: &[u32],
    count: usize,
    c: Cell,
    e: usize,
    word: Word,
    weight: u32,
) -> Option<CheckedNode>
    requires { e < digits }
    ensures { (result ≡ pick (edge_fits edges.now count c e word) (Some (leaf_of edges.now e weight)) None)
        × (own_weight result < 8589934592) }
{
    if count <= e {
        return None;
    }
    let edge = edge_numbers(edges, e);
    if edge.from == c.from && edge.to == c.to && edge.word == word.0 && edge.cost < NOT_HEARD {
        Some(CheckedNode::Leaf(wide(weight) + wide(edge.cost)))
    } else {
        None
    }
}

// The same of the last of the first `count` edges that fits.
#[tactic(auto, unfolding(crate::specs::Checked::any_leaf))]
fn any_leaf(edges: &[u32], count: usize, c: Cell, word: Word, weight: u32) -> Option<CheckedNode>
    requires { count ≤ digits }
    ensures { (result ≡ any_leaf edges.now count c word weight count) × (own_weight result < 8589934592) }
{
    for e in (0..count).rev() {
        let leaf = edge_leaf(edges, count, c, e, word, weight);
        if leaf.is_some() {
            return leaf;
        }
    }
    None
}

// A leaf by a rule of a word and a weight: of edge e, if that fits. If not, and leaves do not name their edges, of any edge that does.
fn checked_leaf(
    edges: &[u32],
    scope: Scope,
    c: Cell,
    e: usize,
    word: Word,
    weight: u32,
) -> Option<CheckedNode>
    requires { (e < digits) × (scope.edges ≤ digits) }
    ensures { (result ≡ leaf_in edges.now scope c e word weight) × (own_weight result < 8589934592) }
{
    let leaf = edge_leaf(edges, scope.edges, c, e, word, weight);
    if leaf.is_some() || scope.named {
        return leaf;
    }
    any_leaf(edges, scope.edges, c, word, weight)
}

// What a back pointer says in a cell: its rule is one of the grammar's and the cell's head is its own; of two parts the split is
// within the span, and of a leaf the edge fits. None where it can't stand there.
#[tactic(auto, unfolding(crate::specs::Checked::checked_node))]
fn checked_node(
    rules: &[u32],
    edges: &[u32],
    scope: Scope,
    c: Cell,
    b: BackPointer,
) -> Option<CheckedNode>
    requires { (Digits b) × (scope.edges ≤ digits) }
    ensures { (result ≡ checked_node rules.now edges.now scope c b) × (own_weight result < 8589934592) }
{
    if scope.rules <= b.rule {
        return None;
    }
    match rule_at(rules, b.rule) {
        Rule::Pair(head, first, second, weight) => {
            if head.0 == c.head.0 && c.from < b.split && b.split < c.to {
                Some(CheckedNode::Pairing(first, second, wide(weight)))
            } else {
                None
            }
        }
        Rule::Word(head, word, weight) => {
            if head.0 == c.head.0 {
                checked_leaf(edges, scope, c, b.left, word, weight)
            } else {
                None
            }
        }
    }
}

// Writes the trace of a part as `trace_back` does, each node checked, and answers how many numbers it has and what the tree weighs: none
// where a rank is not found or a node can't stand in its cell, for then the table spells no tree, and what is written by then is of no use.
pub fn trace_checked(
    t: &[u32],
    rules: &[u32],
    edges: &[u32],
    scope: Scope,
    d: Layout,
    part: Part,
    trace: &mut [u32],
) -> Option<Traced>
    requires { (InTable d part.cell) × (part.rank ≤ most_ranks) × (scope.edges ≤ digits) }
    ensures { (f : ℕ) → part.cell.to - part.cell.from ≤ f
        → (result ≡ traced_of (spelled_weight t.now rules.now edges.now scope d f part.cell part.rank)
        (length (trace_back t.now rules.now d f part.cell part.rank)))
        × ((w : ℕ) → spelled_weight t.now rules.now edges.now scope d f part.cell part.rank ≡ some w
        → trace.new ≡ store_all trace.old 0 (trace_back t.now rules.now d f part.cell part.rank)) }
{
    let mut pending = Pending::new();
    let mut here = part;
    let mut numbers: usize = 0;
    let mut weight: usize = 0;
    loop {
        let cell = here.cell;
        let tree = tree_of(t, d, here);
        if tree.price == 0 {
            return None;
        }
        let back = back_pointer(tree.back);
        store_node(trace, numbers, back);
        numbers += NUMBERS_PER_NODE;
        match checked_node(rules, edges, scope, cell, back)? {
            CheckedNode::Pairing(first, second, own) => {
                weight += own;
                pending.push(second, cell.to, back.right);
                here = Part {
                    cell: left_part(cell, first, back.split),
                    rank: back.left,
                };
            }
            CheckedNode::Leaf(own) => {
                weight += own;
                let Some(right) = pending.pop(cell.to) else {
                    return Some(Traced { numbers, weight });
                };
                here = right;
            }
        }
    }
}
