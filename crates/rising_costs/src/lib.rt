// Costs that rise from one array of edges to another: whether those of two utterances do, and a tree's own edges given their high costs.
#![tactic(auto)]

ghost use Rattle.std.specs.Prelude.{◌≡◌, ◌*◌, ◌≤◌, ◌<◌, length, take};
ghost use Rattle.bits.specs.Width.{u32_values};
ghost use Rattle.packing.specs.Flat.{rule_at, node_by, nodes_in};
ghost use Rattle.cost_changes.specs.Ranges.{cost_rises};
ghost use Rattle.rising_costs.specs.Model.{edge_rises, edges_rise, both_rise, raise_node, node_weight, raise_nodes, nodes_weight};

use arrays::{narrow_at, rule_at, wide};
use heard_reader::HeardSize;
use packing::Rule;
use packing::format::{EDGE_COST_AT, EDGE_WORD_AT, NOT_HEARD, NUMBERS_PER_EDGE, NUMBERS_PER_NODE};

// Whether a cost does not fall, and is that of a word not heard in both or in neither.
fn cost_rises(low: u32, high: u32) -> bool
    ensures { result ≡ cost_rises low high }
{
    low <= high && (NOT_HEARD <= low || high < NOT_HEARD)
}

// Whether edge e of two arrays is one edge but for its cost, which rises.
fn edge_rises(low: &[u32], high: &[u32], e: usize) -> bool
    requires { e < u32_values }
    ensures { result ≡ edge_rises low.now high.now e }
{
    let at = NUMBERS_PER_EDGE * e;
    let word = at + EDGE_WORD_AT;
    let cost = at + EDGE_COST_AT;
    narrow_at(low, at) == narrow_at(high, at)
        && narrow_at(low, word) == narrow_at(high, word)
        && cost_rises(narrow_at(low, cost), narrow_at(high, cost))
}

// Whether so are the first `count` edges.
fn edges_rise(low: &[u32], high: &[u32], count: usize) -> bool
    requires { count < u32_values }
    ensures { result ≡ edges_rise low.now high.now 0 count }
{
    (0..count).all(|e| edge_rises(low, high, e))
}

// Whether the edges of two utterances are alike but for their costs, and no cost falls.
pub fn both_rise(low: &[u32], heard: HeardSize, high: &[u32], other: HeardSize) -> bool
    requires { heard.edges ≤ 168 }
    ensures { result ≡ both_rise low.now heard high.now other }
{
    heard.last == other.last && heard.edges == other.edges && edges_rise(low, high, heard.edges)
}

// Gives the edge of a leaf its high cost. The answer is the node's weight for high costs.
fn raise_node(rules: &[u32], rule: u32, edge: u32, high: &[u32], costs: &mut [u32]) -> usize
    ensures costs_after { costs.new ≡ raise_node high.now costs.old (node_by (rule_at rules.now rule) rule edge) }
    ensures value { (result ≡ node_weight rules.now high.now (node_by (rule_at rules.now rule) rule edge)) × (result < 8589934592) }
{
    match rule_at(rules, wide(rule)) {
        Rule::Pair(_, _, _, weight) => wide(weight),
        Rule::Word(_, _, weight) => {
            let at = NUMBERS_PER_EDGE * wide(edge) + EDGE_COST_AT;
            let cost = narrow_at(high, at);
            arrays::store(costs, at, cost);
            wide(weight) + wide(cost)
        }
    }
}

// Gives the edges of a tree, whose nodes are the trace, their high costs. The answer is the tree's weight for high costs.
pub fn raise_own(rules: &[u32], trace: &[u32], high: &[u32], costs: &mut [u32]) -> usize
    requires { length trace.now ≤ 94 }
    ensures costs_after { costs.new ≡ raise_nodes high.now costs.old (nodes_in rules.now trace.now) }
    ensures value { result ≡ nodes_weight rules.now high.now (nodes_in rules.now trace.now) }
{
    let mut own = 0;
    for node in trace.chunks_exact(NUMBERS_PER_NODE) {
        own += raise_node(rules, node[0], node[1], high, costs);
    }
    own
}
