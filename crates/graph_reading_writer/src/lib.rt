// Reading blocks of graphs: measured, and written with the zeros behind them.
#![tactic(auto)]

ghost use Rattle.std.specs.Prelude.{◌≡◌, ◌++◌, ◌+◌, ◌-◌, ◌*◌, ◌^◌, ◌≤◌, ◌<◌, length, take, drop};
ghost use Rattle.bits.specs.Fields.{widths};
ghost use Rattle.bits.specs.Put.{puts};
ghost use Rattle.packing.specs.Source.{flds};
ghost use Rattle.packing.specs.Flat.{rule_at, node_by, nodes_in};
ghost use Rattle.packing.specs.GraphReading.{trace_entries, block_of_graph_reading, graph_reading_length, padded};
ghost use Rattle.graph_reading_writer.specs.Answer.{node_fields, graph_reading_of};

use arrays::{rule_at, wide};
use packing::format::{
    EDGE_NUMBER_WIDTH, GRAPH_READING_HEAD, MAX_NODES, MAX_PATH_EDGES, MAX_RULES, NUMBERS_PER_NODE,
};
use packing::{Rule, format};

// The length in bytes of a reading of n edges under a grammar of `rules` rules.
pub fn graph_reading_length(n: usize, rules: usize) -> usize
    requires { (1 ≤ n) × (n ≤ MAX_PATH_EDGES) × (1 ≤ rules) × (rules ≤ MAX_RULES) }
    ensures { result ≡ graph_reading_length n rules }
{
    let width = bits::width_below(rules);
    (GRAPH_READING_HEAD + (2 * n - 1) * width + EDGE_NUMBER_WIDTH * n).div_ceil(8)
}

// A node, from bit `at`: its rule's number, and a word rule's edge. The answer is the next bit.
fn write_node(out: &mut [u8], at: usize, width: usize, rules: &[u32], rule: u32, edge: u32) -> usize
    requires { (at < 2 ^ 16) × (width ≤ 8) × (at + widths (node_fields width (node_by (rule_at rules.now rule) rule edge)) ≤ 8 * length out.old) }
    ensures { (out.new ≡ puts out.old at (node_fields width (node_by (rule_at rules.now rule) rule edge)))
        × (result ≡ at + widths (node_fields width (node_by (rule_at rules.now rule) rule edge))) }
{
    bit_writer::write_field(out, at, width, rule);
    let next = at + width;
    match rule_at(rules, wide(rule)) {
        Rule::Pair(..) => next,
        Rule::Word(..) => {
            bit_writer::write_field(out, next, EDGE_NUMBER_WIDTH, edge);
            next + EDGE_NUMBER_WIDTH
        }
    }
}

// The first n nodes of a trace, behind the fields at the front.
fn write_trace(out: &mut [u8], rules: &[u32], count: usize, trace: &[u32], n: usize)
    requires { (1 ≤ count) × (count ≤ MAX_RULES) × (n ≤ MAX_NODES) × (2 * n ≤ length trace.now)
        × (34 + widths (flds (trace_entries count (nodes_in rules.now (take (2 * n) trace.now)))) ≤ 8 * length out.old) }
    ensures { out.new ≡ puts out.old 34 (flds (trace_entries count (nodes_in rules.now (take (2 * n) trace.now)))) }
{
    let width = bits::width_below(count);
    let mut at = GRAPH_READING_HEAD;
    for i in 0..n {
        let p = NUMBERS_PER_NODE * i;
        at = write_node(out, at, width, rules, trace[p], trace[p + 1]);
    }
}

// A reading's block and the zeros behind it, `size` bytes in front of what stands in `out` beyond them. The trace has two numbers for
// each node: the rule's, and the edge's of a word rule.
pub fn write_graph_reading(
    out: &mut [u8],
    size: usize,
    n: usize,
    weight: u32,
    rules: &[u32],
    count: usize,
    trace: &[u32],
)
    requires { (1 ≤ n) × (n ≤ MAX_PATH_EDGES) × (1 ≤ count) × (count ≤ MAX_RULES) × (2 * (2 * n - 1) ≤ length trace.now)
        × (size ≤ length out.old)
        × (34 + widths (flds (trace_entries count (nodes_in rules.now (take (2 * (2 * n - 1)) trace.now)))) ≤ 8 * size) }
    ensures { out.new ≡ padded size (block_of_graph_reading count (graph_reading_of rules.now n weight trace.now))
        ++ drop size out.old }
{
    out[..size].fill(0);
    bit_writer::write_field(out, 0, format::KIND_WIDTH, format::GRAPH_READING_BLOCK);
    bit_writer::write_field(
        out,
        format::PATH_EDGES_AT,
        format::PATH_EDGES_WIDTH,
        n as u32,
    );
    bit_writer::write_field(
        out,
        format::PATH_WEIGHT_AT,
        format::READING_WEIGHT_WIDTH,
        weight,
    );
    write_trace(out, rules, count, trace, 2 * n - 1);
}
