// Reading blocks of graphs: n and the weight, and one node after the other.
#![tactic(auto)]

ghost use Rattle.std.specs.Prelude.{◌≡◌, ◌*◌, ◌^◌, ◌≤◌, ◌<◌, ltb, length};
ghost use Rattle.packing.specs.Flat.{rules_of};
ghost use Rattle.packing.specs.Source.{bytes};
ghost use Rattle.packing.specs.Read.{as_parse_by};
ghost use Rattle.packing.specs.GraphReading.{graph_head_from, graph_reading_bits};
ghost use Rattle.derivation.specs.Path.{node_from};
ghost use Rattle.graph_reading_reader.specs.Answer.{head_of, to_end, InPath, NodeAs};

use packing::format::{EDGE_NUMBER_WIDTH, GRAPH_READING_HEAD, MAX_PATH_EDGES, MAX_RULES};
use packing::refusal::Refusal;
use packing::{Field, Rule, format};

// n and the weight.
#[derive(Clone, Copy)]
pub struct GraphHead {
    pub edges: usize,
    pub weight: u32,
}

// A node: its rule's number, and of a word rule an edge's.
#[derive(Clone, Copy)]
pub struct Node {
    pub rule: usize,
    pub edge: usize,
}

// How many bits a reading of n edges has under a grammar of `rules` rules.
fn reading_bits(n: usize, rules: usize) -> usize
    requires { (1 ≤ n) × (n ≤ MAX_PATH_EDGES) × (1 ≤ rules) × (rules ≤ MAX_RULES) }
    ensures { (result ≡ graph_reading_bits n rules) × (result < 2 ^ 16) }
{
    let width = bits::width_below(rules);
    GRAPH_READING_HEAD + (2 * n - 1) * width + EDGE_NUMBER_WIDTH * n
}

// Whether a block has fewer bits.
fn is_short(block: &[u8], bits: usize) -> bool
    requires { bits < 2 ^ 16 }
    ensures { result ≡ ltb (8 * length block.now) bits }
{
    block.len() < (bits + 7) / 8
}

// n and the weight of a block for paths of at most `most` edges, and the place behind the reading.
#[tactic(auto, unfolding(packing::specs::GraphReading::graph_head_from))]
pub fn read_head(block: &[u8], most: usize, rules: usize) -> Result<(GraphHead, usize), Refusal>
    requires { (most ≤ MAX_PATH_EDGES) × (1 ≤ rules) × (rules ≤ MAX_RULES) }
    ensures { (as_parse_by head_of result ≡ to_end rules (graph_head_from most rules block.now)) × InPath most result }
{
    let read = reading_reader::number(block, 0, format::GRAPH_READING_KIND_FIELD);
    let Ok((_, at)) = read else {
        return Err(read.unwrap_err());
    };
    let path = Field {
        width: format::PATH_EDGES_WIDTH,
        least: 1,
        most: most as u32,
        below: Refusal::ReadingSlots,
        above: Refusal::ReadingSlots,
    };
    let read = reading_reader::number(block, at, path);
    let Ok((n, next)) = read else {
        return Err(read.unwrap_err());
    };
    let edges = n as usize;
    let end = reading_bits(edges, rules);
    if is_short(block, end) {
        return Err(Refusal::ReadingEnd);
    }
    let read = reading_reader::number(block, next, format::READING_WEIGHT_FIELD);
    let Ok((weight, _)) = read else {
        return Err(read.unwrap_err());
    };
    Ok((GraphHead { edges, weight }, end))
}

// The node at a place under `count` rules that stand in an array, and the place behind it, where there is a node.
pub fn read_node(rules: &[u32], count: usize, block: &[u8], at: usize) -> Option<(Node, usize)>
    requires { (at < 2 ^ 31) × (1 ≤ count) × (count ≤ MAX_RULES) }
    ensures { NodeAs rules.now at (node_from (rules_of rules.now count) (bytes 31 block.now) at) result }
{
    let Ok((r, next)) = reading_reader::read_number(block, at, count) else {
        return None;
    };
    let rule = arrays::wide(r);
    if count <= rule {
        return None;
    }
    match arrays::rule_at(rules, rule) {
        Rule::Pair(..) => Some((Node { rule, edge: 0 }, next)),
        Rule::Word(..) => {
            let read = reading_reader::number(block, next, format::EDGE_NUMBER_FIELD);
            let Ok((e, end)) = read else {
                return None;
            };
            let edge = arrays::wide(e);
            Some((Node { rule, edge }, end))
        }
    }
}
