// The weight and the walk of the derivation whose nodes stand in a graph's reading block: one node after the other along a path.
#![tactic(auto)]

ghost use Rattle.std.specs.Prelude.{◌≡◌, List, ℕ, ◌+◌, ◌-◌, ◌*◌, ◌^◌, ◌≤◌, ◌<◌, length};
ghost use Rattle.std.proofs.Math.ListN.{get_elem?};
ghost use Rattle.packing.specs.Flat.{rule_at, rules_of, node_by};
ghost use Rattle.derivation.specs.Path.{edge_step, step, path_weight};
ghost use Rattle.parse_stack.specs.Stack.{heads_of, option_of, standing, Small, Within, Further};
ghost use Rattle.graph_check.specs.Edges.{edges_of, cost_at, Kept};

use graph_reading_reader::Node;
use packing::format::{
    EDGE_COST_AT, EDGE_TO_AT, EDGE_WORD_AT, GRAPH_READING_HEAD, MAX_PATH_EDGES, MAX_RULES,
    NOT_HEARD, NUMBERS_PER_EDGE,
};
use packing::{Rule, Word};
use parse_stack::{MAX_PARTS, Progress};

// A graph whose edges stand in an array: how many they are, and its last place.
#[derive(Clone, Copy)]
pub struct Graph {
    pub edges: usize,
    pub last: usize,
}

// The cost of a word that was not heard, in the width of an index. Such a word is not offered.
const UNHEARD: usize = NOT_HEARD as usize;

// The cost of an edge, if there is one of that number, and it starts at the place, carries the word and was heard.
fn cost_of(edges: &[u32], count: usize, place: usize, word: Word, edge: usize) -> Option<usize>
    requires { edge < 2 ^ 32 }
    ensures { (option_of result ≡ cost_at word place (get_elem? (edges_of edges.now count) edge)) × Small result }
{
    if count <= edge {
        return None;
    }
    let at = NUMBERS_PER_EDGE * edge;
    let cost = arrays::number_at(edges, at + EDGE_COST_AT);
    if arrays::number_at(edges, at) == place
        && arrays::number_at(edges, at + EDGE_WORD_AT) == arrays::wide(word.0)
        && cost < UNHEARD
    {
        return Some(cost);
    }
    None
}

// A word rule: the edge is taken, if the path can go along it by the word.
fn edge_step(
    edges: &[u32],
    count: usize,
    at: Progress,
    word: Word,
    weight: u32,
    edge: usize,
) -> Option<Progress>
    requires { (1 ≤ at.height) × Within at.left at × (edge < 2 ^ 32) }
    ensures { ((stack : List ℕ) → standing stack result
        ≡ edge_step word at.place (at.left - 1) (heads_of stack (at.height - 1)) (at.weight + weight) (get_elem? (edges_of edges.now count) edge))
        × Further at result }
{
    let cost = cost_of(edges, count, at.place, word, edge)?;
    Some(Progress {
        place: arrays::number_at(edges, NUMBERS_PER_EDGE * edge + EDGE_TO_AT),
        left: at.left - 1,
        height: at.height - 1,
        weight: at.weight + arrays::wide(weight) + cost,
    })
}

// One node.
fn follow(
    rules: &[u32],
    count: usize,
    edges: &[u32],
    graph: Graph,
    stack: &mut [u32],
    at: Progress,
    node: Node,
) -> Option<Progress>
    requires { (node.rule < 2 ^ 32) × (node.edge < 2 ^ 32) × Within (length stack.old) at }
    ensures { (standing stack.new result
        ≡ step (rules_of rules.now count) (edges_of edges.now graph.edges) (standing stack.old (Some at))
        (node_by (rule_at rules.now node.rule) node.rule node.edge)) × Further at result }
{
    let rule = parse_stack::fitting(rules, count, stack, at.height, node.rule)?;
    match rule {
        Rule::Pair(_, first, second, weight) => {
            parse_stack::pair_step(stack, at, first, second, weight)
        }
        Rule::Word(_, word, weight) => edge_step(edges, graph.edges, at, word, weight, node.edge),
    }
}

// The weight of the derivation of n edges whose nodes stand in a block from behind its head on, with their rule numbers at the front of
// `walk`. Each part to come has an edge of its own, so where no edge is left no part is.
pub fn weight_of(
    rules: &[u32],
    count: usize,
    edges: &[u32],
    graph: Graph,
    n: usize,
    block: &[u8],
    walk: &mut [u32],
) -> Option<usize>
    requires { (1 ≤ count) × (count ≤ MAX_RULES) × (1 ≤ n) × (n ≤ MAX_PATH_EDGES) × (2 * n - 1 ≤ length walk.old) }
    ensures { (option_of result ≡ path_weight (rules_of rules.now count) (edges_of edges.now graph.edges) graph.last n
        block.now)
        × Kept (rules_of rules.now count) block.now (2 * n - 1) walk.new result }
{
    let mut stack = [0u32; MAX_PARTS];
    let mut at = Progress {
        place: 0,
        left: n,
        height: 1,
        weight: 0,
    };
    let mut bit = GRAPH_READING_HEAD;
    for number in &mut walk[..2 * n - 1] {
        let (node, next) = graph_reading_reader::read_node(rules, count, block, bit)?;
        at = follow(rules, count, edges, graph, &mut stack, at, node)?;
        *number = node.rule as u32;
        bit = next;
    }
    (at.left == 0 && at.place == graph.last).then_some(at.weight)
}
