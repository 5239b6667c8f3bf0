// The check of a reading, and the walk of the derivation that was found.
#![tactic(auto)]

ghost use Rattle.std.specs.Prelude.{◌≡◌, ◌↔◌, ◌≤◌, ◌<◌, length};
ghost use Rattle.packing.specs.Reading.{reading_from};
ghost use Rattle.packing.specs.GraphReading.{graph_head_from};
ghost use Rattle.packing.specs.Read.{as_verdict};
ghost use Rattle.packing.specs.Flat.{rules_of, slots_of};
ghost use Rattle.graph_check.specs.Edges.{edges_of};
ghost use Rattle.checker.specs.Check as definition;
ghost use Rattle.checker.specs.Judgement.{OfDerivation};
ghost use Rattle.checker.specs.Check.{passed};
ghost use Rattle.checker.specs.Run.{by_walk, by_path, under_slots, under_graph, under_rules, Answered};

use graph_check::Graph;
use judgement::judge;
use packing::format::{
    GRAPH_EDGES_LENGTH, MAX_PATH_EDGES, MAX_RULES, MAX_SLOTS, MAX_WORDS, RULES_LENGTH,
    SLOTS_LENGTH, WALK_LENGTH,
};
use packing::refusal::Refusal;

// The check under `count` rules and n slots that stand in arrays.
fn check_walk(
    rules: &[u32],
    count: usize,
    slots: &[u32],
    n: usize,
    reading: &[u8],
    walk: &mut [u32],
) -> Result<usize, Refusal>
    requires { (1 ≤ count) × (count ≤ MAX_RULES) × (1 ≤ n) × (n ≤ MAX_SLOTS) × (WALK_LENGTH ≤ length walk.old) }
    ensures { Answered (by_walk (rules_of rules.now count) (slots_of slots.now n 0)
        reading.now (reading_from n count reading.now)) result walk.new }
{
    let (weight, end) = reading_reader::read_reading(reading, n, count, walk)?;
    let own = slots_check::weight_of(rules, count, slots, n, walk);
    judge(reading, end, weight, own, 2 * n - 1)
}

// The check under `count` rules and a graph that stand in arrays.
fn check_path(
    rules: &[u32],
    count: usize,
    edges: &[u32],
    graph: Graph,
    reading: &[u8],
    walk: &mut [u32],
) -> Result<usize, Refusal>
    requires { (1 ≤ count) × (count ≤ MAX_RULES) × (graph.last ≤ MAX_PATH_EDGES) × (WALK_LENGTH ≤ length walk.old) }
    ensures { Answered (by_path (rules_of rules.now count) (edges_of edges.now graph.edges) graph.last
        reading.now (graph_head_from graph.last count reading.now)) result walk.new }
{
    let (head, end) = graph_reading_reader::read_head(reading, graph.last, count)?;
    let n = head.edges;
    let own = graph_check::weight_of(rules, count, edges, graph, n, reading, walk);
    judge(reading, end, head.weight, own, 2 * n - 1)
}

// The check under a grammar of `words` words and `count` rules, which stand in an array, of slots.
fn check_slots(
    rules: &[u32],
    count: usize,
    words: u32,
    heard: &[u8],
    reading: &[u8],
    walk: &mut [u32],
) -> Result<usize, Refusal>
    requires { (1 ≤ count) × (count ≤ MAX_RULES) × (0 < words) × (words ≤ MAX_WORDS) × (WALK_LENGTH ≤ length walk.old) }
    ensures { Answered (under_slots words (rules_of rules.now count) heard.now reading.now) result walk.new }
{
    let mut slots = [0u32; SLOTS_LENGTH];
    let found = utterance_reader::read_block(heard, words, &mut slots)?;
    check_walk(rules, count, &slots, found.count, reading, walk)
}

// The same of a graph.
fn check_graph(
    rules: &[u32],
    count: usize,
    words: u32,
    heard: &[u8],
    reading: &[u8],
    walk: &mut [u32],
) -> Result<usize, Refusal>
    requires { (1 ≤ count) × (count ≤ MAX_RULES) × (0 < words) × (words ≤ MAX_WORDS) × (WALK_LENGTH ≤ length walk.old) }
    ensures { Answered (under_graph words (rules_of rules.now count) heard.now reading.now) result walk.new }
{
    let mut edges = [0u32; GRAPH_EDGES_LENGTH];
    let found = graph_reader::read_graph(heard, words, &mut edges)?;
    let graph = Graph {
        edges: found.edges,
        last: found.places - 1,
    };
    check_path(rules, count, &edges, graph, reading, walk)
}

// The same of the kind that the block has: how many nodes the derivation has that was found. Their rule numbers stand at the front of
// `walk`.
pub fn check_heard(
    rules: &[u32],
    count: usize,
    words: u32,
    heard: &[u8],
    reading: &[u8],
    walk: &mut [u32],
) -> Result<usize, Refusal>
    requires { (1 ≤ count) × (count ≤ MAX_RULES) × (0 < words) × (words ≤ MAX_WORDS) × (WALK_LENGTH ≤ length walk.old) }
    ensures { Answered (under_rules words (rules_of rules.now count) heard.now reading.now) result walk.new }
{
    if heard_reader::is_graph(heard) {
        return check_graph(rules, count, words, heard, reading, walk);
    }
    check_slots(rules, count, words, heard, reading, walk)
}

// Whether a block is the reading of a derivation of the grammar and of what was heard, slots or a graph, with its weight.
pub fn check(grammar: &[u8], heard: &[u8], reading: &[u8]) -> Result<(), Refusal>
    ensures value { as_verdict result ≡ passed (definition.check grammar.now heard.now reading.now) }
    ensures variant { (result ≡ Ok tt) ↔ OfDerivation grammar.now heard.now reading.now }
{
    let mut rules = [0u32; RULES_LENGTH];
    let mut walk = [0u32; WALK_LENGTH];
    let sizes = grammar_reader::read_block(grammar, &mut rules)?;
    check_heard(
        &rules,
        sizes.rules as usize,
        sizes.words,
        heard,
        reading,
        &mut walk,
    )?;
    Ok(())
}
