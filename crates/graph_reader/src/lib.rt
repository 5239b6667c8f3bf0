// Graph blocks, read into a flat array of numbers that the caller lends: four for each edge.
#![tactic(auto)]

ghost use Rattle.std.specs.Prelude.{◌≡◌, ◌+◌, ◌*◌, ◌^◌, ◌≤◌, ◌<◌, length, []};
ghost use Rattle.packing.specs.Parse.{accepted, ◌then◌};
ghost use Rattle.packing.specs.Read.{field_of, source_of, as_parse_by, as_verdict};
ghost use Rattle.packing.specs.Graph.{end_place, edge_from, graph_edges_from, graph_from, graph_block};
ghost use Rattle.graph_reader.specs.Parts.{edge_of, key_of, EdgesAs, GraphAs};
ghost use Rattle.graph_reader.specs.Answer.{graph_size, EdgesIn, EdgesOver, Sized};

use packing::format::{GRAPH_EDGES_LENGTH, MAX_EDGES, MAX_PLACE_NUMBER, MAX_PLACES, MAX_WORDS};
use packing::refusal::Refusal;
use packing::{Field, Source, format};

// P, and the number of edges.
#[derive(Clone, Copy)]
pub struct GraphSize {
    pub places: usize,
    pub edges: usize,
}

// An edge's numbers.
#[derive(Clone, Copy)]
struct Edge {
    from: u32,
    target: u32,
    word: u32,
    cost: u32,
}

// The field of the place that an edge goes to.
fn end_field(places: u32, from: u32) -> Field
    requires { (1 ≤ places) × (from ≤ MAX_PLACE_NUMBER) }
    ensures { (field_of result ≡ end_place places from) × (result.width ≤ 8) }
{
    Field {
        width: format::PLACE_WIDTH,
        least: from + 1,
        most: places - 1,
        below: Refusal::EdgePlaces,
        above: Refusal::EdgePlaces,
    }
}

// The edge at a place, and the next place.
#[tactic(auto, unfolding(packing::specs::Graph::edge_from))]
fn read_edge(src: Source, at: usize, words: u32, places: u32) -> Result<(Edge, usize), Refusal>
    requires { (at < 2 ^ 30) × (0 < words) × (words ≤ MAX_WORDS) × (1 ≤ places) }
    ensures { as_parse_by edge_of result ≡ edge_from (source_of src.entry) words places at }
{
    let read = src.field_at(at, format::START_FIELD);
    let Ok((from, next)) = read else {
        return Err(read.unwrap_err());
    };
    let read = src.field_at(next, end_field(places, from));
    let Ok((target, last)) = read else {
        return Err(read.unwrap_err());
    };
    let (c, end) = slots_reader::read_candidate(src, last, words, 0)?;
    let edge = Edge {
        from,
        target,
        word: c.word,
        cost: c.cost,
    };
    Ok((edge, end))
}

// How many values a place and a word have at most, in an edge's key.
const KEY_PLACES: u32 = 32;

const KEY_WORDS: u32 = 256;

// From, to and word of an edge as one number.
fn edge_key(e: Edge) -> u32
    requires { (e.from ≤ 31) × (e.target ≤ 31) × (e.word ≤ 255) }
    ensures { result ≡ key_of e.from e.target e.word }
{
    (e.from * KEY_PLACES + e.target) * KEY_WORDS + e.word
}

// `count` edges, from place `start` of the source, into the array, and the next place.
fn read_edges(
    src: Source,
    start: usize,
    words: u32,
    places: u32,
    count: usize,
    edges: &mut [u32],
) -> Result<usize, Refusal>
    requires { (start < 2 ^ 16) × (0 < words) × (words ≤ MAX_WORDS) × (1 ≤ places) × (places ≤ MAX_PLACES) × (count ≤ MAX_EDGES)
        × (GRAPH_EDGES_LENGTH ≤ length edges.old) }
    ensures { EdgesAs count edges.old edges.new (graph_edges_from (source_of src.entry) words places count start []) result }
{
    let mut keys = [0u32; MAX_EDGES];
    let mut at = start;
    for i in 0..count {
        let (e, next) = read_edge(src, at, words, places)?;
        let key = edge_key(e);
        if rules_reader::seen(&keys[..i], key) {
            return Err(Refusal::EdgeRepeat);
        }
        keys[i] = key;
        let to = format::NUMBERS_PER_EDGE * i;
        utterance_edges::store_edge(edges, to, e.from, e.target, e.word, e.cost);
        at = next;
    }
    Ok(at)
}

// P and the edges, from place `at` of the source, into the array, and the next place.
#[tactic(auto, unfolding(packing::specs::Graph::graph_from))]
fn read_body(
    src: Source,
    at: usize,
    words: u32,
    edges: &mut [u32],
) -> Result<(GraphSize, usize), Refusal>
    requires { (at < 2 ^ 15) × (0 < words) × (words ≤ MAX_WORDS) × (GRAPH_EDGES_LENGTH ≤ length edges.old) }
    ensures { GraphAs edges.old edges.new (graph_from (source_of src.entry) words at) result }
{
    let read = src.field_at(at, format::PLACES_FIELD);
    let Ok((places, next)) = read else {
        return Err(read.unwrap_err());
    };
    let read = src.field_at(next, format::EDGES_FIELD);
    let Ok((count, start)) = read else {
        return Err(read.unwrap_err());
    };
    let size = GraphSize {
        places: places as usize,
        edges: count as usize,
    };
    let end = read_edges(src, start, words, places, size.edges, edges)?;
    Ok((size, end))
}

// The graph of a block under a grammar of `words` words.
#[tactic(auto, unfolding(packing::specs::Graph::graph_block))]
pub fn read_graph(block: &[u8], words: u32, edges: &mut [u32]) -> Result<GraphSize, Refusal>
    requires { (0 < words) × (words ≤ MAX_WORDS) × (GRAPH_EDGES_LENGTH ≤ length edges.old) }
    ensures { (as_verdict result ≡ (graph_block words block.now then λ g. accepted (graph_size g))) × EdgesIn (graph_block words block.now) edges.new
        × Sized result × EdgesOver (graph_block words block.now) edges.old edges.new }
{
    let src = Source::Block(block, Refusal::UtteranceEnd);
    let read = src.field_at(0, format::GRAPH_KIND_FIELD);
    let Ok((_, next)) = read else {
        return Err(read.unwrap_err());
    };
    let (size, end) = read_body(src, next, words, edges)?;
    if bit_reader::zero_from(block, end) {
        return Ok(size);
    }
    Err(Refusal::UtteranceFill)
}
