// Blocks of what was heard, of slots or of a graph, read into a flat array of edges that the caller lends: four numbers for each.
#![tactic(auto)]

ghost use Rattle.std.specs.Prelude.{◌≡◌, ◌≤◌, ◌<◌, eqb, length};
ghost use Rattle.bits.specs.Bits.{field};
ghost use Rattle.packing.specs.Heard.{as_slots, as_graph, heard_block};
ghost use Rattle.heard_reader.specs.Answer.{Promised};

use packing::format::{EDGES_LENGTH, GRAPH_BLOCK, MAX_WORDS, SLOTS_LENGTH};
use packing::refusal::Refusal;

// Whether it is a graph, its last place, and the number of edges.
#[derive(Clone, Copy)]
pub struct HeardSize {
    pub graph: bool,
    pub last: usize,
    pub edges: usize,
}

// Whether a block's kind is a graph's.
pub fn is_graph(block: &[u8]) -> bool
    ensures { result ≡ eqb (field block.now 0 4) 5 }
{
    packing::is_kind(block, GRAPH_BLOCK)
}

// A block read as a graph.
fn read_graph(block: &[u8], words: u32, edges: &mut [u32]) -> Result<HeardSize, Refusal>
    requires { (0 < words) × (words ≤ MAX_WORDS) × (EDGES_LENGTH ≤ length edges.old) }
    ensures { Promised (as_graph words block.now) edges.old edges.new result }
{
    let size = graph_reader::read_graph(block, words, edges)?;
    Ok(HeardSize {
        graph: true,
        last: size.places - 1,
        edges: size.edges,
    })
}

// A block read as slots.
pub fn read_slots(block: &[u8], words: u32, edges: &mut [u32]) -> Result<HeardSize, Refusal>
    requires { (0 < words) × (words ≤ MAX_WORDS) × (EDGES_LENGTH ≤ length edges.old) }
    ensures { Promised (as_slots words block.now) edges.old edges.new result }
{
    let mut slots = [0u32; SLOTS_LENGTH];
    let last = utterance_reader::read_block(block, words, &mut slots)?.count;
    let found = utterance_edges::edges_of(&slots, last, edges);
    Ok(HeardSize {
        graph: false,
        last,
        edges: found,
    })
}

// What was heard, of a block of either kind under a grammar of `words` words, with its edges in the array.
pub fn read_heard(block: &[u8], words: u32, edges: &mut [u32]) -> Result<HeardSize, Refusal>
    requires { (0 < words) × (words ≤ MAX_WORDS) × (EDGES_LENGTH ≤ length edges.old) }
    ensures { Promised (heard_block words block.now) edges.old edges.new result }
{
    if is_graph(block) {
        return read_graph(block, words, edges);
    }
    read_slots(block, words, edges)
}
