// A grammar block and a block of what was heard, read one after the other into flat arrays of numbers that the caller lends: five for each
// rule, four for each edge.
#![tactic(auto)]

ghost use Rattle.std.specs.Prelude.{◌≡◌, ◌≤◌, ◌<◌, ℕ, List, length};
ghost use Rattle.packing.specs.Heard.{as_slots, heard_block};
ghost use Rattle.packing.specs.Meaning.{Heard};
ghost use Rattle.packing.specs.Parse.{Verdict};
ghost use Rattle.heard_reader.specs.Answer.{Promised};
ghost use Rattle.inputs.specs.Inputs.{InputsTold};

use grammar_reader::Sizes;
use heard_reader::HeardSize;
use packing::format::{EDGES_LENGTH, MAX_WORDS, RULES_LENGTH};
use packing::refusal::Refusal;

// The sizes of a grammar, and of what was heard.
#[derive(Clone, Copy)]
pub struct Inputs {
    pub sizes: Sizes,
    pub heard: HeardSize,
}

// The number found, or the refusal.
pub type Listed = Result<usize, Refusal>;

// A grammar, and what was heard under it as `read` reads it: their sizes, with the rules and the edges in the lent arrays, or the first
// refusal.
fn read_both<F: Fn(&[u8], u32, &mut [u32]) -> Result<HeardSize, Refusal>>(
    grammar: &[u8],
    heard: &[u8],
    rules: &mut [u32],
    edges: &mut [u32],
    read: F,
) -> Result<Inputs, Refusal>
    requires room { (RULES_LENGTH ≤ length rules.old) × (EDGES_LENGTH ≤ length edges.old) }
    requires read { (b : _) (W : _) (e : _) → 0 < W → W ≤ MAX_WORDS → EDGES_LENGTH ≤ length e.now → F.pre read b W e }
    ensures { (block : ℕ → List ℕ → Verdict Heard)
        → ((b : _) (W : ℕ) (e : _) (r : _) (f : _) → F.post read b W e r f → Promised (block W b.now) e.now f.now r)
        → InputsTold block grammar.now heard.now rules.old edges.old result rules.new edges.new }
{
    let sizes = grammar_reader::read_block(grammar, rules)?;
    let heard = read(heard, sizes.words, edges)?;
    Ok(Inputs { sizes, heard })
}

// A grammar, and slots or a graph under it.
pub fn read_inputs(
    grammar: &[u8],
    heard: &[u8],
    rules: &mut [u32],
    edges: &mut [u32],
) -> Result<Inputs, Refusal>
    requires { (RULES_LENGTH ≤ length rules.old) × (EDGES_LENGTH ≤ length edges.old) }
    ensures { InputsTold heard_block grammar.now heard.now rules.old edges.old result rules.new
        edges.new }
{
    read_both(grammar, heard, rules, edges, heard_reader::read_heard)
}

// A grammar, and slots under it.
pub fn read_slot_inputs(
    grammar: &[u8],
    heard: &[u8],
    rules: &mut [u32],
    edges: &mut [u32],
) -> Result<Inputs, Refusal>
    requires { (RULES_LENGTH ≤ length rules.old) × (EDGES_LENGTH ≤ length edges.old) }
    ensures { InputsTold as_slots grammar.now heard.now rules.old edges.old result rules.new
        edges.new }
{
    read_both(grammar, heard, rules, edges, heard_reader::read_slots)
}
