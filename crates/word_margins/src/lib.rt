// Which word to listen to again: for each offered word that the first reading does not use in its slot, the least amount by which its cost
// alone must fall for another reading to be strictly lighter than the first is now.
#![tactic(auto)]

ghost use Rattle.std.specs.Prelude.{◌≡◌, ◌+◌, ◌*◌, ◌≤◌, ◌<◌, length, take, replicate};
ghost use Rattle.packing.specs.Parse.{accepted};
ghost use Rattle.packing.specs.Read.{as_verdict};
ghost use Rattle.packing.specs.Flat.{rule_at, node_by, nodes_in};
ghost use Rattle.inputs.specs.Inputs.{Bounds};
ghost use Rattle.packing.specs.Store.{store_all};
ghost use Rattle.chart_table.specs.Table.{Sized};
ghost use Rattle.cost_changes.specs.Margins.{list_numbers};
ghost use Rattle.inputs.specs.Answer.{Lists};
ghost use Rattle.chart.specs.WorkTable.{work_after};
ghost use Rattle.one_best.specs.Model.{Passable, table_by};
ghost use Rattle.word_margins.specs.WordMargins.{margins, output_after, Meant};
ghost use Rattle.word_margins.specs.Model.{use_node, use_nodes, first_used, pass_list, ReadMargins};

use arrays::{rule_at, store, wide, zero};
use chart_table::Layout;
use inputs::{Inputs, Listed, read_slot_inputs};
use margin_entries::{NUMBERS_PER_ENTRY, put_entries};
use one_best::Pass;
use outside_weights::fill;
use packing::Rule;
use packing::format::{
    EDGES_LENGTH, MAX_CANDIDATES, MAX_SLOTS, NUMBERS_PER_NODE, RULES_LENGTH, TRACE_LENGTH,
};
use packing::refusal::Refusal;

// The most edges of an utterance.
const MOST_EDGES: usize = MAX_SLOTS * MAX_CANDIDATES;

// One reading is looked for.
const ONE: usize = 1;

const USED: u32 = 1;

// Marks the edge of a leaf.
fn use_node(rules: &[u32], rule: u32, edge: u32, used: &mut [u32])
    ensures { used.new ≡ use_node used.old (node_by (rule_at rules.now rule) rule edge) }
{
    if let Rule::Word(..) = rule_at(rules, wide(rule)) {
        store(used, wide(edge), USED);
    }
}

// Marks the edges of a tree, whose nodes are the trace.
fn use_nodes(rules: &[u32], trace: &[u32], used: &mut [u32])
    ensures { used.new ≡ use_nodes used.old (nodes_in rules.now trace.now) }
{
    for node in trace.chunks_exact(NUMBERS_PER_NODE) {
        use_node(rules, node[0], node[1], used);
    }
}

// Marks the edges of the first tree that the table has.
fn use_first(rules: &[u32], t: &[u32], d: Layout, used: &mut [u32])
    requires { (Sized d) × (0 < d.last) × (d.last ≤ 24) }
    ensures { used.new ≡ first_used rules.now t.now d used.old }
{
    let mut trace = [0u32; TRACE_LENGTH];
    let numbers = chart::trace_root(t, rules, d, 0, &mut trace);
    use_nodes(rules, &trace[..numbers], used);
}

// The list, by a pass for one reading.
fn pass_margins(
    rules: &[u32],
    edges: &[u32],
    pass: Pass,
    work: &mut [u32],
    out: &mut [u32],
) -> usize
    requires { (Passable pass) × (pass.table.last ≤ 24) × (4 * pass.edges ≤ length out.old) }
    ensures value { result ≡ length (pass_list rules.now edges.now pass (length work.old)) }
    ensures work_after { (work.new ≡ replicate (length work.old) 0)
        × (length (table_by rules.now edges.now pass (length work.old)) ≡ length work.old) }
    ensures out_after { out.new ≡ store_all out.old 0
        (list_numbers (pass_list rules.now edges.now pass (length work.old))) }
{
    let d = pass.table;
    let found = chart::enumerate(work, rules, pass.rules, edges, pass.edges, d);
    if found == 0 {
        zero(work);
        return 0;
    }
    let first = chart::root_weight(&work[..], d, 0);
    let mut used = [0u32; MOST_EDGES];
    use_first(rules, &work[..], d, &mut used);
    fill(work, rules, pass);
    let m = put_entries(&work[..], rules, edges, &used, pass, first, out);
    zero(work);
    m
}

// The answer for inputs that were read, their rules and edges in arrays.
fn margins_read(
    rules: &[u32],
    edges: &[u32],
    inputs: Inputs,
    work: &mut [u32],
    out: &mut [u32],
) -> Listed
    requires { Bounds inputs }
    ensures { ReadMargins rules.now edges.now inputs work.old out.old result work.new out.new }
{
    let table = chart::lay_out(inputs.sizes.symbols as usize, inputs.heard.last, ONE);
    if work.len() < chart::table_numbers(table) {
        return Err(Refusal::ListingWork);
    }
    if out.len() < NUMBERS_PER_ENTRY * inputs.heard.edges {
        return Err(Refusal::OutputShort);
    }
    let pass = Pass {
        rules: inputs.sizes.rules as usize,
        edges: inputs.heard.edges,
        table,
    };
    Ok(pass_margins(rules, edges, pass, work, out))
}

// The list of words to listen to again, of four numbers each, at the front of the output, and their number. The work table is all zeros
// afterwards.
pub fn word_margins(grammar: &[u8], utterance: &[u8], work: &mut [u32], out: &mut [u32]) -> Listed
    ensures lists { Lists work_after output_after
        (margins grammar.now utterance.now (length work.old) (length out.old))
        work.old out.old result work.new out.new }
    ensures meant { Meant grammar.now utterance.now work.old out.old
        (λ l. as_verdict result ≡ accepted (length l)) work.new out.new }
{
    let mut rules = [0u32; RULES_LENGTH];
    let mut edges = [0u32; EDGES_LENGTH];
    let inputs = read_slot_inputs(grammar, utterance, &mut rules, &mut edges)?;
    margins_read(&rules, &edges, inputs, work, out)
}
