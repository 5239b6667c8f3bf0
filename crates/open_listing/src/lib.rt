// Readings one by one: an open listing keeps its place between calls, and each call hands out one more reading from a work table for as
// many ranks as can be listed.
#![tactic(auto)]

ghost use Rattle.std.specs.Prelude.{◌≡◌, length};
ghost use Rattle.inputs.specs.Inputs.{Bounds};
ghost use Rattle.open_answer.specs.Model.{Planned, told};
ghost use Rattle.open_listing.specs.Open.{opening, lent, left};
ghost use Rattle.open_listing.specs.Model.{plan_of, OpensAs, CallsAs};

use chart_table::MOST_RANKS;
use inputs::{Inputs, read_inputs};
use open_answer::{Answer, Plan};
pub use open_search::Place;
use open_search::next_read;
use packing::format::{EDGES_LENGTH, MAX_SLOTS, RULES_LENGTH};
use packing::refusal::Refusal;
use traced_readings::form_of;

// What a search of these inputs goes by, with a table for all ranks that can be listed.
fn plan_of(inputs: Inputs) -> Plan
    requires { Bounds inputs }
    ensures { (result ≡ plan_of inputs) × Planned MAX_SLOTS result }
{
    let last = inputs.heard.last;
    Plan {
        form: form_of(inputs.heard.graph, last, inputs.sizes.rules as usize),
        layout: chart::lay_out(inputs.sizes.symbols as usize, last, MOST_RANKS),
        edges: inputs.heard.edges,
    }
}

// One more reading of what was heard, slots or a graph, under the grammar, to the front of `out`, for a place and a work table as they were left.
pub fn next(
    grammar: &[u8],
    heard: &[u8],
    place: Place,
    work: &mut [u32],
    out: &mut [u8],
) -> Result<Answer, Refusal>
    ensures { CallsAs (lent grammar.now heard.now place work.old out.old)
        (left (told result) work.new out.new) }
{
    let mut rules = [0u32; RULES_LENGTH];
    let mut edges = [0u32; EDGES_LENGTH];
    let inputs = read_inputs(grammar, heard, &mut rules, &mut edges)?;
    next_read(&rules, &edges, plan_of(inputs), place, work, out)
}

// Opens a listing of what was heard, slots or a graph, under the grammar, in a work table for all ranks that can be listed.
pub fn open(grammar: &[u8], heard: &[u8], work: &mut [u32]) -> Result<(), Refusal>
    ensures { OpensAs (opening grammar.now heard.now (length work.old)) work.old result work.new }
{
    let mut rules = [0u32; RULES_LENGTH];
    let mut edges = [0u32; EDGES_LENGTH];
    let inputs = read_inputs(grammar, heard, &mut rules, &mut edges)?;
    let plan = plan_of(inputs);
    if work.len() < chart::table_numbers(plan.layout) {
        return Err(Refusal::ListingWork);
    }
    work.fill(0);
    Ok(())
}
