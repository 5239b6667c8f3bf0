// Costs known within ranges: the least and the greatest first weight over all choices of costs between those of two utterance blocks, and
// whether the first reading for the low costs can be outweighed.
#![tactic(auto)]

ghost use Rattle.std.specs.Prelude.{◌≡◌, ◌≤◌, length};
ghost use Rattle.packing.specs.Flat.{nodes_in};
ghost use Rattle.packing.specs.Parse.{accepted};
ghost use Rattle.packing.specs.Read.{as_verdict};
ghost use Rattle.inputs.specs.Inputs.{Bounds};
ghost use Rattle.cost_ranges.specs.CostRanges.{answered, ranges, Meant};
ghost use Rattle.one_best.specs.Model.{Passable, table_by, weight_by};
ghost use Rattle.rising_costs.specs.Model.{raise_nodes};
ghost use Rattle.cost_ranges.specs.Model.{has_least, decide, passed, left_by, AlikeRanged, Promised};

use arrays::wide;
use heard_reader::read_slots;
use inputs::{Inputs, read_slot_inputs};
use one_best::Pass;
use packing::format::{EDGES_LENGTH, RULES_LENGTH, TRACE_LENGTH};
use packing::refusal::Refusal;

// The least and the greatest first weight.
#[derive(Clone, Copy, Debug, PartialEq, Eq)]
pub struct Weights {
    pub least: u32,
    pub greatest: u32,
}

// What the service answers: no derivation, or the weights, where the first reading for the low costs is outweighed under some choice, or
// under none.
#[derive(Clone, Copy, Debug, PartialEq, Eq)]
pub enum Ranged {
    Nothing,
    Outweighed(Weights),
    Stands(Weights),
}

// One reading is looked for in each pass.
const ONE: usize = 1;

// The first weight for the costs of these edges.
fn first_weight(rules: &[u32], edges: &[u32], pass: Pass, work: &mut [u32]) -> u32
    requires { Passable pass }
    ensures work_after { work.new ≡ table_by rules.now edges.now pass (length work.old) }
    ensures value { result ≡ weight_by rules.now edges.now pass (length work.old) }
{
    chart::enumerate(work, rules, pass.rules, edges, pass.edges, pass.table);
    chart::root_weight(work, pass.table, 0)
}

// The pass over mixed costs, which `costs` has afterwards: whether a tree, whose nodes are the trace, has least weight with its own words high and
// all others as in `costs`.
fn has_least(
    rules: &[u32],
    trace: &[u32],
    high: &[u32],
    costs: &mut [u32],
    pass: Pass,
    work: &mut [u32],
) -> bool
    requires { (Passable pass) × (length trace.now ≤ 94) }
    ensures value { result ≡ has_least rules.now (nodes_in rules.now trace.now) high.now costs.old pass
        (length work.old) }
    ensures work_after { work.new ≡ table_by rules.now
        (raise_nodes high.now costs.old (nodes_in rules.now trace.now)) pass (length work.old) }
{
    let own = rising_costs::raise_own(rules, trace, high, costs);
    let least = first_weight(rules, &costs[..], pass, work);
    own == wide(least)
}

// The answer, where the first reading has least weight with its own words high and all others low.
fn decide(stands: bool, weights: Weights) -> Ranged
    ensures { result ≡ decide stands weights }
{
    if stands {
        return Ranged::Stands(weights);
    }
    Ranged::Outweighed(weights)
}

// The passes over low, high and mixed costs. `low` has the mixed costs afterwards.
fn passes(rules: &[u32], low: &mut [u32], high: &[u32], pass: Pass, work: &mut [u32]) -> Ranged
    requires { (Passable pass) × (pass.table.last ≤ 24) }
    ensures value { result ≡ passed rules.now low.old high.now pass (length work.old) }
    ensures work_after { work.new ≡ left_by rules.now low.old high.now pass (length work.old) }
{
    let d = pass.table;
    let found = chart::enumerate(work, rules, pass.rules, &low[..], pass.edges, d);
    if found == 0 {
        chart::clear_table(work, d);
        return Ranged::Nothing;
    }
    let least = chart::root_weight(&work[..], d, 0);
    let mut trace = [0u32; TRACE_LENGTH];
    let numbers = chart::trace_root(&work[..], rules, d, 0, &mut trace);
    let greatest = first_weight(rules, high, pass, work);
    let stands = has_least(rules, &trace[..numbers], high, low, pass, work);
    chart::clear_table(work, d);
    decide(stands, Weights { least, greatest })
}

// The answer where the edges are alike but for their costs, and no cost falls.
fn ranges_alike(
    rules: &[u32],
    inputs: Inputs,
    low: &mut [u32],
    high: &[u32],
    work: &mut [u32],
) -> Result<Ranged, Refusal>
    requires { Bounds inputs }
    ensures { AlikeRanged rules.now inputs low.old high.now work.old result work.new }
{
    let table = chart::lay_out(inputs.sizes.symbols as usize, inputs.heard.last, ONE);
    if work.len() < chart::table_numbers(table) {
        return Err(Refusal::ListingWork);
    }
    let pass = Pass {
        rules: inputs.sizes.rules as usize,
        edges: inputs.heard.edges,
        table,
    };
    Ok(passes(rules, low, high, pass, work))
}

// The least and the greatest first weight over all choices of costs between the blocks, and whether the first reading for the low costs is
// outweighed under some choice, with a work table that is all zeros afterwards.
pub fn cost_ranges(
    grammar: &[u8],
    low: &[u8],
    high: &[u8],
    work: &mut [u32],
) -> Result<Ranged, Refusal>
    ensures promised { Promised (ranges grammar.now low.now high.now (length work.old)) work.old result
        work.new }
    ensures meant { Meant grammar.now low.now high.now work.old
        (λ a. as_verdict result ≡ accepted (answered a)) work.new }
{
    let mut rules = [0u32; RULES_LENGTH];
    let mut lows = [0u32; EDGES_LENGTH];
    let inputs = read_slot_inputs(grammar, low, &mut rules, &mut lows)?;
    let mut highs = [0u32; EDGES_LENGTH];
    let other = read_slots(high, inputs.sizes.words, &mut highs)?;
    if rising_costs::both_rise(&lows, inputs.heard, &highs, other) {
        return ranges_alike(&rules, inputs, &mut lows, &highs, work);
    }
    Err(Refusal::CostRanges)
}
