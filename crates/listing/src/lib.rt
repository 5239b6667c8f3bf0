// The listing of the N least readings, within the limits of the library or of the panel.
#![tactic(auto)]

ghost use Rattle.std.specs.Prelude.{◌≡◌, ◌++◌, ◌+◌, ◌*◌, ◌≤◌, ◌<◌, length, drop};
ghost use Rattle.packing.specs.Parse.{accepted};
ghost use Rattle.packing.specs.Read.{as_verdict};
ghost use Rattle.inputs.specs.Inputs.{Bounds};
ghost use Rattle.chart_table.specs.Table.{Sized};
ghost use Rattle.listing.specs.Conditions.{library, Within};
ghost use Rattle.inputs.specs.Answer.{Lists};
ghost use Rattle.chart.specs.WorkTable.{work_after};
ghost use Rattle.listing.specs.Listing.{list, output_after};
ghost use Rattle.listing.specs.Demand3.{Demand3};
ghost use Rattle.traced_readings.specs.Model.{FormFor, block_at};
ghost use Rattle.listing.specs.Model.{blocks_at, Filled, ReadListed};

use chart_table::Layout;
use inputs::{Inputs, Listed, read_inputs};
use listing_limits::{Asked, LIBRARY, Limits, shortage};
use packing::format::{EDGES_LENGTH, MAX_SLOTS, RULES_LENGTH, TRACE_LENGTH};
use traced_readings::{Form, TracedRank, form_of, write_traced};

// The reading of a rank of the root, traced back.
fn write_rank(t: &[u32], rules: &[u32], form: Form, d: Layout, x: usize, out: &mut [u8])
    requires { (Sized d) × (FormFor MAX_SLOTS d.last form) × (x < d.ranks) × (form.size ≤ length out.old) }
    ensures { out.new ≡ block_at t.now rules.now d form x ++ drop form.size out.old }
{
    let mut trace = [0u32; TRACE_LENGTH];
    let numbers = chart::trace_root(t, rules, d, x, &mut trace);
    let traced = TracedRank { rank: x, numbers };
    write_traced(t, rules, form, d, traced, &trace, out);
}

// The readings of the first m ranks, one after another.
fn write_readings(t: &[u32], rules: &[u32], form: Form, d: Layout, m: usize, out: &mut [u8])
    requires { (Sized d) × (FormFor MAX_SLOTS d.last form) × (m ≤ d.ranks) × (m * form.size ≤ length out.old) }
    ensures { out.new ≡ blocks_at t.now rules.now d form m ++ drop (m * form.size) out.old }
{
    let size = form.size;
    for x in 0..m {
        let at = x * size;
        write_rank(t, rules, form, d, x, &mut out[at..]);
    }
}

// Finds the readings and writes them. The work table is all zeros afterwards: outside the entries found it stays so.
fn fill(
    rules: &[u32],
    form: Form,
    edges: &[u32],
    arcs: usize,
    d: Layout,
    work: &mut [u32],
    out: &mut [u8],
) -> usize
    requires { (Sized d) × (FormFor MAX_SLOTS d.last form) × (arcs ≤ 256) × (d.ranks * form.size ≤ length out.old) }
    ensures { Filled rules.now form edges.now arcs d work.old out.old result work.new out.new }
{
    let m = chart::enumerate(work, rules, form.rules, edges, arcs, d);
    write_readings(&work[..], rules, form, d, m, out);
    chart::clear_table(work, d);
    m
}

// The listing of inputs that were read, their rules and edges in arrays.
fn list_read(
    rules: &[u32],
    edges: &[u32],
    inputs: Inputs,
    asked: Asked,
    work: &mut [u32],
    out: &mut [u8],
) -> Listed
    requires { Bounds inputs }
    ensures { ReadListed rules.now edges.now inputs asked work.old out.old result work.new
        out.new }
{
    let symbols = inputs.sizes.symbols as usize;
    let last = inputs.heard.last;
    let form = form_of(inputs.heard.graph, last, inputs.sizes.rules as usize);
    shortage(asked, symbols, last, form.size, work.len(), out.len())?;
    let d = chart::lay_out(symbols, last, asked.wanted as usize);
    Ok(fill(rules, form, edges, inputs.heard.edges, d, work, out))
}

// The N least readings of what was heard, slots or a graph, under the grammar, one after another into `out`, with a work table that
// is all zeros afterwards, within the limits of a service.
pub fn listing_within(
    limits: Limits,
    grammar: &[u8],
    heard: &[u8],
    wanted: u32,
    work: &mut [u32],
    out: &mut [u8],
) -> Listed
    ensures lists { Lists work_after output_after
        (list limits grammar.now heard.now wanted (length work.old) (length out.old))
        work.old out.old result work.new out.new }
    ensures demand3 { Within limits grammar.now heard.now wanted
        → Demand3 grammar.now heard.now wanted work.old out.old (λ m. as_verdict result ≡ accepted m)
        work.new out.new }
{
    let mut rules = [0u32; RULES_LENGTH];
    let mut edges = [0u32; EDGES_LENGTH];
    let inputs = read_inputs(grammar, heard, &mut rules, &mut edges)?;
    list_read(&rules, &edges, inputs, Asked { limits, wanted }, work, out)
}

// The library's listing: every accepted block is within its limits.
pub fn listing(
    grammar: &[u8],
    heard: &[u8],
    wanted: u32,
    work: &mut [u32],
    out: &mut [u8],
) -> Listed
    ensures lists { Lists work_after output_after
        (list library grammar.now heard.now wanted (length work.old) (length out.old))
        work.old out.old result work.new out.new }
    ensures demand3 { Demand3 grammar.now heard.now wanted work.old out.old
        (λ m. as_verdict result ≡ accepted m) work.new out.new }
{
    listing_within(LIBRARY, grammar, heard, wanted, work, out)
}
