// The reading of a rank of the root, by its trace: of slots the walk, of a graph the walk with the edges of its leaves.
#![tactic(auto)]

ghost use Rattle.std.specs.Prelude.{◌≡◌, ◌++◌, ◌≤◌, ◌<◌, length, drop};
ghost use Rattle.chart_table.specs.Table.{Sized};
ghost use Rattle.packing.specs.GraphReading.{graph_reading_length};
ghost use Rattle.traced_readings.specs.Model.{form_of, FormFor, Traced, block_at};

use chart_table::Layout;
use graph_reading_writer::{graph_reading_length, write_graph_reading};
use packing::format::{MAX_RULES, MAX_SLOTS, NUMBERS_PER_NODE, TRACE_LENGTH};
use reading_writer::{reading_length, write_reading};

// How readings are written: of a graph or of slots, by this many rules, each into this many bytes of the output.
#[derive(Clone, Copy)]
pub struct Form {
    pub graph: bool,
    pub rules: usize,
    pub size: usize,
}

// A rank of the root, and how many numbers its trace has.
#[derive(Clone, Copy)]
pub struct TracedRank {
    pub rank: usize,
    pub numbers: usize,
}

// The form of readings up to the last place n; none is longer than one of a graph with as many places and rules as there can be.
pub fn form_of(graph: bool, n: usize, rules: usize) -> Form
    requires { (1 ≤ n) × (n ≤ MAX_SLOTS) × (1 ≤ rules) × (rules ≤ MAX_RULES) }
    ensures { (result ≡ form_of graph n rules) × (result.size ≤ graph_reading_length MAX_SLOTS MAX_RULES) }
{
    let size = if graph {
        graph_reading_length(n, rules)
    } else {
        reading_length(n, rules)
    };
    Form { graph, rules, size }
}

// The reading of a rank of the root whose trace stands in an array of zeros, in front of what stands in `out` beyond it; behind a graph's own
// bytes it has zeros. A path of n edges has 2 n - 1 nodes.
pub fn write_traced(
    t: &[u32],
    rules: &[u32],
    form: Form,
    d: Layout,
    traced: TracedRank,
    trace: &[u32],
    out: &mut [u8],
)
    requires { (Sized d) × (FormFor MAX_SLOTS d.last form) × (traced.rank < d.ranks) × (form.size ≤ length out.old)
        × Traced TRACE_LENGTH trace.now t.now rules.now d traced.rank traced.numbers }
    ensures { out.new ≡ block_at t.now rules.now d form traced.rank ++ drop form.size out.old }
{
    let weight = chart::root_weight(t, d, traced.rank);
    if form.graph {
        let n = (traced.numbers / NUMBERS_PER_NODE + 1) / 2;
        write_graph_reading(out, form.size, n, weight, rules, form.rules, trace);
        return;
    }
    write_reading(out, d.last, form.rules, weight, trace);
}
