// The ranks of the root in a table that may hold anything: whether one is found, and its trace, each node checked.
#![tactic(auto)]

ghost use Rattle.std.specs.Prelude.{◌≡◌, true, ◌≤◌, ◌<◌, length};
ghost use Rattle.bits.specs.Bits.{pick};
ghost use Rattle.packing.specs.Store.{store_all};
ghost use Rattle.chart_table.specs.Table.{Sized};
ghost use Rattle.chart.specs.Chart.{root_trace, root_found, root_spelled};

use arrays::wide;
use chart::root_weight;
use chart_entries::price_at;
use chart_table::{Layout, Part, cell_number, root};
use chart_trace::checked::{Scope, trace_checked};

// Whether a rank of the root is found.
pub fn root_found(t: &[u32], d: Layout, rank: usize) -> bool
    requires { (Sized d) × (0 < d.last) }
    ensures { result ≡ root_found t.now d rank }
{
    price_at(t, d, cell_number(d, root(d)), rank) != 0
}

// Writes the trace of a rank of the root, each node checked, and answers how many numbers it has: none where the table spells no tree there,
// or one of another weight than its price says.
pub fn checked_root(
    t: &[u32],
    rules: &[u32],
    edges: &[u32],
    scope: Scope,
    d: Layout,
    rank: usize,
    trace: &mut [u32],
) -> Option<usize>
    requires { (Sized d) × (0 < d.last) × (rank < d.ranks) × (scope.edges ≤ 256) }
    ensures value { result ≡ pick (root_spelled t.now rules.now edges.now scope d rank)
        (Some (length (root_trace t.now rules.now d rank))) None }
    ensures trace_after { root_spelled t.now rules.now edges.now scope d rank ≡ true
        → trace.new ≡ store_all trace.old 0 (root_trace t.now rules.now d rank) }
{
    let part = Part {
        cell: root(d),
        rank,
    };
    let Some(traced) = trace_checked(t, rules, edges, scope, d, part, trace) else {
        return None;
    };
    if traced.weight == wide(root_weight(t, d, rank)) {
        Some(traced.numbers)
    } else {
        None
    }
}
