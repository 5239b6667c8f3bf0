// What a call of an open listing answers, by what its work table spells at a rank of the root.
#![tactic(auto)]

ghost use Rattle.std.specs.Prelude.{◌≡◌, true, ◌≤◌, ◌<◌, length};
ghost use Rattle.chart.specs.Chart.{root_found};
ghost use Rattle.open_answer.specs.Model.{Planned, told, settled, is_reading, output_by};

use chart_table::Layout;
use chart_trace::checked::Scope;
use checked_roots::{checked_root, root_found};
use packing::format::{MAX_SLOTS, TRACE_LENGTH};
use packing::refusal::Refusal;
use traced_readings::{Form, TracedRank, write_traced};

// What a call answers: a reading, that there are no more, that all that can be listed were handed out.
#[derive(Clone, Copy, PartialEq, Eq)]
pub enum Answer {
    Reading,
    NoMore,
    Full,
}

// What a search goes by: the form of readings, the table's layout and the number of edges. `Planned` is no ghost field: open_listing's specs make
// plans of what was read, and would have to prove it there.
#[derive(Clone, Copy)]
pub struct Plan {
    pub form: Form,
    pub layout: Layout,
    pub edges: usize,
}

// What a call answers by what the table spells at a rank of the root: its reading, which is written to `out`, or 53.
pub fn as_spelled(
    t: &[u32],
    rules: &[u32],
    edges: &[u32],
    plan: Plan,
    rank: usize,
    out: &mut [u8],
) -> Result<Answer, Refusal>
    requires { (Planned MAX_SLOTS plan) × (rank < plan.layout.ranks) × (plan.form.size ≤ length out.old) }
    ensures { (told result ≡ settled t.now rules.now edges.now plan rank true)
        × (out.new ≡ output_by (is_reading (told result)) t.now rules.now plan rank out.old) }
{
    let d = plan.layout;
    let scope = Scope {
        rules: plan.form.rules,
        edges: plan.edges,
        named: plan.form.graph,
    };
    let mut trace = [0u32; TRACE_LENGTH];
    let found = checked_root(t, rules, edges, scope, d, rank, &mut trace);
    let Some(numbers) = found else {
        return Err(Refusal::OpenAltered);
    };
    let traced = TracedRank { rank, numbers };
    write_traced(t, rules, plan.form, d, traced, &trace, out);
    Ok(Answer::Reading)
}

// What a call answers once a rank of the root was looked for.
pub fn settle(
    t: &[u32],
    rules: &[u32],
    edges: &[u32],
    plan: Plan,
    rank: usize,
    out: &mut [u8],
) -> Result<Answer, Refusal>
    requires { (Planned MAX_SLOTS plan) × (rank < plan.layout.ranks) × (plan.form.size ≤ length out.old) }
    ensures { (told result ≡ settled t.now rules.now edges.now plan rank (root_found t.now plan.layout rank))
        × (out.new ≡ output_by (is_reading (told result)) t.now rules.now plan rank out.old) }
{
    if root_found(t, plan.layout, rank) {
        return as_spelled(t, rules, edges, plan, rank, out);
    }
    Ok(Answer::NoMore)
}
