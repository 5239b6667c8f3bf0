// One call of an open listing over arrays of rules and edges: the rank behind those that were handed out is looked for, and what was written over is
// put back unless it is handed out.
#![tactic(auto)]

ghost use Rattle.std.specs.Prelude.{◌≡◌, true, ◌-◌, ◌*◌, ◌≤◌, ◌<◌, length, take};
ghost use Rattle.open_answer.specs.Model.{Planned, told};
ghost use Rattle.open_search.specs.Model as model;
ghost use Rattle.open_search.specs.Model.{zeros, first_table, next_table, Searched, As, call_by};

use chart_classes::INDEX_NUMBERS;
use chart_index::make_index;
use chart_journal::{JOURNAL_NUMBERS, put_back};
use chart_search::next_of_root;
use chart_table::{ENTRY_NUMBERS, Layout, MOST_RANKS};
use open_answer::{Answer, Plan, as_spelled, settle};
use packing::format::MAX_SLOTS;
use packing::refusal::Refusal;

// An open listing's place: how many readings were handed out, and whether it was opened.
#[repr(C)]
#[derive(Clone, Copy)]
pub struct Place {
    pub handed: u32,
    pub opened: u32,
}

// The mark of a place that was opened. At a place with another, nothing is looked for: the table is taken as it stands.
pub const OPENED: u32 = 1;

// Whether all numbers are 0.
#[tactic(auto, unfolding(crate::specs::Model::zeros))]
fn zeroed(t: &[u32]) -> bool
    ensures { result ≡ zeros t.now }
{
    t.iter().all(|x| *x == 0)
}

// Whether a call looks for a rank: at an opened place, and of a first call in a table whose front is zeros.
fn seeks(plan: Plan, place: Place, work: &[u32]) -> bool
    requires { (Planned MAX_SLOTS plan) × (4 * plan.layout.cells ≤ length work.now) }
    ensures { result ≡ model.seeks plan place work.now }
{
    if place.opened != OPENED {
        return false;
    }
    place.handed != 0 || zeroed(&work[..ENTRY_NUMBERS * plan.layout.cells])
}

// The first call: one rank of each cell is looked for, at the table's front, which is zeros. Unless a reading is handed out, it is made zeros again.
fn first(
    work: &mut [u32],
    rules: &[u32],
    edges: &[u32],
    plan: Plan,
    out: &mut [u8],
) -> Result<Answer, Refusal>
    requires { (Planned MAX_SLOTS plan) × (plan.form.size ≤ length out.old) × (4 * plan.layout.cells ≤ length work.old)
        × (zeros (take (4 * plan.layout.cells) work.old) ≡ true) }
    ensures { Searched (first_table rules.now edges.now plan work.old) rules.now edges.now plan 0
        work.old out.old (told result) work.new out.new }
{
    let front = ENTRY_NUMBERS * plan.layout.cells;
    let single = Layout {
        ranks: 1,
        ..plan.layout
    };
    chart::enumerate(
        &mut work[..front],
        rules,
        plan.form.rules,
        edges,
        plan.edges,
        single,
    );
    let answer = settle(&work[..], rules, edges, plan, 0, out);
    if answer != Ok(Answer::Reading) {
        work[..front].fill(0);
    }
    answer
}

// A later call: the rank behind the last that was handed out is looked for. Unless it is handed out, what was written over is put back.
fn later(
    work: &mut [u32],
    rules: &[u32],
    edges: &[u32],
    plan: Plan,
    handed: usize,
    out: &mut [u8],
) -> Result<Answer, Refusal>
    requires { (Planned MAX_SLOTS plan) × (1 ≤ handed) × (handed < plan.layout.ranks) × (plan.form.size ≤ length out.old) }
    ensures { Searched (next_table rules.now edges.now plan (handed - 1) work.old) rules.now
        edges.now plan handed work.old out.old (told result) work.new out.new }
{
    let mut index = [0u32; INDEX_NUMBERS];
    let mut kept = [0u32; JOURNAL_NUMBERS];
    make_index(
        rules,
        plan.form.rules,
        plan.layout.symbols,
        edges,
        plan.edges,
        plan.layout.last,
        &mut index,
    );
    next_of_root(
        work,
        &mut kept,
        rules,
        edges,
        &index,
        plan.layout,
        handed - 1,
    );
    let answer = settle(&work[..], rules, edges, plan, handed, out);
    if answer != Ok(Answer::Reading) {
        put_back(work, &kept);
    }
    answer
}

// One more reading of inputs that were read, their rules and edges in arrays.
pub fn next_read(
    rules: &[u32],
    edges: &[u32],
    plan: Plan,
    place: Place,
    work: &mut [u32],
    out: &mut [u8],
) -> Result<Answer, Refusal>
    requires { Planned MAX_SLOTS plan }
    ensures { As (call_by rules.now edges.now plan place work.old out.old) (told result) work.new
        out.new }
{
    if work.len() < chart::table_numbers(plan.layout) {
        return Err(Refusal::ListingWork);
    }
    if out.len() < plan.form.size {
        return Err(Refusal::ListingOutput);
    }
    let handed = place.handed as usize;
    if MOST_RANKS <= handed {
        return Ok(Answer::Full);
    }
    if !seeks(plan, place, &work[..]) {
        return as_spelled(&work[..], rules, edges, plan, handed, out);
    }
    if handed == 0 {
        return first(work, rules, edges, plan, out);
    }
    later(work, rules, edges, plan, handed, out)
}
