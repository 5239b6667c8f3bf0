// The back trace of a tree from the back pointers of found ranks: two numbers for each node.
#![tactic(auto)]

pub mod checked;
mod right_parts;

ghost use Rattle.std.specs.Prelude.{◌≡◌, ℕ, ◌+◌, ◌-◌, ◌*◌, ◌/◌, ◌%◌, ◌<◌, ◌≤◌, ltb, length, set};
ghost use Rattle.bits.specs.Width.{u32_values};
ghost use Rattle.bits.specs.Bits.{pick};
ghost use Rattle.packing.specs.Meaning.{symbol_of, word};
ghost use Rattle.packing.specs.Flat.{rule_at};
ghost use Rattle.packing.specs.Store.{store_all};
ghost use Rattle.packing.specs.declared.Rule.TheVariants as Rule;
ghost use Rattle.chart_keys.specs.Keys.{back_pointer, Digits};
ghost use Rattle.chart_table.specs.Table.{most_ranks, cell, InTable, cell_number, back_at};
ghost use Rattle.chart_trace.specs.Trace.{trace_back};

use crate::right_parts::Pending;
use arrays::{rule_at, store};
use chart_entries::back_at;
use chart_keys::{BackPointer, back_pointer};
use chart_table::{Cell, Layout, Part, cell_number, left_part};
use packing::format::NUMBERS_PER_NODE;
use packing::{Rule, Sym, Word};

// Writes the rule number of a node and the number of its left part, which of a leaf is its edge's.
fn store_node(trace: &mut [u32], at: usize, b: BackPointer)
    requires { (Digits b) × (at < u32_values) }
    ensures { trace.new ≡ set (set trace.old at b.rule) (at + 1) b.left }
{
    if at + 1 < trace.len() {
        trace[at] = b.rule as u32;
        trace[at + 1] = b.left as u32;
        return;
    }
    store(trace, at, b.rule as u32);
    store(trace, at + 1, b.left as u32);
}

// The rule of a node, by which it has parts or none. The split is tested, since a table may hold anything: where it is not
// within the span, a rule that has no parts.
fn rule_within(rules: &[u32], c: Cell, b: BackPointer) -> Rule
    requires { Digits b }
    ensures { result ≡ pick (ltb c.from b.split)
        (pick (ltb b.split c.to) (rule_at rules.now b.rule) (Rule.Word (symbol_of 0) (word 0) 0)) (Rule.Word (symbol_of 0) (word 0) 0) }
{
    if c.from < b.split && b.split < c.to {
        rule_at(rules, b.rule)
    } else {
        Rule::Word(Sym(0), Word(0), 0)
    }
}

// Writes the trace of a rank of a cell, node, left part, right part, one after another from the first place on, and answers how
// many numbers it has. While a left part is traced, the right one is pending.
pub fn trace_back(
    t: &[u32],
    rules: &[u32],
    d: Layout,
    c: Cell,
    rank: usize,
    trace: &mut [u32],
) -> usize
    requires { (InTable d c) × (rank ≤ most_ranks) }
    ensures { (f : ℕ) → c.to - c.from ≤ f
        → (trace.new ≡ store_all trace.old 0 (trace_back t.now rules.now d f c rank))
        × (result ≡ length (trace_back t.now rules.now d f c rank)) }
{
    let mut pending = Pending::new();
    let mut part = Part { cell: c, rank };
    let mut numbers: usize = 0;
    loop {
        let cell = part.cell;
        let back = back_pointer(back_at(t, d, cell_number(d, cell), part.rank));
        store_node(trace, numbers, back);
        numbers += NUMBERS_PER_NODE;
        match rule_within(rules, cell, back) {
            Rule::Pair(_, first, second, _) => {
                pending.push(second, cell.to, back.right);
                part = Part {
                    cell: left_part(cell, first, back.split),
                    rank: back.left,
                };
            }
            Rule::Word(_, _, _) => {
                let Some(right) = pending.pop(cell.to) else {
                    return numbers;
                };
                part = right;
            }
        }
    }
}
