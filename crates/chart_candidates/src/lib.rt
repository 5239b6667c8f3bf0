// The key of a pairing. What the leaves and the seeds of a cell are stands in specs/ and proofs/; chart_leaves and chart_seeds find the least.
#![tactic(auto)]

ghost use Rattle.std.specs.Prelude.{◌≡◌, ◌<◌, ◌≤◌};
ghost use Rattle.bits.specs.Width.{u32_values};
ghost use Rattle.chart_keys.specs.Keys.{splits, digits, key_number};
ghost use Rattle.chart_table.specs.Table.{last_place, Sized};
ghost use Rattle.chart_candidates.specs.Candidates.{pair_key};

use chart_entries::price_at;
use chart_keys::{BackPointer, Key, back_number, join_price};
use chart_table::{Cell, Layout, cell_number};
use packing::Sym;

// A pair rule: its number, its two symbols and its weight.
#[derive(Clone, Copy)]
pub struct PairRule {
    pub number: usize,
    pub first: Sym,
    pub second: Sym,
    pub weight: u32,
}

// What is looked for: the least key above a floor and below the best so far.
#[derive(Clone, Copy)]
pub struct Range {
    pub floor: Key,
    pub best: Key,
}

// The key of the tree that a rule of weight w joins from two cells, with the ranks of a back pointer.
pub fn pair_key(t: &[u32], d: Layout, left: Cell, right: Cell, w: u32, b: BackPointer) -> Key
    requires sized { (Sized d) × (left.from ≤ last_place) × (0 < left.to) × (left.to ≤ last_place) }
    requires from_le_last_place { (right.from ≤ last_place) × (0 < right.to) × (right.to ≤ last_place) }
    requires rule_lt_u32values { (b.rule < u32_values) × (b.split < splits) × (b.left ≤ digits) × (b.right ≤ digits) }
    ensures { key_number result ≡ pair_key t.now d left right w b }
{
    let x = price_at(t, d, cell_number(d, left), b.left);
    let y = price_at(t, d, cell_number(d, right), b.right);
    let price = join_price(w, x, y);
    let back = back_number(b);
    Key { price, back }
}
