// Masks of the cells that hold a tree, as chart_masks has them: for each head and place the places where a span ends that starts there, and where
// one starts that ends there. By them the outside pass passes over rules whose parts meet nowhere.
#![tactic(auto)]

ghost use Rattle.std.specs.Prelude.{◌≤◌, ◌<◌, length};
ghost use Rattle.chart_masks.specs.Masks.{mask_numbers};
ghost use Rattle.chart_table.specs.Table.{Sized};
ghost use Rattle.found_masks.specs.Marks.{MarkedAll, JustThis, OfSpan, EndingAt, UpTo};

use chart_entries::price_at;
use chart_masks::mark;
use chart_table::{Cell, Layout, cell_number};
use packing::Sym;

// Marks a cell, if it holds a tree.
fn mark_cell(t: &[u32], masks: &mut [u32], d: Layout, c: Cell)
    requires { (Sized d) × (c.from < c.to) × (c.to ≤ d.last) × (c.head.0 ≤ 31) × (mask_numbers ≤ length masks.old) }
    ensures { MarkedAll t.now d (JustThis c) masks.old masks.new }
{
    if price_at(t, d, cell_number(d, c), 0) == 0 {
        return;
    }
    mark(masks, c);
}

// Marks the cells over one span.
fn mark_heads(t: &[u32], masks: &mut [u32], d: Layout, from: usize, to: usize)
    requires { (Sized d) × (from < to) × (to ≤ d.last) × (mask_numbers ≤ length masks.old) }
    ensures { MarkedAll t.now d (OfSpan from to d.symbols) masks.old masks.new }
{
    let symbols = d.symbols;
    for a in 0..symbols {
        let c = Cell {
            head: Sym(a as u32),
            from,
            to,
        };
        mark_cell(t, masks, d, c);
    }
}

// Marks the cells that end at a place.
fn mark_spans(t: &[u32], masks: &mut [u32], d: Layout, to: usize)
    requires { (Sized d) × (to ≤ d.last) × (mask_numbers ≤ length masks.old) }
    ensures { MarkedAll t.now d (EndingAt d.symbols to to) masks.old masks.new }
{
    for from in 0..to {
        mark_heads(t, masks, d, from, to);
    }
}

// Marks all cells that hold a tree.
pub fn mark_found(t: &[u32], masks: &mut [u32], d: Layout)
    requires { (Sized d) × (mask_numbers ≤ length masks.old) }
    ensures { MarkedAll t.now d (UpTo d.symbols d.last) masks.old masks.new }
{
    let places = d.last;
    for x in 0..places {
        mark_spans(t, masks, d, x + 1);
    }
}
