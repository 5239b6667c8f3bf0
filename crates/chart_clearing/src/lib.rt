// Clearing: the entries of the ranks that were found made 0.
#![tactic(auto)]

ghost use Rattle.std.specs.Prelude.{true, ◌≡◌, ◌+◌, ◌<◌, ◌≤◌, length, set};
ghost use Rattle.chart_table.specs.Table.{most_ranks, cell_bound, counts, entry_of, last_rank, ranks_to_clear, clear_entry, clear_cell, clear, Clear, Sized};

use arrays::{store, wide};
use chart_entries::{COUNTS, beside_at};
use chart_table::{Layout, entry_of};

// The last rank found of a cell, which stands beside the first.
fn last_rank(t: &[u32], d: Layout, number: usize) -> usize
    requires { (Sized d) × (number < cell_bound) }
    ensures { (result ≡ last_rank t.now d number) × (result < counts) }
{
    beside_at(t, d, number, 0) / COUNTS % COUNTS
}

// How many ranks of a cell there are up to the last found, and one where none is.
fn ranks_to_clear(t: &[u32], d: Layout, number: usize) -> usize
    requires { (Sized d) × (number < cell_bound) }
    ensures { (result ≡ ranks_to_clear t.now d number) × (result ≤ d.ranks) }
{
    let last = last_rank(t, d, number);
    if last < d.ranks { last + 1 } else { d.ranks }
}

// Makes the four numbers of an entry that stands in the table 0.
fn clear_within(t: &mut [u32], at: usize)
    requires { at + 3 < length t.old }
    ensures { t.new ≡ set (set (set (set t.old at 0) (at + 1) 0) (at + 2) 0) (at + 3) 0 }
{
    // One by one, as the definition has it: what `fill` leaves of a part of a slice is told in other words.
    t[at] = 0;
    t[at + 1] = 0;
    t[at + 2] = 0;
    t[at + 3] = 0;
}

// Makes the four numbers of an entry 0. One test suffices where all four stand in the table.
fn clear_entry(t: &mut [u32], d: Layout, number: usize, x: usize)
    requires { (Sized d) × (number < cell_bound) × (x ≤ most_ranks) }
    ensures { t.new ≡ clear_entry t.old d number x }
{
    let at = entry_of(d, number, x);
    if at + 3 < t.len() {
        clear_within(t, at);
        return;
    }
    store(t, at, 0);
    store(t, at + 1, 0);
    store(t, at + 2, 0);
    store(t, at + 3, 0);
}

// Whether the first entry of a cell stands in the table and has zeros only. Of most cells of an office grammar nothing is found.
fn is_clear(t: &[u32], d: Layout, number: usize) -> bool
    requires { (Sized d) × (number < cell_bound) }
    ensures { result ≡ true → Clear t.now (entry_of d number 0) }
{
    let at = entry_of(d, number, 0);
    if at + 3 < t.len() {
        // One test for all four: `iter().all(..)` has one for each.
        return wide(t[at]) + wide(t[at + 1]) + wide(t[at + 2]) + wide(t[at + 3]) == 0;
    }
    false
}

// Makes the entries of a cell's ranks up to the last found 0.
fn clear_cell(t: &mut [u32], d: Layout, number: usize)
    requires { (Sized d) × (number < cell_bound) }
    ensures { t.new ≡ clear_cell t.old d number }
{
    if is_clear(&t[..], d, number) {
        return;
    }
    for x in 0..ranks_to_clear(&t[..], d, number) {
        clear_entry(t, d, number, x);
    }
}

// Makes the entries of all ranks found 0, of every cell.
pub fn clear(t: &mut [u32], d: Layout)
    requires { Sized d }
    ensures { t.new ≡ clear t.old d }
{
    for c in 0..d.cells {
        clear_cell(t, d, c);
    }
}
