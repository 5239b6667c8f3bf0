// The work table's layout, and how many numbers the table has.
#![tactic(auto)]

ghost use Rattle.std.specs.Prelude.{◌≡◌, ◌*◌, ◌<◌, ◌≤◌};
ghost use Rattle.chart_table.specs.Table.{last_place, most_ranks, Sized};
ghost use Rattle.chart_layout.specs.Layout.{lay_out};

use chart_table::{ENTRY_NUMBERS, Layout};

// The layout of a table for as many ranks of each cell, over as many symbols, up to a last place.
pub fn lay_out(symbols: usize, last: usize, ranks: usize) -> Layout
    requires { (symbols ≤ 32) × (last ≤ last_place) × (0 < ranks) × (ranks ≤ most_ranks) }
    ensures { (result ≡ lay_out symbols last ranks) × Sized result }
{
    Layout {
        symbols,
        last,
        ranks,
        cells: symbols * (last * (last + 1) / 2),
    }
}

// The numbers of a table.
pub fn table_numbers(d: Layout) -> usize
    requires { Sized d }
    ensures { (result ≡ 4 * d.cells * d.ranks) × (result ≤ 16777216) }
{
    ENTRY_NUMBERS * d.cells * d.ranks
}
