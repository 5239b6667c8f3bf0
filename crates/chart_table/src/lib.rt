// The work table's cells, and where their entries stand.
#![tactic(auto)]

ghost use Rattle.std.specs.Prelude.{◌≡◌, ◌<◌, ◌≤◌};
ghost use Rattle.chart_table.specs.Table.{
  last_place,
  cell_bound,
  entry_bound,
  counts,
  cell,
  left_part,
  right_part,
  root,
  cell_number,
  entry_of,
  Sized,
};

use arrays::wide;
use chart_keys::DIGITS;
use packing::Sym;

// The most ranks that are kept of a cell.
pub const MOST_RANKS: usize = DIGITS;

// An entry's numbers.
pub const ENTRY_NUMBERS: usize = 4;

// A head over a span.
#[derive(Clone, Copy)]
pub struct Cell {
    pub head: Sym,
    pub from: usize,
    pub to: usize,
}

// A rank of a cell.
#[derive(Clone, Copy)]
pub struct Part {
    pub cell: Cell,
    pub rank: usize,
}

// The work table's layout: the number of symbols, the last place, the ranks kept of each cell, and the number of cells.
#[derive(Clone, Copy)]
pub struct Layout {
    pub symbols: usize,
    pub last: usize,
    pub ranks: usize,
    pub cells: usize,
}

// The left and the right part, of the given head, of a cell that is split at a place.
pub fn left_part(c: Cell, head: Sym, split: usize) -> Cell
    ensures { result ≡ left_part c head split }
{
    Cell {
        head,
        from: c.from,
        to: split,
    }
}

pub fn right_part(c: Cell, head: Sym, split: usize) -> Cell
    ensures { result ≡ right_part c head split }
{
    Cell {
        head,
        from: split,
        to: c.to,
    }
}

// The cell of another head over the same span.
pub fn of_head(over: Cell, head: Sym) -> Cell
    ensures { result ≡ cell head over.from over.to }
{
    Cell {
        head,
        from: over.from,
        to: over.to,
    }
}

// The cell of the start symbol over all places.
pub fn root(d: Layout) -> Cell
    ensures { result ≡ root d }
{
    Cell {
        head: Sym(0),
        from: 0,
        to: d.last,
    }
}

// The number of a cell.
pub fn cell_number(d: Layout, c: Cell) -> usize
    requires { (Sized d) × (c.from ≤ last_place) × (0 < c.to) × (c.to ≤ last_place) }
    ensures { (result ≡ cell_number d c) × (result < cell_bound) }
{
    (c.to * (c.to - 1) / 2 + c.from) * d.symbols + wide(c.head.0)
}

// Where the entry of a rank of a cell starts. From here on a cell is given by its number.
pub fn entry_of(d: Layout, number: usize, rank: usize) -> usize
    requires { (Sized d) × (number < cell_bound) × (rank ≤ counts) }
    ensures { (result ≡ entry_of d number rank) × (result < entry_bound) }
{
    if rank == 0 {
        number * ENTRY_NUMBERS
    } else {
        (d.cells + number * (d.ranks - 1) + (rank - 1)) * ENTRY_NUMBERS
    }
}
