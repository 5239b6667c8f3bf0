// Masks, by which the first pass passes over what it cannot find. Of the cells whose first rank is found, each head has for each
// place a mask of the places where its spans end that start there, and one of the places where they start that end there. Each
// word has a mask of the heads that have it in a rule, and each symbol one of the heads that have it as their first part, and one as
// their second (chart_heads). And for each place there is a mask of the heads of which a first part is found that starts there, and one
// of the heads of which a second part is found that ends there. How masks are made, joined and read is in masks.
#![tactic(auto)]

ghost use Rattle.std.specs.Prelude.{false, ◌≡◌, ◌≤◌, length};
ghost use Rattle.chart_table.specs.Table.{last_place};
ghost use Rattle.chart_masks.specs.Masks.{mask_numbers, Marked, Apart};

use arrays::{narrow_at, wide};
use chart_table::{Cell, Layout};
use masks::{disjoint, only, put};
use packing::Sym;

// The masks of end places stand first, for each place one of each head, then those of start places, and then those of heads: by word, by
// first part and by second part, each with one behind the last for what is none, and by place.
const HEADS: usize = 32;

const STARTS: usize = 1024;

pub const WORD_HEADS: usize = 2048;

pub const WORDS: usize = 256;

pub const FIRST_HEADS: usize = 2336;

pub const SECOND_HEADS: usize = 2400;

pub const LEFT_HEADS: usize = 2464;

pub const RIGHT_HEADS: usize = 2496;

// The masks of all places, words and symbols.
pub const MASKS: usize = 2528;

// Marks a cell as found.
pub fn mark(masks: &mut [u32], c: Cell)
    requires { (c.from ≤ last_place) × (c.to ≤ last_place) × (c.head.0 ≤ last_place) × (mask_numbers ≤ length masks.old) }
    ensures { Marked masks.old c masks.new }
{
    let head = wide(c.head.0);
    let firsts = narrow_at(&masks[..], FIRST_HEADS + head);
    let seconds = narrow_at(&masks[..], SECOND_HEADS + head);
    put(masks, c.from * HEADS + head, only(c.to));
    put(masks, STARTS + c.to * HEADS + head, only(c.from));
    put(masks, LEFT_HEADS + c.from, firsts);
    put(masks, RIGHT_HEADS + c.to, seconds);
}

// Whether parts of two heads can both be found at a split of a cell. It is so of what is no symbol, and without masks. The masks of
// symbols stand in their array, so that the reads need no test.
pub fn meet(masks: &[u32], d: Layout, first: Sym, second: Sym, c: Cell) -> bool
    requires { (d.symbols ≤ 32) × (c.from ≤ last_place) × (c.to ≤ last_place) }
    ensures { result ≡ false → Apart masks.now d first second c }
{
    let left = wide(first.0);
    let right = wide(second.0);
    if masks.len() < MASKS || d.symbols <= left || d.symbols <= right {
        return true;
    }
    let ends = masks[c.from * HEADS + left];
    let starts = masks[STARTS + c.to * HEADS + right];
    !disjoint(ends, starts)
}
