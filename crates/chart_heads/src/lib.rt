// The heads that the first pass looks at over a span: masks of the heads that have a word or a part in a rule, and of those that have
// the word of an edge over the span, or parts found at both its ends (chart_masks has where the masks stand).
#![tactic(auto)]

ghost use Rattle.std.specs.Prelude.{◌≡◌, ℕ, ◌+◌, ◌<◌, ◌≤◌, length, get_or};
ghost use Rattle.bits.specs.Width.{u32_values};
ghost use Rattle.chart_classes.specs.Classes.{index_numbers, class_end};
ghost use Rattle.chart_table.specs.Table.{last_place};
ghost use Rattle.chart_masks.specs.Masks.{mask_numbers};
ghost use Rattle.chart_heads.specs.Heads.{capped, Grown, Members, MembersMore, Ruled, EdgeHeads, HeadsOver, Live};

use arrays::{narrow_at, number_at};
use chart_classes::{EDGE_BASE, PAIR_BASE, WORD_BASE, class_end, class_start};
use chart_masks::{FIRST_HEADS, LEFT_HEADS, RIGHT_HEADS, SECOND_HEADS, WORD_HEADS, WORDS};
use chart_table::{Cell, Layout};
use masks::{only, put};
use packing::format::{
    EDGE_TO_AT, EDGE_WORD_AT, NUMBERS_PER_EDGE, NUMBERS_PER_RULE, RULE_FIRST_AT, RULE_SECOND_AT,
};

// Which masks are those of a number that rules have: the rules' group, where the number stands in a rule, where the masks start, and
// how many numbers there are.
#[derive(Clone, Copy)]
struct Column {
    base: usize,
    field: usize,
    at: usize,
    limit: usize,
}

// Where the mask of a number stands among those of its column: what is none has the one behind the last.
fn capped(x: usize, limit: usize) -> usize
    ensures { (result ≡ capped limit x) × (result ≤ limit) }
{
    x.min(limit)
}

// Puts a head into the mask of each number that it has in a column. Loops over a class go by places of the index: behind its end
// `number_at` reads 0, and the promises hold there too.
fn mark_head(masks: &mut [u32], rules: &[u32], index: &[u32], column: Column, head: usize)
    requires head_le_last_place { (head ≤ last_place) × (column.base ≤ index_numbers) × (column.field < 5) × (2048 ≤ column.at) }
    requires limit_bound { (column.at + column.limit < mask_numbers) × (mask_numbers ≤ length masks.old) }
    ensures { MembersMore rules.now index.now column head (class_end index.now column.base head) masks.old
        masks.new }
{
    let start = class_start(index, column.base, head);
    let end = class_end(index, column.base, head);
    let own = only(head);
    for y in start..end {
        let x = number_at(rules, NUMBERS_PER_RULE * number_at(index, y) + column.field);
        put(masks, column.at + capped(x, column.limit), own);
    }
}

// Puts each of n heads into the mask of each number that it has in a column.
fn mark_heads(masks: &mut [u32], rules: &[u32], index: &[u32], column: Column, n: usize)
    requires n_bound { (n ≤ 32) × (column.base ≤ index_numbers) × (column.field < 5) × (2048 ≤ column.at) }
    requires limit_bound { (column.at + column.limit < mask_numbers) × (mask_numbers ≤ length masks.old) }
    ensures { (Members rules.now index.now column n masks.new) × (Grown masks.old masks.new) }
{
    for head in 0..n {
        mark_head(masks, rules, index, column, head);
    }
}

// Puts the heads into the masks of their words and of their parts, where nothing is marked as found.
pub fn mark_rules(masks: &mut [u32], rules: &[u32], index: &[u32], d: Layout)
    requires { (d.symbols ≤ 32) × (mask_numbers ≤ length masks.old) × ((x : ℕ) → get_or masks.old x 0 ≡ 0) }
    ensures { Ruled rules.now index.now d masks.new }
{
    let words = Column {
        base: WORD_BASE,
        field: RULE_FIRST_AT,
        at: WORD_HEADS,
        limit: WORDS,
    };
    mark_heads(masks, rules, index, words, d.symbols);
    let firsts = Column {
        base: PAIR_BASE,
        field: RULE_FIRST_AT,
        at: FIRST_HEADS,
        limit: d.symbols,
    };
    mark_heads(masks, rules, index, firsts, d.symbols);
    let seconds = Column {
        base: PAIR_BASE,
        field: RULE_SECOND_AT,
        at: SECOND_HEADS,
        limit: d.symbols,
    };
    mark_heads(masks, rules, index, seconds, d.symbols);
}

// The heads that have the word of an edge, if that reaches a place.
pub fn edge_heads(masks: &[u32], edges: &[u32], e: usize, to: usize) -> u32
    requires { e < u32_values }
    ensures { EdgeHeads masks.now edges.now e to result }
{
    if number_at(edges, NUMBERS_PER_EDGE * e + EDGE_TO_AT) != to {
        return 0;
    }
    let word = number_at(edges, NUMBERS_PER_EDGE * e + EDGE_WORD_AT);
    narrow_at(masks, WORD_HEADS + capped(word, WORDS))
}

// A mask of the heads that have the word of an edge over the span of a cell.
pub fn heads_over(masks: &[u32], edges: &[u32], index: &[u32], c: Cell) -> u32
    requires { c.from ≤ last_place }
    ensures { HeadsOver masks.now edges.now index.now c result }
{
    let from = c.from;
    let to = c.to;
    let start = class_start(index, EDGE_BASE, from);
    let end = class_end(index, EDGE_BASE, from);
    let mut heads: u32 = 0;
    for y in start..end {
        heads |= edge_heads(masks, edges, number_at(index, y), to);
    }
    heads
}

// A mask of the heads that may have a tree over the span of a cell: those that have leaves there, those of which a first part starts and
// a second part ends with the span, and those that have what is no symbol as a part.
pub fn live_heads(masks: &[u32], d: Layout, c: Cell, leafy: u32) -> u32
    requires { (d.symbols ≤ 32) × (c.from ≤ last_place) × (c.to ≤ last_place) }
    ensures { Live masks.now d c leafy result }
{
    let left = narrow_at(masks, LEFT_HEADS + c.from);
    let right = narrow_at(masks, RIGHT_HEADS + c.to);
    let first_strays = narrow_at(masks, FIRST_HEADS + d.symbols);
    let second_strays = narrow_at(masks, SECOND_HEADS + d.symbols);
    (left & right) | first_strays | second_strays | leafy
}
