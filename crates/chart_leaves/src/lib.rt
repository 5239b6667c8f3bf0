// The leaves of a cell: edges over its span by the word rules of its head.
#![tactic(auto)]

ghost use Rattle.std.specs.Prelude.{◌≡◌, ◌+◌, ◌*◌, ◌<◌, ◌≤◌, get_or};
ghost use Rattle.bits.specs.Width.{u32_values};
ghost use Rattle.packing.specs.Flat.{rule_at};
ghost use Rattle.chart_keys.specs.Keys.{key_number, no_key};
ghost use Rattle.chart_table.specs.Table.{last_place};
ghost use Rattle.masks.specs.Digits.{digit};
ghost use Rattle.chart_heads.specs.Heads.{NoLeaf, Worded};
ghost use Rattle.chart_candidates.specs.Candidates.{word_leaf, edge_leaves, leaves};
ghost use Rattle.chart_candidates.specs.PassedOver.{word_bit, WordFilter};

use arrays::{narrow_at, number_at, rule_at, wide};
use chart_candidates::Range;
use chart_classes::{EDGE_BASE, WORD_BASE, class_end, class_start};
use chart_heads::edge_heads;
use chart_keys::{BackPointer, Key, back_number, leaf_price, lesser, no_key};
use chart_table::Cell;
use masks::lacks;
use packing::Rule;
use packing::format::{
    EDGE_COST_AT, EDGE_TO_AT, EDGE_WORD_AT, NUMBERS_PER_EDGE, NUMBERS_PER_RULE, RULE_FIRST_AT,
};

// Loops over a class go by places of the index: behind its end `number_at` reads 0, and the promises hold there too.

// The bits of a filter of words.
const FILTER_BITS: u32 = 64;

// The best so far and the leaf of an edge by a rule, if that is a rule of the edge's word.
#[tactic(auto, unfolding(chart_candidates::specs::Candidates::word_leaf))]
fn rule_leaf(rules: &[u32], edges: &[u32], e: usize, r: usize, floor: Key, best: Key) -> Key
    requires { (e < u32_values) × (r < u32_values) }
    ensures { key_number result ≡ word_leaf edges.now e (key_number floor) (key_number best) r (rule_at rules.now r) }
{
    let Rule::Word(_, word, w) = rule_at(rules, r) else {
        return best;
    };
    if word.0 != narrow_at(edges, NUMBERS_PER_EDGE * e + EDGE_WORD_AT) {
        return best;
    }
    let cost = number_at(edges, NUMBERS_PER_EDGE * e + EDGE_COST_AT);
    let back = back_number(BackPointer {
        rule: r,
        split: 0,
        left: e,
        right: 0,
    });
    let price = leaf_price(w, cost);
    lesser(floor, best, Key { price, back })
}

// The same. Most rules have another word than the edge, so that is compared before a rule is taken apart.
fn word_leaf(
    rules: &[u32],
    edges: &[u32],
    e: usize,
    heard: u32,
    r: usize,
    floor: Key,
    best: Key,
) -> Key
    requires { (e < u32_values) × (r < u32_values) × (heard ≡ get_or edges.now (4 * e + 2) 0) }
    ensures { key_number result ≡ word_leaf edges.now e (key_number floor) (key_number best) r (rule_at rules.now r) }
{
    let word = narrow_at(rules, NUMBERS_PER_RULE * r + RULE_FIRST_AT);
    if word != heard {
        return best;
    }
    rule_leaf(rules, edges, e, r, floor, best)
}

// The best so far and the leaves of an edge, if it reaches the cell's last place.
fn edge_leaves(
    rules: &[u32],
    edges: &[u32],
    index: &[u32],
    c: Cell,
    e: usize,
    floor: Key,
    best: Key,
) -> Key
    requires { e < u32_values }
    ensures { key_number result ≡ edge_leaves rules.now edges.now index.now c (key_number floor) (key_number best) e }
{
    if number_at(edges, NUMBERS_PER_EDGE * e + EDGE_TO_AT) != c.to {
        return best;
    }
    let head = wide(c.head.0);
    let start = class_start(index, WORD_BASE, head);
    let end = class_end(index, WORD_BASE, head);
    let heard = narrow_at(edges, NUMBERS_PER_EDGE * e + EDGE_WORD_AT);
    let mut so_far = best;
    for y in start..end {
        so_far = word_leaf(rules, edges, e, heard, number_at(index, y), floor, so_far);
    }
    so_far
}

// The bit of a word in a filter. Words that are alike modulo its bits share one.
fn word_bit(word: u32) -> u64
    ensures { result ≡ word_bit word }
{
    1 << (word % FILTER_BITS)
}

// A filter of the words that the rules of a head have.
fn word_filter(rules: &[u32], index: &[u32], head: usize) -> u64
    requires { head < u32_values }
    ensures { WordFilter rules.now index.now head result }
{
    let start = class_start(index, WORD_BASE, head);
    let end = class_end(index, WORD_BASE, head);
    let mut filter: u64 = 0;
    for y in start..end {
        let r = number_at(index, y);
        filter |= word_bit(narrow_at(rules, NUMBERS_PER_RULE * r + RULE_FIRST_AT));
    }
    filter
}

// The best so far and the leaves of an edge, which is passed over where the filter of the words of the cell's head lacks its word.
fn filtered_leaves(
    rules: &[u32],
    edges: &[u32],
    index: &[u32],
    filter: u64,
    c: Cell,
    e: usize,
    range: Range,
) -> Key
    requires { (e < u32_values) × (WordFilter rules.now index.now c.head.0 filter) }
    ensures { key_number result ≡ edge_leaves rules.now edges.now index.now c (key_number range.floor)
        (key_number range.best) e }
{
    let word = narrow_at(edges, NUMBERS_PER_EDGE * e + EDGE_WORD_AT);
    if filter & word_bit(word) == 0 {
        return range.best;
    }
    edge_leaves(rules, edges, index, c, e, range.floor, range.best)
}

// The best so far and the leaves of a cell. Most edges have a word of other heads, so a filter is made of the words of its own first.
pub fn leaves(rules: &[u32], edges: &[u32], index: &[u32], c: Cell, floor: Key, best: Key) -> Key
    requires { c.from ≤ last_place }
    ensures { key_number result ≡ leaves rules.now edges.now index.now c (key_number floor) (key_number best) }
{
    let from = c.from;
    let start = class_start(index, EDGE_BASE, from);
    let end = class_end(index, EDGE_BASE, from);
    if start == end {
        return best;
    }
    let filter = word_filter(rules, index, wide(c.head.0));
    let mut so_far = best;
    for y in start..end {
        let e = number_at(index, y);
        so_far = filtered_leaves(
            rules,
            edges,
            index,
            filter,
            c,
            e,
            Range {
                floor,
                best: so_far,
            },
        );
    }
    so_far
}

// The best so far and the leaves of an edge, which is passed over where the masks say that the cell's head has no rule with its word.
fn masked_leaves(
    rules: &[u32],
    edges: &[u32],
    index: &[u32],
    masks: &[u32],
    c: Cell,
    e: usize,
    best: Key,
) -> Key
    requires { (e < u32_values) × (c.head.0 ≤ last_place) × (Worded rules.now index.now masks.now c.head.0) }
    ensures { key_number result ≡ edge_leaves rules.now edges.now index.now c 0 (key_number best) e }
{
    if lacks(edge_heads(masks, edges, e, c.to), wide(c.head.0)) {
        return best;
    }
    let floor = Key { price: 0, back: 0 };
    edge_leaves(rules, edges, index, c, e, floor, best)
}

// The least leaf of a cell.
fn least_leaf(rules: &[u32], edges: &[u32], index: &[u32], masks: &[u32], c: Cell) -> Key
    requires { (c.from ≤ last_place) × (c.head.0 ≤ last_place) × (Worded rules.now index.now masks.now c.head.0) }
    ensures { key_number result ≡ leaves rules.now edges.now index.now c 0 no_key }
{
    let from = c.from;
    let start = class_start(index, EDGE_BASE, from);
    let end = class_end(index, EDGE_BASE, from);
    let mut least = no_key();
    for y in start..end {
        least = masked_leaves(rules, edges, index, masks, c, number_at(index, y), least);
    }
    least
}

// The least leaf of a cell, if a mask of the heads that may have one has its head.
pub fn first_leaf(
    rules: &[u32],
    edges: &[u32],
    index: &[u32],
    masks: &[u32],
    heads: u32,
    c: Cell,
) -> Key
    requires from_le_last_place { (c.from ≤ last_place) × (c.head.0 ≤ last_place) × (digit heads c.head.0 ≡ 0 → NoLeaf rules.now edges.now index.now c) }
    requires worded { Worded rules.now index.now masks.now c.head.0 }
    ensures { (key_number result ≡ leaves rules.now edges.now index.now c 0 no_key) × (key_number result ≤ no_key) }
{
    if lacks(heads, wide(c.head.0)) {
        return no_key();
    }
    least_leaf(rules, edges, index, masks, c)
}
