// What is met with a rank found: its successors, and what replaces it in the queue.
#![tactic(auto)]

ghost use Rattle.std.specs.Prelude.{◌≡◌, ◌+◌, ◌-◌, ◌<◌};
ghost use Rattle.chart_keys.specs.Keys.{Digits, key_number};
ghost use Rattle.chart_table.specs.Table.{InTable};
ghost use Rattle.chart_successors.specs.Successors.{successors, sibling, least_initial, replacement};

use arrays::rule_at;
use chart_candidates::{Range, pair_key};
use chart_keys::{BackPointer, Key, lesser, no_key, with_ranks};
use chart_leaves::leaves;
use chart_seeds::seeds;
use chart_table::{Cell, Layout, left_part, right_part};
use chart_tags::is_initial;
use packing::Rule;

// A rank that is found: its key and its back pointer.
#[derive(Clone, Copy)]
pub struct Found {
    pub key: Key,
    pub back: BackPointer,
}

// The best so far and the successors of a found pairing: the next of its right part, and where that was the first, the next of
// its left part. A leaf has no split and no successors.
#[tactic(auto, unfolding(crate::specs::Successors::successors, crate::specs::Successors::pair_successors))]
pub fn successors(t: &[u32], d: Layout, rules: &[u32], c: Cell, last: Found, best: Key) -> Key
    requires { (InTable d c) × Digits last.back }
    ensures { key_number result ≡ successors t.now d rules.now c last (key_number best) }
{
    let floor = last.key;
    let b = last.back;
    if b.split == 0 {
        return best;
    }
    let Rule::Pair(_, first, second, w) = rule_at(rules, b.rule) else {
        return best;
    };
    let left = left_part(c, first, b.split);
    let right = right_part(c, second, b.split);
    let next_right = pair_key(t, d, left, right, w, with_ranks(b, b.left, b.right + 1));
    let so_far = lesser(floor, best, next_right);
    if b.right != 0 {
        return so_far;
    }
    let next_left = pair_key(t, d, left, right, w, with_ranks(b, b.left + 1, 0));
    lesser(floor, so_far, next_left)
}

// The other successor of the pairing that a successor follows, where that has two and the other is above the floor.
#[tactic(auto, unfolding(crate::specs::Successors::sibling, crate::specs::Successors::pair_sibling))]
fn sibling(t: &[u32], d: Layout, rules: &[u32], c: Cell, last: Found) -> Key
    requires { (InTable d c) × Digits last.back × (0 < last.back.split) }
    ensures { key_number result ≡ sibling t.now d rules.now c last }
{
    let floor = last.key;
    let b = last.back;
    let Rule::Pair(_, first, second, w) = rule_at(rules, b.rule) else {
        return no_key();
    };
    let left = left_part(c, first, b.split);
    let right = right_part(c, second, b.split);
    if b.right == 1 {
        let other = pair_key(t, d, left, right, w, with_ranks(b, b.left + 1, 0));
        return lesser(floor, no_key(), other);
    }
    if b.right == 0 && 0 < b.left {
        let other = pair_key(t, d, left, right, w, with_ranks(b, b.left - 1, 1));
        return lesser(floor, no_key(), other);
    }
    no_key()
}

// The least above the floor of the candidates of a cell that follow none: its leaves and its seeds.
#[tactic(auto, unfolding(crate::specs::Successors::least_initial))]
fn least_initial(
    t: &[u32],
    d: Layout,
    rules: &[u32],
    edges: &[u32],
    index: &[u32],
    c: Cell,
    floor: Key,
) -> Key
    requires { InTable d c }
    ensures { key_number result ≡ least_initial t.now d rules.now edges.now index.now c (key_number floor) }
{
    let no_masks = [0u32; 1];
    let leaf = leaves(rules, edges, index, c, floor, no_key());
    seeds(
        t,
        &no_masks,
        d,
        rules,
        index,
        c,
        Range { floor, best: leaf },
    )
}

// What replaces a candidate that was found: the next that follows none, or its sibling.
#[tactic(auto, unfolding(crate::specs::Successors::replacement))]
pub fn replacement(
    t: &[u32],
    d: Layout,
    rules: &[u32],
    edges: &[u32],
    index: &[u32],
    c: Cell,
    last: Found,
) -> Key
    requires { (InTable d c) × Digits last.back }
    ensures { key_number result ≡ replacement t.now d rules.now edges.now index.now c last }
{
    if is_initial(last.back) {
        return least_initial(t, d, rules, edges, index, c, last.key);
    }
    sibling(t, d, rules, c, last)
}
