// The seeds of a cell: for each pair rule of its head and each split, the first of the left part with the first of the right.
#![tactic(auto)]

ghost use Rattle.std.specs.Prelude.{◌≡◌, true, false, ◌+◌, ◌-◌, ◌*◌, ◌<◌, ◌≤◌, length};
ghost use Rattle.bits.specs.Width.{u32_values};
ghost use Rattle.packing.specs.Flat.{rule_at};
ghost use Rattle.chart_keys.specs.Keys.{back, key_number, no_key};
ghost use Rattle.seed_numbers.specs.Seeds.{Divides};
ghost use Rattle.chart_table.specs.Table.{InTable, left_part, right_part, cell_number, entry_of};
ghost use Rattle.chart_masks.specs.Masks.{Covered};
ghost use Rattle.chart_candidates.specs.Candidates.{Small, split_seeds, rule_seeds, seeds};
ghost use Rattle.chart_candidates.specs.PassedOver.{RuleApart, NoSeed};

use arrays::{number_at, rule_at, wide};
use chart_candidates::{PairRule, Range, pair_key};
use chart_classes::{PAIR_BASE, class_end, class_start};
use chart_entries::price_within;
use chart_keys::{BackPointer, Key, join_price, lesser};
use chart_masks::meet;
use chart_table::{Cell, ENTRY_NUMBERS, Layout, cell_number, entry_of, left_part, right_part};
use packing::format::{MAX_RULES, MAX_WEIGHT, NUMBERS_PER_RULE, RULE_FIRST_AT, RULE_SECOND_AT};
use packing::{Rule, Sym};
use seed_numbers::{
    ceiling_number, divides, floor_number, key_of_number, lesser_height, seed_number,
};

// The back pointer of the first of the left part with the first of the right.
fn seed(r: usize, split: usize) -> BackPointer
    ensures { result ≡ back r split 0 0 }
{
    BackPointer {
        rule: r,
        split,
        left: 0,
        right: 0,
    }
}

// The best so far and the first with the first of a pair rule's parts, for each split.
fn split_seeds_anywhere(t: &[u32], d: Layout, rule: PairRule, c: Cell, floor: Key, best: Key) -> Key
    requires { (InTable d c) × (rule.number < u32_values) }
    ensures { key_number result ≡ split_seeds t.now d rule c (key_number floor) (key_number best) }
{
    let mut so_far = best;
    let end = c.to;
    for j in c.from + 1..end {
        let left = left_part(c, rule.first, j);
        let right = right_part(c, rule.second, j);
        let key = pair_key(t, d, left, right, rule.weight, seed(rule.number, j));
        so_far = lesser(floor, so_far, key);
    }
    so_far
}

// Whether a rule's number and weight are those of a grammar.
fn is_small(rule: PairRule) -> bool
    ensures { result ≡ true → Small rule }
{
    rule.number < MAX_RULES && rule.weight <= MAX_WEIGHT
}

// The same by seeds as numbers, where they divide and the table is long enough for the last split. The parts' entries go from split
// to split by sums, so that no product stands in the way of the reads, and the reads need no test.
fn split_seeds_within(t: &[u32], d: Layout, rule: PairRule, c: Cell, floor: Key, best: Key) -> Key
    requires in_table { (InTable d c) × (Small rule) × (Divides floor best) }
    requires to_in_bounds { (entry_of d (cell_number d (left_part c rule.first (c.to - 1))) 0 + 1 < length t.now)
        × (entry_of d (cell_number d (right_part c rule.second (c.to - 1))) 0 + 1 < length t.now) }
    ensures { key_number result ≡ split_seeds t.now d rule c (key_number floor) (key_number best) }
{
    let step = d.symbols * ENTRY_NUMBERS;
    let first = c.from + 1;
    let mut x = entry_of(d, cell_number(d, left_part(c, rule.first, first)), 0);
    let mut y = entry_of(d, cell_number(d, right_part(c, rule.second, first)), 0);
    let mut stride = step * first;
    let low = floor_number(floor);
    let mut height = ceiling_number(best) - (low + 1);
    let end = c.to;
    for j in first..end {
        let price = join_price(rule.weight, price_within(t, x), price_within(t, y));
        height = lesser_height(low, height, seed_number(price, rule.number, j));
        x += stride;
        stride += step;
        y += step;
    }
    key_of_number(best, height + (low + 1))
}

// The same: no part's entry stands behind that of the last split. The tests are nested: joined by `&&` the check did not end in minutes.
fn split_seeds(t: &[u32], d: Layout, rule: PairRule, c: Cell, floor: Key, best: Key) -> Key
    requires { (InTable d c) × (rule.number < u32_values) }
    ensures { key_number result ≡ split_seeds t.now d rule c (key_number floor) (key_number best) }
{
    if c.from + 1 < c.to {
        let last = c.to - 1;
        let left = entry_of(d, cell_number(d, left_part(c, rule.first, last)), 0);
        let right = entry_of(d, cell_number(d, right_part(c, rule.second, last)), 0);
        if left + 1 < t.len() {
            if right + 1 < t.len() {
                if is_small(rule) {
                    if divides(floor, best) {
                        return split_seeds_within(t, d, rule, c, floor, best);
                    }
                }
            }
        }
    }
    split_seeds_anywhere(t, d, rule, c, floor, best)
}

// The same for rule r, if it is a pair rule.
#[tactic(auto, unfolding(chart_candidates::specs::Candidates::rule_seeds))]
fn rule_seeds(t: &[u32], d: Layout, rules: &[u32], c: Cell, r: usize, floor: Key, best: Key) -> Key
    requires { (InTable d c) × (r < u32_values) }
    ensures { key_number result ≡ rule_seeds t.now d c (key_number floor) (key_number best) r (rule_at rules.now r) }
{
    let Rule::Pair(_, first, second, weight) = rule_at(rules, r) else {
        return best;
    };
    let pair = PairRule {
        number: r,
        first,
        second,
        weight,
    };
    split_seeds(t, d, pair, c, floor, best)
}

// Loops over a class go by places of the index: behind its end `number_at` reads 0, and the promises hold there too.

// Whether the parts of rule r can be found in a cell. Its symbols are looked at before it is taken apart.
fn parts_meet(masks: &[u32], d: Layout, rules: &[u32], c: Cell, r: usize) -> bool
    requires { (InTable d c) × (r < u32_values) }
    ensures { result ≡ false → RuleApart masks.now d rules.now c r }
{
    let at = NUMBERS_PER_RULE * r;
    if rules.len() <= at + RULE_SECOND_AT {
        return true;
    }
    let first = Sym(rules[at + RULE_FIRST_AT]);
    let second = Sym(rules[at + RULE_SECOND_AT]);
    meet(masks, d, first, second, c)
}

// The best so far and the seeds of rule r, which is passed over where its parts cannot be found.
fn masked_seeds(
    t: &[u32],
    masks: &[u32],
    d: Layout,
    rules: &[u32],
    c: Cell,
    r: usize,
    range: Range,
) -> Key
    requires { (InTable d c) × (r < u32_values) × (Covered masks.now t.now d) × (key_number range.best ≤ no_key) }
    ensures { key_number result ≡ rule_seeds t.now d c (key_number range.floor) (key_number range.best) r (rule_at rules.now r) }
{
    if parts_meet(masks, d, rules, c, r) {
        return rule_seeds(t, d, rules, c, r, range.floor, range.best);
    }
    range.best
}

// The best so far and the seeds of a cell.
pub fn seeds(
    t: &[u32],
    masks: &[u32],
    d: Layout,
    rules: &[u32],
    index: &[u32],
    c: Cell,
    range: Range,
) -> Key
    requires { (InTable d c) × (Covered masks.now t.now d) × (key_number range.best ≤ no_key) }
    ensures { key_number result ≡ seeds t.now d rules.now index.now c (key_number range.floor) (key_number range.best) }
{
    let floor = range.floor;
    let head = wide(c.head.0);
    let start = class_start(index, PAIR_BASE, head);
    let end = class_end(index, PAIR_BASE, head);
    let mut so_far = range.best;
    for y in start..end {
        let r = number_at(index, y);
        so_far = masked_seeds(
            t,
            masks,
            d,
            rules,
            c,
            r,
            Range {
                floor,
                best: so_far,
            },
        );
    }
    so_far
}

// Whether a pair rule of a cell's head has parts that can be found in it.
fn has_seeds(masks: &[u32], d: Layout, rules: &[u32], index: &[u32], c: Cell) -> bool
    requires { InTable d c }
    ensures { result ≡ false → NoSeed masks.now d rules.now index.now c }
{
    let head = wide(c.head.0);
    let start = class_start(index, PAIR_BASE, head);
    let end = class_end(index, PAIR_BASE, head);
    for y in start..end {
        if parts_meet(masks, d, rules, c, number_at(index, y)) {
            return true;
        }
    }
    false
}

// The lesser of a leaf and the seeds of a cell. Most cells of an office grammar have none, and it costs less to see that first.
pub fn first_seeds(
    t: &[u32],
    masks: &[u32],
    d: Layout,
    rules: &[u32],
    index: &[u32],
    c: Cell,
    leaf: Key,
) -> Key
    requires { (InTable d c) × (Covered masks.now t.now d) × (key_number leaf ≤ no_key) }
    ensures { key_number result ≡ seeds t.now d rules.now index.now c 0 (key_number leaf) }
{
    if has_seeds(masks, d, rules, index, c) {
        let floor = Key { price: 0, back: 0 };
        return seeds(t, masks, d, rules, index, c, Range { floor, best: leaf });
    }
    leaf
}
