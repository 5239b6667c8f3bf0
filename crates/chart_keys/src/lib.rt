// Back pointers, prices and keys: how a tree of a cell was made, what it costs, and how two trees compare.
#![tactic(auto)]

ghost use Rattle.std.specs.Prelude.{◌≡◌, ◌+◌, ◌*◌, ◌<◌, ◌≤◌, nat_lt};
ghost use Rattle.bits.specs.Width.{u32_values};
ghost use Rattle.chart_keys.specs.Keys.{
  splits,
  digits,
  prices,
  with_ranks,
  back_number,
  back_pointer,
  Digits,
  part_price,
  leaf_price,
  join_price,
  key_number,
  no_key,
  lesser,
};

use arrays::wide;

// The bases of a back pointer's digits: a split is below SPLITS, and a rank or an edge below DIGITS.
pub const SPLITS: usize = 32;

pub const DIGITS: usize = 256;

// What one split and one rule count for in a back pointer's number.
pub const SPLIT_UNIT: usize = DIGITS * DIGITS;

const RULE_UNIT: usize = SPLITS * SPLIT_UNIT;

// What one unit of weight counts for in a price: sums of costs are below it, since 24 words cost less than 24 × 2 ^ 16.
pub const WEIGHT_UNIT: usize = 1572864;

// Prices plus 1 are below PRICES. A part that is missing has the price PRICES - 1, so that with it a price plus 1 reaches PRICES.
pub const PRICES: usize = 8796093022208;

// How a tree was made: its rule, the place where its parts meet, and their ranks; of a leaf the rule, 0, the edge, 0.
#[derive(Clone, Copy)]
pub struct BackPointer {
    pub rule: usize,
    pub split: usize,
    pub left: usize,
    pub right: usize,
}

// What trees of a cell are compared by: the price plus 1, then the back pointer's number.
#[derive(Clone, Copy)]
pub struct Key {
    pub price: usize,
    pub back: usize,
}

// A back pointer with other ranks.
pub fn with_ranks(b: BackPointer, left: usize, right: usize) -> BackPointer
    ensures { result ≡ with_ranks b left right }
{
    BackPointer { left, right, ..b }
}

// A back pointer as one number.
pub fn back_number(b: BackPointer) -> usize
    requires { (b.rule < u32_values) × (b.split < splits) × (b.left < u32_values) × (b.right ≤ digits) }
    ensures { (result ≡ back_number b) × (result < 18014398509481984) }
{
    ((b.rule * SPLITS + b.split) * DIGITS + b.left) * DIGITS + b.right
}

// The back pointer that a number stands for.
pub fn back_pointer(x: usize) -> BackPointer
    requires { x < u32_values }
    ensures { (result ≡ back_pointer x) × Digits result }
{
    BackPointer {
        rule: x / RULE_UNIT,
        split: x / SPLIT_UNIT % SPLITS,
        left: x / DIGITS % DIGITS,
        right: x % DIGITS,
    }
}

// The price of a part from its price plus 1. Where it is missing the 0 wraps round to the greatest, without a test.
fn part_price(x: usize) -> usize
    requires { x < prices }
    ensures { (result ≡ part_price x) × (result < prices) }
{
    std::num::wrapping_sub_usize(x, 1) % PRICES
}

// The price plus 1 of a leaf: a rule of weight w and a word's cost.
pub fn leaf_price(w: u32, cost: usize) -> usize
    requires { cost < u32_values }
    ensures { result ≡ leaf_price w cost }
{
    (wide(w) + cost) * WEIGHT_UNIT + cost + 1
}

// The price plus 1 of a tree that a rule of weight w joins from two parts, given by their prices plus 1.
pub fn join_price(w: u32, left: usize, right: usize) -> usize
    requires { (left < prices) × (right < prices) }
    ensures { result ≡ join_price w left right }
{
    wide(w) * WEIGHT_UNIT + part_price(left) + part_price(right) + 1
}

// The key of no tree, which that of a tree with a part missing reaches. It is above all others, so that the least needs no test for an
// Option in the loops over splits.
pub fn no_key() -> Key
    ensures { key_number result ≡ no_key }
{
    Key {
        price: PRICES,
        back: 0,
    }
}

// Whether a key is below that of no tree.
pub fn is_some(k: Key) -> bool
    ensures { result ≡ nat_lt (key_number k) no_key }
{
    k.price < PRICES
}

// Whether a key is below another.
pub fn before(a: Key, b: Key) -> bool
    ensures { result ≡ nat_lt (key_number a) (key_number b) }
{
    if a.price == b.price {
        a.back < b.back
    } else {
        a.price < b.price
    }
}

// The lesser of the best and a key above the floor.
#[tactic(auto, unfolding(crate::specs::Keys::lesser), using(crate::proofs::Numbers::lesser_best))]
pub fn lesser(floor: Key, best: Key, key: Key) -> Key
    ensures { key_number result ≡ lesser (key_number floor) (key_number best) (key_number key) }
{
    if before(key, best) && before(floor, key) {
        return key;
    }
    best
}
