// Seeds as numbers of 64 bits. Of a seed both ranks are the first, so its price plus 1 and, below it, rule and split decide its key.
// A floor and a best so far, which may be keys of other trees, go by the numbers that divide the seeds as they do.
#![tactic(auto)]

ghost use Rattle.std.specs.Prelude.{◌≡◌, ◌+◌, ◌*◌, ◌^◌, ◌<◌, ◌≤◌, true};
ghost use Rattle.chart_keys.specs.Keys.{splits, rules, key_number, lesser};
ghost use Rattle.seed_numbers.specs.Seeds.{InNumbers, Divides, seed_number, floor_number, ceiling_number, key_of_number};

use chart_keys::{Key, PRICES, SPLIT_UNIT, SPLITS};
use packing::format::MAX_RULES;

// What one price counts for in a seed's number: as many as there are rules with a split.
const PRICE_UNIT: usize = MAX_RULES * SPLITS;

// The numbers of back pointers.
const BACKS: usize = PRICE_UNIT * SPLIT_UNIT;

// The number of a seed, from its price plus 1.
pub fn seed_number(price: usize, rule: usize, split: usize) -> usize
    requires { (price < 35184372088832) × (rule < rules) × (split < splits) }
    ensures { result ≡ seed_number price rule split }
{
    price * PRICE_UNIT + (rule * SPLITS + split)
}

// The seeds that are above a floor are those with a number above this one.
pub fn floor_number(floor: Key) -> usize
    requires { InNumbers floor }
    ensures { (result ≡ floor_number floor) × (result < 144115188075855872) }
{
    floor.price * PRICE_UNIT + floor.back / SPLIT_UNIT
}

// The seeds that are below a best so far are those with a number below this one.
pub fn ceiling_number(best: Key) -> usize
    requires { InNumbers best }
    ensures { (result ≡ ceiling_number best) × (result < 144115188075855872) }
{
    best.price * PRICE_UNIT + (best.back + (SPLIT_UNIT - 1)) / SPLIT_UNIT
}

// Whether a key's parts are small enough for these numbers.
fn in_numbers(key: Key) -> bool
    ensures { result ≡ true → InNumbers key }
{
    key.price <= PRICES && key.back < BACKS
}

// Whether a floor and a best so far are, and the one below the other.
pub fn divides(floor: Key, best: Key) -> bool
    ensures { result ≡ true → Divides floor best }
{
    in_numbers(floor) && in_numbers(best) && floor_number(floor) < ceiling_number(best)
}

// The lesser of the best number and one above the floor, by heights above the floor: of height h is the number h + floor + 1. One
// that is not above the floor wraps round to a height that is too great, so that one test decides.
pub fn lesser_height(floor: usize, height: usize, number: usize) -> usize
    requires { height + (floor + 1) < 2 ^ 64 }
    ensures { (result + (floor + 1) ≡ lesser floor (height + (floor + 1)) number) × (result ≤ height) }
{
    let other = std::num::wrapping_sub_usize(number, floor + 1);
    other.min(height)
}

// The key that the least number found stands for: the best so far where no seed is below it.
pub fn key_of_number(best: Key, n: usize) -> Key
    requires { InNumbers best }
    ensures { key_number result ≡ key_of_number best n }
{
    if n == ceiling_number(best) {
        return best;
    }
    Key {
        price: n / PRICE_UNIT,
        back: n % PRICE_UNIT * SPLIT_UNIT,
    }
}
