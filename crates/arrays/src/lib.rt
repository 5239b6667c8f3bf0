// Flat arrays of numbers: reads that give 0 past the end, stores that do nothing there, and the rules of such an array.
#![tactic(auto)]

ghost use Rattle.std.specs.Prelude.{◌≡◌, ◌<◌, length, replicate, get_or, set};
ghost use Rattle.bits.specs.Width.{u32_values};
ghost use Rattle.packing.specs.Flat.{rule_at};

use packing::format::{
    NUMBERS_PER_RULE, PAIR_RULE, RULE_FIRST_AT, RULE_HEAD_AT, RULE_SECOND_AT, RULE_WEIGHT_AT,
};
use packing::{Rule, Sym, Word};

// A number in the width of an index.
pub fn wide(x: u32) -> usize
    ensures { (result ≡ x) × (result < u32_values) }
{
    x as usize
}

// The number at an index, and 0 past the end.
pub fn narrow_at(s: &[u32], at: usize) -> u32
    ensures { result ≡ get_or s.now at 0 }
{
    s.get(at).copied().unwrap_or(0)
}

// The same in the width of an index.
pub fn number_at(s: &[u32], at: usize) -> usize
    ensures { (result ≡ get_or s.now at 0) × (result < u32_values) }
{
    wide(narrow_at(s, at))
}

// Stores a number, and nothing past the end.
pub fn store(t: &mut [u32], at: usize, x: u32)
    ensures { t.new ≡ set t.old at x }
{
    if at < t.len() {
        t[at] = x;
    }
}

// Makes every number 0.
pub fn zero(t: &mut [u32])
    ensures { t.new ≡ replicate (length t.old) 0 }
{
    t.fill(0);
}

// Rule r of an array of five numbers a rule.
pub fn rule_at(rules: &[u32], r: usize) -> Rule
    requires { r < u32_values }
    ensures { result ≡ rule_at rules.now r }
{
    let at = NUMBERS_PER_RULE * r;
    let head = Sym(narrow_at(rules, at + RULE_HEAD_AT));
    let weight = narrow_at(rules, at + RULE_WEIGHT_AT);
    let first = narrow_at(rules, at + RULE_FIRST_AT);
    if narrow_at(rules, at) == PAIR_RULE {
        Rule::Pair(
            head,
            Sym(first),
            Sym(narrow_at(rules, at + RULE_SECOND_AT)),
            weight,
        )
    } else {
        Rule::Word(head, Word(first), weight)
    }
}
