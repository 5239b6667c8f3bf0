// The weight of the derivation that has a walk: one number after the other, with a stack of the symbols that are to come.
#![tactic(auto)]

ghost use Rattle.std.specs.Prelude.{◌≡◌, List, ℕ, ◌+◌, ◌-◌, ◌*◌, ◌^◌, ◌≤◌, ◌<◌, length, take};
ghost use Rattle.derivation.specs.Walk.{cost_of, leaf_step, step, walk_weight};
ghost use Rattle.packing.specs.Flat.{rules_of, candidates_of, slots_of};
ghost use Rattle.parse_stack.specs.Stack.{heads_of, option_of, Small, Within, Further};
ghost use Rattle.slots_check.specs.Slots.{slot_at, behind, state_of};

use packing::format::{MAX_SLOTS, NOT_HEARD, NUMBERS_PER_CANDIDATE};
use packing::{Rule, Word};
use parse_stack::{MAX_PARTS, Progress};

// The cost of a word that was not heard, in the width of an index. Such a word is not offered.
const UNHEARD: usize = NOT_HEARD as usize;

// The cost of a word among `count` candidates, from place `start` on, if it is offered.
fn cost_of(slots: &[u32], start: usize, count: usize, word: Word) -> Option<usize>
    requires { (start < 2 ^ 40) × (count < 2 ^ 32) }
    ensures { (option_of result ≡ cost_of word (candidates_of slots.now count start)) × Small result }
{
    let wanted = arrays::wide(word.0);
    // By index: the promise is of any array, where numbers past the end are 0, and chunks of it would end there.
    for k in 0..count {
        let at = start + NUMBERS_PER_CANDIDATE * k;
        if arrays::number_at(slots, at) == wanted {
            let cost = arrays::number_at(slots, at + 1);
            return (cost < UNHEARD).then_some(cost);
        }
    }
    None
}

// A word rule: the next slot is taken, if it offers the word.
fn word_step(slots: &[u32], at: Progress, word: Word, weight: u32) -> Option<Progress>
    requires { (1 ≤ at.height) × Within at.left at }
    ensures { ((stack : List ℕ) → state_of slots.now stack result
        ≡ leaf_step (slots_of slots.now (at.left - 1) (behind slots.now at.place))
        (heads_of stack (at.height - 1)) (at.weight + weight) (cost_of word (slot_at slots.now at.place))) × Further at result }
{
    let place = at.place;
    let count = arrays::number_at(slots, place);
    let cost = cost_of(slots, place + 1, count, word)?;
    Some(Progress {
        place: place + 1 + NUMBERS_PER_CANDIDATE * count,
        left: at.left - 1,
        height: at.height - 1,
        weight: at.weight + arrays::wide(weight) + cost,
    })
}

// One number of the walk.
fn follow(
    rules: &[u32],
    count: usize,
    slots: &[u32],
    stack: &mut [u32],
    at: Progress,
    r: usize,
) -> Option<Progress>
    requires { (r < 2 ^ 32) × Within (length stack.old) at }
    ensures { (state_of slots.now stack.new result
        ≡ step (rules_of rules.now count) (state_of slots.now stack.old (Some at)) r)
        × Further at result }
{
    let rule = parse_stack::fitting(rules, count, stack, at.height, r)?;
    match rule {
        Rule::Pair(_, first, second, weight) => {
            parse_stack::pair_step(stack, at, first, second, weight)
        }
        Rule::Word(_, word, weight) => word_step(slots, at, word, weight),
    }
}

// The weight of the derivation of n slots whose walk the first 2n - 1 numbers are. Each part to come has a slot of its own, so
// where no slot is left no part is.
pub fn weight_of(
    rules: &[u32],
    count: usize,
    slots: &[u32],
    n: usize,
    walk: &[u32],
) -> Option<usize>
    requires { (1 ≤ n) × (n ≤ MAX_SLOTS) × (2 * n - 1 ≤ length walk.now) }
    ensures { option_of result ≡ walk_weight (rules_of rules.now count) (slots_of slots.now n 0)
        (take (2 * n - 1) walk.now) }
{
    let mut stack = [0u32; MAX_PARTS];
    let mut at = Progress {
        place: 0,
        left: n,
        height: 1,
        weight: 0,
    };
    for r in &walk[..2 * n - 1] {
        at = follow(rules, count, slots, &mut stack, at, arrays::wide(*r))?;
    }
    (at.left == 0).then_some(at.weight)
}
