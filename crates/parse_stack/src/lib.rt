// A derivation node by node: the symbols of the parts that are to come stand on a stack.
#![tactic(auto)]

ghost use Rattle.std.specs.Prelude.{◌≡◌, ◌∷◌, ◌+◌, ◌-◌, ◌^◌, ◌≤◌, ◌<◌, ltb, length};
ghost use Rattle.bits.specs.Bits.{pick};
ghost use Rattle.packing.specs.Flat.{rules_of};
ghost use Rattle.derivation.specs.Path.{onward, stuck};
ghost use Rattle.parse_stack.specs.Stack.{heads_of, head_of, fit_of, option_of, standing, Within, Further};

use packing::format::MAX_SLOTS;
use packing::{Rule, Sym};

// The most parts there can be: each has a slot or an edge of a path of its own.
pub const MAX_PARTS: usize = MAX_SLOTS;

// How far a derivation has come: its place, the slots or edges that are left, the parts that are to come, whose symbols are on the
// stack, and the weight so far.
#[derive(Clone, Copy)]
pub struct Progress {
    pub place: usize,
    pub left: usize,
    pub height: usize,
    pub weight: usize,
}

// The symbol that a rule is of.
fn head_of(rule: Rule) -> Sym
    ensures { result ≡ head_of rule }
{
    match rule {
        Rule::Pair(head, ..) | Rule::Word(head, ..) => head,
    }
}

// Rule r of `count`, if there is a part to come and its symbol is the rule's head.
pub fn fitting(rules: &[u32], count: usize, stack: &[u32], height: usize, r: usize) -> Option<Rule>
    requires { r < 2 ^ 32 }
    ensures { option_of result ≡ fit_of (rules_of rules.now count) (heads_of stack.now height) r }
{
    if height == 0 || count <= r {
        return None;
    }
    let rule = arrays::rule_at(rules, r);
    (head_of(rule).0 == arrays::narrow_at(stack, height - 1)).then_some(rule)
}

// A pair rule: its two symbols take the place of its head, if each part to come has a slot or an edge of its own.
pub fn pair_step(
    stack: &mut [u32],
    at: Progress,
    first: Sym,
    second: Sym,
    weight: u32,
) -> Option<Progress>
    requires { (1 ≤ at.height) × Within (length stack.old) at }
    ensures { (standing stack.new result
        ≡ pick (ltb at.height at.left) (onward at.place at.left
        (first ∷ second ∷ heads_of stack.old (at.height - 1)) (at.weight + weight)) stuck) × Further at result }
{
    let height = at.height;
    if at.left <= height {
        return None;
    }
    stack[height - 1] = second.0;
    stack[height] = first.0;
    Some(Progress {
        height: height + 1,
        weight: at.weight + arrays::wide(weight),
        ..at
    })
}
