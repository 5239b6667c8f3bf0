// The judgement on a reading by the derivation that has its nodes: 34, 35 and 36, in this order, or how many nodes it has.
#![tactic(auto)]

ghost use Rattle.std.specs.Prelude.{◌^◌, ◌<◌};
ghost use Rattle.parse_stack.specs.Stack.{option_of};
ghost use Rattle.judgement.specs.Weighed.{Judges};

use packing::refusal::Refusal;

// 34, 35 and 36 of a reading of some weight and so many nodes, which ends at bit `at` of its block, or how many nodes it has. `own` is the
// weight of the derivation that has its nodes.
pub fn judge(
    block: &[u8],
    at: usize,
    weight: u32,
    own: Option<usize>,
    nodes: usize,
) -> Result<usize, Refusal>
    requires { at < 2 ^ 32 }
    ensures { Judges block.now weight at (option_of own) nodes result }
{
    let w = own.ok_or(Refusal::ReadingWalk)?;
    if w != arrays::wide(weight) {
        return Err(Refusal::ReadingWeight);
    }
    if !bit_reader::zero_from(block, at) {
        return Err(Refusal::ReadingFill);
    }
    Ok(nodes)
}
