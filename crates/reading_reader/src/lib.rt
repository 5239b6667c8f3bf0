// Reading blocks, read up to their last rule number.
#![tactic(auto)]

ghost use Rattle.std.specs.Prelude.{◌≡◌, ◌-◌, ◌+◌, ◌*◌, ◌^◌, ◌≤◌, ◌<◌, length, IfOk};
ghost use Rattle.packing.specs.Source.{bytes, field_at};
ghost use Rattle.packing.specs.Read.{field_of, as_parse};
ghost use Rattle.packing.specs.Reading.{rule_number, reading_from};
ghost use Rattle.reading_reader.specs.Answer.{weight_of, WalkIn, Near};

use bits::MAX_FIELD_WIDTH;
use packing::format::{MAX_RULES, MAX_SLOTS};
use packing::refusal::Refusal;
use packing::{Field, Source, format};

// The number at a place of a reading block, and the next place.
#[tactic(auto, using(crate::proofs::Reading::number_next))]
pub fn number(block: &[u8], at: usize, f: Field) -> Result<(u32, usize), Refusal>
    requires { (at < 2 ^ 32) × (f.width ≤ MAX_FIELD_WIDTH) }
    ensures value { as_parse result ≡ field_at (bytes 31 block.now) at (field_of f) }
    ensures next { IfOk result (λ read. read.1 ≡ at + f.width) }
{
    Source::Block(block, Refusal::ReadingEnd).field_at(at, f)
}

// The rule number at a place, and the next place.
#[tactic(auto, using(packing::proofs::Widths::byte_width))]
pub fn read_number(block: &[u8], at: usize, rules: usize) -> Result<(u32, usize), Refusal>
    requires { (at < 2 ^ 32) × (1 ≤ rules) × (rules ≤ MAX_RULES) }
    ensures value { as_parse result ≡ field_at (bytes 31 block.now) at (rule_number rules) }
    ensures next { IfOk result (λ read. read.1 ≤ at + 8) }
{
    let f = Field {
        width: bits::width_below(rules),
        least: 0,
        most: format::MAX_RULE_NUMBER,
        below: Refusal::ReadingWalk,
        above: Refusal::ReadingWalk,
    };
    number(block, at, f)
}

// The fields of a reading block of n slots, with the rule numbers at the front of `walk`: the weight, and the place behind the fields.
#[tactic(auto, unfolding(packing::specs::Reading::reading_from))]
pub fn read_reading(
    block: &[u8],
    n: usize,
    rules: usize,
    walk: &mut [u32],
) -> Result<(u32, usize), Refusal>
    requires { (1 ≤ n) × (n ≤ MAX_SLOTS) × (1 ≤ rules) × (rules ≤ MAX_RULES) × (2 * n - 1 ≤ length walk.old) }
    ensures { (as_parse result ≡ weight_of (reading_from n rules block.now))
        × WalkIn (reading_from n rules block.now) walk.new × Near result }
{
    let read = number(block, 0, format::READING_KIND_FIELD);
    let Ok((_, at)) = read else {
        return Err(read.unwrap_err());
    };
    let slots = Field {
        width: format::SLOTS_WIDTH,
        least: n as u32,
        most: n as u32,
        below: Refusal::ReadingSlots,
        above: Refusal::ReadingSlots,
    };
    let read = number(block, at, slots);
    let Ok((_, at)) = read else {
        return Err(read.unwrap_err());
    };
    let read = number(block, at, format::READING_WEIGHT_FIELD);
    let Ok((weight, mut at)) = read else {
        return Err(read.unwrap_err());
    };
    for number in &mut walk[..2 * n - 1] {
        let read = read_number(block, at, rules);
        let Ok((rule, next)) = read else {
            return Err(read.unwrap_err());
        };
        *number = rule;
        at = next;
    }
    Ok((weight, at))
}
