// Reading blocks: measured, and written.
#![tactic(auto)]

ghost use Rattle.std.specs.Prelude.{◌≡◌, ◌++◌, ◌+◌, ◌-◌, ◌*◌, ◌≤◌, length, take, drop};
ghost use Rattle.bits.specs.Fields.{widths};
ghost use Rattle.bits.specs.Put.{puts};
ghost use Rattle.packing.specs.Source.{flds};
ghost use Rattle.packing.specs.Reading.{walk_entries, block_of_reading, reading_length};
ghost use Rattle.reading_writer.specs.Answer.{walk_in, reading_of};

use packing::format;
use packing::format::{MAX_RULES, MAX_SLOTS, NUMBERS_PER_NODE, READING_HEAD, WALK_LENGTH};

// The length in bytes of a reading of n slots under a grammar of `rules` rules.
pub fn reading_length(n: usize, rules: usize) -> usize
    requires { (1 ≤ n) × (n ≤ MAX_SLOTS) × (1 ≤ rules) × (rules ≤ MAX_RULES) }
    ensures { result ≡ reading_length n rules }
{
    let width = bits::width_below(rules);
    (READING_HEAD + (2 * n - 1) * width).div_ceil(8)
}

// The rule numbers of the first n nodes of a trace, from bit `start`.
fn write_walk(out: &mut [u8], start: usize, rules: usize, trace: &[u32], n: usize)
    requires { (start ≤ READING_HEAD) × (1 ≤ rules) × (rules ≤ MAX_RULES) × (n ≤ WALK_LENGTH) × (2 * n ≤ length trace.now)
        × (start + widths (flds (walk_entries rules (walk_in (take (2 * n) trace.now)))) ≤ 8 * length out.old) }
    ensures { out.new ≡ puts out.old start (flds (walk_entries rules (walk_in (take (2 * n) trace.now)))) }
{
    let width = bits::width_below(rules);
    let mut at = start;
    for i in 0..n {
        bit_writer::write_field(out, at, width, trace[NUMBERS_PER_NODE * i]);
        at += width;
    }
}

// A reading's block, in front of what stands in `out` beyond it. The trace has two numbers for each node, of which the first is the
// rule's.
pub fn write_reading(out: &mut [u8], n: usize, rules: usize, weight: u32, trace: &[u32])
    requires { (1 ≤ n) × (n ≤ MAX_SLOTS) × (1 ≤ rules) × (rules ≤ MAX_RULES) × (2 * (2 * n - 1) ≤ length trace.now)
        × (reading_length n rules ≤ length out.old) }
    ensures { out.new ≡ block_of_reading rules (reading_of n weight trace.now)
        ++ drop (length (block_of_reading rules (reading_of n weight trace.now))) out.old }
{
    bit_writer::write_field(out, 0, format::KIND_WIDTH, format::READING_BLOCK);
    bit_writer::write_field(out, format::SLOTS_AT, format::SLOTS_WIDTH, n as u32);
    bit_writer::write_field(
        out,
        format::READING_WEIGHT_AT,
        format::READING_WEIGHT_WIDTH,
        weight,
    );
    write_walk(out, READING_HEAD, rules, trace, 2 * n - 1);
}
