// Utterance blocks, written from an array that has for each slot its count and its words and costs.
#![tactic(auto)]

ghost use Rattle.std.specs.Prelude.{◌≡◌, ◌+◌, ◌*◌, ◌/◌, ◌^◌, ◌≤◌, ◌<◌, length};
ghost use Rattle.bits.specs.Fields.{widths};
ghost use Rattle.bits.specs.Put.{puts};
ghost use Rattle.packing.specs.Parse.{accepted};
ghost use Rattle.packing.specs.Conversion.{written};
ghost use Rattle.sheet_writer.specs.Answer.{Writes};
ghost use Rattle.sheet_writer.specs.Arrays.{candidates_fields, slots_fields, slots_bits, utterance_fields, block_of};

use arrays::{narrow_at, number_at};
use bits::{MAX_WIDTH, width_below};
use packing::format;
use packing::format::{
    CANDIDATES_WIDTH, COST_WIDTH, MAX_SLOTS, MAX_WORDS, NUMBERS_PER_CANDIDATE, SLOTS_LENGTH,
    UTTERANCE_HEAD,
};
use packing::refusal::Refusal;

// At most as many bits as the slots of an utterance take: a count each, and words and costs wherever they have room for them.
const MAX_SLOTS_WIDTH: usize = MAX_SLOTS * CANDIDATES_WIDTH
    + SLOTS_LENGTH / NUMBERS_PER_CANDIDATE * (MAX_WIDTH + COST_WIDTH);

// The n candidates whose words and costs stand from place p on, from bit `start`; the place behind them.
fn write_candidates(
    out: &mut [u8],
    start: usize,
    slots: &[u32],
    p: usize,
    n: usize,
    words: u32,
) -> usize
    requires { (1 ≤ words) × (words ≤ MAX_WORDS) × (p < 2 ^ 32) × (start + widths (candidates_fields words slots.now p n) < 2 ^ 32)
        × (start + widths (candidates_fields words slots.now p n) ≤ 8 * length out.old) }
    ensures { (result ≡ start + widths (candidates_fields words slots.now p n))
        × (out.new ≡ puts out.old start (candidates_fields words slots.now p n)) }
{
    let width = width_below(words as usize);
    let mut at = start;
    for i in 0..n {
        let word = narrow_at(slots, p + NUMBERS_PER_CANDIDATE * i);
        bit_writer::write_field(out, at, width, word);
        at += width;
        let cost = narrow_at(slots, p + NUMBERS_PER_CANDIDATE * i + 1);
        bit_writer::write_field(out, at, COST_WIDTH, cost);
        at += COST_WIDTH;
    }
    at
}

// The first n slots of an array, from bit `start`.
fn write_slots(out: &mut [u8], start: usize, slots: &[u32], n: usize, words: u32)
    requires { (1 ≤ words) × (words ≤ MAX_WORDS) × (n ≤ MAX_SLOTS) × (start + widths (slots_fields words slots.now 0 n) < 2 ^ 32)
        × (start + widths (slots_fields words slots.now 0 n) ≤ 8 * length out.old) }
    ensures { out.new ≡ puts out.old start (slots_fields words slots.now 0 n) }
{
    let mut at = start;
    let mut p: usize = 0;
    for i in 0..n {
        let count = number_at(slots, p);
        bit_writer::write_field(out, at, CANDIDATES_WIDTH, count as u32);
        at = write_candidates(out, at + CANDIDATES_WIDTH, slots, p + 1, count, words);
        p += 1 + NUMBERS_PER_CANDIDATE * count;
    }
}

// The length of the block of an utterance whose n slots have `numbers` numbers together.
fn utterance_length(words: u32, n: usize, numbers: usize) -> usize
    requires { (1 ≤ words) × (words ≤ MAX_WORDS) × (n ≤ MAX_SLOTS) × (n ≤ numbers) × (numbers ≤ SLOTS_LENGTH) }
    ensures { result ≡ (UTTERANCE_HEAD + slots_bits words n numbers + 7) / 8 }
{
    let width = width_below(words as usize);
    let candidates = (numbers - n) / NUMBERS_PER_CANDIDATE;
    let bits = CANDIDATES_WIDTH * n + candidates * (width + COST_WIDTH);
    (UTTERANCE_HEAD + bits).div_ceil(8)
}

// The block of an utterance whose n slots stand in an array, where there is room.
fn write_fields(out: &mut [u8], words: u32, n: usize, slots: &[u32])
    requires { (1 ≤ words) × (words ≤ MAX_WORDS) × (n ≤ MAX_SLOTS) × (widths (slots_fields words slots.now 0 n) ≤ MAX_SLOTS_WIDTH)
        × (length (block_of (utterance_fields words n slots.now)) ≤ length out.old) }
    ensures { out.new ≡ written (accepted (block_of (utterance_fields words n slots.now))) out.old }
{
    bit_writer::write_field(out, 0, format::KIND_WIDTH, format::UTTERANCE_BLOCK);
    bit_writer::write_field(out, format::SLOTS_AT, format::SLOTS_WIDTH, n as u32);
    write_slots(out, UTTERANCE_HEAD, slots, n, words);
}

// The block of an utterance whose n slots are the first `numbers` numbers of an array, in front of what stands beyond it.
#[tactic(auto, unfolding(packing::specs::Conversion::fitting))]
pub fn write_utterance(
    out: &mut [u8],
    words: u32,
    n: usize,
    numbers: usize,
    slots: &[u32],
) -> Result<usize, Refusal>
    requires { (1 ≤ words) × (words ≤ MAX_WORDS) × (n ≤ MAX_SLOTS) × (n ≤ numbers) × (numbers ≤ SLOTS_LENGTH)
        × (widths (slots_fields words slots.now 0 n) ≡ slots_bits words n numbers) }
    ensures { Writes (accepted (block_of (utterance_fields words n slots.now))) out.old result out.new }
{
    let length = utterance_length(words, n, numbers);
    if out.len() < length {
        return Err(Refusal::OutputShort);
    }
    write_fields(out, words, n, slots);
    Ok(length)
}
