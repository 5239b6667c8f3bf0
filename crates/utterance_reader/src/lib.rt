// Utterance blocks and sheets, read into a flat array of numbers.
#![tactic(auto)]

ghost use Rattle.std.specs.Prelude.{◌≡◌, ◌+◌, ◌*◌, ◌^◌, ◌≤◌, ◌<◌, length};
ghost use Rattle.packing.specs.Parse.{accepted, ◌then◌};
ghost use Rattle.packing.specs.Read.{source_of, as_verdict};
ghost use Rattle.packing.specs.Utterance.{utterance_from, utterance_block, utterance_sheet};
ghost use Rattle.packing.specs.Flat.{SlotsIn};
ghost use Rattle.utterance_reader.specs.Answer.{utterance_size, Sized};
ghost use Rattle.utterance_reader.specs.Parts.{SlotsAs};

use packing::format::{MAX_WORDS, SLOTS_LENGTH};
use packing::refusal::Refusal;
use packing::{Source, format};

// n, and how many numbers of the array the slots take.
#[derive(Clone, Copy)]
pub struct UtteranceSize {
    pub count: usize,
    pub numbers: usize,
}

// n and the slots, from place `at` of the source, into the array, and the next place.
#[tactic(auto, unfolding(packing::specs::Utterance::utterance_from))]
fn read_utterance(
    src: Source,
    at: usize,
    words: u32,
    slots: &mut [u32],
) -> Result<(UtteranceSize, usize), Refusal>
    requires { (at < 2 ^ 27) × (SLOTS_LENGTH ≤ length slots.old) × (0 < words) × (words ≤ MAX_WORDS) }
    ensures { SlotsAs words slots.new (utterance_from (source_of src.entry) words at) result }
{
    let read = src.field_at(at, format::SLOTS_FIELD);
    let Ok((n, next)) = read else {
        return Err(read.unwrap_err());
    };
    let count = n as usize;
    let end = slots_reader::read_slots(src, next, words, count, slots)?;
    let size = UtteranceSize {
        count,
        numbers: end.to,
    };
    Ok((size, end.at))
}

// The utterance of a block under a grammar of `words` words.
#[tactic(auto, unfolding(packing::specs::Utterance::utterance_block))]
pub fn read_block(block: &[u8], words: u32, slots: &mut [u32]) -> Result<UtteranceSize, Refusal>
    requires { (SLOTS_LENGTH ≤ length slots.old) × (0 < words) × (words ≤ MAX_WORDS) }
    ensures { (as_verdict result ≡ (utterance_block words block.now then λ u. accepted (utterance_size words u)))
        × SlotsIn words (utterance_block words block.now) slots.new × Sized result }
{
    let src = Source::Block(block, Refusal::UtteranceEnd);
    let read = src.field_at(0, format::UTTERANCE_KIND_FIELD);
    let Ok((_, next)) = read else {
        return Err(read.unwrap_err());
    };
    let (size, end) = read_utterance(src, next, words, slots)?;
    if bit_reader::zero_from(block, end) {
        return Ok(size);
    }
    Err(Refusal::UtteranceFill)
}

// The utterance of a sheet under a grammar of `words` words.
#[tactic(auto, unfolding(packing::specs::Utterance::utterance_sheet))]
pub fn read_sheet(sheet: &[u32], words: u32, slots: &mut [u32]) -> Result<UtteranceSize, Refusal>
    requires { (SLOTS_LENGTH ≤ length slots.old) × (0 < words) × (words ≤ MAX_WORDS) }
    ensures { (as_verdict result ≡ (utterance_sheet words sheet.now then λ u. accepted (utterance_size words u)))
        × SlotsIn words (utterance_sheet words sheet.now) slots.new × Sized result }
{
    let (size, end) = read_utterance(Source::Sheet(sheet), 0, words, slots)?;
    if end == sheet.len() {
        return Ok(size);
    }
    Err(Refusal::SheetCount)
}
