// The slots of an utterance, read from a block or a sheet into a flat array of numbers that the caller lends: for each slot its
// count and its words and costs.
#![tactic(auto)]

ghost use Rattle.std.specs.Prelude.{◌≡◌, ◌+◌, ◌*◌, ◌^◌, ◌≤◌, ◌<◌, length, [], ◌∷◌};
ghost use Rattle.packing.specs.Read.{field_of, source_of, as_parse_by};
ghost use Rattle.packing.specs.Utterance.{offered, candidates_from, slot_from, slots_from};
ghost use Rattle.packing.specs.Flat.{slot_numbers};
ghost use Rattle.packing.specs.Store.{store_all};
ghost use Rattle.slots_reader.specs.Placed.{candidate_from, candidate_of, candidate_numbers, one_slot_numbers, PlacedAs};

use bits::MAX_WIDTH;
use packing::format::{
    MAX_CANDIDATES, MAX_SLOTS, MAX_WORDS, NUMBERS_PER_CANDIDATE, SLOT_LENGTH, SLOTS_LENGTH,
};
use packing::refusal::Refusal;
use packing::{Field, Source, format};

// A word that was heard, and its cost.
#[derive(Clone, Copy)]
pub struct Candidate {
    pub word: u32,
    pub cost: u32,
}

// A place of the source and a place of the array.
#[derive(Clone, Copy)]
pub struct Places {
    pub at: usize,
    pub to: usize,
}

// The field of a word from `least` on.
fn word_field(words: u32, least: u32) -> Field
    requires { (0 < words) × (words ≤ MAX_WORDS) }
    ensures { (field_of result ≡ offered words least) × (result.width ≤ MAX_WIDTH) }
{
    Field {
        width: bits::width_below(words as usize),
        least: least,
        most: words - 1,
        below: Refusal::UtteranceOrder,
        above: Refusal::UtteranceWord,
    }
}

// A word from `least` on and its cost, and the next place.
#[tactic(auto, unfolding(crate::specs::Placed::candidate_from))]
pub fn read_candidate(
    src: Source,
    at: usize,
    words: u32,
    least: u32,
) -> Result<(Candidate, usize), Refusal>
    requires { (at < 2 ^ 31) × (0 < words) × (words ≤ MAX_WORDS) }
    ensures { as_parse_by candidate_of result ≡ candidate_from (source_of src.entry) words least at }
{
    let read = src.field_at(at, word_field(words, least));
    let Ok((word, next)) = read else {
        return Err(read.unwrap_err());
    };
    let read = src.field_at(next, format::COST_FIELD);
    let Ok((cost, end)) = read else {
        return Err(read.unwrap_err());
    };
    Ok((Candidate { word, cost }, end))
}

// A word and its cost, from place p on.
#[tactic(auto, unfolding(packing::specs::Store::store_all))]
fn store_candidate(slots: &mut [u32], p: usize, c: Candidate)
    requires { p + 2 ≤ length slots.old }
    ensures { slots.new ≡ store_all slots.old p (c.word ∷ c.cost ∷ []) }
{
    slots[p] = c.word;
    slots[p + 1] = c.cost;
}

// `count` candidates, from a place of the source on, into the array from a place of it on.
fn read_candidates(
    src: Source,
    p: Places,
    words: u32,
    count: usize,
    slots: &mut [u32],
) -> Result<Places, Refusal>
    requires { (p.at < 2 ^ 30) × (count ≤ MAX_CANDIDATES) × (p.to + 2 * count ≤ length slots.old) × (0 < words) × (words ≤ MAX_WORDS) }
    ensures { PlacedAs (candidate_numbers words) slots.old p.to slots.new (candidates_from (source_of src.entry) words count 0 p.at []) result }
{
    let mut at = p.at;
    let mut least: u32 = 0;
    for i in 0..count {
        let (c, next) = read_candidate(src, at, words, least)?;
        store_candidate(slots, p.to + NUMBERS_PER_CANDIDATE * i, c);
        at = next;
        least = c.word + 1;
    }
    let to = p.to + NUMBERS_PER_CANDIDATE * count;
    Ok(Places { at, to })
}

// A slot, from a place of the source on, into the array from a place of it on.
#[tactic(auto, unfolding(packing::specs::Utterance::slot_from))]
fn read_slot(src: Source, p: Places, words: u32, slots: &mut [u32]) -> Result<Places, Refusal>
    requires { (p.at < 2 ^ 29) × (p.to + SLOT_LENGTH ≤ length slots.old) × (0 < words) × (words ≤ MAX_WORDS) }
    ensures { PlacedAs (one_slot_numbers words) slots.old p.to slots.new (slot_from (source_of src.entry) words p.at) result }
{
    let read = src.field_at(p.at, format::CANDIDATES_FIELD);
    let Ok((n, at)) = read else {
        return Err(read.unwrap_err());
    };
    slots[p.to] = n;
    let behind = Places { at, to: p.to + 1 };
    read_candidates(src, behind, words, n as usize, slots)
}

// `count` slots, from place `start` of the source, into the array.
pub fn read_slots(
    src: Source,
    start: usize,
    words: u32,
    count: usize,
    slots: &mut [u32],
) -> Result<Places, Refusal>
    requires { (start < 2 ^ 28) × (count ≤ MAX_SLOTS) × (SLOTS_LENGTH ≤ length slots.old) × (0 < words) × (words ≤ MAX_WORDS) }
    ensures { PlacedAs (slot_numbers words) slots.old 0 slots.new (slots_from (source_of src.entry) words count start []) result }
{
    let mut p = Places { at: start, to: 0 };
    for _ in 0..count {
        p = read_slot(src, p, words, slots)?;
    }
    Ok(p)
}
