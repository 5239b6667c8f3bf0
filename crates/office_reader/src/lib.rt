// Office sheets: whether one is accepted, and its sizes. The sheet is itself a flat array of its rules, so nothing is copied.
#![tactic(auto)]

ghost use Rattle.std.specs.Prelude.{◌≡◌, ◌+◌, ◌^◌, ◌≤◌, ◌<◌, eqb, length, get_or, []};
ghost use Rattle.packing.specs.Read.{field_of, as_verdict};
ghost use Rattle.packing.specs.Alike.{any_like};
ghost use Rattle.office.specs.Sheet.{item_kind, item_alike, items_alike, rule_alike, item_from, items_from, office_rule_from, office_rules_from, office_sheet};
ghost use Rattle.office.specs.Flat.{item_at, items_at, office_rule_at, office_rules_at};
ghost use Rattle.rules_reader.specs.Rules.{Filters, place_of, reached};
ghost use Rattle.grammar_reader.specs.Answer.{InBounds};
ghost use Rattle.office_reader.specs.Answer.{sizes_told};
ghost use Rattle.office_reader.specs.Filter.{item_number, items_place, rule_place};

use bits::MAX_WIDTH;
use grammar_reader::Sizes;
use packing::format::{GRAMMAR_SHEET_HEAD, MAX_ITEMS, MAX_RULES, WEIGHT_FIELD};
use packing::refusal::Refusal;
use packing::{Field, Source};
use rules_reader::Vocabulary;

// Of each rule an office sheet has head, weight and item count, then the items; of each item its kind and its number.
pub const ITEM_COUNT_AT: usize = 2;

pub const ITEMS_AT: usize = 3;

pub const NUMBERS_PER_ITEM: usize = 2;

pub const SYMBOL_ITEM: u32 = 0;

pub const WORD_ITEM: u32 = 1;

const ITEM_COUNT_FIELD: Field = Field {
    width: 0,
    least: 1,
    most: MAX_ITEMS,
    below: Refusal::ItemCount,
    above: Refusal::ItemCount,
};

// The field of an item's kind in a body of `count` items: one item is a word.
fn kind_field(count: u32) -> Field
    ensures { (field_of result ≡ item_kind count) × (result.width ≤ MAX_WIDTH) }
{
    Field {
        width: 0,
        least: if count == 1 { WORD_ITEM } else { SYMBOL_ITEM },
        most: WORD_ITEM,
        below: Refusal::ItemAlone,
        above: Refusal::SheetValue,
    }
}

// An item of a body of `count`: the place behind it.
#[tactic(auto, unfolding(office::specs::Sheet::item_from))]
fn read_item(sheet: &[u32], at: usize, v: Vocabulary, count: u32) -> Result<usize, Refusal>
    requires { at < 2 ^ 31 }
    ensures { reached result ≡ place_of (item_from sheet.now v.symbols v.words count at) }
{
    let src = Source::Sheet(sheet);
    let read = src.field_at(at, kind_field(count));
    let Ok((kind, at)) = read else {
        return Err(read.unwrap_err());
    };
    let read = src.field_at(at, v.first(kind));
    let Ok((_, at)) = read else {
        return Err(read.unwrap_err());
    };
    Ok(at)
}

// The items of a body: the place behind them.
fn read_items(sheet: &[u32], start: usize, v: Vocabulary, count: u32) -> Result<usize, Refusal>
    requires { (start < 2 ^ 30) × (count ≤ MAX_ITEMS) }
    ensures { reached result ≡ place_of (items_from sheet.now v.symbols v.words count count start) }
{
    let mut at = start;
    for _i in 0..count {
        at = read_item(sheet, at, v, count)?;
    }
    Ok(at)
}

// The rule at a place: the place behind it.
#[tactic(auto, unfolding(office::specs::Sheet::office_rule_from))]
fn read_rule(sheet: &[u32], at: usize, v: Vocabulary) -> Result<usize, Refusal>
    requires { at < 2 ^ 29 }
    ensures { reached result ≡ place_of (office_rule_from sheet.now v.symbols v.words at) }
{
    let src = Source::Sheet(sheet);
    let read = src.field_at(at, v.symbol());
    let Ok((_, at)) = read else {
        return Err(read.unwrap_err());
    };
    let read = src.field_at(at, WEIGHT_FIELD);
    let Ok((_, at)) = read else {
        return Err(read.unwrap_err());
    };
    let read = src.field_at(at, ITEM_COUNT_FIELD);
    let Ok((count, at)) = read else {
        return Err(read.unwrap_err());
    };
    read_items(sheet, at, v, count)
}

// Whether the item at a place is a symbol.
fn is_symbol(sheet: &[u32], p: usize) -> bool
    ensures { result ≡ eqb (get_or sheet.now p 0) 0 }
{
    arrays::narrow_at(sheet, p) == SYMBOL_ITEM
}

// Whether the items at two places are alike.
fn same_item(sheet: &[u32], p: usize, q: usize) -> bool
    requires { (p < 2 ^ 60) × (q < 2 ^ 60) }
    ensures { result ≡ item_alike (item_at sheet.now p) (item_at sheet.now q) }
{
    let same_number = arrays::narrow_at(sheet, p + 1) == arrays::narrow_at(sheet, q + 1);
    same_number && is_symbol(sheet, p) == is_symbol(sheet, q)
}

// Whether n items from two places on are alike.
fn same_items(sheet: &[u32], p: usize, q: usize, n: usize) -> bool
    requires { (p < 2 ^ 50) × (q < 2 ^ 50) × (n < 2 ^ 32) }
    ensures { result ≡ items_alike (items_at sheet.now p n) (items_at sheet.now q n) }
{
    for i in 0..n {
        if !same_item(sheet, p + NUMBERS_PER_ITEM * i, q + NUMBERS_PER_ITEM * i) {
            return false;
        }
    }
    true
}

// Whether the rules at two places have head and items alike.
fn same_rule(sheet: &[u32], p: usize, q: usize) -> bool
    requires { (p < 2 ^ 49) × (q < 2 ^ 49) }
    ensures { result ≡ rule_alike (office_rule_at sheet.now p) (office_rule_at sheet.now q) }
{
    let n = arrays::number_at(sheet, p + ITEM_COUNT_AT);
    let m = arrays::number_at(sheet, q + ITEM_COUNT_AT);
    if arrays::narrow_at(sheet, p) != arrays::narrow_at(sheet, q) {
        return false;
    }
    n == m && same_items(sheet, p + ITEMS_AT, q + ITEMS_AT, n)
}

// Whether the rule at a place is alike one of the first n.
fn seen(sheet: &[u32], n: usize, at: usize) -> bool
    requires { (n ≤ MAX_RULES) × (at < 2 ^ 48) }
    ensures { result ≡ any_like rule_alike (office_rule_at sheet.now at) (office_rules_at sheet.now 3 n) }
{
    let mut p: usize = GRAMMAR_SHEET_HEAD;
    for _i in 0..n {
        if same_rule(sheet, at, p) {
            return true;
        }
        p += ITEMS_AT + NUMBERS_PER_ITEM * arrays::number_at(sheet, p + ITEM_COUNT_AT);
    }
    false
}

// The places of a filter: a prime number, so that rules which are alike in some numbers stand at different ones.
const FILTER_PLACES: usize = 4093;

// By how much the items before it move an item's place.
const ITEM_STEP: usize = 512;

// The item at a place as one number.
fn item_number(sheet: &[u32], p: usize) -> usize
    requires { p < 2 ^ 60 }
    ensures { (result ≡ item_number (item_at sheet.now p)) × (result < 2 ^ 40) }
{
    let number = arrays::number_at(sheet, p + 1);
    if is_symbol(sheet, p) {
        return 2 * number;
    }
    2 * number + 1
}

// Where n items, behind others that stand at a place of a filter, stand in it.
fn items_place(sheet: &[u32], p: usize, n: usize, start: usize) -> usize
    requires { (p < 2 ^ 50) × (n < 2 ^ 32) × (start < FILTER_PLACES) }
    ensures { (result ≡ items_place (items_at sheet.now p n) start) × (result < FILTER_PLACES) }
{
    let mut place = start;
    for i in 0..n {
        place = (place * ITEM_STEP + item_number(sheet, p + NUMBERS_PER_ITEM * i)) % FILTER_PLACES;
    }
    place
}

// Where the rule at a place stands in a filter.
#[tactic(auto, unfolding(crate::specs::Filter::rule_place))]
fn rule_place(sheet: &[u32], at: usize) -> usize
    requires { at < 2 ^ 49 }
    ensures { (result ≡ rule_place (office_rule_at sheet.now at)) × (result < FILTER_PLACES) }
{
    let head = arrays::number_at(sheet, at) % FILTER_PLACES;
    let n = arrays::number_at(sheet, at + ITEM_COUNT_AT);
    items_place(sheet, at + ITEMS_AT, n, head)
}

// Whether the rule at a place, which stands at `place` of the filter, is alike one of the first n. Most are found not to be by the filter alone.
fn repeated(sheet: &[u32], filter: &[u8], n: usize, at: usize, place: usize) -> bool
    requires { (n ≤ MAX_RULES) × (at < 2 ^ 48) × (place < length filter.now) × (place ≡ rule_place (office_rule_at sheet.now at))
        × Filters rule_alike rule_place (office_rules_at sheet.now 3 n) filter.now }
    ensures { result ≡ any_like rule_alike (office_rule_at sheet.now at) (office_rules_at sheet.now 3 n) }
{
    filter[place] != 0 && seen(sheet, n, at)
}

// The rules: the place behind them.
fn read_rules(sheet: &[u32], v: Vocabulary, count: usize) -> Result<usize, Refusal>
    requires { count ≤ MAX_RULES }
    ensures { reached result ≡ place_of (office_rules_from sheet.now v.symbols v.words count 3 []) }
{
    let mut filter = [0u8; FILTER_PLACES];
    let mut at: usize = GRAMMAR_SHEET_HEAD;
    for i in 0..count {
        let next = read_rule(sheet, at, v)?;
        let place = rule_place(sheet, at);
        if repeated(sheet, &filter, i, at, place) {
            return Err(Refusal::GrammarRepeat);
        }
        filter[place] = 1;
        at = next;
    }
    Ok(at)
}

// The sizes of an office sheet.
pub fn read_sheet(sheet: &[u32]) -> Result<Sizes, Refusal>
    ensures { (as_verdict result ≡ sizes_told (office_sheet sheet.now)) × InBounds result }
{
    let (sizes, _) = grammar_reader::read_sizes(Source::Sheet(sheet), 0)?;
    let v = Vocabulary {
        symbols: sizes.symbols,
        words: sizes.words,
    };
    let end = read_rules(sheet, v, sizes.rules as usize)?;
    if end != sheet.len() {
        return Err(Refusal::SheetCount);
    }
    Ok(sizes)
}
