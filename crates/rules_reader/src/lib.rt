// The rules of a grammar, read from a block or a sheet into flat arrays of numbers that the caller lends: five for each rule, and its
// mark.
#![tactic(auto)]

mod rule; // rule.rt: S and W, the fields that depend on them, and a rule's numbers

ghost use Rattle.std.specs.Prelude.{◌≡◌, ◌+◌, ◌*◌, ◌^◌, ◌≤◌, ◌<◌, length, IfOk};
ghost use Rattle.packing.specs.Read.{source_of, as_parse, as_parse_by};
ghost use Rattle.packing.specs.Store.{store_all};
ghost use Rattle.packing.specs.Grammar.{mark_from, rule_from, marked_rule_from};
ghost use Rattle.rules_reader.specs.Rules.{rule_by, marked_by, Near, row, key_of, among, filter_place, Filtered, RulesTold};

use packing::format::{
    MAX_MARKED_RULE_WIDTH, MAX_RULE_WIDTH, MAX_RULES, NUMBERS_PER_RULE, RULES_LENGTH, UNMARKED,
};
use packing::refusal::Refusal;
use packing::{Source, format};
use rule::RuleNumbers;
pub use rule::Vocabulary;

// What decides how rules are read: S and W, how many there are, and whether each bears a mark.
#[derive(Clone, Copy)]
pub struct RulesForm {
    pub vocabulary: Vocabulary,
    pub count: usize,
    pub marked: bool,
}

// The mark of a rule at a place of the source, where rules bear marks, and the next place. Where they bear none, it takes no place.
fn read_mark(src: Source, at: usize, marked: bool) -> Result<(u32, usize), Refusal>
    requires { at < 2 ^ 17 }
    ensures { as_parse result ≡ mark_from marked (source_of src.entry) at }
{
    if marked {
        return src.field_at(at, format::MARK_FIELD);
    }
    Ok((UNMARKED, at))
}

// The five numbers of a rule at a place of the source, with no mark, and the next place.
// Document 01 names the form in which blocks' readers take each field's answer apart and hand its refusal up: `let .. else`, not `?`.
#[tactic(auto, unfolding(packing::specs::Grammar::rule_from))]
fn read_numbers(src: Source, at: usize, v: Vocabulary) -> Result<(RuleNumbers, usize), Refusal>
    requires { at < 2 ^ 16 }
    ensures { (as_parse_by rule_by result ≡ rule_from (source_of src.entry) v.symbols v.words at) × Near (at + MAX_RULE_WIDTH) result
        × IfOk result (λ read. read.0.mark ≡ UNMARKED) }
{
    let read = src.field_at(at, format::RULE_KIND_FIELD);
    let Ok((kind, at)) = read else {
        return Err(read.unwrap_err());
    };
    let read = src.field_at(at, v.symbol());
    let Ok((head, at)) = read else {
        return Err(read.unwrap_err());
    };
    let read = src.field_at(at, format::WEIGHT_FIELD);
    let Ok((weight, at)) = read else {
        return Err(read.unwrap_err());
    };
    let read = src.field_at(at, v.first(kind));
    let Ok((first, at)) = read else {
        return Err(read.unwrap_err());
    };
    let read = src.field_at(at, v.second(kind));
    let Ok((second, at)) = read else {
        return Err(read.unwrap_err());
    };
    let rule = RuleNumbers {
        kind,
        head,
        weight,
        first,
        second,
        mark: UNMARKED,
    };
    Ok((rule, at))
}

// The rule at a place of the source with its mark, and the next place.
#[tactic(auto, unfolding(packing::specs::Grammar::marked_rule_from))]
fn read_rule(src: Source, at: usize, form: RulesForm) -> Result<(RuleNumbers, usize), Refusal>
    requires { at < 2 ^ 16 }
    ensures { (as_parse_by marked_by result
        ≡ marked_rule_from form.marked (source_of src.entry) form.vocabulary.symbols form.vocabulary.words at)
        × Near (at + MAX_MARKED_RULE_WIDTH) result }
{
    let (mut rule, at) = read_numbers(src, at, form.vocabulary)?;
    let read = read_mark(src, at, form.marked);
    let Ok((mark, at)) = read else {
        return Err(read.unwrap_err());
    };
    rule.mark = mark;
    Ok((rule, at))
}

// How many values a head and each number of a body have at most, in a rule's key.
const KEY_HEADS: u32 = format::MAX_SYMBOLS as u32;

const KEY_NUMBERS: u32 = 256;

// Kind, head and body of a rule as one number.
fn rule_key(rule: RuleNumbers) -> u32
    ensures { result ≡ key_of rule }
{
    let head = rule.kind * KEY_HEADS + rule.head;
    (head * KEY_NUMBERS + rule.first) * KEY_NUMBERS + rule.second
}

// Whether `key` is one of the keys. It looks at all of them, which is faster than to stop early.
pub fn seen(keys: &[u32], key: u32) -> bool
    ensures { result ≡ among key keys.now }
{
    let mut found = false;
    for &k in keys {
        found |= key == k;
    }
    found
}

// The places of a filter: a prime number, so that keys which are alike in some numbers stand at different ones.
const FILTER_PLACES: usize = 1021;

// Where a key stands in a filter.
fn filter_place(key: u32) -> usize
    ensures { (result ≡ filter_place key) × (result < FILTER_PLACES) }
{
    (key as usize) % FILTER_PLACES
}

// Whether `key` is one of the keys, each of which stands in the filter. Most keys do not, and need not be looked for.
fn repeated(filter: &[u8], keys: &[u32], key: u32) -> bool
    requires { (length filter.now ≡ FILTER_PLACES) × Filtered keys.now filter.now }
    ensures { result ≡ among key keys.now }
{
    filter[filter_place(key)] != 0 && seen(keys, key)
}

// The five numbers of rule i into the array.
#[tactic(auto, unfolding(packing::specs::Store::store_all))]
fn store_rule(rules: &mut [u32], i: usize, rule: RuleNumbers)
    requires { 5 * i + 5 ≤ length rules.old }
    ensures { rules.new ≡ store_all rules.old (5 * i) (row rule) }
{
    let at = NUMBERS_PER_RULE * i;
    rules[at] = rule.kind;
    rules[at + format::RULE_HEAD_AT] = rule.head;
    rules[at + format::RULE_WEIGHT_AT] = rule.weight;
    rules[at + format::RULE_FIRST_AT] = rule.first;
    rules[at + format::RULE_SECOND_AT] = rule.second;
}

// The rules, from a place of the source, with their numbers and their marks into the arrays: the next place.
pub fn read_rules(
    src: Source,
    start: usize,
    form: RulesForm,
    rules: &mut [u32],
    marks: &mut [u32],
) -> Result<usize, Refusal>
    requires { (start < 2 ^ 8) × (form.count ≤ MAX_RULES) × (RULES_LENGTH ≤ length rules.old) × (MAX_RULES ≤ length marks.old) }
    ensures { RulesTold form.marked (source_of src.entry) form.vocabulary.symbols form.vocabulary.words form.count start result
        rules.old rules.new marks.new }
{
    let mut keys = [0u32; MAX_RULES];
    let mut filter = [0u8; FILTER_PLACES];
    let mut at = start;
    for i in 0..form.count {
        let (rule, next) = read_rule(src, at, form)?;
        let key = rule_key(rule);
        if repeated(&filter, &keys[..i], key) {
            return Err(Refusal::GrammarRepeat);
        }
        keys[i] = key;
        filter[filter_place(key)] = 1;
        store_rule(rules, i, rule);
        marks[i] = rule.mark;
        at = next;
    }
    Ok(at)
}
