// An office grammar in normal form: the rules of a sheet, in one pass, into an array of five numbers for each rule.
#![tactic(auto)]

ghost use Rattle.std.specs.Prelude.{◌≡◌, List, [], ◌∷◌, ◌++◌, ℕ, ◌+◌, ◌-◌, ◌*◌, ◌^◌, ◌≤◌, ◌<◌, length};
ghost use Rattle.packing.specs.Meaning.{word};
ghost use Rattle.packing.specs.Read.{as_verdict};
ghost use Rattle.packing.specs.Store.{store_all};
ghost use Rattle.packing.specs.declared.Rule as R;
ghost use Rattle.office.specs.Conversion.{Helper, with_word, with_words, chain, chain_top, helper_rules, becomes, after};
ghost use Rattle.office.specs.Flat.{item_at, items_at, office_rule_at, office_rules_at};
ghost use Rattle.office_conversion.specs.Pass.{rows_of, symbol_at, symbols_at, Holds, Converted, WordsBelow, Passable, AllPassable};
ghost use Rattle.office_conversion.specs.Limits.{office_grammar};
ghost use Rattle.office_conversion.specs.Answer.{sizes_told, RulesIn};

use grammar_reader::Sizes;
use office_reader::{ITEM_COUNT_AT, ITEMS_AT, NUMBERS_PER_ITEM, SYMBOL_ITEM};
use packing::format::{
    GRAMMAR_SHEET_HEAD, MAX_ITEMS, MAX_RULES, MAX_SYMBOLS, MAX_WORDS, NUMBERS_PER_RULE, PAIR_RULE,
    RULE_FIRST_AT, RULE_HEAD_AT, RULE_SECOND_AT, RULE_WEIGHT_AT, RULES_LENGTH, WORD_RULE,
};
use packing::refusal::Refusal;

// S and R of an office grammar: helper k is symbol S + k, and its rule is rule R + k.
#[derive(Clone, Copy)]
pub struct Base {
    pub symbols: u32,
    pub rules: u32,
    pub ghost in_range: { (1 ≤ symbols) × (symbols ≤ 32) × (rules ≤ 256) },
}

// The greatest S and R of a grammar.
const MOST_SYMBOLS: u32 = MAX_SYMBOLS as u32;

const MOST_RULES: u32 = MAX_RULES as u32;

// The weight of a helper's rule.
const HELPER_WEIGHT: u32 = 0;

// The last number of a word rule.
const NOTHING: u32 = 0;

// The five numbers of rule r, where the array has room for them.
fn put_rule(rules: &mut [u32], r: usize, kind: u32, head: u32, weight: u32, first: u32, second: u32)
    requires { r < 2 ^ 32 }
    ensures { rules.new ≡ store_all rules.old (5 * r) (kind ∷ head ∷ weight ∷ first ∷ second ∷ []) }
{
    let at = NUMBERS_PER_RULE * r;
    arrays::store(rules, at, kind);
    arrays::store(rules, at + RULE_HEAD_AT, head);
    arrays::store(rules, at + RULE_WEIGHT_AT, weight);
    arrays::store(rules, at + RULE_FIRST_AT, first);
    arrays::store(rules, at + RULE_SECOND_AT, second);
}

// The symbol of the item at place p of the sheet.
fn symbol_of(sheet: &[u32], places: &[u32], p: usize) -> u32
    requires { p < 2 ^ 60 }
    ensures { result ≡ (symbol_at sheet.now places.now p).0 }
{
    let number = arrays::narrow_at(sheet, p + 1);
    if arrays::narrow_at(sheet, p) == SYMBOL_ITEM {
        return number;
    }
    arrays::narrow_at(places, arrays::wide(number))
}

// The symbol of n items from place p on, whose chain begins with helper k.
fn top_of(sheet: &[u32], places: &[u32], p: usize, n: u32, symbols: u32, k: u32) -> u32
    requires { (p < 2 ^ 60) × (1 ≤ n) × (symbols ≤ MAX_SYMBOLS) × (k < 65536) }
    ensures { result ≡ (chain_top symbols k (symbols_at sheet.now places.now p n)).0 }
{
    if n == 1 {
        return symbol_of(sheet, places, p);
    }
    symbols + k
}

// The helpers of the chain of n items from place p on, the first of which is helper k.
fn put_chain(sheet: &[u32], places: &[u32], p: usize, n: u32, rules: &mut [u32], base: Base, k: u32)
    requires { (p < 2 ^ 50) × (1 ≤ n) × (n ≤ MAX_ITEMS) × (k < 16384) }
    ensures { rules.new ≡ store_all rules.old (5 * (base.rules + k))
        (rows_of (helper_rules base.symbols k (chain base.symbols k (symbols_at sheet.now places.now p n)))) }
{
    for j in 0..n - 1 {
        let at = p + NUMBERS_PER_ITEM * arrays::wide(j);
        let first = symbol_of(sheet, places, at);
        let rest = top_of(
            sheet,
            places,
            at + NUMBERS_PER_ITEM,
            n - (j + 1),
            base.symbols,
            k + j + 1,
        );
        put_rule(
            rules,
            arrays::wide(base.rules + (k + j)),
            PAIR_RULE,
            base.symbols + (k + j),
            HELPER_WEIGHT,
            first,
            rest,
        );
    }
}

// A word that has no helper yet gets the next: the helpers' count then.
fn add_word(rules: &mut [u32], places: &mut [u32], base: Base, k: u32, x: u32) -> u32
    requires { (k < 32768) × (x < MAX_WORDS) }
    ensures { (k ≤ result) × (result ≤ k + 1) × ((a : List ℕ) (hs : List Helper) (rs : List R.Rule)
        → Holds base.symbols base.rules a hs rs places.old rules.old k
        → Holds base.symbols base.rules a (with_word (word x) hs) rs places.new rules.new result) }
{
    if arrays::narrow_at(places, arrays::wide(x)) == 0 {
        put_rule(
            rules,
            arrays::wide(base.rules + k),
            WORD_RULE,
            base.symbols + k,
            HELPER_WEIGHT,
            x,
            NOTHING,
        );
        arrays::store(places, arrays::wide(x), base.symbols + k);
        return k + 1;
    }
    k
}

// The item at a place of the sheet: a word gets its helper.
fn add_item(
    sheet: &[u32],
    at: usize,
    rules: &mut [u32],
    places: &mut [u32],
    base: Base,
    k: u32,
) -> u32
    requires { (at < 2 ^ 60) × (k < 32768) × WordsBelow (item_at sheet.now at ∷ []) }
    ensures { (k ≤ result) × (result ≤ k + 1) × ((a : List ℕ) (hs : List Helper) (rs : List R.Rule)
        → Holds base.symbols base.rules a hs rs places.old rules.old k
        → Holds base.symbols base.rules a (with_words (item_at sheet.now at ∷ []) hs) rs places.new rules.new result) }
{
    let kind = arrays::narrow_at(sheet, at);
    let number = arrays::narrow_at(sheet, at + 1);
    if kind == SYMBOL_ITEM {
        return k;
    }
    add_word(rules, places, base, k, number)
}

// The words of n items from place p on get their helpers.
fn add_words(
    sheet: &[u32],
    p: usize,
    n: u32,
    rules: &mut [u32],
    places: &mut [u32],
    base: Base,
    first: u32,
) -> u32
    requires { (p < 2 ^ 59) × (n ≤ MAX_ITEMS) × (first < 16000) × WordsBelow (items_at sheet.now p n) }
    ensures { (first ≤ result) × (result ≤ first + 6) × ((a : List ℕ) (hs : List Helper) (rs : List R.Rule)
        → Holds base.symbols base.rules a hs rs places.old rules.old first
        → Holds base.symbols base.rules a (with_words (items_at sheet.now p n) hs) rs places.new rules.new result) }
{
    let mut k = first;
    for j in 0..n {
        let at = p + NUMBERS_PER_ITEM * arrays::wide(j);
        k = add_item(sheet, at, rules, places, base, k);
    }
    k
}

// The rule at place p of the sheet, as rule i, and the helpers that it takes: the helpers' count then.
fn convert_rule(
    sheet: &[u32],
    p: usize,
    rules: &mut [u32],
    places: &mut [u32],
    i: usize,
    base: Base,
    k: u32,
) -> u32
    requires { (p < 2 ^ 49) × (i < base.rules) × (k < 8192) × Passable (office_rule_at sheet.now p) }
    ensures { (result ≤ k + 10) × ((a : List ℕ) (hs : List Helper) (rs : List R.Rule) → i ≡ length rs
        → Holds base.symbols base.rules a hs rs places.old rules.old k
        → Holds base.symbols base.rules a (after base.symbols hs (office_rule_at sheet.now p))
        (rs ++ (becomes base.symbols hs (office_rule_at sheet.now p) ∷ [])) places.new rules.new result) }
{
    let head = arrays::narrow_at(sheet, p);
    let weight = arrays::narrow_at(sheet, p + 1);
    let n = arrays::narrow_at(sheet, p + ITEM_COUNT_AT);
    if n == 1 {
        let number = arrays::narrow_at(sheet, p + ITEMS_AT + 1);
        put_rule(rules, i, WORD_RULE, head, weight, number, NOTHING);
        return k;
    }
    let top = add_words(sheet, p + ITEMS_AT, n, rules, places, base, k);
    let first = symbol_of(sheet, places, p + ITEMS_AT);
    let rest = top_of(
        sheet,
        places,
        p + ITEMS_AT + NUMBERS_PER_ITEM,
        n - 1,
        base.symbols,
        top,
    );
    put_rule(rules, i, PAIR_RULE, head, weight, first, rest);
    put_chain(
        sheet,
        places,
        p + ITEMS_AT + NUMBERS_PER_ITEM,
        n - 1,
        rules,
        base,
        top,
    );
    top + (n - 2)
}

// The rules of an accepted sheet: the office's under their own numbers, then the helpers' by helper number, as far as the array has
// room; and how many helpers there are.
fn convert(sheet: &[u32], rules: &mut [u32], base: Base) -> u32
    requires { AllPassable (office_rules_at sheet.now 3 base.rules) }
    ensures { Converted base.symbols base.rules (office_rules_at sheet.now 3 base.rules) rules.old rules.new result }
{
    let mut places = [0u32; MAX_WORDS];
    let mut p: usize = GRAMMAR_SHEET_HEAD;
    let mut k: u32 = 0;
    for i in 0..base.rules as usize {
        k = convert_rule(sheet, p, rules, &mut places, i, base, k);
        p += ITEMS_AT + NUMBERS_PER_ITEM * arrays::number_at(sheet, p + ITEM_COUNT_AT);
    }
    k
}

// The grammar of an office sheet, into the array: its sizes, and the number from which on its rules are helpers' and marked.
pub fn read_grammar(sheet: &[u32], rules: &mut [u32]) -> Result<(Sizes, u32), Refusal>
    requires { RULES_LENGTH ≤ length rules.old }
    ensures { (as_verdict result ≡ sizes_told (office_grammar sheet.now)) × RulesIn (office_grammar sheet.now) rules.new }
{
    let z = office_reader::read_sheet(sheet)?;
    let base = Base {
        symbols: z.symbols,
        rules: z.rules,
    };
    let k = convert(sheet, rules, base);
    let sizes = Sizes {
        symbols: z.symbols + k,
        words: z.words,
        rules: z.rules + k,
    };
    if MOST_SYMBOLS < sizes.symbols || MOST_RULES < sizes.rules {
        return Err(Refusal::OfficeSize);
    }
    Ok((sizes, z.rules))
}
