// Grammar blocks of either kind, written from an array of five numbers a rule and an array of marks.
#![tactic(auto)]

ghost use Rattle.std.specs.Prelude.{◌≡◌, List, [], ◌∷◌, ℕ, ◌+◌, ◌*◌, ◌^◌, ◌≤◌, ◌<◌, length};
ghost use Rattle.bits.specs.Fields.{fld, widths};
ghost use Rattle.bits.specs.Put.{puts};
ghost use Rattle.packing.specs.Meaning.{marked};
ghost use Rattle.packing.specs.Parse.{accepted};
ghost use Rattle.packing.specs.Ranges.{Ranges};
ghost use Rattle.packing.specs.Source.{flds};
ghost use Rattle.packing.specs.Grammar.{kind_number, rule_entries, marked_rule_entries};
ghost use Rattle.packing.specs.Conversion.{written};
ghost use Rattle.sheet_writer.specs.Answer.{Writes};
ghost use Rattle.sheet_writer.specs.Arrays.{rules_fields, grammar_fields, block_of};

use bits::{MAX_WIDTH, width_below};
use packing::format::{
    GRAMMAR_HEAD, MARK_WIDTH, MAX_MARKED_RULE_WIDTH, MAX_RULE_WIDTH, MAX_RULES, RULE_FIXED_WIDTH,
    RULE_KIND_WIDTH, WEIGHT_WIDTH,
};
use packing::refusal::Refusal;
use packing::{Rule, format};

// At most as many bits as the rules of a grammar take.
const MAX_RULES_WIDTH: usize = MAX_RULES * MAX_MARKED_RULE_WIDTH;

// S, W and R of a grammar, and whether its rules bear marks.
#[derive(Clone, Copy)]
pub struct GrammarForm {
    pub symbols: u32,
    pub words: u32,
    pub rules: usize,
    pub marked: bool,
}

// How many bits a rule takes.
fn rule_bits(rule: Rule, symbols: u32, words: u32) -> usize
    requires { Ranges symbols words }
    ensures { (result ≡ widths (flds (rule_entries symbols words rule))) × (result ≤ MAX_RULE_WIDTH) }
{
    let width = width_below(symbols as usize);
    match rule {
        Rule::Pair(..) => RULE_FIXED_WIDTH + 3 * width,
        Rule::Word(..) => RULE_FIXED_WIDTH + width + width_below(words as usize),
    }
}

// How many bits it takes with its mark, where rules bear marks.
fn marked_bits(rule: Rule, form: GrammarForm) -> usize
    requires { Ranges form.symbols form.words }
    ensures { ((mark : ℕ) → result ≡ widths (flds (marked_rule_entries form.marked form.symbols form.words (marked rule mark))))
        × (result ≤ MAX_MARKED_RULE_WIDTH) }
{
    let bits = rule_bits(rule, form.symbols, form.words);
    if form.marked {
        return bits + MARK_WIDTH;
    }
    bits
}

// How many bits the rules of an array take.
fn rules_bits(rules: &[u32], form: GrammarForm) -> usize
    requires { (form.rules ≤ MAX_RULES) × Ranges form.symbols form.words }
    ensures { ((marks : List ℕ) → result ≡ widths (rules_fields form.marked form.symbols form.words rules.now marks 0 form.rules))
        × (result ≤ MAX_RULES_WIDTH) }
{
    let mut total = 0usize;
    for i in 0..form.rules {
        total += marked_bits(arrays::rule_at(rules, i), form);
    }
    total
}

// Kind, head and weight of a rule, from bit `at`; the place behind them.
fn write_start(out: &mut [u8], at: usize, kind: u32, width: usize, head: u32, weight: u32) -> usize
    requires { (at < 2 ^ 31) × (width ≤ MAX_WIDTH) × (at + 1 + width + 16 ≤ 8 * length out.old) }
    ensures { (result ≡ at + 1 + width + 16) × (out.new ≡ puts out.old at (fld 1 kind ∷ fld width head ∷ fld 16 weight ∷ [])) }
{
    bit_writer::write_field(out, at, RULE_KIND_WIDTH, kind);
    let at = at + RULE_KIND_WIDTH;
    bit_writer::write_field(out, at, width, head);
    let at = at + width;
    bit_writer::write_field(out, at, WEIGHT_WIDTH, weight);
    at + WEIGHT_WIDTH
}

// A rule, from bit `at`; the place behind it.
fn write_rule(out: &mut [u8], at: usize, rule: Rule, symbols: u32, words: u32) -> usize
    requires { (at < 2 ^ 31) × Ranges symbols words
        × (at + widths (flds (rule_entries symbols words rule)) ≤ 8 * length out.old) }
    ensures { (result ≡ at + widths (flds (rule_entries symbols words rule))) × (result ≤ at + MAX_RULE_WIDTH)
        × (out.new ≡ puts out.old at (flds (rule_entries symbols words rule))) }
{
    let width = width_below(symbols as usize);
    match rule {
        Rule::Pair(head, first, second, weight) => {
            let at = write_start(out, at, format::PAIR_RULE, width, head.0, weight);
            bit_writer::write_field(out, at, width, first.0);
            let at = at + width;
            bit_writer::write_field(out, at, width, second.0);
            at + width
        }
        Rule::Word(head, word, weight) => {
            let at = write_start(out, at, format::WORD_RULE, width, head.0, weight);
            let width = width_below(words as usize);
            bit_writer::write_field(out, at, width, word.0);
            at + width
        }
    }
}

// A rule with its mark, where rules bear marks, from bit `at`; the place behind it.
fn write_marked(out: &mut [u8], at: usize, rule: Rule, mark: u32, form: GrammarForm) -> usize
    requires { (at < 2 ^ 31) × Ranges form.symbols form.words
        × (at + widths (flds (marked_rule_entries form.marked form.symbols form.words (marked rule mark))) ≤ 8 * length out.old) }
    ensures { (result ≡ at + widths (flds (marked_rule_entries form.marked form.symbols form.words (marked rule mark))))
        × (result ≤ at + MAX_MARKED_RULE_WIDTH)
        × (out.new ≡ puts out.old at (flds (marked_rule_entries form.marked form.symbols form.words (marked rule mark)))) }
{
    let next = write_rule(out, at, rule, form.symbols, form.words);
    if form.marked {
        bit_writer::write_field(out, next, MARK_WIDTH, mark);
        return next + MARK_WIDTH;
    }
    next
}

// The rules of an array with their marks, from bit `start`.
fn write_rules(out: &mut [u8], start: usize, form: GrammarForm, rules: &[u32], marks: &[u32])
    requires { (start ≤ GRAMMAR_HEAD) × (form.rules ≤ MAX_RULES) × Ranges form.symbols form.words
        × (start + widths (rules_fields form.marked form.symbols form.words rules.now marks.now 0 form.rules) ≤ 8 * length out.old) }
    ensures { out.new ≡ puts out.old start
        (rules_fields form.marked form.symbols form.words rules.now marks.now 0 form.rules) }
{
    let mut at = start;
    for i in 0..form.rules {
        let rule = arrays::rule_at(rules, i);
        at = write_marked(out, at, rule, arrays::narrow_at(marks, i), form);
    }
}

// The length of the block of a grammar whose rules stand in an array.
fn grammar_length(form: GrammarForm, rules: &[u32]) -> usize
    requires { (form.rules ≤ MAX_RULES) × Ranges form.symbols form.words }
    ensures { (marks : List ℕ) → result ≡ length
        (block_of (grammar_fields form.marked form.symbols form.words form.rules rules.now marks)) }
{
    (GRAMMAR_HEAD + rules_bits(rules, form)).div_ceil(8)
}

// The number of a block's kind.
fn kind_of(marked: bool) -> u32
    ensures { result ≡ kind_number marked }
{
    if marked {
        return format::MARKED_GRAMMAR_BLOCK;
    }
    format::GRAMMAR_BLOCK
}

// That block, where there is room.
fn write_fields(out: &mut [u8], form: GrammarForm, rules: &[u32], marks: &[u32])
    requires { (form.rules ≤ MAX_RULES) × Ranges form.symbols form.words
        × (length (block_of (grammar_fields form.marked form.symbols form.words form.rules rules.now marks.now)) ≤ length out.old) }
    ensures { out.new ≡ written
        (accepted (block_of (grammar_fields form.marked form.symbols form.words form.rules rules.now marks.now)))
        out.old }
{
    let symbols = form.symbols;
    let words = form.words;
    let count = form.rules;
    bit_writer::write_field(out, 0, format::KIND_WIDTH, kind_of(form.marked));
    bit_writer::write_field(out, format::SYMBOLS_AT, format::SYMBOLS_WIDTH, symbols);
    bit_writer::write_field(out, format::WORDS_AT, format::WORDS_WIDTH, words);
    bit_writer::write_field(out, format::RULES_AT, format::RULES_WIDTH, count as u32);
    write_rules(out, GRAMMAR_HEAD, form, rules, marks);
}

// The block of a grammar whose rules and marks stand in arrays, in front of what stands beyond it.
#[tactic(auto, unfolding(packing::specs::Conversion::fitting))]
pub fn write_grammar(
    out: &mut [u8],
    form: GrammarForm,
    rules: &[u32],
    marks: &[u32],
) -> Result<usize, Refusal>
    requires { (form.rules ≤ MAX_RULES) × Ranges form.symbols form.words }
    ensures { Writes (accepted (block_of
        (grammar_fields form.marked form.symbols form.words form.rules rules.now marks.now))) out.old result
        out.new }
{
    let length = grammar_length(form, rules);
    if out.len() < length {
        return Err(Refusal::OutputShort);
    }
    write_fields(out, form, rules, marks);
    Ok(length)
}
