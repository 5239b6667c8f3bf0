// The specimen: the least word string of a wanted length that a grammar derives, compared word number by word number from the left.
// The least of a symbol and a length is the least, over rules and splits, of least left part joined with least right part.
#![tactic(auto)]

ghost use Rattle.std.specs.Prelude.{◌≡◌, ◌++◌, ◌≤◌, ◌<◌, eqb, length, get_or, take, drop};
ghost use Rattle.bits.specs.Bits.{pick};
ghost use Rattle.packing.specs.Flat.{Begins, rule_numbers, rule_at};
ghost use Rattle.packing.specs.Meaning.{Grammar};
ghost use Rattle.packing.specs.Parse.{accepted};
ghost use Rattle.packing.specs.Valid.{ValidGrammar};
ghost use Rattle.phrases.specs.Enumeration.{first_phrase};
ghost use Rattle.phrases.specs.Recursion.{cell_of};
ghost use Rattle.grammar_reader.specs.Answer.{Bounded, sizes as sizes_of};
ghost use Rattle.specimen.specs.Specimen.{specimen, string_length, output_of, WritesString};
ghost use Rattle.specimen.specs.Table.{fitted, lesser_split, lesser_pair, lesser_rule, least_of_cell, fill_table};

use arrays::rule_at;
use grammar_reader::{Sizes, read_block};
use packing::format::{
    MAX_RULES, MAX_SLOTS, MAX_SYMBOLS, NUMBERS_PER_RULE, RULE_HEAD_AT, RULES_LENGTH,
};
use packing::refusal::Refusal;
use packing::{Rule, Sym};
use padded_strings::{NO_STRING, Padded, lesser_join, lesser_word, one_word};

// The greatest length.
const MAX_LENGTH: u32 = MAX_SLOTS as u32;

// The padded string of each length and symbol, a cell each.
const CELLS: usize = MAX_SLOTS * MAX_SYMBOLS;

type Table = [Padded; CELLS];

// More than any symbol of the table, and more than any byte.
const SYMBOLS: u32 = MAX_SYMBOLS as u32;

const BYTES: u32 = 256;

// The cell of a symbol and a length.
fn cell_of(a: Sym, len: usize) -> usize
    requires { (a.0 < SYMBOLS) × (0 < len) × (len ≤ MAX_SLOTS) }
    ensures { (result ≡ cell_of a len) × (result < CELLS) }
{
    (len - 1) * MAX_SYMBOLS + a.0 as usize
}

// The lesser of the best string and of those with a left part of length j, by the least of both parts.
#[tactic(auto, unfolding(crate::specs::Table::lesser_split))]
fn lesser_split(table: &Table, b: Sym, c: Sym, len: usize, j: usize, best: Padded) -> Padded
    requires { (b.0 < SYMBOLS) × (c.0 < SYMBOLS) × (0 < j) × (j < len) × (len ≤ MAX_SLOTS) }
    ensures { result ≡ lesser_split table.now len b c j best }
{
    lesser_join(best, &table[cell_of(b, j)], &table[cell_of(c, len - j)], j)
}

// The same for every length of the left part: what a pair rule makes.
fn lesser_pair(table: &Table, b: Sym, c: Sym, len: usize, best: Padded) -> Padded
    requires { (b.0 < SYMBOLS) × (c.0 < SYMBOLS) × (0 < len) × (len ≤ MAX_SLOTS) }
    ensures { result ≡ lesser_pair table.now len b c best }
{
    let mut lesser = best;
    for y in 0..len - 1 {
        let next = lesser_split(table, b, c, len, y + 1, lesser);
        lesser = next;
    }
    lesser
}

// The lesser of the best string of a symbol and a length and of those that rule r makes. The remainders change no accepted rule.
#[tactic(auto, unfolding(crate::specs::Table::lesser_rule, phrases::specs::Recursion::by_rule, phrases::specs::Recursion::made))]
fn lesser_rule(table: &Table, rules: &[u32], a: Sym, len: usize, r: usize, best: Padded) -> Padded
    requires { (r < MAX_RULES) × (0 < len) × (len ≤ MAX_SLOTS) }
    ensures { result ≡ lesser_rule table.now a len best (fitted (rule_at rules.now r)) }
{
    match rule_at(rules, r) {
        Rule::Pair(head, b, c, _) if head.0 == a.0 => {
            lesser_pair(table, Sym(b.0 % SYMBOLS), Sym(c.0 % SYMBOLS), len, best)
        }
        Rule::Word(head, word, _) if head.0 == a.0 && len == 1 => {
            lesser_word(best, (word.0 % BYTES) as u8)
        }
        _ => best,
    }
}

// The string of cell c: the least of its symbol and its length.
fn least_of_cell(table: &Table, rules: &[u32], count: usize, number: usize) -> Padded
    requires { (count ≤ MAX_RULES) × (number < CELLS) }
    ensures { result ≡ least_of_cell rules.now count table.now number }
{
    let a = (number % MAX_SYMBOLS) as u32;
    let len = number / MAX_SYMBOLS + 1;
    let mut best = one_word(NO_STRING);
    for r in 0..count {
        // a rule of another head makes nothing, and the string is not copied
        if arrays::narrow_at(rules, NUMBERS_PER_RULE * r + RULE_HEAD_AT) != a {
            continue;
        }
        let next = lesser_rule(table, rules, Sym(a), len, r, best);
        best = next;
    }
    best
}

// The strings of all symbols and all lengths up to n, shorter ones first.
fn fill_table(table: &mut Table, rules: &[u32], count: usize, n: usize)
    requires { (count ≤ MAX_RULES) × (n ≤ MAX_SLOTS) }
    ensures { table.new ≡ fill_table rules.now count n table.old }
{
    for c in 0..MAX_SYMBOLS * n {
        let string = least_of_cell(table, rules, count, c);
        table[c] = string;
    }
}

// The n words of a padded string at the front of the output: their number, or 0 where it stands for none.
fn write_string(string: &Padded, n: usize, out: &mut [u8]) -> usize
    requires { (n ≤ MAX_SLOTS) × (n ≤ length out.old) }
    ensures { (result ≡ pick (eqb (get_or string.now 0 0) 255) 0 n)
        × (out.new ≡ pick (eqb (get_or string.now 0 0) 255) out.old (take n string.now ++ drop n out.old)) }
{
    if string[0] == NO_STRING {
        return 0;
    }
    out[..n].copy_from_slice(&string[..n]);
    n
}

// The answer for a grammar that was accepted and a length that there is room for: the length of the string, or 0 where there is none.
fn answer(rules: &[u32], sizes: Sizes, n: usize, out: &mut [u8]) -> usize
    requires { Bounded sizes × (0 < n) × (n ≤ MAX_SLOTS) × (n ≤ length out.old) }
    ensures { (g : Grammar) → sizes ≡ sizes_of g → ValidGrammar g → Begins (rule_numbers g) rules.now
        → (result ≡ string_length (first_phrase g n)) × (out.new ≡ output_of (accepted (first_phrase g n)) out.old) }
{
    let mut table = [[0u8; MAX_SLOTS]; CELLS];
    fill_table(&mut table, rules, sizes.rules as usize, n);
    let string = table[cell_of(Sym(0), n)];
    write_string(&string, n, out)
}

// The least word string of the wanted length that the grammar derives, one word number a byte, at the front of the output: its length, or 0 where
// there is none.
#[tactic(auto, unfolding(crate::specs::Conditions::asked, crate::specs::Specimen::specimen))]
pub fn specimen(grammar: &[u8], wanted: u32, out: &mut [u8]) -> Result<usize, Refusal>
    ensures { WritesString (specimen grammar.now wanted (length out.old)) out.old result out.new }
{
    let mut rules = [0u32; RULES_LENGTH];
    let sizes = read_block(grammar, &mut rules)?;
    if wanted < 1 || MAX_LENGTH < wanted {
        return Err(Refusal::SpecimenLength);
    }
    let n = wanted as usize;
    if out.len() < n {
        return Err(Refusal::SpecimenOutput);
    }
    Ok(answer(&rules, sizes, n, out))
}
