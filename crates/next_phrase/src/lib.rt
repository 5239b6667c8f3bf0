// The next phrase: the least word string of a wanted length that a grammar derives and that is above the one that the output holds.
// A string of at most six words is a number to base 256, each word at its place, so that two parts joined are the sum of both. One pass goes
// over the parts of the string at hand, from short to long. For each symbol it finds whether the symbol derives the part itself, the
// least string of the part's length above it, and the least of that length. A string is above a joined one if its left part is above,
// whatever follows, or if its left part is the same and its right part is above.
#![tactic(auto)]

ghost use Rattle.std.specs.Prelude.{◌≡◌, List, ◌++◌, ℕ, ◌≤◌, ◌<◌, ◌+◌, ◌*◌, ◌-◌, eqb, length, take, drop};
ghost use Rattle.bits.specs.Bits.{pick};
ghost use Rattle.packing.specs.Flat.{Begins, rule_numbers};
ghost use Rattle.packing.specs.Meaning.{Grammar};
ghost use Rattle.packing.specs.Loop.{iter};
ghost use Rattle.packing.specs.Parse.{accepted};
ghost use Rattle.packing.specs.Valid.{ValidGrammar};
ghost use Rattle.phrases.specs.Enumeration.{first_phrase, next_phrase};
ghost use Rattle.phrases.specs.Numbers.{scale, placed, Bytes};
ghost use Rattle.grammar_reader.specs.Answer.{Bounded, sizes as sizes_of};
ghost use Rattle.specimen.specs.Specimen.{string_length, output_of, WritesString};
ghost use Rattle.specimen.specs.Table.{fitted_at};
ghost use Rattle.next_phrase.specs.declared.TheConstants.{MAX_LENGTH};
ghost use Rattle.next_phrase.specs.NextPhrase.{next};
ghost use Rattle.next_phrase.specs.Table.{
  cell_over,
  sum,
  with_joined,
  with_word,
  with_split,
  with_rule,
  add_rule,
  fill_part,
  fill_table,
  asked_of,
};

use arrays::rule_at;
use grammar_reader::{Sizes, read_block};
use packing::format::{MAX_RULES, MAX_SYMBOLS, NUMBERS_PER_RULE, RULE_HEAD_AT, RULES_LENGTH};
use packing::refusal::Refusal;
use packing::{Rule, Sym};

// The greatest length.
const MAX_LENGTH: usize = 6;

const MAX_WANTED: u32 = MAX_LENGTH as u32;

// What a word at the first place counts, and more than any string: none.
const FIRST_PLACE: u64 = 1099511627776;

const NO_STRING: u64 = 256 * FIRST_PLACE;

// More than any symbol of the table, and more than any byte.
const SYMBOLS: u32 = MAX_SYMBOLS as u32;

const BYTES: u32 = 256;

// A part of the string: where it begins, and its length.
#[derive(Clone, Copy)]
pub struct Part {
    pub from: usize,
    pub length: usize,
    ghost some: { 0 < length },
    ghost within: { from + length ≤ MAX_LENGTH },
}

// Of a symbol and a part the part itself, if it is derived; the least string above it; and the least of its length.
#[derive(Clone, Copy)]
pub struct Cell {
    pub same: u64,
    pub above: u64,
    pub least: u64,
}

// The table has a cell for each part, by its length and the place where it begins, and symbol.
const CELLS: usize = MAX_LENGTH * MAX_LENGTH * MAX_SYMBOLS;

type Table = [Cell; CELLS];

const NO_CELL: Cell = Cell {
    same: NO_STRING,
    above: NO_STRING,
    least: NO_STRING,
};

// What a word counts that `left` places follow.
fn placed_word(x: u8, left: usize) -> u64
    requires { left < MAX_LENGTH }
    ensures { result ≡ x * scale left }
{
    (x as u64) << (8 * left)
}

// Two parts joined, and none if one is none.
#[tactic(auto, using(crate::proofs::Least::min_is))]
fn sum(u: u64, v: u64) -> u64
    ensures { result ≡ sum u v }
{
    u.min(NO_STRING) + v.min(NO_STRING)
}

// The cell with the strings joined of two parts' strings.
#[tactic(auto, using(crate::proofs::Least::min_is), unfolding(crate::specs::Table::with_joined))]
fn with_joined(b: Cell, c: Cell, best: Cell) -> Cell
    ensures { result ≡ with_joined b c best }
{
    let above = sum(b.same, c.above).min(best.above);
    Cell {
        same: sum(b.same, c.same).min(best.same),
        above: sum(b.above, c.least).min(above),
        least: sum(b.least, c.least).min(best.least),
    }
}

// The cell with a word x, which counts `value`, at a place where the string has the word y.
#[tactic(auto, using(crate::proofs::Least::min_is), unfolding(crate::specs::Table::with_word))]
fn with_word(value: u64, y: u8, x: u8, best: Cell) -> Cell
    ensures { result ≡ with_word value y x best }
{
    let least = value.min(best.least);
    if x == y {
        return Cell {
            same: value.min(best.same),
            least,
            ..best
        };
    }
    if y < x {
        return Cell {
            above: value.min(best.above),
            least,
            ..best
        };
    }
    Cell { least, ..best }
}

// Which cell is a symbol's and a part's.
fn cell_of(a: Sym, part: Part) -> usize
    requires { a.0 < SYMBOLS }
    ensures { (result ≡ cell_over a part.from part.length) × (result < CELLS) }
{
    ((part.length - 1) * MAX_LENGTH + part.from) * MAX_SYMBOLS + arrays::wide(a.0)
}

// The cell with what two symbols make, the left part of length j.
#[tactic(auto, unfolding(crate::specs::Table::with_split))]
fn with_split(table: &Table, b: Sym, c: Sym, part: Part, j: usize, best: Cell) -> Cell
    requires { (b.0 < SYMBOLS) × (c.0 < SYMBOLS) × (0 < j) × (j < part.length) }
    ensures { result ≡ with_split table.now part.from part.length b c j best }
{
    let left = cell_of(
        b,
        Part {
            from: part.from,
            length: j,
        },
    );
    let right = cell_of(
        c,
        Part {
            from: part.from + j,
            length: part.length - j,
        },
    );
    with_joined(table[left], table[right], best)
}

// The same for every length of the left part: what a pair rule makes.
fn with_pair(table: &Table, b: Sym, c: Sym, part: Part, best: Cell) -> Cell
    requires { (b.0 < SYMBOLS) × (c.0 < SYMBOLS) }
    ensures { result ≡ iter (λ x y. with_split table.now part.from part.length b c (y + 1) x) best (part.length - 1) }
{
    let mut found = best;
    for y in 0..part.length - 1 {
        found = with_split(table, b, c, part, y + 1, found);
    }
    found
}

// The cell with what rule r makes of the part. The remainders change no accepted rule.
#[tactic(auto, unfolding(crate::specs::Table::with_rule, phrases::specs::Recursion::made))]
fn with_rule(table: &Table, rules: &[u32], r: usize, string: &[u8], part: Part, best: Cell) -> Cell
    requires { (r < MAX_RULES) × (part.from + part.length ≤ length string.now)
        × (length string.now ≤ MAX_LENGTH) }
    ensures { result ≡ with_rule table.now string.now part.from part.length best (fitted_at rules.now r) }
{
    match rule_at(rules, r) {
        Rule::Pair(_, b, c, _) => {
            with_pair(table, Sym(b.0 % SYMBOLS), Sym(c.0 % SYMBOLS), part, best)
        }
        Rule::Word(_, word, _) => {
            if part.length == 1 {
                let from = part.from;
                let x = (word.0 % BYTES) as u8;
                let value = placed_word(x, MAX_LENGTH - 1 - from);
                return with_word(value, string[from], x, best);
            }
            best
        }
    }
}

// The cell of the rule's head, with what the rule makes of the part.
#[tactic(auto, unfolding(crate::specs::Table::add_rule))]
fn add_rule(table: &mut Table, rules: &[u32], r: usize, string: &[u8], part: Part)
    requires { (r < MAX_RULES) × (part.from + part.length ≤ length string.now)
        × (length string.now ≤ MAX_LENGTH) }
    ensures { table.new ≡ add_rule rules.now string.now part.from part.length table.old r }
{
    let head = arrays::narrow_at(rules, NUMBERS_PER_RULE * r + RULE_HEAD_AT);
    let c = cell_of(Sym(head % SYMBOLS), part);
    let next = with_rule(table, rules, r, string, part, table[c]);
    table[c] = next;
}

// All symbols' cells of a part.
fn fill_part(table: &mut Table, rules: &[u32], count: usize, string: &[u8], part: Part)
    requires { (count ≤ MAX_RULES) × (part.from + part.length ≤ length string.now) × (length string.now ≤ MAX_LENGTH) }
    ensures { table.new ≡ fill_part rules.now count string.now part.from part.length table.old }
{
    for r in 0..count {
        add_rule(table, rules, r, string, part);
    }
}

// All parts of the string, shorter ones first.
fn fill_table(table: &mut Table, rules: &[u32], count: usize, string: &[u8])
    requires { (count ≤ MAX_RULES) × (length string.now ≤ MAX_LENGTH) }
    ensures { table.new ≡ fill_table rules.now count string.now table.old }
{
    for p in 0..MAX_LENGTH * string.len() {
        let from = p % MAX_LENGTH;
        let len = p / MAX_LENGTH + 1;
        if string.len() < from + len {
            continue;
        }
        fill_part(table, rules, count, string, Part { from, length: len });
    }
}

// The words of a string of length n, a byte each, at the front of the output.
fn write(out: &mut [u8], n: usize, value: u64)
    requires { (n ≤ MAX_LENGTH) × (n ≤ length out.old) }
    ensures { (s : List ℕ) → length s ≡ n → Bytes s → value ≡ placed 6 s → out.new ≡ s ++ drop n out.old }
{
    let mut rest = value;
    for x in 0..n {
        out[x] = (rest / FIRST_PLACE % 256) as u8;
        rest = rest % FIRST_PLACE * 256;
    }
}

// The string that is asked for: of a later call the least above, of a first one the least.
fn asked_of(first: u32, c: Cell) -> u64
    ensures { result ≡ asked_of first c }
{
    if first == 0 { c.above } else { c.least }
}

// The answer for a grammar that was accepted and a length that there is room for: the length of the string, or 0 where there is none.
fn answer(rules: &[u32], sizes: Sizes, n: usize, first: u32, out: &mut [u8]) -> usize
    requires { Bounded sizes × (0 < n) × (n ≤ MAX_LENGTH) × (n ≤ length out.old) }
    ensures { (g : Grammar) → sizes ≡ sizes_of g → ValidGrammar g → Begins (rule_numbers g) rules.now
        → let sought = pick (eqb first 0) (next_phrase g n (take n out.old)) (first_phrase g n)
        in (result ≡ string_length sought) × (out.new ≡ output_of (accepted sought) out.old) }
{
    let mut table = [NO_CELL; CELLS];
    fill_table(&mut table, rules, sizes.rules as usize, &out[..n]);
    let start = cell_of(Sym(0), Part { from: 0, length: n });
    let found = asked_of(first, table[start]);
    if found < NO_STRING {
        write(out, n, found);
        return n;
    }
    0
}

// The least word string of the wanted length that the grammar derives, and in a later call (`first` 0) the least above the one at the front of
// the output; one word number a byte, at the front of the output: its length, or 0 where there is none.
#[tactic(auto, unfolding(specimen::specs::Conditions::asked, crate::specs::NextPhrase::next))]
pub fn next_phrase(
    grammar: &[u8],
    wanted: u32,
    first: u32,
    out: &mut [u8],
) -> Result<usize, Refusal>
    ensures { WritesString (next grammar.now wanted first out.old) out.old result out.new }
{
    let mut rules = [0u32; RULES_LENGTH];
    let sizes = read_block(grammar, &mut rules)?;
    if wanted < 1 || MAX_WANTED < wanted {
        return Err(Refusal::SpecimenLength);
    }
    let n = wanted as usize;
    if out.len() < n {
        return Err(Refusal::SpecimenOutput);
    }
    Ok(answer(&rules, sizes, n, first, out))
}
